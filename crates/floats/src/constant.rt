// "Constants in f64 bits: 2π 401921fb54442d18, ln 2 3fe62e42fefa39ef, ln 10 40026bb1bbb55516."
// A function each, as a constant of Rust's has no contract that says which it is.
ghost use Rattle.std.specs.Prelude.{◌≡◌};
ghost use Rattle.arithmetic.specs.Constant.{literal, two_pi, ln_two, ln_ten_bits};

pub fn two_pi() -> f64
    ensures { result ≡ two_pi }
{
    std::f64::consts::TAU
}

pub fn ln_two() -> f64
    ensures { result ≡ ln_two }
{
    std::f64::consts::LN_2
}

pub fn ln_ten() -> f64
    ensures { result ≡ literal ln_ten_bits }
{
    std::f64::consts::LN_10
}
