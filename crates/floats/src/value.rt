// What a value is: finite or not, its sign, its bits.
ghost use Rattle.std.specs.Prelude.{◌≡◌, from_bits, to_bits};
ghost use Rattle.std.specs.Float.{binary64};
ghost use Rattle.arithmetic.specs.Value.{finite, absolute};

// The bits of the infinity above all values, and the bit of a minus.
pub const INFINITY_BITS: u64 = 0x7ff0_0000_0000_0000;

pub const MINUS_BIT: u64 = 0x8000_0000_0000_0000;

// x - x is 0, or a NaN. A run asks this after each instruction: this test takes one jump, the library's `is_finite` (x - x == 0.0) two.
#[tactic(auto, using(crate::proofs::Library::finite_is))]
pub fn is_finite(x: f64) -> bool
    ensures { result ≡ finite x }
{
    x - x >= 0.0
}

// The bits. "A NaN argument is shown as 7ff8000000000000."
pub fn bits_of(x: f64) -> u64
    ensures { result ≡ to_bits binary64 x }
{
    if x.is_nan() {
        0x7ff8_0000_0000_0000
    } else {
        x.to_bits()
    }
}

// The value of any 64 bits, a NaN's too.
pub fn of_bits(n: u64) -> f64
    ensures { result ≡ from_bits binary64 n }
{
    if n % MINUS_BIT > INFINITY_BITS {
        f64::NAN
    } else {
        f64::from_bits(n)
    }
}

// x without its sign, by the sign bit: of -0.0 it is 0.0.
// Not the library's `abs`, which compares with zero twice: runs of Abs would take 1.6 times as long.
pub fn abs(x: f64) -> f64
    ensures { result ≡ absolute x }
{
    if bits_of(x) < MINUS_BIT { x } else { -x }
}
