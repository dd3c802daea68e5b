// "Modulo takes the exact remainder r, adds b once if r < 0, and gives 0.0 if that sum reached b."
ghost use Rattle.std.specs.Prelude.{◌≡◌, ◌*◌, ◌%◌, ◌^◌, ◌<◌};
ghost use Rattle.std.specs.Float.{binary64};
ghost use Rattle.std.specs.Float.Ieee.{rem};
ghost use Rattle.arithmetic.specs.Modulo.{modulo};
ghost use Rattle.floats.specs.Fields.{magnitude, infinity_bits};

use crate::scaled::{LEADING, Scaled};
use crate::value::{INFINITY_BITS, MINUS_BIT, abs, bits_of, of_bits};

// The bits of digits * 2^exp units.
fn packed(digits: u64, exp: u64) -> u64
    requires { (digits < 2 ^ 53) × (exp < 2046) }
    ensures { (result < infinity_bits) × (magnitude result ≡ digits * 2 ^ exp) }
{
    if digits == 0 {
        return 0;
    }
    let s = Scaled { digits, exp }.raised();
    s.exp * LEADING + s.digits
}

// The bits of what a finite value leaves by another that is not 0, both without sign: digit by digit as by hand, eleven at a time.
fn left_over(x: u64, y: u64) -> u64
    requires { (x < infinity_bits) × (0 < y) × (y < infinity_bits) }
    ensures { (result < infinity_bits) × (magnitude result ≡ magnitude x % magnitude y) }
{
    let a = Scaled::of(x);
    let b = Scaled::of(y);
    if a.exp < b.exp {
        return x;
    }
    let by = b.digits;
    let places = a.exp - b.exp;
    let mut left = a.digits % by;
    for _ in 0..places / 11 {
        left = left * 2048 % by;
    }
    for _ in 0..places % 11 {
        left = left * 2 % by;
    }
    packed(left, b.exp)
}

// With a's sign; nothing is rounded. It is worked out over whole numbers, so it needs no function of the C library.
fn remainder(a: f64, b: f64) -> f64
    ensures { result ≡ rem binary64 a b }
{
    let x = bits_of(abs(a));
    let y = bits_of(abs(b));
    if x >= INFINITY_BITS || y > INFINITY_BITS || y == 0 {
        return f64::NAN;
    }
    if y == INFINITY_BITS {
        return a;
    }
    let r = of_bits(left_over(x, y));
    if bits_of(a) < MINUS_BIT { r } else { -r }
}

// The one sum is rounded, so a small r can bring it up to b.
pub fn modulo(a: f64, b: f64) -> f64
    ensures { result ≡ modulo binary64 a b }
{
    let r = remainder(a, b);
    if r < 0.0 {
        let sum = r + b;
        if sum >= b { 0.0 } else { sum }
    } else {
        r
    }
}
