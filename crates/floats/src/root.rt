// "Sqrt is the nearest f64 to the exact root, proved over whole numbers; of -0 it is -0, and below zero Domain."
ghost use Rattle.std.specs.Prelude.{◌≡◌, ◌*◌, ◌/◌, ◌^◌, ◌<◌, ◌≤◌, from_bits};
ghost use Rattle.std.specs.Float.{binary64};
ghost use Rattle.arithmetic.specs.Root.{sqrt};
ghost use Rattle.rounding.specs.Square.{Root};
ghost use Rattle.floats.specs.Fields.{magnitude, infinity_bits, units};

use crate::scaled::{LEADING, Scaled};
use crate::value::{bits_of, of_bits};

// 2^27, above every number of 27 digits.
const DIGITS_27: u64 = 0x800_0000;

// A number near m's root: a first guess at 1 / root from the bits, and three steps of Newton's.
// Nothing rests on how near it is but the time that `whole_root` takes. The bound on m stays in clauses: as a type's, m would be wrapped at each call.
fn near_root(m: u64) -> u64
    requires { m < 2 ^ 54 }
    ensures { result < 2 ^ 27 }
{
    let x = ((m / 4) as f64) * 4.0;
    let half = x * 0.5;
    let y = of_bits(0x5fe6_eb50_c7b5_37a9u64.wrapping_sub(bits_of(x) / 2));
    let y = y * (1.5 - half * y * y);
    let y = y * (1.5 - half * y * y);
    let y = y * (1.5 - half * y * y);
    std::num::saturating_f64_to_u64(x * y).min(DIGITS_27 - 1)
}

// The whole part of m's root. The library's `isqrt` halves 32 times, in 358 machine instructions: the whole of `sqrt` takes 137 with this.
fn whole_root(m: u64) -> u64
    requires { m < 2 ^ 54 }
    ensures { Root m result }
{
    let mut r = near_root(m);
    while m < r * r {
        r -= 1;
    }
    while (r + 1) * (r + 1) <= m {
        r += 1;
    }
    r
}

// The whole part of the root of m * 2^54: the upper 27 digits are the root of m, and the lower ones the
// quotient of what is left by twice that, less one where the quotient's own square is too much.
#[tactic(auto, using(crate::proofs::RootSteps::split, crate::proofs::RootSteps::some_root))]
fn long_root(m: u64) -> u64
    requires { (2 ^ 52 ≤ m) × (m < 2 ^ 54) }
    ensures { Root (m * 2 ^ 54) result }
{
    let upper = whole_root(m);
    let rest = (m - upper * upper) * DIGITS_27;
    let twice = upper * 2;
    let lower = rest / twice;
    let left = rest % twice * DIGITS_27;
    if left < lower * lower {
        upper * DIGITS_27 + lower - 1
    } else {
        upper * DIGITS_27 + lower
    }
}

// digits * 2^exp is 2^52 times what the fields of b stand for, and digits has 53 binary digits.
fn normalised(b: u64) -> Scaled
    requires { (0 < b) × (b < infinity_bits) }
    ensures { (2 ^ 52 ≤ result.digits) × (result.digits < 2 ^ 53) × (result.exp < 2098) × (units result ≡ magnitude b * 2 ^ 52) }
{
    let s = Scaled::of(b);
    Scaled {
        digits: s.digits,
        exp: s.exp + 52,
    }
    .raised()
}

// The digits for an even exponent: the same, or twice them.
#[tactic(auto, using(crate::proofs::RootSteps::even_scaled, crate::proofs::RootSteps::odd_scaled))]
fn evened(digits: u64, exp: u64) -> u64
    requires { (2 ^ 52 ≤ digits) × (digits < 2 ^ 53) }
    ensures { (2 ^ 52 ≤ result) × (result < 2 ^ 54) × (result * 4 ^ (exp / 2) ≡ digits * 2 ^ exp) }
{
    if exp % 2 == 0 { digits } else { digits * 2 }
}

// The bits of the root of what the bits b stand for. The long root has one digit more than is kept,
// which says whether to round up, as no root lies half way between two values.
fn root_bits(b: u64) -> u64
    requires { (0 < b) × (b < infinity_bits) }
    ensures { (result < infinity_bits) × (from_bits binary64 result ≡ sqrt binary64 (from_bits binary64 b)) }
{
    let s = normalised(b);
    let r = long_root(evened(s.digits, s.exp));
    (s.exp / 2 + 485) * LEADING + (r + 1) / 2
}

pub fn sqrt(x: f64) -> f64
    ensures { result ≡ sqrt binary64 x }
{
    if x < 0.0 {
        f64::NAN
    } else if 0.0 < x && x < f64::INFINITY {
        f64::from_bits(root_bits(x.to_bits()))
    } else {
        x
    }
}
