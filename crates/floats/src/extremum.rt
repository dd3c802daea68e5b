// "Min and Max hold the earlier value unless the next is strictly beyond it."
// "IEEE 754-2019 puts -0 below +0 for minimum and maximum." Of equal values only zeros differ.
// Where `MOST` is true this is of Max, and where it is false of Min.
ghost use Rattle.std.specs.Prelude.{◌≡◌, not};
ghost use Rattle.arithmetic.specs.Extremum.{held, below, above};
ghost use Rattle.floats.specs.Extremum.{beyond, strictly, zero_bits};

use crate::value::{MINUS_BIT, bits_of};

// Whether the next is strictly beyond the earlier; zeros are equal.
pub fn is_beyond<const MOST: bool>(next: f64, earlier: f64) -> bool
    ensures { result ≡ strictly MOST next earlier }
{
    if MOST { next > earlier } else { next < earlier }
}

// The bits of the zero that is beyond the other one.
fn last_zero<const MOST: bool>() -> u64
    ensures { result ≡ zero_bits (not MOST) }
{
    if MOST { 0 } else { MINUS_BIT }
}

pub fn hold<const MOST: bool>(earlier: f64, next: f64) -> f64
    ensures { result ≡ held (beyond MOST) earlier next }
{
    if is_beyond::<MOST>(next, earlier) {
        return next;
    }
    if next == earlier && bits_of(next) == last_zero::<MOST>() {
        next
    } else {
        earlier
    }
}

// Both by name, as the clauses of their callers speak of `below` and `above`.
pub fn hold_below(earlier: f64, next: f64) -> f64
    ensures { result ≡ held below earlier next }
{
    hold::<false>(earlier, next)
}

pub fn hold_above(earlier: f64, next: f64) -> f64
    ensures { result ≡ held above earlier next }
{
    hold::<true>(earlier, next)
}
