// Whole numbers: "Floor and Ceil keep the sign of zero."
ghost use Rattle.std.specs.Prelude.{◌≡◌};
ghost use Rattle.std.specs.Float.{binary64};
ghost use Rattle.arithmetic.specs.Value.{whole};
ghost use Rattle.arithmetic.specs.Round.{floor, ceil};

use crate::value::is_finite;

#[tactic(auto, using(crate::proofs::Library::floor_is))]
pub fn floor(x: f64) -> f64
    ensures { result ≡ floor binary64 x }
{
    x.floor()
}

#[tactic(auto, using(crate::proofs::Library::ceil_is))]
pub fn ceil(x: f64) -> f64
    ensures { result ≡ ceil binary64 x }
{
    x.ceil()
}

// Finite, with no fraction.
pub fn is_whole(x: f64) -> bool
    ensures { result ≡ whole x }
{
    is_finite(x) && floor(x) == x
}
