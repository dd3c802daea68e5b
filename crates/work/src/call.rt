// Calls: those that the host answers, those that are worked out here, Hill and the density.
ghost use Rattle.std.specs.Prelude.{◌≡◌, ◌≤◌, ◌<◌};
ghost use Rattle.meaning.specs.Work.{advance, supplied, elementary};
ghost use Rattle.work.specs.View.{shown, kept_values};
ghost use Rattle.work.specs.Opcode.{work_of};

use crate::{Kept, Outcome, asking};
use floats::extremum::{hold_above, hold_below};
use layout::opcode::{ABS, CEIL, DENSITY, EXP, FLOOR, HILL, MAX, MIN, SQRT};

// "Exp, Log, Log10, Sin, Cos, Tan, Tanh and Power within its domain are questions": one, whose answer is the value.
#[tactic(auto, using(crate::proofs::Answers::given))]
fn ask(function: u8, x: f64, kept: Kept) -> Outcome
    ensures { result ≡ shown (advance (supplied (elementary function x)) (kept_values kept)) }
{
    match kept.get(0) {
        Some(value) => Outcome::Value(value),
        None => asking(function, x),
    }
}

// A function of one argument: its number is the opcode less EXP.
fn single(opcode: usize, x: f64, y: f64, z: f64, kept: Kept) -> Outcome
    requires { (20 ≤ opcode) × (opcode < 31) }
    ensures { result ≡ shown (advance (work_of opcode x y z) (kept_values kept)) }
{
    match opcode {
        SQRT => Outcome::Value(floats::root::sqrt(x)),
        ABS => Outcome::Value(floats::value::abs(x)),
        FLOOR => Outcome::Value(floats::whole::floor(x)),
        CEIL => Outcome::Value(floats::whole::ceil(x)),
        _ => ask((opcode - EXP) as u8, x, kept),
    }
}

#[tactic(auto, using(crate::proofs::Answers::given), unfolding(arithmetic::specs::Extremum::hold))]
pub fn call(opcode: usize, x: f64, y: f64, z: f64, kept: Kept) -> Outcome
    requires { 20 ≤ opcode }
    ensures { result ≡ shown (advance (work_of opcode x y z) (kept_values kept)) }
{
    match opcode {
        EXP..=CEIL => single(opcode, x, y, z, kept),
        MIN => Outcome::Value(hold_below(hold_below(x, y), z)),
        MAX => Outcome::Value(hold_above(hold_above(x, y), z)),
        HILL => crate::hill::hill(x, y, z, kept),
        DENSITY => crate::density::density(x, y, z, kept),
        _ => Outcome::Value(x),
    }
}
