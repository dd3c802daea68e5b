// Unary, binary and compare nodes.
ghost use Rattle.std.specs.Prelude.{◌≡◌, ◌≤◌, ◌<◌};
ghost use Rattle.std.specs.Float.{binary64};
ghost use Rattle.meaning.specs.Work.{advance, divide_work, modulo_work, power_defined, power_work};
ghost use Rattle.work.specs.View.{shown, kept_values};
ghost use Rattle.work.specs.Opcode.{work_of};

use crate::{Kept, Outcome, Question, truth_value};
use layout::opcode::{ADD, DIVIDE, EQ, GE, GT, LE, LT, MULTIPLY, NEGATIVE, NOT, POWER, SUBTRACT};

#[tactic(auto, using(crate::proofs::Answers::given, crate::proofs::Numbers::first_six))]
pub fn unary(opcode: usize, x: f64, y: f64, z: f64, kept: Kept) -> Outcome
    requires { opcode < 8 }
    ensures { result ≡ shown (advance (work_of opcode x y z) (kept_values kept)) }
{
    match opcode {
        NEGATIVE => Outcome::Value(-x),
        NOT => Outcome::Value(truth_value(x == 0.0)),
        _ => Outcome::Value(x),
    }
}

// "Division by a zero of either sign ... [is] Domain."
fn quotient(a: f64, b: f64, kept: Kept) -> Outcome
    ensures { result ≡ shown (advance (divide_work binary64 a b) (kept_values kept)) }
{
    if b != 0.0 {
        Outcome::Value(a / b)
    } else {
        Outcome::Undefined
    }
}

// "Power with base 0 and exponent <= 0, or a negative base and a fractional exponent, ... are Domain."
pub fn is_power_defined(a: f64, b: f64) -> bool
    ensures { result ≡ power_defined binary64 a b }
{
    (0.0 <= a || floats::whole::is_whole(b)) && !(a == 0.0 && b <= 0.0)
}

#[tactic(auto, using(crate::proofs::Answers::given))]
fn power(a: f64, b: f64, kept: Kept) -> Outcome
    ensures { result ≡ shown (advance (power_work binary64 a b) (kept_values kept)) }
{
    if !is_power_defined(a, b) {
        return Outcome::Undefined;
    }
    match kept.get(0) {
        Some(value) => Outcome::Value(value),
        None => Outcome::Question(Question::Power(a, b)),
    }
}

// "Modulo with b <= 0 [is] Domain."
fn remainder(a: f64, b: f64, kept: Kept) -> Outcome
    ensures { result ≡ shown (advance (modulo_work binary64 a b) (kept_values kept)) }
{
    if 0.0 < b {
        Outcome::Value(floats::modulo::modulo(a, b))
    } else {
        Outcome::Undefined
    }
}

pub fn binary(opcode: usize, a: f64, b: f64, z: f64, kept: Kept) -> Outcome
    requires { (8 ≤ opcode) × (opcode < 14) }
    ensures { result ≡ shown (advance (work_of opcode a b z) (kept_values kept)) }
{
    match opcode {
        ADD => Outcome::Value(a + b),
        SUBTRACT => Outcome::Value(a - b),
        MULTIPLY => Outcome::Value(a * b),
        DIVIDE => quotient(a, b, kept),
        POWER => power(a, b, kept),
        _ => remainder(a, b, kept),
    }
}

pub fn compare(opcode: usize, a: f64, b: f64, z: f64, kept: Kept) -> Outcome
    requires { (14 ≤ opcode) × (opcode < 20) }
    ensures { result ≡ shown (advance (work_of opcode a b z) (kept_values kept)) }
{
    let holds = match opcode {
        LT => a < b,
        LE => a <= b,
        GT => a > b,
        GE => a >= b,
        EQ => a == b,
        _ => a != b,
    };
    Outcome::Value(truth_value(holds))
}
