#![tactic(auto)]
// One node's work: on its arguments and on the values kept for it, a value, not a number, or the next question.
mod call;
mod density;
mod hill;
mod operator;

ghost use Rattle.std.specs.Prelude.{◌≡◌, ◌&&◌, ◌<◌, [], ◌∷◌, ◌++◌, eqb, length, nat_lt, take};
ghost use Rattle.std.specs.Float.{binary64};
ghost use Rattle.arithmetic.specs.Value.{truth_value};
ghost use Rattle.meaning.specs.Work.{advance, elementary, power_defined};
ghost use Rattle.work.specs.View.{Next, shown, shown_question, kept_values};
ghost use Rattle.work.specs.Opcode.{puts_function, work_of};

use layout::opcode::{ADD, EXP, LT, MODULO, NE, NOT, POWER, SQRT, TANH};

// "A half-done Hill or density keeps the values supplied to it, logarithms and the density's first exp":
// the first `count` of nine, as no node puts more than nine questions. There is no heap for a list, and a state that comes
// over the C interface may have any count.
#[derive(Clone, Copy)]
pub struct Kept {
    pub count: usize,
    pub values: [f64; 9],
}

impl Kept {
    // Nothing kept.
    pub fn new() -> Kept
        ensures { kept_values result ≡ [] }
    {
        Kept {
            count: 0,
            values: [0.0; 9],
        }
    }

    // One value more; past nine it is lost.
    #[tactic(auto, using(crate::proofs::Answers::full))]
    pub fn with(self, value: f64) -> Kept
        ensures { kept_values result ≡ take 9 (kept_values self ++ value ∷ []) }
    {
        let mut kept = self;
        if kept.has_room() {
            kept.values[kept.count] = value;
            kept.count += 1;
        }
        kept
    }

    fn has_room(&self) -> bool
        ensures room { result ≡ nat_lt self.now.count 9 }
        ensures places { length self.now.values ≡ 9 }
    {
        self.count < self.values.len()
    }

    // The value at a place, if as many are kept.
    fn get(&self, place: usize) -> Option<f64>
        requires { place < 9 }
        ensures { Next (kept_values self.now) place result }
    {
        (place < self.count).then_some(self.values[place])
    }
}

// What the host is asked: a function by its number, of an argument, as a state over the C interface may hold any; Power, of base and exponent.
#[derive(Clone, Copy)]
pub enum Question {
    Elementary(u8, f64),
    Power(f64, f64),
}

// What a node's work comes to: a value; not a number; a question.
#[derive(Clone, Copy)]
pub enum Outcome {
    Value(f64),
    Undefined,
    Question(Question),
}

// The functions that Hill and the density ask for, by number.
const EXP_NUMBER: u8 = 0;

pub const LOG_NUMBER: u8 = 1;

fn asking(function: u8, x: f64) -> Outcome
    ensures { result ≡ Outcome.Question (shown_question (elementary function x)) }
{
    Outcome::Question(Question::Elementary(function, x))
}

// "truth values and comparisons 1.0 or 0.0"
pub fn truth_value(b: bool) -> f64
    ensures { result ≡ truth_value b }
{
    if b { 1.0 } else { 0.0 }
}

// The work of an opcode on its first three arguments, which stay three parameters, as each definition has them; the run itself
// holds the values of a longer Min or Max.
pub fn work(opcode: usize, x: f64, y: f64, z: f64, kept: Kept) -> Outcome
    ensures { result ≡ shown (advance (work_of opcode x y z) (kept_values kept)) }
{
    match opcode {
        0..=NOT => operator::unary(opcode, x, y, z, kept),
        ADD..=MODULO => operator::binary(opcode, x, y, z, kept),
        LT..=NE => operator::compare(opcode, x, y, z, kept),
        _ => call::call(opcode, x, y, z, kept),
    }
}

// "Power within its domain" puts a question.
pub fn puts_power(opcode: u8, x: f64, y: f64) -> bool
    ensures { result ≡ (eqb opcode 12 && power_defined binary64 x y) }
{
    usize::from(opcode) == POWER && operator::is_power_defined(x, y)
}

// "Exp, Log, Log10, Sin, Cos, Tan, Tanh" put one.
pub fn puts_function(opcode: u8) -> bool
    ensures { result ≡ puts_function opcode }
{
    let opcode = usize::from(opcode);
    EXP <= opcode && opcode <= TANH && opcode != SQRT
}
