// The common instructions, done at once: constant, load, copy, the jumps, the operators but Power and Modulo, comparisons.
ghost use Rattle.std.specs.Prelude.{◌≡◌, cond, ◌+◌, ◌<◌, ◌≤◌, length};
ghost use Rattle.std.specs.Float.{binary64, nan};
ghost use Rattle.arithmetic.specs.Value.{0f};
ghost use Rattle.layout.specs.Decode.{slot_at, slot_size};
ghost use Rattle.instruction.specs.Common.{Stores, Went};

use crate::{store, value_at};
use layout::opcode::{
    ADD, BRANCH, CONSTANT, COPY, DIVIDE, EQ, GE, GT, JUMP, LE, LOAD, LT, MULTIPLY, NE, NEGATIVE,
    NOT, POSITIVE, SUBTRACT,
};
use layout::{A_AT, B_AT, C_AT, DESTINATION_AT, HEADER_SIZE, SLOT_SIZE};
use reader::known_word;
use work::truth_value;

// What an instruction with the fields a and b stores, if it is finite; a NaN for one that is not common. No Option of
// it: the one test whether the value is finite tells both.
// The registers are read in each arm: read before the match, they cost a constant or an input eight machine instructions more.
fn value(op: usize, a: usize, b: usize, inputs: &[f64], regs: &[f64]) -> f64
    requires { (a < 4294967296) × (b < 4294967296) }
    ensures { Stores op a b inputs.now regs.now result }
{
    match op {
        CONSTANT => floats::value::of_bits(a as u64 + 4294967296 * (b as u64)),
        LOAD => value_at(inputs, a),
        COPY => value_at(regs, a),
        POSITIVE => value_at(regs, a),
        NEGATIVE => -value_at(regs, a),
        NOT => truth_value(value_at(regs, a) == 0.0),
        ADD => value_at(regs, a) + value_at(regs, b),
        SUBTRACT => value_at(regs, a) - value_at(regs, b),
        MULTIPLY => value_at(regs, a) * value_at(regs, b),
        // "Division by a zero of either sign .. [is] Domain": by a zero it gives no finite value.
        DIVIDE => value_at(regs, a) / value_at(regs, b),
        LT => truth_value(value_at(regs, a) < value_at(regs, b)),
        LE => truth_value(value_at(regs, a) <= value_at(regs, b)),
        GT => truth_value(value_at(regs, a) > value_at(regs, b)),
        GE => truth_value(value_at(regs, a) >= value_at(regs, b)),
        EQ => truth_value(value_at(regs, a) == value_at(regs, b)),
        NE => truth_value(value_at(regs, a) != value_at(regs, b)),
        _ => f64::NAN,
    }
}

// The instruction n, whose slot is there, done if it is common and no Domain: the position after it. What is kept makes no
// difference to such an instruction. Any other changes nothing.
pub fn step(p: &[u8], n: usize, inputs: &[f64], regs: &mut [f64]) -> Option<usize>
    requires { (n < 4294967296) × (slot_at n + slot_size ≤ length p.now) }
    ensures { Went inputs.now p.now n regs.old result regs.new }
{
    let at = HEADER_SIZE + SLOT_SIZE * n;
    let op = usize::from(p[at]);
    let a = known_word(p, at + A_AT);
    let b = known_word(p, at + B_AT);
    match op {
        BRANCH if value_at(regs, a) == 0.0 => Some(known_word(p, at + C_AT)),
        BRANCH => Some(n + 1),
        JUMP => Some(known_word(p, at + C_AT)),
        _ => {
            let v = value(op, a, b, inputs, regs);
            if !floats::value::is_finite(v) {
                return None;
            }
            store(regs, known_word(p, at + DESTINATION_AT), v);
            Some(n + 1)
        }
    }
}
