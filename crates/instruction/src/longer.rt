// Instructions that ask nothing but take longer: Modulo, Sqrt, Abs, Floor, Ceil, Min and Max.
ghost use Rattle.std.specs.Prelude.{◌≡◌, cond, List, ◌+◌, ◌<◌, ◌≤◌, Float, length};
ghost use Rattle.std.specs.Float.{binary64, nan};
ghost use Rattle.std.specs.Float.Ieee.{lt};
ghost use Rattle.arithmetic.specs.Value.{0f};
ghost use Rattle.arithmetic.specs.Modulo.{modulo};
ghost use Rattle.layout.specs.Decode.{slot_at, slot_size};
ghost use Rattle.instruction.specs.Common.{Went, Works};

use crate::{extremum, known_register, store};
use layout::opcode::{ABS, CEIL, FLOOR, MAX, MIN, MODULO, SQRT};
use layout::{A_AT, B_AT, COUNT_AT, DESTINATION_AT, HEADER_SIZE, SLOT_SIZE};
use reader::{half, known_word};

// "Modulo with b <= 0 [is] Domain": a NaN.
fn remainder(a: f64, b: f64) -> f64
    ensures { result ≡ cond (lt 0f b) (modulo binary64 a b) nan }
{
    if 0.0 < b {
        floats::modulo::modulo(a, b)
    } else {
        f64::NAN
    }
}

// What the instruction at a byte stores, if it is finite; a NaN for one that is none of these. No Option of it, as in `common`.
fn value(op: usize, p: &[u8], at: usize, regs: &[f64]) -> f64
    requires { (at < 1099511627776) × (at + slot_size ≤ length p.now) }
    ensures { Works p.now at op regs.now result }
{
    match op {
        MODULO => remainder(
            known_register(p, at + A_AT, regs),
            known_register(p, at + B_AT, regs),
        ),
        SQRT => floats::root::sqrt(known_register(p, at + A_AT, regs)),
        ABS => floats::value::abs(known_register(p, at + A_AT, regs)),
        FLOOR => floats::whole::floor(known_register(p, at + A_AT, regs)),
        CEIL => floats::whole::ceil(known_register(p, at + A_AT, regs)),
        MIN => extremum::<false>(p, half(p, at + COUNT_AT), known_word(p, at + A_AT), regs),
        MAX => extremum::<true>(p, half(p, at + COUNT_AT), known_word(p, at + A_AT), regs),
        _ => f64::NAN,
    }
}

// As `common::step`.
pub fn step(p: &[u8], n: usize, regs: &mut [f64]) -> Option<usize>
    requires { (n < 4294967296) × (slot_at n + slot_size ≤ length p.now) }
    ensures { (inputs : List Float) → Went inputs p.now n regs.old result regs.new }
{
    let at = HEADER_SIZE + SLOT_SIZE * n;
    let op = usize::from(p[at]);
    let v = value(op, p, at, regs);
    if floats::value::is_finite(v) {
        store(regs, known_word(p, at + DESTINATION_AT), v);
        return Some(n + 1);
    }
    None
}
