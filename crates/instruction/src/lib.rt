#![tactic(auto)]
// One instruction of a program's bytes (docs/PROGRAM.md): reads and stores are total, so nothing is asked of the bytes.
// Bytes and registers stay two parameters: of a struct of both slices a clause reads `given.entry.regs.now`, which is no plainer.
pub mod common;
pub mod longer;

ghost use Rattle.std.specs.Prelude.{◌≡◌, true, ℕ, ◌+◌, ◌*◌, ◌<◌, ◌≤◌, get_or, length, set};
ghost use Rattle.arithmetic.specs.Value.{0f};
ghost use Rattle.arithmetic.specs.Extremum.{extremum};
ghost use Rattle.formula.specs.Text.{word_at};
ghost use Rattle.machine.specs.Machine.{read_all};
ghost use Rattle.layout.specs.Decode.{entries_from, entry_at};
ghost use Rattle.work.specs.View.{kept_values};
ghost use Rattle.floats.specs.Extremum.{strictly};
ghost use Rattle.instruction.specs.Effects.{effect_at, extremum_at, operation_at};
ghost use Rattle.instruction.specs.Progressing.{Progressed, machine_effect};

use floats::extremum::{hold, is_beyond};
use layout::opcode::{BRANCH, CONSTANT, COPY, DENSITY, JUMP, LOAD, MAX, MIN, POSITIVE};
use layout::{
    A_AT, B_AT, C_AT, CODE_AT, COUNT_AT, DESTINATION_AT, ENTRY_SIZE, HEADER_SIZE, PATH_AT,
    PATHS_AT, RECORD_SIZE, SLOT_SIZE,
};
use reader::{byte, half, known_word, long, word};
use work::{Kept, Outcome, Question};

// What an instruction does: a node's work, or a jump.
#[derive(Clone, Copy)]
pub enum Effect {
    Work(Outcome),
    Jump(usize),
}

// An instruction that was done, or why it was not: where the run goes on, the record of the path of a Domain, a question.
#[derive(Clone, Copy)]
pub enum Progress {
    Next(usize),
    Domain(usize),
    Question(Question),
}

pub fn value_at(xs: &[f64], i: usize) -> f64
    ensures { result ≡ get_or xs.now i 0f }
{
    xs.get(i).copied().unwrap_or(0.0)
}

pub fn store(xs: &mut [f64], i: usize, v: f64)
    ensures { xs.new ≡ set xs.old i v }
{
    // No `get_mut`: it says nothing of what the slice ends as, so the clause stays open by it.
    if i < xs.len() {
        xs[i] = v;
    }
}

// The register whose number stands at a byte.
fn register(p: &[u8], at: usize, regs: &[f64]) -> f64
    ensures { result ≡ get_or regs.now (word_at p.now at) 0f }
{
    value_at(regs, word(p, at))
}

// The same where the number is known to be there: no test is made, as with `reader::known_word`.
fn known_register(p: &[u8], at: usize, regs: &[f64]) -> f64
    requires { at + 4 ≤ length p.now }
    ensures { result ≡ get_or regs.now (word_at p.now at) 0f }
{
    value_at(regs, known_word(p, at))
}

// The same of an entry, by whether it is there.
fn entry(p: &[u8], at: usize, there: bool, regs: &[f64]) -> f64
    requires { there ≡ true → at + 4 ≤ length p.now }
    ensures { result ≡ get_or regs.now (word_at p.now at) 0f }
{
    if there {
        known_register(p, at, regs)
    } else {
        register(p, at, regs)
    }
}

// Max of the registers of a list whose `count` entries begin at a byte and are there, or Min where `MOST` is false; zeros are equal.
fn plain_extremum<const MOST: bool>(p: &[u8], at: usize, count: usize, regs: &[f64]) -> f64
    requires { (0 < count) × (at + 4 * count ≤ length p.now) }
    ensures { (a : ℕ) → at ≡ entry_at p.now a → result ≡ extremum (strictly MOST) (read_all regs.now (entries_from p.now count a)) }
{
    let mut extreme = known_register(p, at, regs);
    for i in 1..count {
        let next = known_register(p, at + ENTRY_SIZE * i, regs);
        if is_beyond::<MOST>(next, extreme) {
            extreme = next;
        }
    }
    extreme
}

// Max or Min of the registers of a list in the program: `count` entries from the entry `a` on.
// Only a zero, where -0 has to be told from +0, or a list that is not all there needs the loop here.
fn extremum<const MOST: bool>(p: &[u8], count: usize, a: usize, regs: &[f64]) -> f64
    requires { (count < 65536) × (a < 4294967296) }
    ensures { result ≡ extremum_at MOST p.now count a regs.now }
{
    if count == 0 {
        return f64::NAN;
    }
    let first = HEADER_SIZE + SLOT_SIZE * word(p, CODE_AT) + RECORD_SIZE * word(p, PATHS_AT);
    let at = first + ENTRY_SIZE * a;
    let there = at + ENTRY_SIZE * count <= p.len();
    if there {
        let x = plain_extremum::<MOST>(p, at, count, regs);
        if x != 0.0 {
            return x;
        }
    }
    let mut extreme = entry(p, at, there, regs);
    for i in 1..count {
        let next = entry(p, at + ENTRY_SIZE * i, there, regs);
        extreme = hold::<MOST>(extreme, next);
    }
    extreme
}

// An operation, opcodes 5 on; an opcode past the last is a jump to 0, which no program has.
#[tactic(auto, using(crate::proofs::Opcodes::operations))]
fn operation(op: usize, p: &[u8], at: usize, regs: &[f64], kept: Kept) -> Effect
    requires { (4 < op) × (at < 1099511627776) }
    ensures { result ≡ operation_at p.now at op (kept_values kept) regs.now }
{
    match op {
        MIN => {
            let least = extremum::<false>(p, half(p, at + COUNT_AT), word(p, at + A_AT), regs);
            Effect::Work(Outcome::Value(least))
        }
        MAX => {
            let most = extremum::<true>(p, half(p, at + COUNT_AT), word(p, at + A_AT), regs);
            Effect::Work(Outcome::Value(most))
        }
        POSITIVE..=DENSITY => {
            let x = register(p, at + A_AT, regs);
            let y = register(p, at + B_AT, regs);
            let z = register(p, at + C_AT, regs);
            Effect::Work(work::work(op, x, y, z, kept))
        }
        _ => Effect::Jump(0),
    }
}

// What the instruction n does; no register is changed yet.
#[tactic(auto, using(crate::proofs::Opcodes::effects))]
pub fn effect_at(p: &[u8], n: usize, inputs: &[f64], regs: &[f64], kept: Kept) -> Effect
    requires { n < 4294967296 }
    ensures { result ≡ effect_at inputs.now p.now n (kept_values kept) regs.now }
{
    let at = HEADER_SIZE + SLOT_SIZE * n;
    let op = usize::from(byte(p, at));
    match op {
        CONSTANT => Effect::Work(Outcome::Value(floats::value::of_bits(long(p, at + A_AT)))),
        LOAD => Effect::Work(Outcome::Value(value_at(inputs, word(p, at + A_AT)))),
        COPY => Effect::Work(Outcome::Value(register(p, at + A_AT, regs))),
        BRANCH => {
            let condition = register(p, at + A_AT, regs);
            if condition == 0.0 {
                Effect::Jump(word(p, at + C_AT))
            } else {
                Effect::Jump(n + 1)
            }
        }
        JUMP => Effect::Jump(word(p, at + C_AT)),
        _ => operation(op, p, at, regs, kept),
    }
}

// The instruction n, done. "A node's or instruction's result that isn't finite is Domain."
pub fn step(p: &[u8], n: usize, inputs: &[f64], regs: &mut [f64], kept: Kept) -> Progress
    requires { n < 4294967296 }
    ensures { Progressed p.now n (machine_effect inputs.now p.now n (kept_values kept) regs.old) result regs.old regs.new }
{
    let at = HEADER_SIZE + SLOT_SIZE * n;
    match effect_at(p, n, inputs, regs, kept) {
        Effect::Jump(to) => Progress::Next(to),
        Effect::Work(Outcome::Value(v)) if floats::value::is_finite(v) => {
            store(regs, word(p, at + DESTINATION_AT), v);
            Progress::Next(n + 1)
        }
        Effect::Work(Outcome::Value(_)) => Progress::Domain(word(p, at + PATH_AT)),
        Effect::Work(Outcome::Undefined) => Progress::Domain(word(p, at + PATH_AT)),
        Effect::Work(Outcome::Question(q)) => Progress::Question(q),
    }
}
