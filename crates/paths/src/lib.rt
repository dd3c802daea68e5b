#![tactic(auto)]
// A path's text, from its record: "Text from `root` with `.arguments[i]`, `.condition`, `.then`, `.else`".
ghost use Rattle.std.specs.Prelude.{◌≡◌, ◌+◌, ◌*◌, ◌^◌, ◌≤◌, ◌<◌, length, MatchOption};
ghost use Rattle.std.proofs.Math.Option.{some};
ghost use Rattle.formula.specs.Text.{decimal, word_at};
ghost use Rattle.formula.specs.Path.{root, step_text, placed};
ghost use Rattle.layout.specs.Opcode.{step_of};
ghost use Rattle.writer.specs.Over.{over};
ghost use Rattle.paths.specs.Table.{FitsPath, path_in_table};

use layout::{LENGTH_AT, RECORD_SIZE, STEP_AT};
use writer::{put_bytes, put_decimal, zero_from};

// How many digits a number has.
fn digits(n: usize) -> usize
    ensures { (result ≡ length (decimal n)) × (result ≤ 20) }
{
    n.max(1).ilog10() as usize + 1
}

// The name of a step by its number in a record; the numbers from 3 on are those of arguments.
fn name_of(step: usize) -> Option<&'static [u8]>
    ensures { MatchOption result (3 ≤ step) (λ name. (name.now ≡ step_text (step_of step)) × (length name.now ≤ 10)) }
{
    match step {
        0 => Some(b".condition"),
        1 => Some(b".then"),
        2 => Some(b".else"),
        _ => None,
    }
}

// How many bytes the text of a step has.
pub fn step_length(step: usize) -> usize
    requires { step < 2 ^ 32 }
    ensures { (result ≡ length (step_text (step_of step))) × (result ≤ 2 ^ 33) }
{
    match name_of(step) {
        Some(name) => name.len(),
        None => b".arguments[]".len() + digits(step - 3),
    }
}

// Writes a text that ends before a byte, and says where it begins.
fn copy_before(out: &mut [u8], end: usize, text: &[u8]) -> usize
    requires { (length text.now ≤ end) × (end ≤ length out.old) }
    ensures { (result + length text.now ≡ end) × (out.new ≡ over out.old result text.now) }
{
    let begin = end - text.len();
    put_bytes(out, begin, text);
    begin
}

// Writes a number that ends before a byte, and says where it begins.
fn number_before(out: &mut [u8], end: usize, n: usize) -> usize
    requires { (length (decimal n) ≤ end) × (end ≤ length out.old) }
    ensures { (result + length (decimal n) ≡ end) × (out.new ≡ over out.old result (decimal n)) }
{
    let begin = end - digits(n);
    put_decimal(out, begin, n as u64);
    begin
}

// Writes a step that ends before a byte, and says where it begins.
fn step_before(out: &mut [u8], end: usize, step: usize) -> usize
    requires { (length (step_text (step_of step)) ≤ end) × (end ≤ length out.old) }
    ensures { (result + length (step_text (step_of step)) ≡ end) × (out.new ≡ over out.old result (step_text (step_of step))) }
{
    match name_of(step) {
        Some(name) => copy_before(out, end, name),
        None => {
            let close = copy_before(out, end, b"]");
            let number = number_before(out, close, step - 3);
            copy_before(out, number, b".arguments[")
        }
    }
}

// A path's record: its parent's number, its last step, and how many bytes its text has.
#[derive(Clone, Copy)]
struct Record {
    parent: usize,
    step: usize,
    length: usize,
}

fn record_at(b: &[u8], at: usize) -> Record
    requires { at + RECORD_SIZE < 2 ^ 64 }
    ensures parent { result.parent ≡ word_at b.now at }
    ensures step { (result.step ≡ word_at b.now (at + 4)) × (result.step < 2 ^ 32) }
    ensures length { result.length ≡ word_at b.now (at + 8) }
{
    Record {
        parent: reader::word(b, at),
        step: reader::word(b, at + STEP_AT),
        length: reader::word(b, at + LENGTH_AT),
    }
}

// "A refusal with a place writes the text, then zeros to the slice's end." The records lie in `b` from `base` on; the
// steps are written from the last one back to `root`. It stops where a parent's number isn't smaller or the text
// doesn't fit, as in bytes that nobody checked; what the slice then holds is free.
pub fn write_path(b: &[u8], base: usize, k: usize, out: &mut [u8])
    requires { base + 12 * k + 12 < 2 ^ 64 }
    ensures { FitsPath b.now base k (length out.old) → out.new ≡ placed (some (path_in_table b.now base k)) out.old }
{
    let end = record_at(b, base + RECORD_SIZE * k).length;
    if out.len() < end {
        return;
    }
    let mut at = k;
    let mut begin = end;
    // A `while`: it climbs by the parents' numbers.
    while 0 < at {
        let record = record_at(b, base + RECORD_SIZE * at);
        if at <= record.parent || begin < step_length(record.step) {
            return;
        }
        begin = step_before(out, begin, record.step);
        at = record.parent;
    }
    if begin < 4 {
        return;
    }
    copy_before(out, begin, b"root");
    zero_from(out, end);
}

// `root`, then zeros to the slice's end.
pub fn write_root(out: &mut [u8])
    requires { 4 ≤ length out.old }
    ensures { out.new ≡ placed (some root) out.old }
{
    copy_before(out, 4, b"root");
    zero_from(out, 4);
}
