// The text of an output line: "line number, answer (`value`, `domain`, `ask`, `bad`), detail (bits, path, function number in
// decimal and bits joined by `:` with 16 for Power, refusal number), instructions completed". Each function writes from a place on
// and hands back where it ended, as those of `writer` do: a cursor that holds the slice would be no plainer, since every
// clause would say besides that it is the same slice still.
ghost use Rattle.std.specs.Prelude.{◌≡◌, ◌+◌, ◌<◌, ◌≤◌, true, ◌++◌, length};
ghost use Rattle.formula.specs.Path.{text};
ghost use Rattle.meaning.specs.Work.{elementary, power};
ghost use Rattle.machine.specs.Machine.{asks, gives, outside, refused};
ghost use Rattle.machine.specs.Program.{valid};
ghost use Rattle.layout.specs.Decode.{length_at, path_of, path_total, program_at};
ghost use Rattle.refusals.specs.Refusals.{number_of};
ghost use Rattle.run.specs.Views.{Writable, answer_of};
ghost use Rattle.work.specs.View.{question_of};
ghost use Rattle.formula.specs.Text.{decimal};
ghost use Rattle.listing.specs.Legs.{bits_text, line_of, node_line, printed, refused_as};
ghost use Rattle.listing.specs.Totals.{total_line};
ghost use Rattle.lines.specs.Sums.{totals_of};
ghost use Rattle.lines.specs.Text.{StepsOf, Wrote, shown};

use crate::record::Outcome;
use crate::sums::Totals;
use layout::{CODE_AT, HEADER_SIZE, LENGTH_AT, RECORD_SIZE, SLOT_SIZE};
use refusals::Refusal;
use run::Answer;
use values::words::write_eight;
use work::Question;
use writer::{put_bytes, put_decimal, put_long};

// Bytes that are a program.
#[derive(Clone, Copy)]
pub(crate) struct Checked<'a> {
    pub bytes: &'a [u8],
    ghost sound: { valid (program_at bytes.now) ≡ true },
}

// The 16 digits of a value's bits.
fn put_bits(out: &mut [u8], at: usize, x: f64) -> usize
    requires { at + 16 ≤ length out.old }
    ensures { Wrote out.old at (bits_text x) out.new result }
{
    let n = floats::value::bits_of(x);
    put_long(out, at, write_eight(n / 4294967296));
    put_long(out, at + 8, write_eight(n));
    at + 16
}

fn put_value(out: &mut [u8], at: usize, x: f64) -> usize
    requires { at + 22 ≤ length out.old }
    ensures { Wrote out.old at (shown (line_of (gives x) 0)) out.new result }
{
    let end = put_bytes(out, at, b"value,");
    put_bits(out, end, x)
}

fn put_elementary(out: &mut [u8], at: usize, f: u8, x: f64) -> usize
    requires { at + 24 ≤ length out.old }
    ensures wrote { Wrote out.old at (shown (line_of (asks (elementary f x)) 0)) out.new result }
    ensures room { result ≤ at + 24 }
{
    let function = put_bytes(out, at, b"ask,");
    let colon = put_decimal(out, function, f as u64);
    let bits = put_bytes(out, colon, b":");
    put_bits(out, bits, x)
}

fn put_power(out: &mut [u8], at: usize, x: f64, y: f64) -> usize
    requires { at + 40 ≤ length out.old }
    ensures { Wrote out.old at (shown (line_of (asks (power x y)) 0)) out.new result }
{
    let base = put_bytes(out, at, b"ask,16:");
    let colon = put_bits(out, base, x);
    let exponent = put_bytes(out, colon, b":");
    put_bits(out, exponent, y)
}

fn put_question(out: &mut [u8], at: usize, question: Question) -> usize
    requires { at + 40 ≤ length out.old }
    ensures wrote { Wrote out.old at (shown (line_of (asks (question_of question)) 0)) out.new result }
    ensures room { result ≤ at + 40 }
{
    match question {
        Question::Elementary(f, x) => put_elementary(out, at, f, x),
        Question::Power(x, y) => put_power(out, at, x, y),
    }
}

fn put_bad(out: &mut [u8], at: usize, refusal: Refusal) -> usize
    requires { at + 24 ≤ length out.old }
    ensures wrote { Wrote out.old at (shown (line_of (refused (number_of refusal)) 0)) out.new result }
    ensures room { result ≤ at + 24 }
{
    let number = put_bytes(out, at, b"bad,");
    put_decimal(out, number, u64::from(refusal.number()))
}

// How many bytes the text of a path record has.
#[tactic(auto, using(crate::proofs::Runs::paths_few), unfolding(layout::specs::Decode::length_at, layout::specs::Decode::record_at, layout::specs::Decode::code_count))]
fn path_length(p: &[u8], k: usize) -> usize
    requires { k < path_total p.now }
    ensures { result ≡ length_at p.now k }
{
    let code = reader::word(p, CODE_AT);
    reader::word(
        p,
        HEADER_SIZE + SLOT_SIZE * code + RECORD_SIZE * k + LENGTH_AT,
    )
}

// The path goes straight into the output, of which just its own bytes are lent.
fn put_domain(p: Checked, out: &mut [u8], at: usize, k: usize) -> usize
    requires { (k < path_total p.bytes.now) × (length_at p.bytes.now k ≤ 8192) × (at + 8199 ≤ length out.old) }
    ensures wrote { Wrote out.old at (shown (line_of (outside (path_of p.entry.bytes.now k)) 0)) out.new result }
    ensures room { result ≤ at + 8199 }
{
    let from = put_bytes(out, at, b"domain,");
    let n = path_length(p.bytes, k);
    let end = from + n;
    program::write_place(p.bytes, k, &mut out[from..end]);
    end
}

// The answer and its detail.
fn put_answer(p: Checked, out: &mut [u8], at: usize, answer: Answer) -> usize
    requires { (Writable p.bytes.now 8192 answer) × (at + 8199 ≤ length out.old) }
    ensures wrote { Wrote out.old at (shown (line_of (answer_of p.entry.bytes.now answer) 0)) out.new result }
    ensures room { result ≤ at + 8199 }
{
    match answer {
        Answer::Value(v) => put_value(out, at, v),
        Answer::Question(question) => put_question(out, at, question),
        Answer::Spent => put_bytes(out, at, b"spent,"),
        Answer::Domain(k) => put_domain(p, out, at, k),
        Answer::Refused(refusal) => put_bad(out, at, refusal),
    }
}

// "`bad` is a malformed or refused line, steps 0."
fn steps_of(outcome: Outcome) -> usize
    ensures { StepsOf outcome result }
{
    match outcome.answer {
        Answer::Refused(_) => 0,
        _ => outcome.count,
    }
}

// A line's number, its answer with the detail, and the instructions completed.
pub(crate) fn put_line(
    p: Checked,
    out: &mut [u8],
    at: usize,
    number: u64,
    outcome: Outcome,
) -> usize
    requires { (Writable p.bytes.now 8192 outcome.answer) × (at + 8242 ≤ length out.old) }
    ensures wrote { Wrote out.old at (printed number (line_of (answer_of p.entry.bytes.now outcome.answer) outcome.count)) out.new result }
    ensures room { result ≤ at + 8242 }
{
    let comma = put_decimal(out, at, number);
    let first = put_bytes(out, comma, b",");
    let end = put_answer(p, out, first, outcome.answer);
    let last = put_bytes(out, end, b",");
    let newline = put_decimal(out, last, steps_of(outcome) as u64);
    put_bytes(out, newline, b"\n")
}

// "A formula refused in compiling gives, after the header, only `0,refused,N:PATH,0`, the path empty without a place."
pub(crate) fn put_refusal(out: &mut [u8], at: usize, refusal: Refusal, place: &[u8]) -> usize
    requires { (at + 8209 ≤ length out.old) × (length place.now ≤ 8192) }
    ensures wrote { Wrote out.old at (printed 0 (refused_as (number_of refusal) place.now)) out.new result }
    ensures room { result ≤ at + 8209 }
{
    let number = put_bytes(out, at, b"0,refused,");
    let colon = put_decimal(out, number, u64::from(refusal.number()));
    let from = put_bytes(out, colon, b":");
    let end = put_bytes(out, from, place);
    put_bytes(out, end, b",0\n")
}

// "`legs` shows it as `N:node`".
pub(crate) fn put_node_refusal(out: &mut [u8], at: usize, refusal: Refusal, node: usize) -> usize
    requires { at + 8209 ≤ length out.old }
    ensures wrote { Wrote out.old at (node_line (number_of refusal) node) out.new result }
    ensures room { result ≤ at + 8209 }
{
    let mut digits = [0u8; 20];
    let end = put_decimal(&mut digits, 0, node as u64);
    put_refusal(out, at, refusal, &digits[..end])
}

// A number, and the byte after it.
fn put_count(out: &mut [u8], at: usize, n: u64, after: &[u8]) -> usize
    requires { (at + 21 ≤ length out.old) × (length after.now ≤ 1) }
    ensures wrote { Wrote out.old at (decimal n ++ after.now) out.new result }
    ensures room { result ≤ at + 21 }
{
    let end = put_decimal(out, at, n);
    put_bytes(out, end, after)
}

// "`total,V,D,Q,B,S`"
pub(crate) fn put_total(out: &mut [u8], at: usize, t: Totals) -> usize
    requires { at + 111 ≤ length out.old }
    ensures wrote { Wrote out.old at (total_line (totals_of t)) out.new result }
    ensures room { result ≤ at + 111 }
{
    let values = put_bytes(out, at, b"total,");
    let domains = put_count(out, values, t.values, b",");
    let asks = put_count(out, domains, t.domains, b",");
    let bads = put_count(out, asks, t.asks, b",");
    let steps = put_count(out, bads, t.bads, b",");
    put_count(out, steps, t.steps, b"\n")
}
