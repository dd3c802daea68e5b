// A line of values to its record: the program is run on them, with registers that start as 0.0 and a budget of all its code.
ghost use Rattle.std.specs.Prelude.{◌≡◌, ◌+◌, ◌≤◌, length, IfOk};
ghost use Rattle.layout.specs.Decode.{register_total};
ghost use Rattle.run.specs.Views.{Writable};
ghost use Rattle.lines.specs.Record.{Answers, Ready, Records, Runs};
ghost use Rattle.lines.specs.Text.{WroteSome};

use crate::Line;
use crate::sums::Totals;
use crate::text::{Checked, put_line};
use layout::{CODE_AT, REGISTERS_AT};
use refusals::Refusal;
use run::Answer;
use values::finish;

// An answer, and the instructions completed.
#[derive(Clone, Copy)]
pub struct Outcome {
    pub answer: Answer,
    pub count: usize,
}

fn run_values(p: Checked, inputs: &[f64], regs: &mut [f64]) -> Outcome
    requires { register_total p.bytes.now ≤ length regs.old }
    ensures runs { Runs p.entry.bytes.now inputs.now result }
    ensures place { Writable p.entry.bytes.now 8192 result.answer }
{
    let budget = reader::word(p.bytes, CODE_AT);
    let n = reader::word(p.bytes, REGISTERS_AT);
    regs[..n].fill(0.0);
    let reply = run::run_reply(p.bytes, inputs, &mut regs[..n], budget);
    Outcome {
        answer: reply.answer,
        count: reply.count,
    }
}

fn refused(refusal: Refusal) -> Outcome
    ensures { result ≡ record { answer = Answer.Refused refusal; count = 0 } }
{
    Outcome {
        answer: Answer::Refused(refusal),
        count: 0,
    }
}

// "A value line that isn't hex digits and commas as said shows `bad` with 3; otherwise a wrong count of values or a value
// that isn't finite shows 5."
fn answer_of(p: Checked, found: Result<usize, Refusal>, values: &[f64], regs: &mut [f64]) -> Outcome
    requires ready { Ready p.bytes.now (length values.now) (length regs.old) }
    requires within { IfOk found (λ n. n ≤ length values.now) }
    ensures answers { Answers p.entry.bytes.now found values.now result }
    ensures place { Writable p.entry.bytes.now 8192 result.answer }
{
    match found {
        Ok(n) => run_values(p, &values[..n], regs),
        Err(refusal) => refused(refusal),
    }
}

// Where a record ends, and the totals with its line.
#[derive(Clone, Copy)]
pub struct Recorded {
    pub end: usize,
    pub totals: Totals,
}

// Writes the record of a line that ends here, and counts it.
pub(crate) fn put_record(
    p: &[u8],
    line: Line,
    values: &mut [f64],
    regs: &mut [f64],
    out: &mut [u8],
    at: usize,
) -> Recorded
    requires { Ready p.now (length values.old) (length regs.old) × (at + 8242 ≤ length out.old) }
    ensures records { Records p.now line.reading values.old line.number line.totals out.old at out.new result }
    ensures beyond { WroteSome out.old at out.new result.end }
    ensures room { result.end ≤ at + 8242 }
{
    let found = finish(line.reading, values);
    let program = Checked { bytes: p };
    let outcome = answer_of(program, found, values, regs);
    let end = put_line(program, out, at, line.number, outcome);
    Recorded {
        end,
        totals: line.totals.with_line(outcome),
    }
}
