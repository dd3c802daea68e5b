#![tactic(auto)]
// Input lines in, output lines out: the listing of `legs`, a block of input at a time and in fixed memory. A caller prints what
// `start` gave, then what `advance` gave for each block of input, then what `finish` gave.
mod record;
pub mod sums;
mod text;

ghost use Rattle.std.specs.Prelude.{◌≡◌, ◌+◌, ◌-◌, ◌<◌, ◌≤◌, true, false, List, ℕ, length, take, slice_index};
ghost use Rattle.std.proofs.Math.Option.{none};
ghost use Rattle.layout.specs.Decode.{program_at};
ghost use Rattle.listing.specs.Legs.{refusal_line};
ghost use Rattle.listing.specs.Totals.{nothing};
ghost use Rattle.names.specs.Lines.{free};
ghost use Rattle.writer.specs.Over.{over};
ghost use Rattle.lines.specs.Calls.{Advancing, Beginning, Finishing, ListingBlock, SameSlices, Starting, held};
ghost use Rattle.lines.specs.declared.Stage.TheVariants.{Names, Values};
ghost use Rattle.lines.specs.Owed.{EndsWith, KeepsOn, Opens, TellsFinished, TextLength, file_of, stage_at};
ghost use Rattle.lines.specs.Record.{Ready};
ghost use Rattle.lines.specs.Text.{Wrote};

use layout::{INPUTS_AT, REGISTERS_AT};
use refusals::Refusal;
use sums::Totals;
use values::Reading;

// "`legs` reads at most 1,000,000 value lines"
const LINE_LIMIT: u64 = 1000000;

// The bytes of the longest record.
const RECORD_ROOM: usize = 8242;

// The bytes of output that every call needs: a record's, and 111 for the total line. The functions below `start`, `advance` and `finish` ask for them;
// a ghost field of `Memory` would ask all callers, and these three take any output.
const OUTPUT_ROOM: usize = 8353;

// The line of values that is read: its number, what was read of it, and the totals of the lines before it.
#[derive(Clone, Copy)]
pub struct Line {
    pub number: u64,
    pub reading: Reading,
    pub totals: Totals,
}

// Where a listing stands: in the name line, of which so many bytes are kept; in a line of values, as far as it was read; or at
// its end, after a refusal or the last line that is listed, where no more input is looked at and the total line is still to be
// written. A stage is a value between two calls, so it has the count of these bytes and can't lend them.
#[derive(Clone, Copy)]
pub enum Stage {
    Names(usize),
    Values(Line),
    Finished(Totals),
}

// The memory that a caller lends for a listing, and the output. The slice for the name line is beside it, as `finish` only reads that.
#[derive(Drop)]
pub struct Memory<'a> {
    pub path: &'a mut [u8],
    pub program: &'a mut [u8],
    pub values: &'a mut [f64],
    pub regs: &'a mut [f64],
    pub out: &'a mut [u8],
}

impl<'a> Memory<'a> {
    // So much of the output as a call says that it wrote.
    pub fn written(&self, n: usize) -> &[u8]
        requires { n ≤ length self.now.out.now }
        ensures { result.now ≡ take n self.now.out.now }
    {
        &self.out[..n]
    }
}

// The next stage, how many bytes of the input were used, and how many of the output were written.
#[derive(Clone, Copy)]
pub struct Advanced {
    pub stage: Stage,
    pub used: usize,
    pub length: usize,
}

// A stage, and how many bytes of the output were written.
#[derive(Clone, Copy)]
pub struct Begun {
    pub stage: Stage,
    pub length: usize,
}

// ---- lines of values

// The line that is read then, how many bytes of the input were used, and how many of the output were written.
#[derive(Clone, Copy)]
struct Listed {
    line: Line,
    used: usize,
    length: usize,
}

// Lists the lines of values that end in the input. It stops early after the last line that is listed, and at a newline where a
// record might not fit the output. The slices come one by one: of a `Memory` the loop would have to say besides that it still lends the same ones.
// A `while`: it goes on by the bytes that a line has, and stops at a newline whose record might not fit.
fn list_values(
    p: &[u8],
    input: &[u8],
    line: Line,
    values: &mut [f64],
    regs: &mut [f64],
    out: &mut [u8],
) -> Listed
    requires { Ready p.now (length values.old) (length regs.old) }
    ensures { ListingBlock (program_at p.now) line values.old input.now out.old result values.new out.new }
{
    let mut line = line;
    let mut used = 0;
    let mut length = 0;
    while used < input.len() && line.number <= LINE_LIMIT {
        let read = values::read_part(input, used, line.reading, values);
        used = read.end;
        line.reading = read.reading;
        if used == input.len() || out.len() - length < RECORD_ROOM {
            break;
        }
        let put = record::put_record(p, line, values, regs, out, length);
        length = put.end;
        line = Line {
            number: line.number + 1,
            reading: values::fresh(),
            totals: put.totals,
        };
        used += 1;
    }
    Listed { line, used, length }
}

// Whether bytes are a program, with enough places for its values and registers.
#[tactic(auto, using(crate::proofs::Runs::code_short), unfolding(layout::specs::Decode::input_count, layout::specs::Decode::register_total))]
fn is_ready(p: &[u8], values: usize, regs: usize) -> bool
    ensures ready { (result ≡ true → Ready p.now values regs) × (result ≡ false → Ready p.now values regs → ⊥) }
    ensures short { result ≡ true → length (program_at p.now).code ≤ 4294967296 }
{
    reader::word(p, INPUTS_AT) <= values
        && reader::word(p, REGISTERS_AT) <= regs
        && program::is_program(p)
}

// ---- the name line

// How many bytes of a name line are kept, and where the input ends it.
#[derive(Clone, Copy)]
struct Kept {
    count: usize,
    end: usize,
}

// Keeps the first bytes of a name line, up to its newline or the end of the input, as many as there are places for.
fn keep_names(input: &[u8], names: &mut [u8], k: usize) -> Kept
    requires { k ≤ length names.old }
    ensures place { (result.end ≤ length input.now) × (free 10 (take result.end input.now) ≡ true) × (result.end < length input.now → slice_index input.now result.end ≡ 10) }
    ensures kept { KeepsOn k names.old (take result.end input.now) result.count names.new }
    ensures holds { (names.new ≡ over names.old k (take (length names.old - k) (take result.end input.now))) × (result.count ≡ k + length (take (length names.old - k) (take result.end input.now))) }
{
    let end = values::line_end(input, 0);
    let line = &input[..end];
    let n = (names.len() - k).min(line.len());
    let count = writer::put_bytes(names, k, &line[..n]);
    Kept { count, end }
}

// The text before the first 0, of 8,192 bytes at most.
fn text_of(path: &[u8]) -> &[u8]
    ensures long { TextLength path.now (length result.now) }
    ensures first { result.now ≡ take (length result.now) path.now }
{
    let n = values::first_place(&path[..path.len().min(8192)], 0);
    &path[..n]
}

// The end of a listing in which no line was run.
fn finished() -> Stage
    ensures { EndsWith nothing result }
{
    Stage::Finished(Totals::default())
}

// Compiles the formula over a name line: a refusal's line is written, or the lines of values begin.
fn begin(formula: &[u8], names: &[u8], memory: &mut Memory) -> Begun
    requires { 8209 ≤ length memory.old.out.now }
    ensures begins { Beginning formula.now names.now memory.old.path.now memory.old.program.now memory.new.path.now memory.new.program.now result memory.old.out.now memory.new.out.now }
    ensures numbers { (memory.new.values.now ≡ memory.old.values.now) × (memory.new.regs.now ≡ memory.old.regs.now) }
    ensures slices { SameSlices memory.old memory.new }
{
    let path = &mut *memory.path;
    let program = &mut *memory.program;
    let out = &mut *memory.out;
    let Err(refusal) = compile::compile(formula, names, path, program) else {
        let line = Line {
            number: 1,
            reading: values::fresh(),
            totals: Totals::default(),
        };
        return Begun {
            stage: Stage::Values(line),
            length: 0,
        };
    };
    match refusal.node() {
        Some(node) => Begun {
            length: text::put_node_refusal(out, 0, refusal, node),
            stage: finished(),
        },
        None => Begun {
            length: text::put_refusal(out, 0, refusal, text_of(path)),
            stage: finished(),
        },
    }
}

// ---- the whole

// "a longer one, or none, prints `0,refused,1:,0` after the header"
fn put_missing(out: &mut [u8], at: usize) -> Begun
    requires { at + 8209 ≤ length out.old }
    ensures ended { EndsWith nothing result.stage × Wrote out.old at (refusal_line 1 none) out.new result.length }
    ensures room { result.length ≤ length out.old }
{
    Begun {
        length: text::put_refusal(out, at, Refusal::SliceTooShort, b""),
        stage: finished(),
    }
}

// A file that can be read and has at most 4,096 bytes is followed by the name line.
fn opened(file: Option<&[u8]>, out: &mut [u8], at: usize) -> Begun
    requires { at + 8209 ≤ length out.old }
    ensures opens { Opens (file_of file.entry) result out.old at out.new }
    ensures room { result.length ≤ length out.old }
{
    match file {
        Some(formula) if formula.len() <= 4096 => Begun {
            stage: Stage::Names(0),
            length: at,
        },
        _ => put_missing(out, at),
    }
}

// Begins the listing of a formula file, of its bytes or of none where it can't be read: the header. The output needs 8,353 bytes.
pub fn start(file: Option<&[u8]>, out: &mut [u8]) -> Begun
    ensures { Starting (file_of file.entry) out.old result out.new }
{
    if out.len() < OUTPUT_ROOM {
        return Begun {
            stage: finished(),
            length: 0,
        };
    }
    let at = writer::put_bytes(out, 0, b"no,answer,detail,steps\n");
    opened(file, out, at)
}

// Nothing was used and nothing written.
fn stuck(stage: Stage) -> Advanced
    ensures { result ≡ record { stage = stage; used = 0; length = 0 } }
{
    Advanced {
        stage,
        used: 0,
        length: 0,
    }
}

// Reads the name line on; at its end the formula is compiled.
fn advance_names(
    formula: &[u8],
    input: &[u8],
    k: usize,
    names: &mut [u8],
    memory: &mut Memory,
) -> Advanced
    requires { 8353 ≤ length memory.old.out.now }
    ensures advances { Advancing formula.now input.now (held names.old memory.old) (Names k) memory.old.out.now result (held names.new memory.new) memory.new.out.now }
    ensures slices { SameSlices memory.old memory.new }
{
    if names.len() < k {
        return stuck(Stage::Names(k));
    }
    let kept = keep_names(input, names, k);
    if kept.end == input.len() {
        return Advanced {
            stage: Stage::Names(kept.count),
            used: kept.end,
            length: 0,
        };
    }
    let begun = begin(formula, &names[..kept.count], memory);
    Advanced {
        stage: begun.stage,
        used: kept.end + 1,
        length: begun.length,
    }
}

// The lines after the last that is listed are not looked at.
fn stage_at(line: Line) -> Stage
    ensures { result ≡ stage_at line }
{
    if line.number <= LINE_LIMIT {
        Stage::Values(line)
    } else {
        Stage::Finished(line.totals)
    }
}

// Lists the lines of values of the input.
fn advance_values(input: &[u8], line: Line, memory: &mut Memory) -> Advanced
    requires { 8353 ≤ length memory.old.out.now }
    ensures advances { (formula names : List ℕ) → Advancing formula input.now (held names memory.old) (Values line) memory.old.out.now result (held names memory.new) memory.new.out.now }
    ensures slices { SameSlices memory.old memory.new }
{
    let program = &mut *memory.program;
    let values = &mut *memory.values;
    let regs = &mut *memory.regs;
    let out = &mut *memory.out;
    if !is_ready(program, values.len(), regs.len()) {
        return stuck(Stage::Values(line));
    }
    let listed = list_values(program, input, line, values, regs, out);
    Advanced {
        stage: stage_at(listed.line),
        used: listed.used,
        length: listed.length,
    }
}

// Uses a block of input, from its first byte on, and says how many bytes of it were used; the rest is for the next call. Where
// it uses none of a block that has a byte, the output has less than 8,353 bytes, or the stage is none that `start` or `advance`
// gave with this memory.
pub fn advance(
    formula: &[u8],
    input: &[u8],
    stage: Stage,
    names: &mut [u8],
    memory: &mut Memory,
) -> Advanced
    ensures advances { Advancing formula.now input.now (held names.old memory.old) stage memory.old.out.now result (held names.new memory.new) memory.new.out.now }
    ensures slices { SameSlices memory.old memory.new }
{
    if memory.out.len() < OUTPUT_ROOM {
        return stuck(stage);
    }
    match stage {
        Stage::Names(k) => advance_names(formula, input, k, names, memory),
        Stage::Values(line) => advance_values(input, line, memory),
        Stage::Finished(_) => Advanced {
            stage,
            used: input.len(),
            length: 0,
        },
    }
}

// Whether what is still to be written is the same whatever input follows.
pub fn is_finished(stage: Stage) -> bool
    ensures { TellsFinished stage result }
{
    matches!(stage, Stage::Finished(_))
}

// A line of values at the end of the input has a record if it has a byte. The total line follows.
fn finish_values(line: Line, memory: &mut Memory) -> usize
    requires { 8353 ≤ length memory.old.out.now }
    ensures finishes { (formula names : List ℕ) → Finishing formula (held names memory.old) (Values line) memory.old.out.now result (held names memory.new) memory.new.out.now }
    ensures slices { SameSlices memory.old memory.new }
{
    let program = &mut *memory.program;
    let values = &mut *memory.values;
    let regs = &mut *memory.regs;
    let out = &mut *memory.out;
    if !is_ready(program, values.len(), regs.len()) {
        return 0;
    }
    if values::is_empty(line.reading) {
        return text::put_total(out, 0, line.totals);
    }
    let put = record::put_record(program, line, values, regs, out, 0);
    text::put_total(out, put.end, put.totals)
}

// A name line at the end of the input. The total line follows.
fn finish_names(formula: &[u8], k: usize, names: &[u8], memory: &mut Memory) -> usize
    requires { 8353 ≤ length memory.old.out.now }
    ensures finishes { Finishing formula.now (held names.now memory.old) (Names k) memory.old.out.now result (held names.now memory.new) memory.new.out.now }
    ensures slices { SameSlices memory.old memory.new }
{
    if names.len() < k {
        return 0;
    }
    let begun = begin(formula, &names[..k], memory);
    let out = &mut *memory.out;
    text::put_total(out, begun.length, Totals::default())
}

// The end of the input. The output needs 8,353 bytes.
pub fn finish(formula: &[u8], stage: Stage, names: &[u8], memory: &mut Memory) -> usize
    ensures finishes { Finishing formula.now (held names.now memory.old) stage memory.old.out.now result (held names.now memory.new) memory.new.out.now }
    ensures slices { SameSlices memory.old memory.new }
{
    if memory.out.len() < OUTPUT_ROOM {
        return 0;
    }
    match stage {
        Stage::Names(k) => finish_names(formula, k, names, memory),
        Stage::Values(line) => finish_values(line, memory),
        Stage::Finished(totals) => {
            let out = &mut *memory.out;
            text::put_total(out, 0, totals)
        }
    }
}
