#![tactic(auto)]
// Lists recorded inputs with `lines`, a block of a few bytes at a time, and compares the whole output with the record.
// tools/legs/make_cases.py made it from the Rust reference's answers.
//
// Standard input is the number of cases, then the cases. A case has five numbers: whether the formula file can be read, the
// length of a block, and the lengths of file, input and output. Then come these bytes. Numbers have 4 bytes, the least first.
ghost use Rattle.std.specs.Prelude.{◌+◌, ◌≤◌, ◌<◌, length};
ghost use Rattle.legs_cases.specs.Listed.{Copies, FeedsAll, Lists};
ghost use Rattle.lines.specs.Calls.{Feedable, SameSlices, held};
ghost use Rattle.lines.specs.Owed.{Roomy, file_of};

use cases::Record;
use lines::{Memory, Stage};
use std::io;
use writer::put_bytes;

// Adds output to the whole, and says how long it is then; none where there is no room for it.
fn add(all: &mut [u8], at: usize, out: &[u8]) -> Option<usize>
    requires { at ≤ length all.old }
    ensures { Copies all.old at out.now result all.new }
{
    if all.len() - at < out.len() {
        return None;
    }
    Some(put_bytes(all, at, out))
}

// An input, and the length of the blocks in which it is handed on.
#[derive(Clone, Copy)]
struct Blocks<'a> {
    input: &'a [u8],
    length: usize,
}

impl<'a> Blocks<'a> {
    // The end of the block that begins at a byte. A block has one byte at least.
    fn end(self, at: usize) -> usize
        requires { at < length self.input.now }
        ensures { (at < result) × (result ≤ length self.entry.input.now) }
    {
        at + self.length.clamp(1, self.input.len() - at)
    }
}

// The stage after all of the input, and the length of the whole output so far.
#[derive(Clone, Copy)]
struct Fed {
    stage: Stage,
    length: usize,
}

// Hands the input on in blocks, each from the first byte that was not used, so no `for` counts them; none where the whole output
// has no room for what came of it. That comes as slice and length: of a struct that lends the slice each clause would have to say
// besides that it still lends the same one.
fn feed(
    formula: &[u8],
    blocks: Blocks,
    start: Stage,
    names: &mut [u8],
    memory: &mut Memory,
    all: &mut [u8],
    from: usize,
) -> Option<Fed>
    requires { Feedable formula.now (held names.old memory.old) start memory.old.out.now × (from ≤ length all.old) }
    ensures feeds { FeedsAll formula.now (held names.old memory.old) start blocks.entry.input.now (held names.new memory.new) all.old from result all.new }
    ensures slices { SameSlices memory.old memory.new }
{
    let mut stage = start;
    let mut at = 0;
    let mut length = from;
    while at < blocks.input.len() {
        let end = blocks.end(at);
        let advanced = lines::advance(formula, &blocks.input[at..end], stage, names, memory);
        length = add(all, length, memory.written(advanced.length))?;
        at += advanced.used;
        stage = advanced.stage;
    }
    Some(Fed { stage, length })
}

// Lists a whole input: what `start` gave, what `advance` gave for each block, and what `finish` gave, one after another.
fn list_in(
    file: Option<&[u8]>,
    blocks: Blocks,
    names: &mut [u8],
    memory: &mut Memory,
    all: &mut [u8],
) -> Option<usize>
    requires { Roomy (held names.old memory.old) × (8353 ≤ length memory.old.out.now) }
    ensures { Lists (file_of file.entry) blocks.entry.input.now all.old result all.new }
{
    let formula = file.unwrap_or(b"");
    let out = &mut *memory.out;
    let begun = lines::start(file, out);
    let first = add(all, 0, memory.written(begun.length))?;
    let fed = feed(formula, blocks, begun.stage, names, memory, all, first)?;
    let length = lines::finish(formula, fed.stage, names, memory);
    add(all, fed.length, memory.written(length))
}

// The same with memory of its own: what it gives is the definition's whole output, for any input and any length of block, just
// where it fits.
fn list(file: Option<&[u8]>, blocks: Blocks, all: &mut [u8]) -> Option<usize>
    ensures { Lists (file_of file.entry) blocks.entry.input.now all.old result all.new }
{
    let mut names = [0u8; 17152];
    let mut path = [0u8; 8192];
    let mut program = [0u8; 61440];
    let mut values = [0.0; 256];
    let mut regs = [0.0; 1276];
    let mut out = [0u8; 16384];
    let mut memory = Memory {
        path: &mut path,
        program: &mut program,
        values: &mut values,
        regs: &mut regs,
        out: &mut out,
    };
    list_in(file, blocks, &mut names, &mut memory, all)
}

// ---- the record

// So many bytes of a record are read at most; so long is an output.
const RECORD: usize = 327_680;

const OUTPUT: usize = 65_536;

#[derive(Clone, Copy)]
struct Head {
    readable: bool,
    block: usize,
    formula: usize,
    input: usize,
    output: usize,
}

impl Head {
    fn read(record: &mut Record) -> Head {
        Head {
            readable: record.word() == 1,
            block: record.word(),
            formula: record.word(),
            input: record.word(),
            output: record.word(),
        }
    }
}

// Whether a case's output is as recorded, and none where file or input run past the record, behind which zeros stand for an output,
// or where an output is longer than there is room for.
fn as_recorded(head: &Head, mut record: Record) -> Option<bool> {
    let formula = record.bytes(head.formula)?;
    let input = record.bytes(head.input)?;
    let output = record.bytes(OUTPUT)?.get(..head.output)?;
    let file = head.readable.then_some(formula);
    let blocks = Blocks {
        input,
        length: head.block,
    };
    let mut all = [0u8; OUTPUT];
    let n = list(file, blocks, &mut all)?;
    Some(all.get(..n)? == output)
}

// Leaves the record behind the case by all of its lengths, however it came out.
fn is_same(record: &mut Record) -> bool {
    let head = Head::read(record);
    let rest = *record;
    record.skip(head.formula);
    record.skip(head.input);
    record.skip(head.output);
    as_recorded(&head, rest).unwrap_or(false)
}

// One function over this main and that of compile_cases would promise nothing: of what is read and printed no clause can speak;
// the loop over the cases is `cases::all_cases`.
fn main(rt: HostRuntime) -> io::Result<()> {
    let stdout = rt.stdout();
    let mut room = [0; RECORD + OUTPUT];
    cases::read_full(rt.stdin(), &mut room[..RECORD]);
    let tally = cases::all_cases(stdout, &room, is_same)?;
    println!(stdout; "{} cases, {} differ", tally.cases, tally.wrong)
}
