#![tactic(auto)]
// Runs a formula on lines of values: `formula.bin` in the current folder, the name line and the lines of values on standard
// input, a line for each on standard output. What is printed is what `lines` gives; here it is only read and written.
ghost use Rattle.std.specs.Prelude.{◌≡◌, ◌≤◌, length, IfSome, IfErr};
ghost use Rattle.lines.specs.Calls.{Feedable, SameSlices, held};
ghost use Rattle.legs.specs.Fed.{FeedableAll, Feeds, FeedsAll, Lent};

use lines::{Memory, Stage};
use std::fs;
use std::io::{Read, Stdin, Stdout};
use std::rt::Files;

// The most blocks that are read. A proved loop has to end; no run uses this number up.
const BLOCK_LIMIT: u64 = 0xffff_ffff_ffff;

// One call of read: how many bytes came, or none where the file can't be read.
fn read_once(from: &mut impl Read, buf: &mut [u8]) -> Option<usize>
    ensures { IfSome result (λ n. n ≤ length buf.old) }
{
    from.read(buf).ok()
}

// A file's bytes, as many as the slice holds, or none where it can't be read. The loop goes on by what came, so no `for` counts it.
// It is not `cases::read_full`, which gives what came before a read that failed: a file that can't be read is told from a short one here.
fn read_all(from: &mut impl Read, buf: &mut [u8]) -> Option<usize>
    ensures { IfSome result (λ n. n ≤ length buf.old) }
{
    let mut at = 0;
    while at < buf.len() {
        let n = read_once(from, &mut buf[at..])?;
        if n == 0 {
            break;
        }
        at += n;
    }
    Some(at)
}

// The slice has a byte more than a formula file may have, so that a longer file is told from it.
fn read_file<'a>(rt: &impl Files, path: &str, buf: &'a mut [u8]) -> Option<&'a [u8]>
    requires { 4097 ≤ length buf.old }
    ensures { IfSome result (λ bytes. length bytes.now ≤ length buf.old) }
{
    let mut file = fs::open(rt, path).ok()?;
    let n = read_all(&mut file, buf)?;
    Some(&buf[..n])
}

// Why a listing stops before its end: a write failed, or as many blocks were read as are counted.
#[derive(Clone, Copy)]
enum Stop {
    Closed,
    TooLong,
}

// Writes a part of the output.
fn print(mut stdout: Stdout, out: &[u8]) -> Result<(), Stop>
    ensures { IfErr result (λ stop. stop ≡ Stop.Closed) }
{
    stdout.write_all(out).map_err(|_| Stop::Closed)
}

// Hands a block of input on, part by part, and prints what came of each. All of it is used, unless a write fails. The loop goes
// on by what a call used, so no `for` counts it.
fn feed(
    stdout: Stdout,
    formula: &[u8],
    input: &[u8],
    start: Stage,
    names: &mut [u8],
    memory: &mut Memory,
) -> Result<Stage, Stop>
    requires { Feedable formula.now (held names.old memory.old) start memory.old.out.now }
    ensures feeds { Feeds formula.now (held names.old memory.old) start input.now (held names.new memory.new) result }
    ensures slices { SameSlices memory.old memory.new }
{
    let mut stage = start;
    let mut at = 0;
    while at < input.len() {
        let advanced = lines::advance(formula, &input[at..], stage, names, memory);
        print(stdout, memory.written(advanced.length))?;
        at += advanced.used;
        stage = advanced.stage;
    }
    Ok(stage)
}

// Hands on standard input, up to its end or to where the rest of it changes nothing: after a refusal, and after the last line
// that is listed. That the bytes come from `read` and go to `write` no contract can say.
fn feed_all(
    mut stdin: Stdin,
    stdout: Stdout,
    formula: &[u8],
    block: &mut [u8],
    start: Stage,
    names: &mut [u8],
    memory: &mut Memory,
) -> Result<Stage, Stop>
    requires { FeedableAll formula.now block.old (held names.old memory.old) start memory.old.out.now }
    ensures feeds { FeedsAll formula.now (held names.old memory.old) start (held names.new memory.new) result }
    ensures slices { SameSlices memory.old memory.new }
{
    let mut stage = start;
    for _ in 0..BLOCK_LIMIT {
        if lines::is_finished(stage) {
            return Ok(stage);
        }
        let n = read_once(&mut stdin, block).unwrap_or(0);
        if n == 0 {
            return Ok(stage);
        }
        stage = feed(stdout, formula, &block[..n], stage, names, memory)?;
    }
    Err(Stop::TooLong)
}

// Prints the listing. The memory that it is lent is as large as the output needs it to be.
fn list(
    stdin: Stdin,
    stdout: Stdout,
    file: Option<&[u8]>,
    block: &mut [u8],
    names: &mut [u8],
    memory: &mut Memory,
) -> Result<(), Stop>
    requires { Lent block.old (held names.old memory.old) memory.old.out.now }
{
    let formula = file.unwrap_or(b"");
    let out = &mut *memory.out;
    let begun = lines::start(file, out);
    print(stdout, memory.written(begun.length))?;
    let last = feed_all(stdin, stdout, formula, block, begun.stage, names, memory)?;
    let length = lines::finish(formula, last, names, memory);
    print(stdout, memory.written(length))
}

fn main(rt: HostRuntime) {
    let mut formula = [0u8; 4097];
    let mut block = [0u8; 65536];
    let mut names = [0u8; 17152];
    let mut path = [0u8; 8192];
    let mut program = [0u8; 61440];
    let mut values = [0.0; 256];
    let mut regs = [0.0; 1276];
    let mut out = [0u8; 65536];
    let mut memory = Memory {
        path: &mut path,
        program: &mut program,
        values: &mut values,
        regs: &mut regs,
        out: &mut out,
    };
    let file = read_file(&rt, "formula.bin", &mut formula);
    let _ = list(
        rt.stdin(),
        rt.stdout(),
        file,
        &mut block,
        &mut names,
        &mut memory,
    );
}
