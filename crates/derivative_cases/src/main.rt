#![tactic(auto)]
// Compares derivative trees and the records of their nodes with those of the Rust reference, byte for byte.
//
// Standard input has a record for each case: the reference's answer (0 a tree, 8 or 4 its refusal), the symbol's number,
// whether it is a state, a zero, the nodes of the formula and of the tree in two bytes each, the two trees' bytes, and the
// list of the second tree's records. The formulas have every arm of `derivative.rs` with literals and symbols at each place,
// lists worked out by hand, and random ones of reference/generate.py; tools/derivative/make_cases.py made the records. One
// is not the reference's, which runs out of memory: Multiply(0, Abs nested 30 times).
ghost use Rattle.std.specs.Prelude.{◌≤◌, length};

use cases::{Record, Tally, read_full};
use differentiate::{Form, Nodes, ORIGIN_SIZE, Records, write_derivative};
use reader::{NODE_SIZE, is_formula, is_small};
use refusals::Refusal;
use std::io;
use std::io::Stdin;
use std::ops::ControlFlow;
use survey::{By, Row, survey_formula};

// Where the bytes of a tree's nodes, or of their records, end: "8 at `root` from the rules, 4 at `root` if the finished tree is
// too large", and 1 where the slice is too short for its nodes, or for their records.
fn derive<F: Form>(f: &[u8], by: By, out: &mut [u8]) -> Result<usize, Refusal> {
    if !is_formula(f) || !is_small(f, 256, 32) {
        return Err(Refusal::WrongField(0));
    }
    let mut rows = [Row::EMPTY; 256];
    let found = survey_formula(f, 32, by, &mut rows);
    let Some(diff) = found.diff else {
        return Err(Refusal::Unsupported);
    };
    let whole = found.own.with_primal(diff);
    if whole.nodes > 16384 || whole.levels > 128 {
        return Err(Refusal::ExpressionLimit);
    }
    if out.len() / F::SIZE < whole.nodes {
        return Err(Refusal::SliceTooShort);
    }
    Ok(write_derivative::<F>(f, 32, by, &rows, out))
}

// Whether the answer is the one recorded; the slice is just long enough.
fn gives<F: Form>(f: &[u8], by: By, recorded: u8, wanted: &[u8], room: &mut [u8]) -> bool
    requires { length wanted.now ≤ length room.old }
{
    let out = &mut room[..wanted.len()];
    match derive::<F>(f, by, out) {
        Ok(n) => recorded == 0 && n == wanted.len() && *out == *wanted,
        Err(refusal) => refusal.number() == recorded,
    }
}

// Whether the nodes and the records are those recorded. Of a case that does not fit, what fits is read; what standard input lacks is read as zeros.
fn is_right(stdin: Stdin, head: &[u8]) -> bool {
    let mut record = Record::new(head);
    let recorded = record.byte();
    let by = By {
        symbol: usize::from(record.byte()),
        state: record.byte() == 1,
    };
    // a zero
    record.byte();
    let nodes = record.half();
    let size = record.half();
    let mut formula = [0; 4096];
    let mut tree = [0; 16384];
    let mut list = [0; 8192];
    let mut out = [255; 16384];
    let f = &mut formula[..NODE_SIZE * nodes.min(256)];
    let tree = &mut tree[..NODE_SIZE * size.min(1024)];
    let list = &mut list[..ORIGIN_SIZE * size.min(1024)];
    read_full(stdin, f);
    read_full(stdin, tree);
    read_full(stdin, list);
    let first = gives::<Nodes>(f, by, recorded, tree, &mut out);
    out.fill(255);
    let second = gives::<Records>(f, by, recorded, list, &mut out);
    nodes <= 256 && size <= 1024 && first && second
}

fn main(rt: HostRuntime) -> io::Result<()> {
    let stdin = rt.stdin();
    let stdout = rt.stdout();
    let mut tally = Tally::default();
    cases::each_head(stdin, &mut [0; 8], |head| {
        tally.count(stdout, is_right(stdin, head), 0)?;
        Ok(ControlFlow::Continue(()))
    })?;
    println!(stdout; "{} cases", tally.cases)?;
    tally.verdict(stdout)
}
