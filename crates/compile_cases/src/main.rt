#![tactic(auto)]
// Compiles recorded formulas and compares the answer and both slices with the record, byte for byte. tools/compile/make_cases.py
// made the record from the instruction lists and refusals of the Rust reference.
//
// Standard input is the number of cases, then the cases. A case has ten numbers: the lengths of formula, name line, path slice
// and program slice; the answer, 0 for a program, else the refusal; the path text's length and the byte after the text; the
// program's length and the byte after the program; one more than the node of a refusal, 0 without one. Then come the formula, the
// name line, the text and the program. Numbers have 4 bytes, the least first.
use cases::{FILL, Record, holds};
use refusals::Refusal;
use std::io;

#[derive(Clone, Copy)]
struct Head {
    formula: usize,
    names: usize,
    path: usize,
    program: usize,
    answer: usize,
    text: usize,
    after_text: usize,
    code: usize,
    after_code: usize,
    node: Option<usize>,
}

impl Head {
    fn read(record: &mut Record) -> Head {
        Head {
            formula: record.word(),
            names: record.word(),
            path: record.word(),
            program: record.word(),
            answer: record.word(),
            text: record.word(),
            after_text: record.word(),
            code: record.word(),
            after_code: record.word(),
            node: record.word().checked_sub(1),
        }
    }
}

fn byte(word: usize) -> u8 {
    (word % 256) as u8
}

// An answer as recorded: 0 or a refusal's number, and its node.
fn told(answer: Result<(), Refusal>) -> (usize, Option<usize>) {
    match answer {
        Ok(()) => (0, None),
        Err(refusal) => (usize::from(refusal.number()), refusal.node()),
    }
}

// So many bytes of a record are read at most; so long are the slices.
const RECORD: usize = 327_680;

const PATH: usize = 8200;

const PROGRAM: usize = 65_536;

// Compiles a case's formula, which stands next; whether the answer and the slices are as recorded, and none where formula or names
// run past the record, behind which zeros stand for a text and a program, or where it asks for longer slices.
fn compiled(head: &Head, mut record: Record, path: &mut [u8], program: &mut [u8]) -> Option<bool> {
    let formula = record.bytes(head.formula)?;
    let names = record.bytes(head.names)?;
    let mut recorded = Record::new(record.bytes(PATH + PROGRAM)?);
    let text = recorded.bytes(head.text)?;
    let code = recorded.bytes(head.code)?;
    let path = path.get_mut(..head.path)?;
    let program = program.get_mut(..head.program)?;
    path.fill(FILL);
    program.fill(FILL);
    let answer = compile::compile(formula, names, path, program);
    Some(
        told(answer) == (head.answer, head.node)
            && holds(path, text, byte(head.after_text))
            && holds(program, code, byte(head.after_code)),
    )
}

// Leaves the record behind the case by all of its lengths, however it came out.
fn is_right(record: &mut Record) -> bool {
    let mut path = [0; PATH];
    let mut program = [0; PROGRAM];
    let head = Head::read(record);
    let rest = *record;
    record.skip(head.formula);
    record.skip(head.names);
    record.skip(head.text);
    record.skip(head.code);
    compiled(&head, rest, &mut path, &mut program).unwrap_or(false)
}

// One function over this main and that of legs_cases would promise nothing: of what is read and printed no clause can speak; the loop over the cases
// is `cases::all_cases`.
fn main(rt: HostRuntime) -> io::Result<()> {
    let stdout = rt.stdout();
    let mut room = [0; RECORD + PATH + PROGRAM];
    cases::read_full(rt.stdin(), &mut room[..RECORD]);
    let tally = cases::all_cases(stdout, &room, is_right)?;
    println!(stdout; "{} cases, {} differ", tally.cases, tally.wrong)
}
