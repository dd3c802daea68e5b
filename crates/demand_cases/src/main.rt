#![tactic(auto)]
// Plays lists of calls that tools/compare recorded, every beginning of each, from slices filled anew: by `demand::make_and_play`, and by
// `hosted::make_and_call`, which hands the cells from one function of the library to the next. The answers are the Rust reference's, and for budgets
// and refused calls those of the model in tools/compare/machine.rs, whose whole runs agree with the reference's.
//
// Standard input has a record for each case; numbers are 8 bytes, the least first. A case has 12 numbers (`Head`), then formula, names and
// inputs. For its calls come each one's path room, each one's budget, a byte each for whether a value is supplied, and the values; then
// for each call 18 numbers, its answer, the cells after it and the length of the path's text, then that text and the registers after it.
// A refusal of compile or derive stands there as the answer of one call.
use cases::{FILL, HELD, Record, Replayed, holds, is_left, is_reported, same, take, take_cells};
use demand::Wanted;
use demand::calls::Call;
use floats::value::bits_of;
use refusals::Refusal;
use run::{Answer, Reply};
use std::io;
use std::io::Stdin;
use work::Question;

// ---- one case

#[derive(Clone, Copy)]
struct Head {
    formula: usize,
    names: usize,
    // The number of the symbol to derive by, if any.
    symbol: Option<u32>,
    path: usize,
    tree: usize,
    program: usize,
    // The refusal of compile or derive, 0 where there is a program.
    refusal: usize,
    inputs: usize,
    registers: usize,
    held: f64,
    calls: usize,
    node: Option<usize>,
}

impl Replayed for Head {
    fn read(head: &[u8]) -> Head {
        let mut record = Record::new(head);
        Head {
            formula: record.cell(),
            names: record.cell(),
            symbol: u32::try_from(record.cell::<u64>()).ok(),
            path: record.cell(),
            tree: record.cell(),
            program: record.cell(),
            refusal: record.cell(),
            inputs: record.cell(),
            registers: record.cell(),
            held: record.cell(),
            calls: record.cell(),
            node: record.cell::<usize>().checked_sub(1),
        }
    }

    fn is_right(self, stdin: Stdin) -> Option<bool> {
        let mut formula = [0; 8192];
        let mut names = [0; 8192];
        let mut tree = [0; 8192];
        let mut list = [0; 4096];
        let mut program = [0; 65536];
        let mut registers = [0.0; 256];
        let mut path = [0; 8200];
        let formula = take(stdin, &mut formula, self.formula)?;
        let names = take(stdin, &mut names, self.names)?;
        let mut slices = Slices {
            tree: cut(&mut tree, self.tree),
            list: cut(&mut list, self.tree / 2),
            program: cut(&mut program, self.program),
            registers: cut(&mut registers, self.registers),
            path: cut(&mut path, self.path),
        };
        let mut inputs = [0.0; 256];
        let inputs = cut(&mut inputs, self.inputs);
        take_cells(stdin, inputs)?;
        let mut calls = [Call::default(); 16];
        let calls = calls.get_mut(..self.calls)?;
        read_calls(stdin, calls)?;
        let case = Case {
            head: self,
            formula,
            names,
            inputs,
            calls,
        };
        are_beginnings(stdin, &case, &mut slices)
    }

    fn calls(self) -> u64 {
        self.calls as u64
    }
}

// So much of the start of a slice, or all of it where a case asks for more.
fn cut<T>(slice: &mut [T], n: usize) -> &mut [T] {
    let n = n.min(slice.len());
    &mut slice[..n]
}

// A list of calls, and what it is played on.
#[derive(Clone, Copy)]
struct Case<'a> {
    head: Head,
    formula: &'a [u8],
    names: &'a [u8],
    inputs: &'a [f64],
    calls: &'a [Call],
}

// What a list writes.
#[derive(Drop)]
struct Slices<'a> {
    tree: &'a mut [u8],
    list: &'a mut [u8],
    program: &'a mut [u8],
    registers: &'a mut [f64],
    path: &'a mut [u8],
}

fn refill(slices: &mut Slices, held: f64) {
    slices.tree.fill(FILL);
    slices.list.fill(FILL);
    slices.program.fill(FILL);
    slices.registers.fill(held);
    slices.path.fill(FILL);
}

// A program's own, not a `From` of demand's: an Option of a number is how the record has it, and no host has one.
fn wanted<S>(symbol: Option<S>) -> Wanted<S> {
    match symbol {
        Some(symbol) => Wanted::Derivative(symbol),
        None => Wanted::Formula,
    }
}

// What is recorded of a list's last call: its answer, the cells after it, the path's text and the registers.
#[derive(Drop)]
struct Last<'a> {
    answer: usize,
    cells: [u64; 16],
    text: &'a [u8],
    registers: &'a [u8],
}

// Whether registers and path slice are as recorded. A call writes to the 8,192 bytes that it was lent, compile and derive write to
// the whole slice.
fn is_after(last: &Last, refusal: usize, slices: &Slices) -> bool {
    let registers = &*slices.registers;
    let path = &*slices.path;
    let room = if refusal == 0 {
        path.len().min(8192)
    } else {
        path.len()
    };
    let (lent, rest) = path.split_at(room);
    same(last.registers, registers) && is_left(lent, last.text, false) && holds(rest, &[], FILL)
}

// ---- by the machine's own state

// Whether an answer is as recorded: its number, and the question or the value in the cells.
fn is_answer(last: &Last, answer: Answer) -> bool {
    let [.., function, first, second, _, value] = last.cells;
    match answer {
        Answer::Value(v) => last.answer == 0 && bits_of(v) == value,
        Answer::Question(Question::Elementary(f, x)) => {
            last.answer == 100 && function == 1 + u64::from(f) && bits_of(x) == first
        }
        Answer::Question(Question::Power(x, y)) => {
            last.answer == 100 && function == 17 && bits_of(x) == first && bits_of(y) == second
        }
        Answer::Spent => last.answer == 101,
        Answer::Domain(_) => last.answer == 9,
        Answer::Refused(refusal) => last.answer == usize::from(refusal.number()),
    }
}

// A refused call completes nothing, and leaves the cells' count.
fn is_count(last: &Last, reply: Reply) -> bool {
    let [.., count, _] = last.cells;
    match reply.answer {
        Answer::Refused(_) => reply.count == 0,
        _ => reply.count as u64 == count,
    }
}

fn is_played(last: &Last, head: &Head, played: Result<Reply, Refusal>) -> bool {
    match played {
        Ok(reply) => head.refusal == 0 && is_answer(last, reply.answer) && is_count(last, reply),
        Err(refusal) => {
            usize::from(refusal.number()) == head.refusal && refusal.node() == head.node
        }
    }
}

fn as_played(last: &Last, case: &Case, slices: &mut Slices) -> bool {
    let head = case.head;
    refill(slices, head.held);
    let played = demand::make_and_play(
        case.formula,
        case.names,
        wanted(head.symbol.map(|symbol| symbol as usize)),
        slices.tree,
        slices.list,
        slices.program,
        case.inputs,
        slices.registers,
        slices.path,
        case.calls,
    );
    is_played(last, &head, played) && is_after(last, head.refusal, slices)
}

// ---- by the library's functions

fn as_hosted(last: &Last, case: &Case, slices: &mut Slices) -> bool {
    let head = case.head;
    refill(slices, head.held);
    let mut cells = [0u64; 16];
    let mut report = [HELD; 8];
    let answer = hosted::make_and_call(
        case.formula,
        case.names,
        wanted(head.symbol),
        slices.tree,
        slices.list,
        slices.program,
        case.inputs,
        slices.registers,
        slices.path,
        case.calls,
        &mut cells,
        &mut report,
    );
    answer == last.answer
        && is_reported(&report, head.node.unwrap_or(0) as u64)
        && cells == last.cells
        && is_after(last, head.refusal, slices)
}

// ---- lists

// Whether a list whose last call's record comes next is as recorded, played both ways.
fn is_beginning(stdin: Stdin, case: &Case, slices: &mut Slices) -> Option<bool> {
    let mut row = [0; 144];
    let mut text = [0; 2048];
    let mut registers = [0; 2048];
    let mut record = Record::new(take(stdin, &mut row, 144)?);
    let answer = record.cell();
    let mut cells = [0u64; 16];
    record.cells(&mut cells);
    let text = take(stdin, &mut text, record.cell())?;
    let length = slices.registers.len().checked_mul(8)?;
    let last = Last {
        answer,
        cells,
        text,
        registers: take(stdin, &mut registers, length)?,
    };
    Some(as_played(&last, case, slices) && as_hosted(&last, case, slices))
}

// Whether every beginning of the list is as recorded.
fn are_beginnings(stdin: Stdin, case: &Case, slices: &mut Slices) -> Option<bool> {
    for k in 0..case.calls.len() {
        let beginning = Case {
            calls: &case.calls[0..k + 1],
            ..*case
        };
        if !is_beginning(stdin, &beginning, slices)? {
            return Some(false);
        }
    }
    Some(true)
}

// Reads the calls of a list: each one's path room, each one's budget, a byte each for whether a value is supplied, and the values.
fn read_calls(stdin: Stdin, calls: &mut [Call]) -> Option<()> {
    let mut numbers = [0; 16];
    let mut flags = [0; 16];
    let mut values = [0.0; 16];
    let numbers = numbers.get_mut(..calls.len())?;
    let values = values.get_mut(..calls.len())?;
    take_cells(stdin, numbers)?;
    for (call, room) in calls.iter_mut().zip(numbers.iter()) {
        call.room = *room;
    }
    take_cells(stdin, numbers)?;
    for (call, budget) in calls.iter_mut().zip(numbers.iter()) {
        call.budget = *budget;
    }
    let flags = take(stdin, &mut flags, calls.len())?;
    take_cells(stdin, values)?;
    for ((call, flag), value) in calls.iter_mut().zip(flags).zip(values.iter()) {
        call.supplied = (*flag != 0).then_some(*value);
    }
    Some(())
}

fn main(rt: HostRuntime) -> io::Result<()> {
    cases::replay_all::<Head>(rt.stdin(), rt.stdout(), &mut [0; 96])
}
