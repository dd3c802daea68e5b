#![tactic(auto)]
// Replays recorded lists of calls, refused ones among them, and compares each reply, the registers and the path slice
// with the record. tools/runs/make_run_cases.py made it from an executable model of document 01, whose values, questions and
// Domains agree with the Rust reference's.
//
// Standard input is cells of 8 bytes, the least first. The first is the number of lists. A list has the program's length
// in bytes, the numbers of inputs, registers and calls, then those bytes, inputs and registers. A call has 14 cells, the
// text that the path slice begins with, and the registers after it.
use cases::{Call, Cell, FILL, Kind, Record, Tally, is_left};
use floats::value::bits_of;
use run::{Answer, Reply, State};
use std::io;
use std::io::Stdout;
use work::Question;

// ---- the record

// So many bytes of a record are read at most; so long are a path slice and its text.
const RECORD: usize = 131_072;

const LONGEST: usize = 8200;

// A record from one of its cells on. Places are counted in cells and wrap around; past the end the record goes on in zeros.
#[derive(Clone, Copy)]
struct Cells<'a> {
    // The record, with zeros for one text more behind it.
    bytes: &'a [u8],
    at: usize,
}

impl<'a> Cells<'a> {
    // Where the next byte stands, or the zeros behind the record.
    fn place(self) -> usize {
        8 * self.at.min(RECORD / 8)
    }

    // The next n bytes; none where they are more than the longest text.
    fn text(self, n: usize) -> Option<&'a [u8]> {
        let after = self.bytes.get(self.place()..)?;
        after.get(..LONGEST)?.get(..n)
    }

    // Those of the next n bytes that stand in the record; none of them where their end wraps around.
    fn recorded(self, n: usize) -> &'a [u8] {
        let from = self.place();
        let end = from.wrapping_add(n).min(RECORD);
        self.bytes.get(from..end).unwrap_or(&[])
    }

    fn cell<T: Cell>(&mut self) -> T {
        let after = self.bytes.get(self.place()..).unwrap_or(&[]);
        self.skip(1);
        Record::new(after).cell()
    }

    // Reads as many cells as there is room for.
    fn cells<T: Cell>(&mut self, out: &mut [T]) {
        for place in out.iter_mut() {
            *place = self.cell();
        }
    }

    fn skip(&mut self, n: usize) {
        self.at = self.at.wrapping_add(n);
    }

    // Behind text of n bytes and what fills it up to cells, one byte at least.
    fn skip_text(&mut self, n: usize) {
        self.skip(n / 8 + 1);
    }
}

fn three(cells: &mut Cells) -> [u64; 3] {
    let mut three = [0; 3];
    cells.cells(&mut three);
    three
}

// ---- a call

// Any number but 0 and 2 is a resume without a value.
fn read_call(cells: &mut Cells) -> Call {
    let number: u64 = cells.cell();
    let room = cells.cell();
    let budget = cells.cell();
    let value = cells.cell();
    let kind = match number {
        0 => Kind::Run,
        2 => Kind::Answer(value),
        _ => Kind::Resume,
    };
    Call { kind, room, budget }
}

// What is recorded after a call; no text where it is longer than every path slice.
#[derive(Drop)]
struct After<'a> {
    answer: [u64; 3],
    count: usize,
    position: usize,
    kept: usize,
    pending: [u64; 3],
    text: Option<&'a [u8]>,
    registers: Cells<'a>,
}

impl<'a> After<'a> {
    // Leaves the record behind the registers, of which there are so many.
    fn read(cells: &mut Cells<'a>, registers: usize) -> After<'a> {
        let answer = three(cells);
        let count = cells.cell();
        let position = cells.cell();
        let kept = cells.cell();
        let pending = three(cells);
        let length = cells.cell();
        let text = cells.text(length);
        cells.skip_text(length);
        let after = After {
            answer,
            count,
            position,
            kept,
            pending,
            text,
            registers: *cells,
        };
        cells.skip(registers);
        after
    }

    // Whether a path slice is as recorded.
    fn is_path(&self, path: &[u8]) -> bool {
        self.text.is_some_and(|text| is_left(path, text, false))
    }

    // Whether registers are as recorded, bit for bit.
    fn are_registers(&self, registers: &[f64]) -> bool {
        let mut recorded = self.registers;
        for register in registers {
            if bits_of(*register) != recorded.cell::<u64>() {
                return false;
            }
        }
        true
    }
}

// A question and an answer as recorded: the case and two numbers.
fn asked(question: Question) -> [u64; 3] {
    match question {
        Question::Elementary(f, x) => [1, u64::from(f), bits_of(x)],
        Question::Power(x, y) => [2, bits_of(x), bits_of(y)],
    }
}

fn told(answer: Answer) -> [u64; 3] {
    match answer {
        Answer::Value(v) => [0, bits_of(v), 0],
        Answer::Question(question) => asked(question),
        Answer::Spent => [3, 0, 0],
        Answer::Domain(_) => [4, 9, 0],
        Answer::Refused(refusal) => [4, u64::from(refusal.number()), 0],
    }
}

fn same_reply(after: &After, reply: Reply) -> bool {
    let state = reply.state;
    let pending = state.pending.map_or([0; 3], asked);
    told(reply.answer) == after.answer
        && reply.count == after.count
        && state.position == after.position
        && state.kept.count == after.kept
        && pending == after.pending
}

fn reply_to(
    call: &Call,
    program: &[u8],
    inputs: &[f64],
    registers: &mut [f64],
    path: &mut [u8],
    state: State,
) -> Reply {
    let budget = call.budget;
    let supplied = match call.kind {
        Kind::Run => return run::run(program, inputs, registers, path, budget),
        Kind::Resume => None,
        Kind::Answer(value) => Some(value),
    };
    run::resume(program, inputs, registers, path, budget, state, supplied)
}

// Whether the next call is as recorded. One that asks for a longer path than there is room for is made with all the room, and is not as recorded.
// Leaves the state after it.
fn is_right(
    call: &Call,
    after: &After,
    program: &[u8],
    inputs: &[f64],
    registers: &mut [f64],
    state: &mut State,
) -> bool {
    let mut path = [FILL; LONGEST];
    let path = &mut path[..call.room.min(LONGEST)];
    let reply = reply_to(call, program, inputs, registers, path, *state);
    *state = reply.state;
    call.room <= LONGEST
        && same_reply(after, reply)
        && after.is_path(path)
        && after.are_registers(registers)
}

// ---- lists of calls

// So many inputs and registers a list has at most.
const MOST: usize = 64;

#[derive(Clone, Copy)]
struct List<'a> {
    program: &'a [u8],
    inputs: usize,
    registers: usize,
    calls: u64,
    // From the first input on.
    cells: Cells<'a>,
}

impl<'a> List<'a> {
    // Leaves the record behind the program, inputs and registers.
    fn read(cells: &mut Cells<'a>) -> List<'a> {
        let length = cells.cell();
        let inputs = cells.cell();
        let registers = cells.cell();
        let calls = cells.cell();
        let program = cells.recorded(length);
        cells.skip_text(length);
        let list = List {
            program,
            inputs,
            registers,
            calls,
            cells: *cells,
        };
        cells.skip(inputs);
        cells.skip(registers);
        list
    }

    // The inputs and the registers at its start, as many as there is room for.
    fn start(self, inputs: &mut [f64], registers: &mut [f64]) {
        let mut cells = self.cells;
        cells.cells(inputs);
        cells = self.cells;
        cells.skip(self.inputs);
        cells.cells(registers);
    }
}

// Counts the calls of the next list, and one more, otherwise than recorded, where it has more inputs or registers than there is room for.
fn count_list(stdout: Stdout, cells: &mut Cells, tally: &mut Tally) -> io::Result<()> {
    let list = List::read(cells);
    if list.inputs > MOST || list.registers > MOST {
        tally.count(stdout, false, 0)?;
    }
    let mut inputs = [0.0; MOST];
    let mut registers = [0.0; MOST];
    let inputs = &mut inputs[..list.inputs.min(MOST)];
    let registers = &mut registers[..list.registers.min(MOST)];
    list.start(inputs, registers);
    let mut state = State::fresh();
    for _ in 0..list.calls {
        let call = read_call(cells);
        let after = After::read(cells, registers.len());
        let right = is_right(&call, &after, list.program, inputs, registers, &mut state);
        tally.count(stdout, right, 0)?;
    }
    Ok(())
}

fn main(rt: HostRuntime) -> io::Result<()> {
    let stdout = rt.stdout();
    let mut room = [0; RECORD + LONGEST];
    cases::read_full(rt.stdin(), &mut room[..RECORD]);
    let mut cells = Cells {
        bytes: &room,
        at: 0,
    };
    let mut tally = Tally::default();
    let lists: u64 = cells.cell();
    for _ in 0..lists {
        count_list(stdout, &mut cells, &mut tally)?;
    }
    println!(stdout; "{} calls", tally.cases)?;
    tally.verdict(stdout)
}
