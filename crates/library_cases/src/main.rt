#![tactic(auto)]
// Replays calls of the library that tools/compare recorded: compile or derive with what each slice holds after, then runs of the
// program, cut by budgets, refused, and with forged states. The answers are the Rust reference's, and for budgets and states those
// of the model in tools/compare/machine.rs, whose whole runs agree with the reference's.
//
// Standard input has a record for each case; numbers are 8 bytes, the least first. A case has 18 numbers (`Head`), then formula,
// names, path text, tree, list of records and program, and for its calls the inputs. A call has 38 numbers: 0 for a run, 1 for a
// resume, 2 for one with a value, the path slice's length, budget, value, the state's cells before, the answer, the cells after,
// the length of the path's text; then that text and the registers before and after.
use cases::{
    Call, FILL, HELD, Kind, Record, Replayed, is_left, is_reported, same, take, take_cells,
};
use std::io;
use std::io::Stdin;
use vebrostin::{
    vebrostin_answer, vebrostin_compile, vebrostin_derive, vebrostin_resume, vebrostin_run,
};

#[derive(Clone, Copy)]
struct Head {
    formula: usize,
    names: usize,
    // The number of the symbol to derive by, if any.
    symbol: Option<u32>,
    path: usize,
    tree: usize,
    list: usize,
    program: usize,
    answer: usize,
    text: usize,
    tree_text: usize,
    list_text: usize,
    program_text: usize,
    tree_zero: bool,
    program_zero: bool,
    inputs: usize,
    registers: usize,
    calls: u64,
    node: u64,
}

impl Replayed for Head {
    fn read(head: &[u8]) -> Head {
        let mut record = Record::new(head);
        Head {
            formula: record.cell(),
            names: record.cell(),
            symbol: u32::try_from(record.cell::<u64>()).ok(),
            path: record.cell(),
            tree: record.cell(),
            list: record.cell(),
            program: record.cell(),
            answer: record.cell(),
            text: record.cell(),
            tree_text: record.cell(),
            list_text: record.cell(),
            program_text: record.cell(),
            tree_zero: record.cell::<u64>() == 1,
            program_zero: record.cell::<u64>() == 1,
            inputs: record.cell(),
            registers: record.cell(),
            calls: record.cell(),
            node: record.cell(),
        }
    }

    fn is_right(self, stdin: Stdin) -> Option<bool> {
        let head = &self;
        let mut formula = [0; 8192];
        let mut names = [0; 8192];
        let mut path = [0; 8200];
        let mut tree = [0; 8192];
        let mut list = [0; 4096];
        let mut program = [0; 65536];
        let formula = take(stdin, &mut formula, head.formula)?;
        let names = take(stdin, &mut names, head.names)?;
        let program = program.get_mut(..head.program)?;
        let slices = Slices {
            path: path.get_mut(..head.path)?,
            tree: tree.get_mut(..head.tree)?,
            list: list.get_mut(..head.list)?,
            program,
        };
        let made = is_made(stdin, head, formula, names, slices)?;
        Some(made && are_called(stdin, head, program, &mut path)?)
    }

    fn calls(self) -> u64 {
        self.calls
    }
}

// ---- compile and derive

// What compile and derive write.
#[derive(Drop)]
struct Slices<'a> {
    path: &'a mut [u8],
    tree: &'a mut [u8],
    list: &'a mut [u8],
    program: &'a mut [u8],
}

// Whether the answer of compile or derive is as recorded, and what it leaves. The list is zero wherever the tree is.
fn is_made(
    stdin: Stdin,
    head: &Head,
    formula: &[u8],
    names: &[u8],
    slices: Slices,
) -> Option<bool> {
    let Slices {
        path,
        tree,
        list,
        program,
    } = slices;
    path.fill(FILL);
    tree.fill(FILL);
    list.fill(FILL);
    program.fill(FILL);
    let mut report = [HELD; 8];
    let answer = match head.symbol {
        Some(symbol) => vebrostin_derive(
            formula,
            names,
            symbol,
            path,
            tree,
            list,
            program,
            &mut report,
        ),
        None => vebrostin_compile(formula, names, path, program, &mut report),
    };
    let mut text = [0; 16384];
    Some(
        answer == head.answer
            && is_reported(&report, head.node)
            && is_left(path, take(stdin, &mut text, head.text)?, false)
            && is_left(
                tree,
                take(stdin, &mut text, head.tree_text)?,
                head.tree_zero,
            )
            && is_left(
                list,
                take(stdin, &mut text, head.list_text)?,
                head.tree_zero,
            )
            && is_left(
                program,
                take(stdin, &mut text, head.program_text)?,
                head.program_zero,
            ),
    )
}

// ---- calls

// A call with the cells before it, and what is recorded after it.
#[derive(Clone, Copy)]
struct Recorded {
    call: Call,
    before: [u64; 16],
    answer: usize,
    after: [u64; 16],
    text: usize,
}

impl Recorded {
    fn read(record: &[u8]) -> Recorded {
        let mut record = Record::new(record);
        let call = Call::read(&mut record);
        let mut before = [0u64; 16];
        record.cells(&mut before);
        let answer = record.cell();
        let mut after = [0u64; 16];
        record.cells(&mut after);
        Recorded {
            call,
            before,
            answer,
            after,
            text: record.cell(),
        }
    }
}

fn called(
    call: Call,
    program: &[u8],
    inputs: &[f64],
    registers: &mut [f64],
    path: &mut [u8],
    cells: &mut [u64],
) -> usize {
    let mut report = [0u64; 8];
    let budget = call.budget;
    match call.kind {
        Kind::Run => vebrostin_run(program, inputs, registers, path, budget, cells, &mut report),
        Kind::Resume => vebrostin_resume(
            program,
            inputs,
            registers,
            path,
            budget,
            cells,
            &mut report,
        ),
        Kind::Answer(value) => vebrostin_answer(
            program,
            inputs,
            registers,
            path,
            budget,
            cells,
            &mut report,
            value,
        ),
    }
}

// Whether the next call is as recorded, on cells and registers that hold what the record has before it.
fn is_called(
    stdin: Stdin,
    program: &[u8],
    inputs: &[f64],
    registers: &mut [f64],
    path: &mut [u8],
) -> Option<bool> {
    let mut record = [0; 304];
    let mut text = [0; 512];
    let mut after = [0; 2048];
    let recorded = Recorded::read(take(stdin, &mut record, 304)?);
    let text = take(stdin, &mut text, recorded.text)?;
    take_cells(stdin, registers)?;
    let after = take(stdin, &mut after, registers.len().checked_mul(8)?)?;
    let path = path.get_mut(..recorded.call.room)?;
    path.fill(FILL);
    let mut cells = recorded.before;
    let answer = called(recorded.call, program, inputs, registers, path, &mut cells);
    Some(
        answer == recorded.answer
            && cells == recorded.after
            && is_left(path, text, false)
            && same(after, registers),
    )
}

// Whether the calls of a case are as recorded.
fn are_called(stdin: Stdin, head: &Head, program: &[u8], path: &mut [u8]) -> Option<bool> {
    let mut inputs = [0.0; 256];
    let mut registers = [0.0; 256];
    let inputs = inputs.get_mut(..head.inputs)?;
    let registers = registers.get_mut(..head.registers)?;
    take_cells(stdin, inputs)?;
    for _ in 0..head.calls {
        if !is_called(stdin, program, inputs, registers, path)? {
            return Some(false);
        }
    }
    Some(true)
}

fn main(rt: HostRuntime) -> io::Result<()> {
    cases::replay_all::<Head>(rt.stdin(), rt.stdout(), &mut [0; 144])
}
