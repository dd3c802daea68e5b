#![tactic(auto)]
// The library: compile, derive, run and resume over numbers and slices. The crate vebrostin_c gives each to C and Rust under its C name.
// No caller owes anything but slices that are there. Their parameters are C's, and a state is sixteen numbers at places that C
// knows; the functions behind them take the same.
ghost use Rattle.std.specs.Prelude.{◌≡◌, true, false, ◌||◌, [], ◌∷◌, ◌++◌, ◌+◌, ◌<◌, ◌≤◌, drop, get_or, length, ltb, set, IfSome};
ghost use Rattle.std.proofs.Math.Option.{none, some};
ghost use Rattle.refusals.specs.Refusals as refusals;
ghost use Rattle.formula.specs.Text.{word_at};
ghost use Rattle.formula.specs.Path.{placed};
ghost use Rattle.machine.specs.Program.{valid};
ghost use Rattle.machine.specs.Machine.{place_of};
ghost use Rattle.layout.specs.Decode.{code_count, program_at};
ghost use Rattle.work.specs.View.{kept_values, question_of};
ghost use Rattle.run.specs.Views.{answer_of, pending_of, state_of, supplied_of};
ghost use Rattle.run.specs.Calls.{after, resume_at, run_at, steps_at, unfit_at};
ghost use Rattle.vebrostin.specs.Cells.{ArgumentsBack, Askable, ComesBack, Held, bits, kept_in, number_of, padded, question_cells, question_in, state_cells, state_in, value_at, value_cell};
ghost use Rattle.derive.specs.Outcome.{lengths};
ghost use Rattle.vebrostin.specs.Calls.{Answers, Carries, Compiles, Derives, Ends, Leaves, PutsOnly, compile_outcome, derive_outcome, node_place, resume_outcome, run_outcome, Settles, short, told_node, told_number};

use floats::value::{bits_of, is_finite, of_bits};
use instruction::value_at;
use layout::opcode::EXP;
use layout::{
    A_AT, B_AT, CODE_AT, DESTINATION_AT, HEADER_SIZE, INPUTS_AT, REGISTERS_AT, RESULT_AT, SLOT_SIZE,
};
use reader::{known_word, word};
use refusals::Refusal;
use run::{Answer, Place, Reply, State};
use std::array;
use work::{Kept, Question};

// Numbers that a report needs, its place for the node of a refusal, and the cells of a state.
pub const REPORT_LENGTH: usize = 8;

pub const NODE_PLACE: usize = 0;

pub const STATE_LENGTH: usize = 16;

// What a call answers that neither gives a value, which is 0, nor is refused.
const PUT: usize = 100;

const SPENT: usize = 101;

// The cell of a question has Power's number, or one more than a function's.
const POWER: u64 = 17;

fn number(refusal: Refusal) -> usize
    ensures { result ≡ refusals.number_of refusal }
{
    usize::from(refusal.number())
}

// ---- programs

// Puts the node of a refusal into the report, 0 where there is none, and tells its number, 0 where nothing is refused.
fn told<T: Drop>(given: Result<T, Refusal>, report: &mut [u64]) -> usize
    requires { 0 < length report.old }
    ensures number { result ≡ told_number given }
    ensures node { report.new ≡ set report.old node_place (told_node given) }
{
    let refusal = given.err();
    report[NODE_PLACE] = refusal.and_then(|refusal| refusal.node()).unwrap_or(0) as u64;
    refusal.map_or(0, number)
}

// 0 and a program, or the refusal, with its node in the report.
pub fn vebrostin_compile(
    formula: &[u8],
    names: &[u8],
    path: &mut [u8],
    program: &mut [u8],
    report: &mut [u64],
) -> usize
    ensures { Compiles (compile_outcome formula.now names.now (length path.old) (length program.old) report.old) result path.old path.new program.old program.new report.old report.new }
{
    if report.len() < REPORT_LENGTH {
        return number(Refusal::SliceTooShort);
    }
    told(compile::compile(formula, names, path, program), report)
}

// 0, a derivative tree, the records of its nodes and its program, or the refusal, with its node in the report.
pub fn vebrostin_derive(
    formula: &[u8],
    names: &[u8],
    symbol: u32,
    path: &mut [u8],
    tree: &mut [u8],
    list: &mut [u8],
    program: &mut [u8],
    report: &mut [u64],
) -> usize
    ensures { Derives (derive_outcome formula.now names.now symbol (length path.old) (lengths tree.old list.old program.old) report.old) result path.old path.new tree.old tree.new list.old list.new program.old program.new report.old report.new }
{
    if report.len() < REPORT_LENGTH {
        return number(Refusal::SliceTooShort);
    }
    let given = derive::derive(formula, names, symbol as usize, path, tree, list, program);
    told(given, report)
}

// Whether run and resume take the bytes.
pub fn vebrostin_is_program(program: &[u8]) -> bool
    ensures { result ≡ valid (program_at program.now) }
{
    program::is_program(program)
}

// The counts of a program's header.
pub fn vebrostin_instructions(program: &[u8]) -> usize
    ensures { result ≡ word_at program.now 4 }
{
    reader::word(program, CODE_AT)
}

pub fn vebrostin_registers(program: &[u8]) -> usize
    ensures { result ≡ word_at program.now 8 }
{
    reader::word(program, REGISTERS_AT)
}

pub fn vebrostin_inputs(program: &[u8]) -> usize
    ensures { result ≡ word_at program.now 16 }
{
    reader::word(program, INPUTS_AT)
}

// ---- a state as cells

// 0 past the end.
fn cell(cells: &[u64], i: usize) -> u64
    ensures { result ≡ get_or cells.now i 0 }
{
    cells.get(i).copied().unwrap_or(0)
}

fn value_in(cells: &[u64], i: usize) -> f64
    ensures { result ≡ value_at cells.now i }
{
    of_bits(cell(cells, i))
}

// 0 is none, 17 Power, any other number one more than a function's; 255 is no function's number.
fn question_in(question: u64, first: u64, second: u64) -> Option<Question>
    ensures { pending_of result ≡ question_in question first second }
{
    let x = of_bits(first);
    match question {
        0 => None,
        POWER => Some(Question::Power(x, of_bits(second))),
        _ => {
            let function = u8::try_from(question - 1).unwrap_or(255);
            Some(Question::Elementary(function, x))
        }
    }
}

fn kept_in(cells: &[u64]) -> Kept
    ensures { kept_values result ≡ kept_in cells.now }
{
    Kept {
        count: cell(cells, 1) as usize,
        values: array::from_fn(|i| value_in(cells, 2 + i)),
    }
}

fn state_in(cells: &[u64]) -> State
    ensures { state_of result ≡ state_in cells.now }
{
    State {
        position: cell(cells, 0) as usize,
        kept: kept_in(cells),
        pending: question_in(cell(cells, 11), cell(cells, 12), cell(cells, 13)),
    }
}

// A value's bits, from which it is read again.
#[tactic(auto, using(crate::proofs::Crossing::comes_back))]
fn value_bits(x: f64) -> u64
    ensures { (result ≡ bits x) × ComesBack x }
{
    bits_of(x)
}

fn question_cells(pending: Option<Question>) -> [u64; 3]
    ensures { (result ≡ question_cells (pending_of pending)) × ArgumentsBack (pending_of pending) }
{
    match pending {
        None => [0, 0, 0],
        Some(Question::Elementary(f, x)) => [1 + u64::from(f), value_bits(x), 0],
        Some(Question::Power(x, y)) => [POWER, value_bits(x), value_bits(y)],
    }
}

fn value_of(answer: Answer) -> u64
    ensures { result ≡ value_cell (answer_of [] answer) }
{
    match answer {
        Answer::Value(value) => bits_of(value),
        _ => 0,
    }
}

fn number_of(answer: Answer) -> usize
    ensures { result ≡ number_of (answer_of [] answer) }
{
    match answer {
        Answer::Value(_) => 0,
        Answer::Question(_) => PUT,
        Answer::Spent => SPENT,
        Answer::Domain(_) => number(Refusal::OutsideDomain),
        Answer::Refused(refusal) => number(refusal),
    }
}

// The values kept, nine at most.
fn values_of(kept: &Kept) -> &[f64]
    ensures { (result.now ≡ kept_values kept.now) × (length result.now ≤ 9) }
{
    &kept.values[..kept.count.min(9)]
}

// Writes all sixteen cells: a state's by its parts, nine values kept at most, then a count and a value. The row is copied
// cell by cell: `copy_from_slice` reads it back from memory (a run of 24 questions 17,129 machine instructions for 16,433).
fn put(
    cells: &mut [u64],
    position: usize,
    values: &[f64],
    pending: Option<Question>,
    count: usize,
    value: u64,
)
    requires { (16 ≤ length cells.old) × (length values.now ≤ 9) }
    ensures cells { cells.new ≡ (state_cells (record { position = position; kept = values.now; pending = pending_of pending }) ++ (count ∷ value ∷ [])) ++ drop 16 cells.old }
    ensures state { Askable (pending_of pending) → state_in cells.new ≡ record { position = position; kept = values.now; pending = pending_of pending } }
{
    let [question, first, second] = question_cells(pending);
    let mut row = [
        position as u64,
        values.len() as u64,
        0,
        0,
        0,
        0,
        0,
        0,
        0,
        0,
        0,
        question,
        first,
        second,
        count as u64,
        value,
    ];
    for (i, kept) in values.iter().enumerate() {
        row[2 + i] = value_bits(*kept);
    }
    for place in 0..16 {
        cells[place] = row[place];
    }
}

// Writes a reply's cells, and tells its number.
fn put_reply(cells: &mut [u64], reply: Reply) -> usize
    requires { 16 ≤ length cells.old }
    ensures number { result ≡ number_of (answer_of [] reply.answer) }
    ensures cells { cells.new ≡ (state_cells (state_of reply.state) ++ (reply.count ∷ value_cell (answer_of [] reply.answer) ∷ [])) ++ drop 16 cells.old }
    ensures state { Askable (pending_of reply.state.pending) → state_in cells.new ≡ state_of reply.state }
{
    let state = reply.state;
    let kept = state.kept;
    let value = value_of(reply.answer);
    put(
        cells,
        state.position,
        values_of(&kept),
        state.pending,
        reply.count,
        value,
    );
    number_of(reply.answer)
}

// ---- calls that keep nothing, straight on the cells

// Whether 1 or 5 refuses a call.
fn is_early(program: &[u8], inputs: &[f64], registers: &[f64], room: usize, budget: usize) -> bool
    ensures { result ≡ (ltb room 8192 || unfit_at inputs.now program.now registers.now budget) }
{
    room < 8192 || run::unfit(program, inputs, registers, budget)
}

// The question of an instruction that puts no other: Power's within its domain, or a function's that the host answers.
// It and `ends` stand in line where they are called: with calls, 24 questions take 19,046 machine instructions for 16,433.
#[tactic(auto, using(run::proofs::Looping::code_small, instruction::proofs::Once::power_puts, instruction::proofs::Once::power_takes, instruction::proofs::Once::function_puts, instruction::proofs::Once::function_takes, instruction::proofs::Once::function_range))]
#[inline(always)]
fn question_at(program: &[u8], registers: &[f64], at: usize) -> Option<Question>
    requires { at < code_count program.now }
    ensures { IfSome result (PutsOnly program.now registers.now at) }
{
    let slot = HEADER_SIZE + SLOT_SIZE * at;
    if program.len() < slot + SLOT_SIZE {
        return None;
    }
    let op = program[slot];
    let x = value_at(registers, known_word(program, slot + A_AT));
    let y = value_at(registers, known_word(program, slot + B_AT));
    if work::puts_power(op, x, y) {
        return Some(Question::Power(x, y));
    }
    if work::puts_function(op) {
        return Some(Question::Elementary(op - EXP as u8, x));
    }
    None
}

// Ends a call that came to a place, nothing kept, with so many instructions completed. No state and no reply is made where
// the end can be told at once: they take most of the time of a short run or an answer.
#[inline(always)]
fn ends(
    program: &[u8],
    inputs: &[f64],
    registers: &mut [f64],
    path: &mut [u8],
    cells: &mut [u64],
    count: usize,
    place: Place,
) -> usize
    requires { (16 ≤ length cells.old) × (8192 ≤ length path.old) × (count + place.left < 18446744073709551616) }
    ensures reply { Ends (after count (steps_at inputs.now program.now place.left place.at [] registers.old)) result cells.old cells.new registers.new }
    ensures place { valid (program_at program.now) ≡ true → path.new ≡ placed (place_of (after count (steps_at inputs.now program.now place.left place.at [] registers.old)).answer) path.old }
{
    let code = word(program, CODE_AT);
    if code <= place.at {
        let value = value_at(registers, word(program, RESULT_AT));
        put(cells, code, &[], None, count, bits_of(value));
        return 0;
    }
    if place.left == 0 {
        put(cells, place.at, &[], None, count, 0);
        return SPENT;
    }
    if let Some(question) = question_at(program, registers, place.at) {
        put(cells, place.at, &[], Some(question), count, 0);
        return PUT;
    }
    let reply = run::rest(program, inputs, registers, path, count, place);
    put_reply(cells, reply)
}

// Whether the cells hold this question.
fn is_pending(cells: &[u64], pending: Question) -> bool
    requires { 16 ≤ length cells.now }
    ensures { result ≡ true → Askable (some (question_of pending)) → (state_in cells.now).pending ≡ some (question_of pending) }
{
    let [question, first, second] = question_cells(Some(pending));
    cells[11] == question && cells[12] == first && cells[13] == second
}

// Whether the value is the result of the instruction whose question pends, nothing kept. Where it isn't, the long way
// tells why.
fn is_answer(program: &[u8], registers: &[f64], cells: &[u64], value: f64) -> bool
    requires { 16 ≤ length cells.now }
    ensures { result ≡ true → Answers program.now registers.now cells.now value }
{
    let at = cells[0] as usize;
    if word(program, CODE_AT) <= at || cells[1] != 0 || !is_finite(value) {
        return false;
    }
    question_at(program, registers, at).is_some_and(|question| is_pending(cells, question))
}

// The same of a call that neither 1 nor 5 refuses.
fn is_direct(
    program: &[u8],
    inputs: &[f64],
    registers: &[f64],
    room: usize,
    budget: usize,
    cells: &[u64],
    value: f64,
) -> bool
    requires { 16 ≤ length cells.now }
    ensures { result ≡ true → (8192 ≤ room) × (unfit_at inputs.now program.now registers.now budget ≡ false) × Answers program.now registers.now cells.now value }
{
    !is_early(program, inputs, registers, room, budget)
        && is_answer(program, registers, cells, value)
}

// ---- runs

// Whether the cells or the report have fewer numbers than a run needs. Behind this test cells are a slice still: of an array of the sixteen
// each function that tests would show besides that what follows them stays, and a run without the check would be two, with all clauses twice.
fn is_short(cells: &[u64], report: &[u64]) -> bool
    ensures { result ≡ short cells.now report.now }
{
    report.len() < REPORT_LENGTH || cells.len() < STATE_LENGTH
}

// 0 and a value, 100 and a question, 101 for spent, or the refusal; the state, the count and the value stand in the cells.
#[tactic(auto, using(crate::proofs::Outcomes::run_short))]
pub fn vebrostin_run(
    program: &[u8],
    inputs: &[f64],
    registers: &mut [f64],
    path: &mut [u8],
    budget: usize,
    cells: &mut [u64],
    report: &mut [u64],
) -> usize
    ensures outcome { Leaves (run_outcome inputs.now program.now budget registers.old cells.old path.old report.old) result cells.new registers.new path.new report.new }
    ensures state { Carries cells.new report.new (run_at inputs.now program.now (length path.old) budget registers.old) }
{
    if is_short(cells, report) {
        return number(Refusal::SliceTooShort);
    }
    if run::goes_on(program, path.len()) {
        return vebrostin_run_unchecked(program, inputs, registers, path, budget, cells, report);
    }
    put(cells, 0, &[], None, 0, 0);
    number(Refusal::NoProgram)
}

#[tactic(auto, using(run::proofs::Whole::unsettled, crate::proofs::Outcomes::resume_short, crate::proofs::Outcomes::resume_ten))]
fn resumed(
    program: &[u8],
    inputs: &[f64],
    registers: &mut [f64],
    path: &mut [u8],
    budget: usize,
    cells: &mut [u64],
    report: &mut [u64],
    supplied: Option<f64>,
) -> usize
    ensures outcome { Leaves (resume_outcome inputs.now program.now budget (supplied_of supplied) registers.old cells.old path.old report.old) result cells.new registers.new path.new report.new }
    ensures state { Carries cells.new report.new (resume_at inputs.now program.now (length path.old) budget (supplied_of supplied) (state_in cells.old) registers.old) }
{
    if is_short(cells, report) {
        return number(Refusal::SliceTooShort);
    }
    if run::goes_on(program, path.len()) {
        return resumed_unchecked(
            program, inputs, registers, path, budget, cells, report, supplied,
        );
    }
    number(Refusal::NoProgram)
}

// Goes on with no value: a question that pends is put again.
pub fn vebrostin_resume(
    program: &[u8],
    inputs: &[f64],
    registers: &mut [f64],
    path: &mut [u8],
    budget: usize,
    cells: &mut [u64],
    report: &mut [u64],
) -> usize
    ensures outcome { Leaves (resume_outcome inputs.now program.now budget none registers.old cells.old path.old report.old) result cells.new registers.new path.new report.new }
    ensures state { Carries cells.new report.new (resume_at inputs.now program.now (length path.old) budget none (state_in cells.old) registers.old) }
{
    resumed(
        program, inputs, registers, path, budget, cells, report, None,
    )
}

// Goes on with the value for the question that pends.
pub fn vebrostin_answer(
    program: &[u8],
    inputs: &[f64],
    registers: &mut [f64],
    path: &mut [u8],
    budget: usize,
    cells: &mut [u64],
    report: &mut [u64],
    value: f64,
) -> usize
    ensures outcome { Leaves (resume_outcome inputs.now program.now budget (some value) registers.old cells.old path.old report.old) result cells.new registers.new path.new report.new }
    ensures state { Carries cells.new report.new (resume_at inputs.now program.now (length path.old) budget (some value) (state_in cells.old) registers.old) }
{
    resumed(
        program,
        inputs,
        registers,
        path,
        budget,
        cells,
        report,
        Some(value),
    )
}

// ---- runs without the check

// As `vebrostin_run`, without the check of the bytes: where they are a program, or a slice is too short, it is that.
// Otherwise it ends too and stays inside the slices; what it answers and leaves in them, but for the report, is free.
#[tactic(auto, using(crate::proofs::Outcomes::run_short))]
pub fn vebrostin_run_unchecked(
    program: &[u8],
    inputs: &[f64],
    registers: &mut [f64],
    path: &mut [u8],
    budget: usize,
    cells: &mut [u64],
    report: &mut [u64],
) -> usize
    ensures outcome { Settles program.now path.old cells.old report.old → Leaves (run_outcome inputs.now program.now budget registers.old cells.old path.old report.old) result cells.new registers.new path.new report.new }
    ensures state { Settles program.now path.old cells.old report.old → Carries cells.new report.new (run_at inputs.now program.now (length path.old) budget registers.old) }
    ensures report { report.new ≡ report.old }
{
    if is_short(cells, report) {
        return number(Refusal::SliceTooShort);
    }
    if is_early(program, inputs, registers, path.len(), budget) {
        let reply = run::run_unchecked(program, inputs, registers, path, budget);
        return put_reply(cells, reply);
    }
    let start = Place {
        at: 0,
        left: budget,
    };
    let place = run::along(program, inputs, registers, start);
    let count = budget - place.left;
    ends(program, inputs, registers, path, cells, count, place)
}

#[tactic(auto, using(crate::proofs::Outcomes::resume_short))]
fn resumed_unchecked(
    program: &[u8],
    inputs: &[f64],
    registers: &mut [f64],
    path: &mut [u8],
    budget: usize,
    cells: &mut [u64],
    report: &mut [u64],
    supplied: Option<f64>,
) -> usize
    ensures outcome { Settles program.now path.old cells.old report.old → Leaves (resume_outcome inputs.now program.now budget (supplied_of supplied) registers.old cells.old path.old report.old) result cells.new registers.new path.new report.new }
    ensures state { Settles program.now path.old cells.old report.old → Carries cells.new report.new (resume_at inputs.now program.now (length path.old) budget (supplied_of supplied) (state_in cells.old) registers.old) }
    ensures report { report.new ≡ report.old }
{
    if is_short(cells, report) {
        return number(Refusal::SliceTooShort);
    }
    let before = state_in(cells);
    let reply = run::resume_unchecked(program, inputs, registers, path, budget, before, supplied);
    match reply.answer {
        Answer::Refused(refusal) => number(refusal),
        _ => put_reply(cells, reply),
    }
}

// As `vebrostin_resume`, without the check.
pub fn vebrostin_resume_unchecked(
    program: &[u8],
    inputs: &[f64],
    registers: &mut [f64],
    path: &mut [u8],
    budget: usize,
    cells: &mut [u64],
    report: &mut [u64],
) -> usize
    ensures outcome { Settles program.now path.old cells.old report.old → Leaves (resume_outcome inputs.now program.now budget none registers.old cells.old path.old report.old) result cells.new registers.new path.new report.new }
    ensures state { Settles program.now path.old cells.old report.old → Carries cells.new report.new (resume_at inputs.now program.now (length path.old) budget none (state_in cells.old) registers.old) }
    ensures report { report.new ≡ report.old }
{
    resumed_unchecked(
        program, inputs, registers, path, budget, cells, report, None,
    )
}

// As `vebrostin_answer`, without the check.
#[tactic(auto, using(run::proofs::Looping::code_small, crate::proofs::Outcomes::resume_short))]
pub fn vebrostin_answer_unchecked(
    program: &[u8],
    inputs: &[f64],
    registers: &mut [f64],
    path: &mut [u8],
    budget: usize,
    cells: &mut [u64],
    report: &mut [u64],
    value: f64,
) -> usize
    ensures outcome { Settles program.now path.old cells.old report.old → Leaves (resume_outcome inputs.now program.now budget (some value) registers.old cells.old path.old report.old) result cells.new registers.new path.new report.new }
    ensures state { Settles program.now path.old cells.old report.old → Carries cells.new report.new (resume_at inputs.now program.now (length path.old) budget (some value) (state_in cells.old) registers.old) }
    ensures report { report.new ≡ report.old }
{
    if is_short(cells, report) {
        return number(Refusal::SliceTooShort);
    }
    if is_direct(program, inputs, registers, path.len(), budget, cells, value) {
        let at = cells[0] as usize;
        let to = word(program, HEADER_SIZE + SLOT_SIZE * at + DESTINATION_AT);
        instruction::store(registers, to, value);
        let next = Place {
            at: at + 1,
            left: budget - 1,
        };
        let place = run::along(program, inputs, registers, next);
        let count = budget - place.left;
        return ends(program, inputs, registers, path, cells, count, place);
    }
    resumed_unchecked(
        program,
        inputs,
        registers,
        path,
        budget,
        cells,
        report,
        Some(value),
    )
}
