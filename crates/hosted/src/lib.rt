#![tactic(auto)]
// Demand 3 for a host that has only the functions of `vebrostin`, which `vebrostin_c` gives under C names: compile or derive, then a list of calls that hand the cells on.
// Slices are handed on one by one, as those functions take them.
ghost use Rattle.std.specs.Prelude.{◌≡◌, false, length};
ghost use Rattle.run.specs.Calls.{resume_at};
ghost use Rattle.derive.specs.Outcome.{lengths};
ghost use Rattle.run.specs.Views.{supplied_of};
ghost use Rattle.demand.specs.Listed.{play_at};
ghost use Rattle.demand.specs.Made.{list_left, make, program_left, tree_left};
ghost use Rattle.vebrostin.specs.Cells.{state_in};
ghost use Rattle.vebrostin.specs.Calls.{Carries, Leaves, report_short, reported, resume_outcome, short, with_room};
ghost use Rattle.hosted.specs.Hosted.{asked, host_at, made_node};
ghost use Rattle.hosted.specs.Owed.{Follows, Makes, Owes};

use demand::Wanted;
use demand::calls::Call;
use vebrostin::{
    vebrostin_answer, vebrostin_compile, vebrostin_derive, vebrostin_resume, vebrostin_run,
};

// 0 and the program of the formula or of its derivative, or the refusal: a number, as the C interface has it, like cells and
// report, which are slices.
#[tactic(auto, using(crate::proofs::Owing::formula_done, crate::proofs::Owing::derivative_done))]
fn write_program(
    formula: &[u8],
    names: &[u8],
    wanted: Wanted<u32>,
    path: &mut [u8],
    tree: &mut [u8],
    list: &mut [u8],
    program: &mut [u8],
    report: &mut [u64],
) -> usize
    ensures made { Makes (asked report.old (make formula.now names.now wanted (length path.old) (lengths tree.old list.old program.old))) result path.old path.new × (report.new ≡ reported (made_node (asked report.old (make formula.now names.now wanted (length path.old) (lengths tree.old list.old program.old)))) report.old) }
    ensures written { (tree.new ≡ with_room (report_short report.old) tree.old (tree_left formula.now names.now wanted (length path.old) (lengths tree.old list.old program.old) tree.old)) × (list.new ≡ with_room (report_short report.old) list.old (list_left formula.now names.now wanted (length path.old) (lengths tree.old list.old program.old) list.old)) × (program.new ≡ with_room (report_short report.old) program.old (program_left formula.now names.now wanted (length path.old) (lengths tree.old list.old program.old) program.old)) }
{
    match wanted {
        Wanted::Formula => vebrostin_compile(formula, names, path, program, report),
        Wanted::Derivative(symbol) => {
            vebrostin_derive(formula, names, symbol, path, tree, list, program, report)
        }
    }
}

// A resume, with the path slice that the call is lent.
fn go_on(
    program: &[u8],
    inputs: &[f64],
    registers: &mut [f64],
    path: &mut [u8],
    call: Call,
    cells: &mut [u64],
    report: &mut [u64],
) -> usize
    ensures outcome { Leaves (resume_outcome inputs.now program.now call.budget (supplied_of call.supplied) registers.old cells.old path.old report.old) result cells.new registers.new path.new report.new }
    ensures state { Carries cells.new report.new (resume_at inputs.now program.now (length path.old) call.budget (supplied_of call.supplied) (state_in cells.old) registers.old) }
{
    let budget = call.budget;
    match call.supplied {
        None => vebrostin_resume(program, inputs, registers, path, budget, cells, report),
        Some(value) => vebrostin_answer(
            program, inputs, registers, path, budget, cells, report, value,
        ),
    }
}

// The number of the last call of a list, which begins with a run: without a call in it, one with no room and no budget, which is refused with 1. Each
// call is lent the first bytes of the path slice, and the cells as the last call left them. `demand::calls::play` walks over its calls by itself; there it
// is said why.
#[tactic(auto, using(demand::proofs::Loops::again_long, crate::proofs::Loops::inv_start))]
fn call_all(
    program: &[u8],
    inputs: &[f64],
    registers: &mut [f64],
    path: &mut [u8],
    calls: &[Call],
    cells: &mut [u64],
    report: &mut [u64],
) -> usize
    ensures outcome { Leaves (host_at inputs.now program.now cells.old path.old report.old calls.now registers.old) result cells.new registers.new path.new report.new }
    ensures reply { short cells.old report.old ≡ false → Follows (play_at inputs.now program.now path.old calls.now registers.old) result cells.new registers.new path.new }
{
    let whole = path.len();
    let first = calls.first().copied().unwrap_or_default();
    let room = first.room.min(whole);
    let mut number = vebrostin_run(
        program,
        inputs,
        registers,
        &mut path[..room],
        first.budget,
        cells,
        report,
    );
    let rest = calls.get(1..).unwrap_or(&[]);
    for call in rest {
        let room = call.room.min(whole);
        number = go_on(
            program,
            inputs,
            registers,
            &mut path[..room],
            *call,
            cells,
            report,
        );
    }
    number
}

// Compiles or derives, and makes a list of calls: `vebrostin_run`, then `vebrostin_resume` or, with a value, `vebrostin_answer`.
#[tactic(auto, using(crate::proofs::Owing::turned_away, crate::proofs::Owing::called))]
pub fn make_and_call(
    formula: &[u8],
    names: &[u8],
    wanted: Wanted<u32>,
    tree: &mut [u8],
    list: &mut [u8],
    program: &mut [u8],
    inputs: &[f64],
    registers: &mut [f64],
    path: &mut [u8],
    calls: &[Call],
    cells: &mut [u64],
    report: &mut [u64],
) -> usize
    ensures written { (tree.new ≡ with_room (report_short report.old) tree.old (tree_left formula.now names.now wanted (length path.old) (lengths tree.old list.old program.old) tree.old)) × (list.new ≡ with_room (report_short report.old) list.old (list_left formula.now names.now wanted (length path.old) (lengths tree.old list.old program.old) list.old)) × (program.new ≡ with_room (report_short report.old) program.old (program_left formula.now names.now wanted (length path.old) (lengths tree.old list.old program.old) program.old)) }
    ensures demand { Owes (asked report.old (make formula.now names.now wanted (length path.old) (lengths tree.old list.old program.old))) program.new inputs.now calls.now registers.old registers.new path.old path.new cells.old cells.new report.old report.new result }
{
    let refusal = write_program(formula, names, wanted, path, tree, list, program, report);
    if refusal != 0 {
        return refusal;
    }
    call_all(program, inputs, registers, path, calls, cells, report)
}
