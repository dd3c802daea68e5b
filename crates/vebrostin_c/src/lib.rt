#![tactic(auto)]
// The static library for C and Rust: the functions of the crate `vebrostin`, each under its C name, with its clauses. include/vebrostin.h
// declares them. No caller owes anything but slices that are there. Their parameters are C's, so none is a struct of slices.
ghost use Rattle.std.specs.Prelude.{◌≡◌, length};
ghost use Rattle.std.proofs.Math.Option.{none, some};
ghost use Rattle.formula.specs.Text.{word_at};
ghost use Rattle.machine.specs.Program.{valid};
ghost use Rattle.layout.specs.Decode.{program_at};
ghost use Rattle.run.specs.Calls.{resume_at, run_at};
ghost use Rattle.vebrostin.specs.Cells.{state_in};
ghost use Rattle.derive.specs.Outcome.{lengths};
ghost use Rattle.vebrostin.specs.Calls.{Carries, Compiles, Derives, Leaves, Settles, compile_outcome, derive_outcome, resume_outcome, run_outcome};

// 0 and a program, or the refusal, with its node in the report.
#[unsafe(no_mangle)]
pub extern "C" fn vebrostin_compile(
    formula: &[u8],
    names: &[u8],
    path: &mut [u8],
    program: &mut [u8],
    report: &mut [u64],
) -> usize
    ensures { Compiles (compile_outcome formula.now names.now (length path.old) (length program.old) report.old) result path.old path.new program.old program.new report.old report.new }
{
    vebrostin::vebrostin_compile(formula, names, path, program, report)
}

// 0, a derivative tree, the records of its nodes and its program, or the refusal, with its node in the report.
#[unsafe(no_mangle)]
pub extern "C" fn vebrostin_derive(
    formula: &[u8],
    names: &[u8],
    symbol: u32,
    path: &mut [u8],
    tree: &mut [u8],
    list: &mut [u8],
    program: &mut [u8],
    report: &mut [u64],
) -> usize
    ensures { Derives (derive_outcome formula.now names.now symbol (length path.old) (lengths tree.old list.old program.old) report.old) result path.old path.new tree.old tree.new list.old list.new program.old program.new report.old report.new }
{
    vebrostin::vebrostin_derive(formula, names, symbol, path, tree, list, program, report)
}

// Whether run and resume take the bytes.
#[unsafe(no_mangle)]
pub extern "C" fn vebrostin_is_program(program: &[u8]) -> bool
    ensures { result ≡ valid (program_at program.now) }
{
    vebrostin::vebrostin_is_program(program)
}

// The counts of a program's header.
#[unsafe(no_mangle)]
pub extern "C" fn vebrostin_instructions(program: &[u8]) -> usize
    ensures { result ≡ word_at program.now 4 }
{
    vebrostin::vebrostin_instructions(program)
}

#[unsafe(no_mangle)]
pub extern "C" fn vebrostin_registers(program: &[u8]) -> usize
    ensures { result ≡ word_at program.now 8 }
{
    vebrostin::vebrostin_registers(program)
}

#[unsafe(no_mangle)]
pub extern "C" fn vebrostin_inputs(program: &[u8]) -> usize
    ensures { result ≡ word_at program.now 16 }
{
    vebrostin::vebrostin_inputs(program)
}

// 0 and a value, 100 and a question, 101 for spent, or the refusal; the state, the count and the value stand in the cells.
#[unsafe(no_mangle)]
pub extern "C" fn vebrostin_run(
    program: &[u8],
    inputs: &[f64],
    registers: &mut [f64],
    path: &mut [u8],
    budget: usize,
    cells: &mut [u64],
    report: &mut [u64],
) -> usize
    ensures outcome { Leaves (run_outcome inputs.now program.now budget registers.old cells.old path.old report.old) result cells.new registers.new path.new report.new }
    ensures state { Carries cells.new report.new (run_at inputs.now program.now (length path.old) budget registers.old) }
{
    vebrostin::vebrostin_run(program, inputs, registers, path, budget, cells, report)
}

// Goes on with no value: a question that pends is put again.
#[unsafe(no_mangle)]
pub extern "C" fn vebrostin_resume(
    program: &[u8],
    inputs: &[f64],
    registers: &mut [f64],
    path: &mut [u8],
    budget: usize,
    cells: &mut [u64],
    report: &mut [u64],
) -> usize
    ensures outcome { Leaves (resume_outcome inputs.now program.now budget none registers.old cells.old path.old report.old) result cells.new registers.new path.new report.new }
    ensures state { Carries cells.new report.new (resume_at inputs.now program.now (length path.old) budget none (state_in cells.old) registers.old) }
{
    vebrostin::vebrostin_resume(program, inputs, registers, path, budget, cells, report)
}

// Goes on with the value for the question that pends.
#[unsafe(no_mangle)]
pub extern "C" fn vebrostin_answer(
    program: &[u8],
    inputs: &[f64],
    registers: &mut [f64],
    path: &mut [u8],
    budget: usize,
    cells: &mut [u64],
    report: &mut [u64],
    value: f64,
) -> usize
    ensures outcome { Leaves (resume_outcome inputs.now program.now budget (some value) registers.old cells.old path.old report.old) result cells.new registers.new path.new report.new }
    ensures state { Carries cells.new report.new (resume_at inputs.now program.now (length path.old) budget (some value) (state_in cells.old) registers.old) }
{
    vebrostin::vebrostin_answer(
        program, inputs, registers, path, budget, cells, report, value,
    )
}

// As `vebrostin_run`, without the check of the bytes: where they are a program, or a slice is too short, it is that.
// Otherwise it ends too and stays inside the slices; what it answers and leaves in them, but for the report, is free.
#[unsafe(no_mangle)]
pub extern "C" fn vebrostin_run_unchecked(
    program: &[u8],
    inputs: &[f64],
    registers: &mut [f64],
    path: &mut [u8],
    budget: usize,
    cells: &mut [u64],
    report: &mut [u64],
) -> usize
    ensures outcome { Settles program.now path.old cells.old report.old → Leaves (run_outcome inputs.now program.now budget registers.old cells.old path.old report.old) result cells.new registers.new path.new report.new }
    ensures state { Settles program.now path.old cells.old report.old → Carries cells.new report.new (run_at inputs.now program.now (length path.old) budget registers.old) }
    ensures report { report.new ≡ report.old }
{
    vebrostin::vebrostin_run_unchecked(program, inputs, registers, path, budget, cells, report)
}

// As `vebrostin_resume`, without the check.
#[unsafe(no_mangle)]
pub extern "C" fn vebrostin_resume_unchecked(
    program: &[u8],
    inputs: &[f64],
    registers: &mut [f64],
    path: &mut [u8],
    budget: usize,
    cells: &mut [u64],
    report: &mut [u64],
) -> usize
    ensures outcome { Settles program.now path.old cells.old report.old → Leaves (resume_outcome inputs.now program.now budget none registers.old cells.old path.old report.old) result cells.new registers.new path.new report.new }
    ensures state { Settles program.now path.old cells.old report.old → Carries cells.new report.new (resume_at inputs.now program.now (length path.old) budget none (state_in cells.old) registers.old) }
    ensures report { report.new ≡ report.old }
{
    vebrostin::vebrostin_resume_unchecked(program, inputs, registers, path, budget, cells, report)
}

// As `vebrostin_answer`, without the check.
#[unsafe(no_mangle)]
pub extern "C" fn vebrostin_answer_unchecked(
    program: &[u8],
    inputs: &[f64],
    registers: &mut [f64],
    path: &mut [u8],
    budget: usize,
    cells: &mut [u64],
    report: &mut [u64],
    value: f64,
) -> usize
    ensures outcome { Settles program.now path.old cells.old report.old → Leaves (resume_outcome inputs.now program.now budget (some value) registers.old cells.old path.old report.old) result cells.new registers.new path.new report.new }
    ensures state { Settles program.now path.old cells.old report.old → Carries cells.new report.new (resume_at inputs.now program.now (length path.old) budget (some value) (state_in cells.old) registers.old) }
    ensures report { report.new ≡ report.old }
{
    vebrostin::vebrostin_answer_unchecked(
        program, inputs, registers, path, budget, cells, report, value,
    )
}
