#![tactic(auto)]
// Demand 3 as the contract of a function over lent slices: compile or derive, and a list of calls on the program that it wrote.
pub mod calls;

ghost use Rattle.std.specs.Prelude.{◌≡◌, length};
ghost use Rattle.formula.specs.Path.{placed};
ghost use Rattle.derive.specs.Outcome.{lengths};
ghost use Rattle.demand.specs.Made.{answer_of, list_left, make, place_of, program_left, tree_left};
ghost use Rattle.demand.specs.Owed.{Owes};

use calls::{Call, play};
use compile::compile;
use derive::derive;
use refusals::Refusal;
use run::Reply;

// "a formula that compiles, or its derivative by a named symbol where one is given": the symbol's number, of a type S. Not an Option of it, as
// None would read as nothing wanted.
#[derive(Clone, Copy)]
pub enum Wanted<S> {
    Formula,
    Derivative(S),
}

// Writes the program of the formula or of its derivative. Formula, names and what is wanted stay three parameters, here and in what calls this: as
// a struct each clause would name its fields, and a struct of the slices would have to say besides that it still lends the same ones.
#[tactic(auto, using(crate::proofs::Owing::compiled_answer))]
fn write_program(
    formula: &[u8],
    names: &[u8],
    wanted: Wanted<usize>,
    path: &mut [u8],
    tree: &mut [u8],
    list: &mut [u8],
    program: &mut [u8],
) -> Result<(), Refusal>
    ensures answer { result ≡ answer_of (make formula.now names.now wanted (length path.old) (lengths tree.old list.old program.old)) }
    ensures place { path.new ≡ placed (place_of (make formula.now names.now wanted (length path.old) (lengths tree.old list.old program.old))) path.old }
    ensures tree { tree.new ≡ tree_left formula.now names.now wanted (length path.old) (lengths tree.old list.old program.old) tree.old }
    ensures list { list.new ≡ list_left formula.now names.now wanted (length path.old) (lengths tree.old list.old program.old) list.old }
    ensures program { program.new ≡ program_left formula.now names.now wanted (length path.old) (lengths tree.old list.old program.old) program.old }
{
    match wanted {
        Wanted::Formula => compile(formula, names, path, program),
        Wanted::Derivative(symbol) => {
            derive(formula, names, symbol, path, tree, list, program)?;
            Ok(())
        }
    }
}

// Compiles or derives, and plays a list of calls: a run, then resumes. The reply to the last call, or the refusal of compile or
// derive.
#[tactic(auto, using(std::proofs::lemmas::Result::err_from_is_err_and, crate::proofs::Owing::played, crate::proofs::Owing::turned_away, crate::proofs::Numbers::told))]
pub fn make_and_play(
    formula: &[u8],
    names: &[u8],
    wanted: Wanted<usize>,
    tree: &mut [u8],
    list: &mut [u8],
    program: &mut [u8],
    inputs: &[f64],
    registers: &mut [f64],
    path: &mut [u8],
    calls: &[Call],
) -> Result<Reply, Refusal>
    ensures written { (tree.new ≡ tree_left formula.now names.now wanted (length path.old) (lengths tree.old list.old program.old) tree.old) × (list.new ≡ list_left formula.now names.now wanted (length path.old) (lengths tree.old list.old program.old) list.old) × (program.new ≡ program_left formula.now names.now wanted (length path.old) (lengths tree.old list.old program.old) program.old) }
    ensures demand { Owes (make formula.now names.now wanted (length path.old) (lengths tree.old list.old program.old)) program.new inputs.now calls.now registers.old registers.new path.old path.new result }
{
    write_program(formula, names, wanted, path, tree, list, program)?;
    Ok(play(program, inputs, registers, path, calls))
}
