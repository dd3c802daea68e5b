#![tactic(auto)]
// The derivative of a formula by one of its symbols, as a tree, with a record of each node, and as a program; reference
// `derivative_prepared`.
ghost use Rattle.std.specs.Prelude.{◌≡◌, true, false, List, ℕ, ◌*◌, ◌≤◌, ◌<◌, get_or, length, Ok, Err};
ghost use Rattle.std.proofs.Math.Option.{some};
ghost use Rattle.formula.specs.Text.{zeros};
ghost use Rattle.formula.specs.Formula.{Formula, size};
ghost use Rattle.formula.specs.Names.{Symbol};
ghost use Rattle.formula.specs.Node.{encode};
ghost use Rattle.formula.specs.Path.{placed, root};
ghost use Rattle.formula.specs.Term.{term};
ghost use Rattle.machine.specs.Check.{fault};
ghost use Rattle.machine.specs.Compile.{filled, lowered_or, own_context};
ghost use Rattle.layout.specs.Image.{image};
ghost use Rattle.derivative.specs.Differentiate.{derivative};
ghost use Rattle.derivative.specs.Records.{derivative_records, list_bytes};
ghost use Rattle.derivative.specs.Derive.{by_state, continued, derive, fitted, generated_context, too_short};
ghost use Rattle.differentiate.specs.Written.{Job};
ghost use Rattle.compile.specs.Preparation.{Formed};
ghost use Rattle.derive.specs.Outcome.{Derivable, Derives, Leaves, lengths};

use compile::{NODE_ROOM, lower_own, prepare, within, write};
use differentiate::{Nodes, ORIGIN_SIZE, Records, write_derivative};
use names::Kind;
use paths::write_root;
use reader::NODE_SIZE;
use refusals::Refusal;
use survey::{By, Row, survey_formula};
use writer::zero_from;

// Path, tree, list and program slice stay parameters beside each other: of a struct that lends them each clause would have to say besides that they are the same
// slices still. The path's length stays a condition: of an array of 8,192 in its place each clause would have to say besides that what is behind it is kept.

// A formula, of whose elements it is known that they are bytes, and the kinds of its symbols.
#[derive(Clone, Copy)]
struct Given<'a> {
    formula: &'a [u8],
    kinds: &'a [Kind],
    ghost bytes: { (i : ℕ) → get_or formula.now i 0 < 256 },
}

// "the later ones leave it all zero": the tree slice, and the list slice with it.
fn clear(tree: &mut [u8], list: &mut [u8])
    ensures { (tree.new ≡ zeros (length tree.old)) × (list.new ≡ zeros (length list.old)) }
{
    tree.fill(0);
    list.fill(0);
}

// A refusal at `root` that is not compile's.
fn refuse_at_root(
    refusal: Refusal,
    path: &mut [u8],
    tree: &mut [u8],
    list: &mut [u8],
) -> Result<usize, Refusal>
    requires { 4 ≤ length path.old }
    ensures { (result ≡ Err refusal) × (path.new ≡ placed (some root) path.old) × (tree.new ≡ zeros (length tree.old)) × (list.new ≡ zeros (length list.old)) }
{
    write_root(path);
    clear(tree, list);
    Err(refusal)
}

// Writes the derivative tree, the records of its nodes, then the program of that tree in generated mode; says how many nodes.
fn write_all(
    given: &Given,
    by: By,
    rows: &[Row],
    path: &mut [u8],
    tree: &mut [u8],
    list: &mut [u8],
    program: &mut [u8],
) -> Result<usize, Refusal>
    requires { (8192 ≤ length path.old) × Job false by.symbol by.state given.now.formula.now rows.now 32 tree.old × Job true by.symbol by.state given.now.formula.now rows.now 32 list.old × ((f : Formula) × (ss : List Symbol) × (d : Formula) × Derives given.now.formula.now given.now.kinds.now by.symbol by.state (length program.old) f ss d) }
    ensures { (f : Formula) (ss : List Symbol) (d : Formula) → Derives given.now.formula.now given.now.kinds.now by.symbol by.state (length program.old) f ss d → (result ≡ Ok (size d)) × (path.new ≡ path.old) × (tree.new ≡ filled (encode d) tree.old) × (list.new ≡ filled (list_bytes (derivative_records by.symbol (by_state ss by.symbol) f)) list.old) × (program.new ≡ filled (image (generated_context ss) d) program.old) }
{
    let n = write_derivative::<Nodes>(given.formula, 32, by, rows, tree);
    zero_from(tree, n);
    let m = write_derivative::<Records>(given.formula, 32, by, rows, list);
    zero_from(list, m);
    write(&tree[..n], program, path, given.kinds, true, 128)?;
    Ok(n / NODE_SIZE)
}

// Whether a slice of such a length is too short for a tree of so many nodes.
fn too_short(nodes: usize, tree: usize, list: usize, program: usize) -> bool
    ensures { result ≡ too_short (record { tree = tree; list = list; program = program }) nodes }
{
    tree / NODE_SIZE < nodes || list / ORIGIN_SIZE < nodes || program / NODE_ROOM < nodes
}

// Of a formula that compiles to a Number, with as many rows as it has nodes or more: "8 at `root` from the rules, 4 at `root` if
// the finished tree is too large, 1 if the tree slice, then the program slice, is too short for it", or the list slice.
fn derive_number<const ROWS: usize>(
    given: &Given,
    by: By,
    path: &mut [u8],
    tree: &mut [u8],
    list: &mut [u8],
    program: &mut [u8],
) -> Result<usize, Refusal>
    requires { (length given.now.formula.now ≤ 16 * ROWS) × (ROWS ≤ 256) × (8192 ≤ length path.old) × ((f : Formula) × (ss : List Symbol) × Derivable given.now.formula.now given.now.kinds.now by.symbol by.state f ss) }
    ensures { (f : Formula) (ss : List Symbol) → Derivable given.now.formula.now given.now.kinds.now by.symbol by.state f ss → Leaves (fitted (lengths tree.old list.old program.old) ss (derivative_records by.symbol (by_state ss by.symbol) f) (derivative by.symbol (by_state ss by.symbol) f)) result path.old path.new tree.old tree.new list.old list.new program.old program.new }
{
    let mut rows = [Row::EMPTY; ROWS];
    let found = survey_formula(given.formula, 32, by, &mut rows);
    let Some(diff) = found.diff else {
        return refuse_at_root(Refusal::Unsupported, path, tree, list);
    };
    let whole = found.own.with_primal(diff);
    if whole.nodes > 16384 || whole.levels > 128 {
        return refuse_at_root(Refusal::ExpressionLimit, path, tree, list);
    }
    if too_short(whole.nodes, tree.len(), list.len(), program.len()) {
        clear(tree, list);
        return Err(Refusal::SliceTooShort);
    }
    write_all(given, by, &rows, path, tree, list, program)
}

// Of a formula within the limits: compile's faults, "then 7 at `root` if it is Boolean (added), 6 at `root` for a symbol number
// not in the table". A small formula has a small table, as all of it is cleared.
fn derive_formula(
    given: &Given,
    symbol: usize,
    path: &mut [u8],
    tree: &mut [u8],
    list: &mut [u8],
    program: &mut [u8],
) -> Result<usize, Refusal>
    requires { (8192 ≤ length path.old) × ((f : Formula) × (ss : List Symbol) × Formed given.now.formula.now given.now.kinds.now f ss) }
    ensures { (f : Formula) (ss : List Symbol) → Formed given.now.formula.now given.now.kinds.now f ss → Leaves (continued (lengths tree.old list.old program.old) symbol (lowered_or f ss (fault (own_context ss) (term f) root))) result path.old path.new tree.old tree.new list.old list.new program.old program.new }
{
    let boolean = lower_own(given.formula, given.kinds, path)?;
    if boolean {
        return refuse_at_root(Refusal::WrongType, path, tree, list);
    }
    if symbol >= given.kinds.len() {
        return refuse_at_root(Refusal::UnknownSymbol, path, tree, list);
    }
    let by = By {
        symbol,
        state: given.kinds[symbol] == Kind::State,
    };
    if given.formula.len() <= 512 {
        return derive_number::<32>(given, by, path, tree, list, program);
    }
    derive_number::<256>(given, by, path, tree, list, program)
}

// "Derive (reference `derivative_prepared`). Compile's refusals for the formula itself come first". A tree of so many nodes, its
// records and its program stand in their slices, or derive refused.
pub fn derive(
    formula: &[u8],
    names: &[u8],
    symbol: usize,
    path: &mut [u8],
    tree: &mut [u8],
    list: &mut [u8],
    program: &mut [u8],
) -> Result<usize, Refusal>
    ensures { Leaves (derive formula.now names.now symbol (length path.old) (lengths tree.old list.old program.old)) result path.old path.new tree.old tree.new list.old list.new program.old program.new }
{
    let table = prepare(formula, names, path.len(), program.len())?;
    within(formula, path)?;
    let given = Given {
        formula,
        kinds: &table.kinds[..table.count],
    };
    derive_formula(&given, symbol, path, tree, list, program)
}
