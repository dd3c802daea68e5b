#![tactic(auto)]
// Formula bytes and a name line in, program bytes out; reference `compile_prepared`.
ghost use Rattle.std.specs.Prelude.{◌≡◌, cond, true, List, ◌++◌, ◌+◌, ◌*◌, ◌≤◌, length};
ghost use Rattle.std.proofs.Math.Option.{some};
ghost use Rattle.formula.specs.Text.{little_endian};
ghost use Rattle.formula.specs.Formula.{Formula};
ghost use Rattle.formula.specs.Names.{Symbol};
ghost use Rattle.formula.specs.Path.{placed, root};
ghost use Rattle.formula.specs.Node.{formula_of, tree_in};
ghost use Rattle.formula.specs.Term.{term};
ghost use Rattle.machine.specs.Check.{fault};
ghost use Rattle.machine.specs.Compile.{compile, own_context, path_after, program_after};
ghost use Rattle.machine.specs.Lower.{instruction_count};
ghost use Rattle.layout.specs.Opcode.{kind_number};
ghost use Rattle.layout.specs.Image.{entry_count, image, magic, path_count};
ghost use Rattle.writer.specs.Over.{over};
ghost use Rattle.reader.specs.Read.{is_some, limited};
ghost use Rattle.lower.specs.Piece.{context_of, kind_if};
ghost use Rattle.compile.specs.Entry.{answer};
ghost use Rattle.compile.specs.Preparation.{Formed, preparation, size_answer};
ghost use Rattle.compile.specs.Outcome.{Fits, answer_to, fault_place, lowered_to, slice_after};

use layout::{
    CODE_AT, ENTRIES_AT, ENTRY_SIZE, HEADER_SIZE, INPUTS_AT, KIND_AT, MAGIC, PATHS_AT, RECORD_SIZE,
    REGISTERS_AT, RESULT_AT, SLOT_SIZE,
};
use lower::{Cursor, Layout, Site, Source, put_record};
use names::{Kind, Names, read_names};
use paths::{write_path, write_root};
use reader::{NODE_SIZE, is_small, receive};
use refusals::Refusal;
use tally::count;
use writer::{put_word, zero_from};

// "240 bytes for each 16 bytes of formula, a last part counted as 16"
pub const NODE_ROOM: usize = 240;

const BYTE_ROOM: usize = NODE_ROOM / NODE_SIZE;

// The most nodes and levels that a formula may have.
const MOST_NODES: usize = 256;

const MOST_LEVELS: usize = 32;

// How many bytes a small formula has at most, and any.
const SMALL: usize = 512;

const LARGEST: usize = MOST_NODES * NODE_SIZE;

// The header of a program.
// Not program's `Header`: that has the five numbers that a check goes on with, these are the seven that are written after the magic.
#[derive(Clone, Copy)]
struct Header {
    code: usize,
    registers: usize,
    value: usize,
    inputs: usize,
    kind: usize,
    paths: usize,
    entries: usize,
}

impl Header {
    // Eight numbers of 4 bytes.
    fn put(self, p: &mut [u8])
        requires { 32 ≤ length p.old }
        ensures { p.new ≡ over p.old 0 (little_endian 4 magic ++ little_endian 4 self.code ++ little_endian 4 self.registers ++ little_endian 4 self.value ++ little_endian 4 self.inputs ++ little_endian 4 self.kind ++ little_endian 4 self.paths ++ little_endian 4 self.entries) }
    {
        put_word(p, 0, MAGIC);
        put_word(p, CODE_AT, self.code);
        put_word(p, REGISTERS_AT, self.registers);
        put_word(p, RESULT_AT, self.value);
        put_word(p, INPUTS_AT, self.inputs);
        put_word(p, KIND_AT, self.kind);
        put_word(p, PATHS_AT, self.paths);
        put_word(p, ENTRIES_AT, self.entries);
    }
}

// A kind's number.
fn kind_of(boolean: bool) -> usize
    ensures { result ≡ kind_number (kind_if boolean) }
{
    usize::from(boolean)
}

// The place of the whole formula, whose path's record is the first.
const ROOT: Site = Site { path: 0, length: 4 };

// What is next free after that record.
const START: Cursor = Cursor {
    node: 0,
    reg: 0,
    code: 0,
    path: 1,
    entry: 0,
};

// Writes the program of a formula of at most d levels, or clears it and writes the place of the first fault.
// `generated` and `d` stay two: the clause has a context and a tree of d levels.
pub fn write(
    b: &[u8],
    p: &mut [u8],
    path: &mut [u8],
    kinds: &[Kind],
    generated: bool,
    d: usize,
) -> Result<(), Refusal>
    requires { Fits b.now d (length p.old) (length path.old) }
    ensures { (result ≡ answer_to (fault (context_of kinds.now generated) (term (tree_in d b.now 0)) root)) × (p.new ≡ slice_after (context_of kinds.now generated) (tree_in d b.now 0) (fault (context_of kinds.now generated) (term (tree_in d b.now 0)) root) p.old) × (path.new ≡ placed (fault_place (fault (context_of kinds.now generated) (term (tree_in d b.now 0)) root)) path.old) }
{
    let counts = count(b, d);
    let table = HEADER_SIZE + SLOT_SIZE * counts.code;
    let layout = Layout {
        paths: table,
        lists: table + RECORD_SIZE * counts.paths,
        generated,
    };
    let source = Source {
        bytes: b,
        kinds,
        layout,
    };
    put_record(p, table, 0, 0, ROOT.length);
    let mut next = START;
    match source.node(p, ROOT, d, &mut next) {
        Ok(v) => {
            let header = Header {
                code: counts.code,
                registers: next.reg,
                value: v.a,
                inputs: kinds.len(),
                kind: kind_of(v.boolean),
                paths: counts.paths,
                entries: counts.entries,
            };
            header.put(p);
            zero_from(p, layout.lists + ENTRY_SIZE * counts.entries);
            Ok(())
        }
        Err(fault) => {
            write_path(p, table, fault.path, path);
            zero_from(p, 0);
            Err(fault.refusal)
        }
    }
}

// What is known before the formula is gone into: "in order: 1, path slice or program slice too short; 2, formula bytes not as above
// (size and depth apart)", or 12 or 13 in its place; "3, name line not as above". Path and program slice have so many bytes.
#[tactic(auto, using(crate::proofs::Entries::told_early))]
pub fn prepare(formula: &[u8], names: &[u8], path: usize, program: usize) -> Result<Names, Refusal>
    ensures { result ≡ preparation formula.now names.now path program }
{
    if path < 8192 {
        return Err(Refusal::SliceTooShort);
    }
    if program / NODE_ROOM < formula.len().div_ceil(NODE_SIZE) {
        return Err(Refusal::SliceTooShort);
    }
    receive(formula)?;
    read_names(names).ok_or(Refusal::MalformedLine)
}

// "4 `ExpressionLimit` at `root`": whether a formula is within the limits; `root` is written where it is not.
pub fn within(formula: &[u8], path: &mut [u8]) -> Result<(), Refusal>
    requires { (4 ≤ length path.old) × (is_some (formula_of formula.now) ≡ true) }
    ensures { (result ≡ size_answer (limited 256 32 (formula_of formula.now))) × (path.new ≡ cond (limited 256 32 (formula_of formula.now)) path.old (placed (some root) path.old)) }
{
    if is_small(formula, MOST_NODES, MOST_LEVELS) {
        return Ok(());
    }
    write_root(path);
    Err(Refusal::ExpressionLimit)
}

// "Compile (reference `compile_prepared`, limit 256, not generated)": the refusals 1 to 4, "then the first fault in
// `lower`'s order". A program stands in its slice, or compile refused.
pub fn compile(
    formula: &[u8],
    names: &[u8],
    path: &mut [u8],
    program: &mut [u8],
) -> Result<(), Refusal>
    ensures { (result ≡ answer (compile formula.now names.now (length path.old) (length program.old))) × (path.new ≡ path_after (compile formula.now names.now (length path.old) (length program.old)) path.old) × (program.new ≡ program_after image (compile formula.now names.now (length path.old) (length program.old)) program.old) }
{
    let table = prepare(formula, names, path.len(), program.len())?;
    within(formula, path)?;
    let kinds = &table.kinds[..table.count];
    write(formula, program, path, kinds, false, MOST_LEVELS)
}

// ---- a formula lowered for its own sake

// Whether a formula is Boolean, or the refusal of its first fault: lowers it into memory that is not the caller's program slice;
// what that holds then is free.
fn lower_into(
    formula: &[u8],
    kinds: &[Kind],
    path: &mut [u8],
    own: &mut [u8],
) -> Result<bool, Refusal>
    requires { (15 * length formula.now ≤ length own.old) × (8192 ≤ length path.old) × ((f : Formula) × (ss : List Symbol) × Formed formula.now kinds.now f ss) }
    ensures { (f : Formula) (ss : List Symbol) → Formed formula.now kinds.now f ss → (result ≡ lowered_to f (fault (own_context ss) (term f) root)) × (path.new ≡ placed (fault_place (fault (own_context ss) (term f) root)) path.old) }
{
    write(
        formula,
        &mut own[..BYTE_ROOM * formula.len()],
        path,
        kinds,
        false,
        MOST_LEVELS,
    )?;
    Ok(own[KIND_AT] == 1)
}

// For callers whose refusals leave the program slice unchanged. A small formula has a small array, as all of it is cleared; a
// function over the array's length would only state this contract once more.
pub fn lower_own(formula: &[u8], kinds: &[Kind], path: &mut [u8]) -> Result<bool, Refusal>
    requires { (8192 ≤ length path.old) × ((f : Formula) × (ss : List Symbol) × Formed formula.now kinds.now f ss) }
    ensures { (f : Formula) (ss : List Symbol) → Formed formula.now kinds.now f ss → (result ≡ lowered_to f (fault (own_context ss) (term f) root)) × (path.new ≡ placed (fault_place (fault (own_context ss) (term f) root)) path.old) }
{
    if formula.len() <= SMALL {
        let mut small = [0; BYTE_ROOM * SMALL];
        return lower_into(formula, kinds, path, &mut small);
    }
    let mut own = [0; BYTE_ROOM * LARGEST];
    lower_into(formula, kinds, path, &mut own)
}
