#![tactic(auto)]
// Lowering of a formula's nodes to the bytes of a program (docs/PROGRAM.md); reference `Compiler`.
ghost use Rattle.std.specs.Prelude.{◌≡◌, true, false, cond, not, ◌&&◌, ◌||◌, List, [], ◌∷◌, ◌++◌, ℕ, ◌+◌, ◌*◌, ◌^◌, ◌≤◌, ◌<◌, length, get_or, ltb};
ghost use Rattle.formula.specs.Text.{little_endian};
ghost use Rattle.formula.specs.Formula.{size, all_well_formed, well_formed};
ghost use Rattle.formula.specs.Node.{node_size, tree_in};
ghost use Rattle.formula.specs.Term.{term, terms};
ghost use Rattle.formula.specs.Path.{◌▸◌, step_text};
ghost use Rattle.layout.specs.Opcode.{step_of};
ghost use Rattle.layout.specs.Image.{slot, constant_slot, truth_bits};
ghost use Rattle.writer.specs.Over.{over};
ghost use Rattle.lower.specs.Low.{low_of};
ghost use Rattle.lower.specs.Piece.{Says, further, arms_answer, arms_bytes, Lists, arm, branch_piece, context, context_of, finish_piece, kids, leaf, own_piece, operands_piece, past, place, term_piece};
ghost use Rattle.lower.specs.Ready.{Ready, RoomAt, RoomFor, RoomForAll, RoomForArms};
ghost use Rattle.lower.specs.Leaf.{Loads};
ghost use Rattle.lower.specs.Operators.{arity_at, gives_boolean, listing_at, opcode_at, stepped_at, takes_boolean, chooses_at};

use floats::value::{is_finite, of_bits};
use layout::{
    A_AT, B_AT, C_AT, COUNT_AT, DESTINATION_AT, ENTRY_SIZE, HEADER_SIZE, LENGTH_AT, PATH_AT,
    RECORD_SIZE, SLOT_SIZE, STEP_AT, opcode,
};
use names::Kind;
use reader::{
    BINARY, BOOLEAN, CALL, COMPARE, CONDITIONAL, Fields, NODE_SIZE, NUMBER, SYMBOL, TRUTH, UNARY,
    operator,
};
use refusals::Refusal;
use writer::{put_half, put_long, put_word};

// Where path records and list entries begin, and whether the formula is a derivative.
#[derive(Clone, Copy)]
pub struct Layout {
    pub paths: usize,
    pub lists: usize,
    pub generated: bool,
}

// What stays as it is while a formula is lowered: its bytes, the kinds of its symbols, the layout of its program.
#[derive(Clone, Copy)]
pub struct Source<'a> {
    pub bytes: &'a [u8],
    pub kinds: &'a [Kind],
    pub layout: Layout,
}

// A place in the formula, and what is next free: register, instruction, path record, list entry.
#[derive(Clone, Copy)]
pub struct Cursor {
    pub node: usize,
    pub reg: usize,
    pub code: usize,
    pub path: usize,
    pub entry: usize,
}

impl Cursor {
    // So many registers and instructions further.
    fn advance(&mut self, n: usize)
        requires { (self.old.reg + n < 2 ^ 64) × (self.old.code + n < 2 ^ 64) }
        ensures { self.new ≡ further self.old n }
    {
        self.reg += n;
        self.code += n;
    }

    // The value that the next instruction stores, to the next register.
    fn store(&mut self, boolean: bool, dynamic: bool) -> Value
        requires { (self.old.reg ≤ self.old.code) × (self.old.code + 1 < 2 ^ 64) }
        ensures { (result ≡ record { a = self.old.reg; b = 0; c = 0; boolean = boolean; dynamic = dynamic }) × (self.new ≡ further self.old 1) }
    {
        let v = Value {
            a: self.reg,
            b: 0,
            c: 0,
            boolean,
            dynamic,
        };
        self.advance(1);
        v
    }
}

// A node's path: the number of its record, and the length of its text.
#[derive(Clone, Copy)]
pub struct Site {
    pub path: usize,
    pub length: usize,
}

impl Site {
    // A refusal at the site.
    fn fault(self, refusal: Refusal) -> Fault
        ensures { result ≡ record { refusal = refusal; path = self.path } }
    {
        Fault {
            refusal,
            path: self.path,
        }
    }
}

// A step down from a site, by its number in a record.
#[derive(Clone, Copy)]
struct Step {
    from: Site,
    number: usize,
}

// A node's register, or the first three of its children's; whether it is Boolean; whether it varies.
#[derive(Clone, Copy)]
pub struct Value {
    pub a: usize,
    pub b: usize,
    pub c: usize,
    pub boolean: bool,
    pub dynamic: bool,
}

// A refusal, and the number of its path's record.
#[derive(Clone, Copy)]
pub struct Fault {
    pub refusal: Refusal,
    pub path: usize,
}

// Children of And or Or that follow one another, joined again: none is the constant that ends such a chain, one is itself.
#[derive(Clone, Copy)]
struct Chain {
    conjunction: bool,
    left: usize,
}

// A child by itself.
const CHILD: Chain = Chain {
    conjunction: true,
    left: 1,
};

// A condition that is lowered, and what it chooses from: the children of either arm.
#[derive(Clone, Copy)]
struct Choice {
    condition: Value,
    yes: Chain,
    no: Chain,
}

// A condition and both its arms, lowered, and what was next free after the first.
#[derive(Clone, Copy)]
struct Chosen {
    condition: Value,
    yes: Value,
    no: Value,
    middle: Cursor,
}

// The children of an operation, from one of them on: what kind each has to be, whether they go into its list, and which they are.
#[derive(Clone, Copy)]
struct Operands {
    boolean: bool,
    lists: bool,
    first: usize,
    left: usize,
}

// What no children of an operation come to.
const NOTHING: Value = Value {
    a: 0,
    b: 0,
    c: 0,
    boolean: true,
    dynamic: false,
};

// ---- bytes

// An instruction that is no constant, as its bytes tell it.
#[derive(Clone, Copy)]
struct Instruction {
    opcode: usize,
    count: usize,
    destination: usize,
    operands: [usize; 3],
    path: usize,
}

impl Instruction {
    // The instruction n: opcode, a zero, the list's length, destination, three operands, path number.
    fn put(self, p: &mut [u8], n: usize)
        requires { (56 + 24 * n ≤ length p.old) × (self.opcode < 256) }
        ensures { p.new ≡ over p.old (32 + 24 * n) (slot self.opcode self.count self.destination (get_or self.operands 0 0) (get_or self.operands 1 0) (get_or self.operands 2 0) self.path) }
    {
        let at = HEADER_SIZE + SLOT_SIZE * n;
        put_half(p, at, self.opcode);
        put_half(p, at + COUNT_AT, self.count);
        put_word(p, at + DESTINATION_AT, self.destination);
        put_word(p, at + A_AT, self.operands[0]);
        put_word(p, at + B_AT, self.operands[1]);
        put_word(p, at + C_AT, self.operands[2]);
        put_word(p, at + PATH_AT, self.path);
    }
}

// The instruction n is a constant with these bits.
fn put_constant(p: &mut [u8], n: usize, bits: u64, destination: usize, path: usize)
    requires { 56 + 24 * n ≤ length p.old }
    ensures { p.new ≡ over p.old (32 + 24 * n) (constant_slot bits destination path) }
{
    let at = HEADER_SIZE + SLOT_SIZE * n;
    put_half(p, at, opcode::CONSTANT);
    put_half(p, at + COUNT_AT, 0);
    put_word(p, at + DESTINATION_AT, destination);
    put_long(p, at + A_AT, bits);
    put_word(p, at + C_AT, 0);
    put_word(p, at + PATH_AT, path);
}

// A path record: the parent's number, the step, how long the text is.
// Not a `Record`, as paths reads one: each call has its three numbers apart, so one would be made there to be taken apart here.
pub fn put_record(p: &mut [u8], at: usize, parent: usize, step: usize, long: usize)
    requires { at + 12 ≤ length p.old }
    ensures { p.new ≡ over p.old at (little_endian 4 parent ++ little_endian 4 step ++ little_endian 4 long) }
{
    put_word(p, at, parent);
    put_word(p, at + STEP_AT, step);
    put_word(p, at + LENGTH_AT, long);
}

// ---- operators, by kind and number: each test reads as its definition in specs/Operators.
// They tell eleven classes of operations apart, and an enum of these would be matched in each test again.

#[tactic(auto, unfolding(crate::specs::Operators::arity_at))]
fn arity(kind: u8, operator: u8, n: usize) -> bool
    ensures { result ≡ arity_at kind operator n }
{
    if kind != CALL {
        return true;
    }
    match operator {
        operator::MIN | operator::MAX => 2 <= n,
        operator::HILL | operator::DENSITY => n == 3,
        _ => n == 1,
    }
}

#[tactic(auto, unfolding(crate::specs::Operators::takes_boolean))]
fn takes(kind: u8, operator: u8) -> bool
    ensures { result ≡ takes_boolean kind operator }
{
    kind == UNARY && operator == operator::NOT
}

#[tactic(auto, unfolding(crate::specs::Operators::gives_boolean))]
fn gives(kind: u8, operator: u8) -> bool
    ensures { result ≡ gives_boolean kind operator }
{
    match kind {
        UNARY => operator == operator::NOT,
        COMPARE => true,
        _ => false,
    }
}

#[tactic(auto, unfolding(crate::specs::Operators::stepped_at))]
fn stepped(kind: u8, operator: u8) -> bool
    ensures { result ≡ stepped_at kind operator }
{
    match kind {
        BINARY => operator == operator::MODULO,
        CALL => operator == operator::FLOOR || operator == operator::CEIL,
        _ => false,
    }
}

#[tactic(auto, unfolding(crate::specs::Operators::listing_at))]
pub fn listing(kind: u8, operator: u8) -> bool
    ensures { result ≡ listing_at kind operator }
{
    kind == CALL && (operator == operator::MIN || operator == operator::MAX)
}

// A conditional, or Ifelse.
#[tactic(auto, unfolding(crate::specs::Operators::chooses_at))]
pub fn chooses(f: Fields) -> bool
    ensures { result ≡ chooses_at f.kind f.operator }
{
    match f.kind {
        CONDITIONAL => true,
        CALL => f.operator == operator::IFELSE,
        _ => false,
    }
}

#[tactic(auto, unfolding(crate::specs::Operators::opcode_at))]
fn opcode(kind: u8, operator: u8) -> usize
    ensures { (result ≡ opcode_at kind operator) × (result ≤ 34 + operator) }
{
    match kind {
        UNARY => opcode::POSITIVE + usize::from(operator),
        BINARY => opcode::ADD + usize::from(operator),
        COMPARE => opcode::LT + usize::from(operator),
        _ if operator == operator::DENSITY => opcode::DENSITY,
        _ => opcode::EXP + usize::from(operator),
    }
}

// What jumps must not vary, but in a derivative.
fn unsupported(jumps: bool, varies: bool, generated: bool) -> bool
    ensures { result ≡ not (generated || not (jumps && varies)) }
{
    jumps && varies && !generated
}

// ---- leaves

// The bits of 1.0 or 0.0.
fn truth(x: bool) -> u64
    ensures { result ≡ truth_bits x }
{
    if x { 0x3ff0_0000_0000_0000 } else { 0 }
}

// A constant in the next register.
fn constant(p: &mut [u8], s: Site, bits: u64, boolean: bool, c: &mut Cursor) -> Value
    requires { (56 + 24 * c.old.code ≤ length p.old) × (c.old.reg ≤ c.old.code) }
    ensures { (result ≡ record { a = c.old.reg; b = 0; c = 0; boolean = boolean; dynamic = false }) × (c.new ≡ further c.old 1) × (p.new ≡ over p.old (32 + 24 * c.old.code) (constant_slot bits c.old.reg s.path)) }
{
    put_constant(p, c.code, bits, c.reg, s.path);
    c.store(boolean, false)
}

// A symbol in the next register; only parameters are not dynamic.
fn load(p: &mut [u8], kinds: &[Kind], s: Site, i: usize, c: &mut Cursor) -> Result<Value, Fault>
    requires { (56 + 24 * c.old.code ≤ length p.old) × (c.old.reg ≤ c.old.code) }
    ensures { Loads (ltb i (length kinds.now)) kinds.now s i c.old p.old p.new (low_of result c.new) }
{
    let Some(&kind) = kinds.get(i) else {
        return Err(s.fault(Refusal::UnknownSymbol));
    };
    Instruction {
        opcode: opcode::LOAD,
        count: 0,
        destination: c.reg,
        operands: [i, 0, 0],
        path: s.path,
    }
    .put(p, c.code);
    Ok(c.store(false, kind != Kind::Parameter))
}

impl Chosen {
    // The end of both arms: the jump over the second one, its copy, and what they come to.
    fn join(self, p: &mut [u8], s: Site, c: &mut Cursor) -> Result<Value, Fault>
        requires { (80 + 24 * self.middle.code ≤ length p.old) × (56 + 24 * c.old.code ≤ length p.old) × (self.middle.reg + 1 < 2 ^ 64) }
        ensures { (low_of result c.new ≡ arms_answer s.path self.condition self.yes self.no self.middle c.old) × (p.new ≡ arms_bytes s.path self.yes self.no self.middle c.old p.old) }
    {
        if self.yes.boolean != self.no.boolean {
            return Err(s.fault(Refusal::WrongType));
        }
        Instruction {
            opcode: opcode::JUMP,
            count: 0,
            destination: self.middle.reg + 1,
            operands: [0, 0, c.code + 1],
            path: s.path,
        }
        .put(p, self.middle.code + 1);
        Instruction {
            opcode: opcode::COPY,
            count: 0,
            destination: self.middle.reg,
            operands: [self.no.a, 0, 0],
            path: s.path,
        }
        .put(p, c.code);
        c.code += 1;
        Ok(Value {
            a: self.middle.reg,
            b: 0,
            c: 0,
            boolean: self.yes.boolean,
            dynamic: self.condition.dynamic | self.yes.dynamic | self.no.dynamic,
        })
    }
}

impl Source<'_> {
    // The record of the path one step below a site.
    fn enter(&self, p: &mut [u8], step: Step, own: usize) -> Site
        requires { (self.now.layout.paths + 12 * own + 12 ≤ length p.old) × (step.from.length ≤ 2 ^ 32) × (step.number < 2 ^ 32) }
        ensures { (result ≡ record { path = own; length = step.from.length + length (step_text (step_of step.number)) }) × (p.new ≡ over p.old (self.now.layout.paths + 12 * own) (little_endian 4 step.from.path ++ little_endian 4 step.number ++ little_endian 4 (step.from.length + length (step_text (step_of step.number))))) }
    {
        let length = step.from.length + paths::step_length(step.number);
        let at = self.layout.paths + RECORD_SIZE * own;
        put_record(p, at, step.from.path, step.number, length);
        Site { path: own, length }
    }

    // A number, a truth value or a symbol.
    fn leaf(&self, p: &mut [u8], s: Site, f: Fields, c: &mut Cursor) -> Result<Value, Fault>
        requires { Ready self.now.layout p.old s c.old 1 0 0 }
        ensures { Says (own_piece (context self.now) (leaf f) (place self.now.layout p.old s) s.path c.old c.old.node) self.now.layout c.old p.old p.new (low_of result c.new) }
    {
        if f.kind == NUMBER {
            if !is_finite(of_bits(f.value)) {
                return Err(s.fault(Refusal::OutsideDomain));
            }
            return Ok(constant(p, s, f.value, false, c));
        }
        if f.kind == TRUTH {
            return Ok(constant(p, s, truth(f.value == 1), true, c));
        }
        load(p, self.kinds, s, f.symbol, c)
    }

    // The instruction of an operation whose children are lowered: arity, then types, then 8.
    fn operation(
        &self,
        p: &mut [u8],
        s: Site,
        f: Fields,
        v: Value,
        c: &mut Cursor,
    ) -> Result<Value, Fault>
        requires { Ready self.now.layout p.old s c.old 1 0 0 × (f.operator < 16) × (c.old.entry + f.children < 2 ^ 64) }
        ensures { Says (finish_piece (context_of [] self.now.layout.generated) f v (place self.now.layout p.old s) s.path c.old) self.now.layout c.old p.old p.new (low_of result c.new) }
    {
        if !arity(f.kind, f.operator, f.children) {
            return Err(s.fault(Refusal::InvalidInput));
        }
        if !v.boolean {
            return Err(s.fault(Refusal::WrongType));
        }
        let jumps = stepped(f.kind, f.operator);
        if unsupported(jumps, v.dynamic, self.layout.generated) {
            return Err(s.fault(Refusal::Unsupported));
        }
        let o = opcode(f.kind, f.operator);
        let boolean = gives(f.kind, f.operator);
        if listing(f.kind, f.operator) {
            Instruction {
                opcode: o,
                count: f.children,
                destination: c.reg,
                operands: [c.entry, 0, 0],
                path: s.path,
            }
            .put(p, c.code);
            c.entry += f.children;
            return Ok(c.store(boolean, v.dynamic));
        }
        Instruction {
            opcode: o,
            count: 0,
            destination: c.reg,
            operands: [v.a, v.b, v.c],
            path: s.path,
        }
        .put(p, c.code);
        Ok(c.store(boolean, v.dynamic))
    }

    // ---- the cycle

    // Children joined by And or Or, one step below a site.
    #[cycle(lowering)]
    fn lower(
        &self,
        p: &mut [u8],
        step: Step,
        chain: Chain,
        levels: usize,
        c: &mut Cursor,
    ) -> Result<Value, Fault>
        requires ready { RoomFor self.now.layout p.old step.from c.old (arm self.now.bytes.now levels chain.conjunction chain.left c.old.node) }
        requires formed { (all_well_formed (kids self.now.bytes.now levels chain.left c.old.node) ≡ true) × (step.number < 65539) × (chain.left < 65536) }
        ensures { Says (term_piece (context self.now) (arm self.now.bytes.now levels chain.conjunction chain.left c.old.node) (place self.now.layout p.old step.from ▸ step_of step.number) step.from.path c.old (past self.now.bytes.now levels chain.left c.old.node)) self.now.layout c.old p.old p.new (low_of result c.new) }
    {
        let site = self.enter(p, step, c.path);
        c.path += 1;
        if chain.left == 0 {
            return Ok(constant(p, site, truth(!chain.conjunction), true, c));
        }
        if chain.left == 1 {
            return self.node(p, site, levels, c);
        }
        self.link(p, site, chain, levels, c)
    }

    // A node at its own site, of at most so many levels.
    #[cycle(lowering)]
    pub fn node(&self, p: &mut [u8], s: Site, levels: usize, c: &mut Cursor) -> Result<Value, Fault>
        requires ready { RoomAt self.now.layout p.old s c.old (term (tree_in levels self.now.bytes.now c.old.node)) }
        requires formed { well_formed (tree_in levels self.now.bytes.now c.old.node) ≡ true }
        ensures { Says (own_piece (context self.now) (term (tree_in levels self.now.bytes.now c.old.node)) (place self.now.layout p.old s) s.path c.old (c.old.node + node_size * size (tree_in levels self.now.bytes.now c.old.node))) self.now.layout c.old p.old p.new (low_of result c.new) }
    {
        let f = reader::node(self.bytes, c.node);
        c.node += NODE_SIZE;
        if f.kind <= SYMBOL {
            return self.leaf(p, s, f, c);
        }
        let below = levels - 1;
        if f.kind == BOOLEAN {
            if f.children < 2 {
                return Err(s.fault(Refusal::InvalidInput));
            }
            let chain = Chain {
                conjunction: f.operator == operator::AND,
                left: f.children,
            };
            return self.link(p, s, chain, below, c);
        }
        if chooses(f) {
            if f.children != 3 {
                return Err(s.fault(Refusal::InvalidInput));
            }
            let condition = self.lower(p, Step { from: s, number: 0 }, CHILD, below, c)?;
            let choice = Choice {
                condition,
                yes: CHILD,
                no: CHILD,
            };
            return self.branch(p, s, choice, below, c);
        }
        let all = Operands {
            boolean: takes(f.kind, f.operator),
            lists: listing(f.kind, f.operator),
            first: 0,
            left: f.children,
        };
        let v = self.operands(p, s, all, below, c)?;
        self.operation(p, s, f, v, c)
    }

    // And or Or of at least two children: the first is a condition.
    #[cycle(lowering)]
    fn link(
        &self,
        p: &mut [u8],
        s: Site,
        chain: Chain,
        levels: usize,
        c: &mut Cursor,
    ) -> Result<Value, Fault>
        requires ready { RoomAt self.now.layout p.old s c.old (arm self.now.bytes.now levels chain.conjunction chain.left c.old.node) }
        requires formed { (all_well_formed (kids self.now.bytes.now levels chain.left c.old.node) ≡ true) × (2 ≤ chain.left) × (chain.left < 65536) }
        ensures { Says (own_piece (context self.now) (arm self.now.bytes.now levels chain.conjunction chain.left c.old.node) (place self.now.layout p.old s) s.path c.old (past self.now.bytes.now levels chain.left c.old.node)) self.now.layout c.old p.old p.new (low_of result c.new) }
    {
        let condition = self.lower(p, Step { from: s, number: 0 }, CHILD, levels, c)?;
        let rest = Chain {
            left: chain.left - 1,
            ..chain
        };
        let none = Chain { left: 0, ..chain };
        if chain.conjunction {
            let choice = Choice {
                condition,
                yes: rest,
                no: none,
            };
            return self.branch(p, s, choice, levels, c);
        }
        let choice = Choice {
            condition,
            yes: none,
            no: rest,
        };
        self.branch(p, s, choice, levels, c)
    }

    // The arms of a condition. A jump is written once its target is known.
    #[cycle(lowering)]
    fn branch(
        &self,
        p: &mut [u8],
        s: Site,
        choice: Choice,
        levels: usize,
        c: &mut Cursor,
    ) -> Result<Value, Fault>
        requires ready { RoomForArms self.now.layout p.old s c.old (arm self.now.bytes.now levels choice.yes.conjunction choice.yes.left c.old.node) (arm self.now.bytes.now levels choice.no.conjunction choice.no.left (past self.now.bytes.now levels choice.yes.left c.old.node)) }
        requires formed { (all_well_formed (kids self.now.bytes.now levels choice.yes.left c.old.node) ≡ true) × (all_well_formed (kids self.now.bytes.now levels choice.no.left (past self.now.bytes.now levels choice.yes.left c.old.node)) ≡ true) × (choice.yes.left < 65536) × (choice.no.left < 65536) }
        ensures { Says (branch_piece (context self.now) choice.condition (arm self.now.bytes.now levels choice.yes.conjunction choice.yes.left c.old.node) (arm self.now.bytes.now levels choice.no.conjunction choice.no.left (past self.now.bytes.now levels choice.yes.left c.old.node)) (place self.now.layout p.old s) s.path c.old (past self.now.bytes.now levels choice.no.left (past self.now.bytes.now levels choice.yes.left c.old.node))) self.now.layout c.old p.old p.new (low_of result c.new) }
    {
        if !choice.condition.boolean {
            return Err(s.fault(Refusal::WrongType));
        }
        if unsupported(true, choice.condition.dynamic, self.layout.generated) {
            return Err(s.fault(Refusal::Unsupported));
        }
        let begun = *c;
        c.advance(1);
        let y = self.lower(p, Step { from: s, number: 1 }, choice.yes, levels, c)?;
        let middle = *c;
        let target = middle.code + 2;
        Instruction {
            opcode: opcode::BRANCH,
            count: 0,
            destination: begun.reg,
            operands: [choice.condition.a, 0, target],
            path: s.path,
        }
        .put(p, begun.code);
        Instruction {
            opcode: opcode::COPY,
            count: 0,
            destination: middle.reg,
            operands: [y.a, 0, 0],
            path: s.path,
        }
        .put(p, middle.code);
        c.advance(2);
        let z = self.lower(p, Step { from: s, number: 2 }, choice.no, levels, c)?;
        let chosen = Chosen {
            condition: choice.condition,
            yes: y,
            no: z,
            middle,
        };
        chosen.join(p, s, c)
    }

    // Some children of an operation, or none. That is asked before the call that lowers one: as one function with `operand` it
    // takes 4 per cent more machine instructions of compile, and asked in `node` 1 per cent more.
    #[cycle(lowering)]
    fn operands(
        &self,
        p: &mut [u8],
        s: Site,
        o: Operands,
        levels: usize,
        c: &mut Cursor,
    ) -> Result<Value, Fault>
        requires ready { RoomForAll self.now.layout p.old s c.old (terms (kids self.now.bytes.now levels o.left c.old.node)) (cond o.lists (o.first + o.left) 0) }
        requires formed { (all_well_formed (kids self.now.bytes.now levels o.left c.old.node) ≡ true) × (o.first + o.left < 65536) }
        ensures { Lists self.now.layout o.lists (terms (kids self.now.bytes.now levels o.left c.old.node)) o.first (operands_piece (context self.now) o.boolean (terms (kids self.now.bytes.now levels o.left c.old.node)) (place self.now.layout p.old s) o.first s.path c.old (past self.now.bytes.now levels o.left c.old.node)) c.old p.old p.new (low_of result c.new) }
    {
        if o.left == 0 {
            return Ok(NOTHING);
        }
        self.operand(p, s, o, levels, c)
    }

    // The first of them, and those after it; on the way back their registers go into the operation's list, whose place is known
    // only then. Whether any are left is asked here too: asked by `operands`, compile takes 12 per cent more time for operations of
    // two children and 4 to 5 for nested conditionals, as what none come to is then written as bytes and read as a word.
    #[cycle(lowering)]
    fn operand(
        &self,
        p: &mut [u8],
        s: Site,
        o: Operands,
        levels: usize,
        c: &mut Cursor,
    ) -> Result<Value, Fault>
        requires ready { RoomForAll self.now.layout p.old s c.old (terms (kids self.now.bytes.now levels o.left c.old.node)) (cond o.lists (o.first + o.left) 0) }
        requires formed { (all_well_formed (kids self.now.bytes.now levels o.left c.old.node) ≡ true) × (o.first + o.left < 65536) × (1 ≤ o.left) }
        ensures { Lists self.now.layout o.lists (terms (kids self.now.bytes.now levels o.left c.old.node)) o.first (operands_piece (context self.now) o.boolean (terms (kids self.now.bytes.now levels o.left c.old.node)) (place self.now.layout p.old s) o.first s.path c.old (past self.now.bytes.now levels o.left c.old.node)) c.old p.old p.new (low_of result c.new) }
    {
        let step = Step {
            from: s,
            number: 3 + o.first,
        };
        let v = self.lower(p, step, CHILD, levels, c)?;
        let rest = Operands {
            first: o.first + 1,
            left: o.left - 1,
            ..o
        };
        let w = if rest.left == 0 {
            NOTHING
        } else {
            self.operand(p, s, rest, levels, c)?
        };
        let entry = c.entry + o.first;
        if o.lists {
            put_word(p, self.layout.lists + ENTRY_SIZE * entry, v.a);
        }
        Ok(Value {
            a: v.a,
            b: w.a,
            c: w.b,
            boolean: (v.boolean == o.boolean) & w.boolean,
            dynamic: v.dynamic | w.dynamic,
        })
    }
}
