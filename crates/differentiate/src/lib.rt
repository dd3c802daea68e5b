#![tactic(auto)]
// Writes the derivative tree: "Each part is written straight into the free end of the tree slice." A writer puts its nodes at
// the start of the slice that it is lent, and lends what is free behind them to the writer of the next part. What is
// simplified away is known from the survey, so nothing is written that the tree does not keep. The same writers write the
// nodes' records, where these are asked for: what is written of a node is a type parameter.
ghost use Rattle.std.specs.Prelude.{◌≡◌, refl, ℕ, Bool, true, false, ◌++◌, ◌+◌, ◌*◌, ◌-◌, ◌<◌, ◌≤◌, length};
ghost use Rattle.std.proofs.Math.Option.{some};
ghost use Rattle.formula.specs.Formula.{Formula, size, well_formed};
ghost use Rattle.formula.specs.Node.{encode, inner_fields, node_bytes, node_size};
ghost use Rattle.derivative.specs.Differentiate.{derivative};
ghost use Rattle.derivative.specs.Records.{by_rule, copy as copy_from, derivative_records, list_bytes, record_bytes, record_size, recorded_literal};
ghost use Rattle.derivative.specs.Provenance.{numbered};
ghost use Rattle.rules.specs.Codes.{literal_number};
ghost use Rattle.survey.specs.Table.{tree};
ghost use Rattle.writer.specs.Over.{over};
ghost use Rattle.differentiate.specs.Written.{Writes, Task, bytes, start, step, coded_arm, arm_of, rule_by, literal_part, arm_node, recorded, recorded_of, copy_of, part as part_of, parts_bytes, extremum_bytes, extremum_tree, tie_bytes, sum_bytes, product_bytes, primal_bytes, asked, Job};

use reader::{BINARY, CALL, CONDITIONAL, NODE_SIZE, SYMBOL, UNARY, byte};
use rules::{Code, Head, Literal, RulePart};
use survey::{By, Node, Part, Row};
use writer::{put_bytes, put_long, put_word};

// The bytes of a record: "rule number and the node of the formula it came from, 4 bytes each".
pub const ORIGIN_SIZE: usize = 8;
// A record says where a node comes from, and no more.
pub const RECORD_SIZE: usize = ORIGIN_SIZE;
// The number in the records of a copy.
const COPIED: usize = 0;

// Where a node of the derivative that is no copy comes from: an arm of `differentiate`, the 0 that `mul` writes, the 1 that
// `power` writes, a part without the symbol, or the outer nodes.
#[derive(Clone, Copy)]
pub enum Origin {
    Arm,
    BesideZero,
    ToTheZeroth,
    WithoutSymbol,
    Outer,
}

// "in the order of the arms of `differentiate`", by a node's kind and operator, the numbers that stand in its bytes. A string
// has the arms of a kind's operators in their order, as the definition's table: a match over 24 names would say the same longer.
fn arm_number(kind: u8, operator: u8) -> u8
    ensures { result ≡ coded_arm kind operator }
{
    let operator = usize::from(operator);
    match kind {
        SYMBOL => 1,
        UNARY => byte(b"\x02\x03", operator),
        BINARY => byte(b"\x04\x05\x06\x07\x08\x09", operator),
        CALL => byte(
            b"\x10\x11\x12\x13\x14\x15\x16\x17\x0d\x00\x00\x0c\x0c\x0f\x0b\x0e",
            operator,
        ),
        CONDITIONAL => 10,
        _ => 0,
    }
}

// The number of a node's arm.
fn arm_of(node: &Node) -> usize
    ensures { result ≡ arm_of (tree node.now.formula.now node.now.number) }
{
    let at = NODE_SIZE * node.number;
    usize::from(arm_number(byte(node.formula, at), byte(node.formula, at + 1)))
}

impl Origin {
    // The number in a record.
    fn rule(self, node: &Node) -> usize
        ensures { result ≡ rule_by self (tree node.now.formula.now node.now.number) }
    {
        match self {
            Origin::Arm => arm_of(node),
            Origin::BesideZero => 24,
            Origin::ToTheZeroth => 25,
            Origin::WithoutSymbol => 26,
            Origin::Outer => 27,
        }
    }
}

// ---- what is written of a node

// The nodes of the derivative, or their records.
pub trait Form {
    ghost records: { Bool };

    ghost SIZE: { ℕ };

    // The bytes of one.
    const SIZE: usize;

    // A literal that comes from a node.
    fn put_literal(bits: u64, origin: Origin, node: &Node, out: &mut [u8]) -> usize
        requires { step records ≤ length out.old }
        ensures { Writes (bytes records (recorded_literal (rule_by origin (tree node.now.formula.now node.now.number)) node.now.number bits)) out.old out.new result };

    // A node that is no literal and no symbol, up to its children.
    fn put_head(head: Head, origin: Origin, node: &Node, out: &mut [u8]) -> usize
        requires { step records ≤ length out.old }
        ensures { Writes (start records (by_rule (rule_by origin (tree node.now.formula.now node.now.number)) node.now.number) (node_bytes (inner_fields head.kind head.operator head.children))) out.old out.new result };

    // A copy of the tree of a node.
    fn put_copy(node: &Node, out: &mut [u8]) -> usize
        requires { length (bytes records (copy_from node.now.number (tree node.now.formula.now node.now.number))) ≤ length out.old }
        ensures { Writes (bytes records (copy_from node.now.number (tree node.now.formula.now node.now.number))) out.old out.new result };

    ghost sized: { SIZE ≡ step records };
}

// Copies node k and all below it, so many nodes.
fn put_nodes(f: &[u8], k: usize, count: usize, out: &mut [u8]) -> usize
    requires { (well_formed (tree f.now k) ≡ true) × (count ≡ size (tree f.now k)) × (length (encode (tree f.now k)) ≤ length out.old) }
    ensures { Writes (encode (tree f.now k)) out.old out.new result }
{
    let start = NODE_SIZE * k;
    let end = start + NODE_SIZE * count;
    put_bytes(out, 0, &f[start..end])
}

pub struct Nodes {}

impl Form for Nodes {
    ghost records = { false };

    ghost SIZE = { node_size };

    const SIZE: usize = NODE_SIZE;

    ghost sized = { refl };

    fn put_literal(bits: u64, origin: Origin, node: &Node, out: &mut [u8]) -> usize {
        let mut literal = [0u8; NODE_SIZE];
        put_long(&mut literal, 8, bits);
        put_bytes(out, 0, &literal)
    }

    fn put_head(head: Head, origin: Origin, node: &Node, out: &mut [u8]) -> usize {
        let mut bytes = [0u8; NODE_SIZE];
        bytes[0] = head.kind;
        bytes[1] = head.operator;
        bytes[2] = head.children;
        put_bytes(out, 0, &bytes)
    }

    fn put_copy(node: &Node, out: &mut [u8]) -> usize {
        put_nodes(node.formula, node.number, node.row().nodes, out)
    }
}

// Writes a record from a place on.
fn put_origin(rule: usize, number: usize, at: usize, out: &mut [u8])
    requires { at + record_size ≤ length out.old }
    ensures { out.new ≡ over out.old at (record_bytes (by_rule rule number)) }
{
    put_word(out, at, rule);
    put_word(out, at + 4, number);
}

pub struct Records {}

impl Form for Records {
    ghost records = { true };

    ghost SIZE = { record_size };

    const SIZE: usize = ORIGIN_SIZE;

    ghost sized = { refl };

    fn put_literal(bits: u64, origin: Origin, node: &Node, out: &mut [u8]) -> usize {
        put_origin(origin.rule(node), node.number, 0, out);
        ORIGIN_SIZE
    }

    fn put_head(head: Head, origin: Origin, node: &Node, out: &mut [u8]) -> usize {
        put_origin(origin.rule(node), node.number, 0, out);
        ORIGIN_SIZE
    }

    // Each record of a copy has its own node's number.
    fn put_copy(node: &Node, out: &mut [u8]) -> usize {
        let count = node.row().nodes;
        for i in 0..count {
            put_origin(COPIED, node.number + i, ORIGIN_SIZE * i, out);
        }
        ORIGIN_SIZE * count
    }
}

// ---- the parts of a derivative

// A copy of child i.
fn put_child<F: Form>(node: &Node, i: usize, out: &mut [u8]) -> usize
    requires { length (bytes F.records (copy_of node.now.number (tree node.now.formula.now node.now.number) i)) ≤ length out.old }
    ensures { Writes (bytes F.records (copy_of node.now.number (tree node.now.formula.now node.now.number) i)) out.old out.new result }
{
    match node.child(i) {
        Some(child) => F::put_copy(&child, out),
        None => F::put_literal(0, Origin::Arm, node, out),
    }
}

// One of a rule's literals: the last is `power`'s.
fn put_rule_literal<F: Form>(literal: Literal, node: &Node, out: &mut [u8]) -> usize
    requires { step F.records ≤ length out.old }
    ensures { Writes (bytes F.records (literal_part node.now.number (tree node.now.formula.now node.now.number) (literal_number literal))) out.old out.new result }
{
    let origin = match literal {
        Literal::Zeroth => Origin::ToTheZeroth,
        _ => Origin::Arm,
    };
    F::put_literal(node.literal_bits(literal), origin, node, out)
}

// A conditional whose condition is that child i equals the extremum.
fn put_tie<F: Form>(node: &Node, i: usize, out: &mut [u8]) -> usize
    requires { length (tie_bytes F.records node.now.number (tree node.now.formula.now node.now.number) i) ≤ length out.old }
    ensures { Writes (tie_bytes F.records node.now.number (tree node.now.formula.now node.now.number) i) out.old out.new result }
{
    let a = F::put_head(Head::CONDITIONAL, Origin::Arm, node, out);
    let b = a + F::put_head(Head::EQUAL, Origin::Arm, node, &mut out[a..]);
    let c = b + put_child::<F>(node, i, &mut out[b..]);
    c + F::put_copy(node, &mut out[c..])
}

// "A part without the symbol gives 0 before any rule is tried." The survey has found a rule wherever one is needed.
#[cycle(writing)]
pub fn differentiate<F: Form>(part: &Part, depth: usize, out: &mut [u8]) -> usize
    requires { Task part.now.by.symbol part.now.by.state part.now.node.formula.now part.now.node.rows.now part.now.node.number depth (bytes F.records (recorded part.now.by.symbol part.now.by.state part.now.node.number (tree part.now.node.formula.now part.now.node.number))) out.old }
    ensures { Writes (bytes F.records (recorded part.now.by.symbol part.now.by.state part.now.node.number (tree part.now.node.formula.now part.now.node.number))) out.old out.new result }
{
    let has = part.node.row().has;
    if !has {
        return F::put_literal(0, Origin::WithoutSymbol, &part.node, out);
    }
    match part.rule() {
        Some(rule) => write_rule::<F>(part, rule, depth, out),
        None => F::put_literal(0, Origin::WithoutSymbol, &part.node, out),
    }
}

// The derivative of child i.
#[cycle(writing)]
fn write_diff<F: Form>(part: &Part, i: usize, depth: usize, out: &mut [u8]) -> usize
    requires { Task part.now.by.symbol part.now.by.state part.now.node.formula.now part.now.node.rows.now part.now.node.number depth (bytes F.records (recorded_of part.now.by.symbol part.now.by.state part.now.node.number (tree part.now.node.formula.now part.now.node.number) i)) out.old }
    ensures { Writes (bytes F.records (recorded_of part.now.by.symbol part.now.by.state part.now.node.number (tree part.now.node.formula.now part.now.node.number) i)) out.old out.new result }
{
    match part.node.child(i) {
        Some(node) => {
            let child = Part { node, by: part.by };
            differentiate::<F>(&child, depth - 1, out)
        }
        None => F::put_literal(0, Origin::Arm, &part.node, out),
    }
}

// What a part of a rule gives. Here and below depth stays beside the part: it is the measure and counts the formula's levels, a RulePart counts its own.
#[cycle(writing)]
fn write_rule<F: Form>(part: &Part, here: RulePart, depth: usize, out: &mut [u8]) -> usize
    requires { Task part.now.by.symbol part.now.by.state part.now.node.formula.now part.now.node.rows.now part.now.node.number depth (bytes F.records (part_of part.now.by.symbol part.now.by.state part.now.node.number (tree part.now.node.formula.now part.now.node.number) here.levels here.rule here.start)) out.old }
    ensures { Writes (bytes F.records (part_of part.now.by.symbol part.now.by.state part.now.node.number (tree part.now.node.formula.now part.now.node.number) here.levels here.rule here.start)) out.old out.new result }
{
    let node = &part.node;
    if here.levels == 0 || here.start >= 128 {
        return F::put_literal(0, Origin::Arm, node, out);
    }
    let first = here.first();
    match here.code() {
        Code::Nothing => F::put_literal(0, Origin::Arm, node, out),
        Code::Child(i) => put_child::<F>(node, i, out),
        Code::Derivative(i) => write_diff::<F>(part, i, depth, out),
        Code::Whole => F::put_copy(node, out),
        Code::Node(head) => write_node::<F>(part, head, first, depth, out),
        Code::Unless(i) => {
            if part.diff_attributes(i).is_zero() {
                return F::put_literal(0, Origin::Arm, node, out);
            }
            write_rule::<F>(part, first, depth, out)
        }
        Code::Add => write_sum::<F>(part, first, depth, out),
        Code::Multiply => write_product::<F>(part, first, depth, out),
        Code::Extremum => write_extremum::<F>(part, depth, out),
        Code::Literal(literal) => put_rule_literal::<F>(literal, node, out),
    }
}

// Two parts, added: "Only a literal zero (of either sign) beside Add .. are simplified."
#[cycle(writing)]
fn write_sum<F: Form>(part: &Part, first: RulePart, depth: usize, out: &mut [u8]) -> usize
    requires { Task part.now.by.symbol part.now.by.state part.now.node.formula.now part.now.node.rows.now part.now.node.number depth (sum_bytes F.records part.now.by.symbol part.now.by.state part.now.node.number (tree part.now.node.formula.now part.now.node.number) first.levels first.rule first.start) out.old }
    ensures { Writes (sum_bytes F.records part.now.by.symbol part.now.by.state part.now.node.number (tree part.now.node.formula.now part.now.node.number) first.levels first.rule first.start) out.old out.new result }
{
    let second = first.next();
    if part.rule_attributes(first).is_zero() {
        return write_rule::<F>(part, second, depth, out);
    }
    if part.rule_attributes(second).is_zero() {
        return write_rule::<F>(part, first, depth, out);
    }
    write_node::<F>(part, Head::ADD, first, depth, out)
}

// Two parts, multiplied: "a literal zero or one beside Multiply".
#[cycle(writing)]
fn write_product<F: Form>(part: &Part, first: RulePart, depth: usize, out: &mut [u8]) -> usize
    requires { Task part.now.by.symbol part.now.by.state part.now.node.formula.now part.now.node.rows.now part.now.node.number depth (product_bytes F.records part.now.by.symbol part.now.by.state part.now.node.number (tree part.now.node.formula.now part.now.node.number) first.levels first.rule first.start) out.old }
    ensures { Writes (product_bytes F.records part.now.by.symbol part.now.by.state part.now.node.number (tree part.now.node.formula.now part.now.node.number) first.levels first.rule first.start) out.old out.new result }
{
    let second = first.next();
    let a = part.rule_attributes(first);
    let b = part.rule_attributes(second);
    if a.is_zero() || b.is_zero() {
        return F::put_literal(0, Origin::BesideZero, &part.node, out);
    }
    if a.is_one() {
        return write_rule::<F>(part, second, depth, out);
    }
    if b.is_one() {
        return write_rule::<F>(part, first, depth, out);
    }
    write_node::<F>(part, Head::MULTIPLY, first, depth, out)
}

// A node, and its parts behind it. Not inlined: `write_rule`, which calls itself, would save more registers at each call.
#[inline(never)]
#[cycle(writing)]
fn write_node<F: Form>(
    part: &Part,
    head: Head,
    first: RulePart,
    depth: usize,
    out: &mut [u8],
) -> usize
    requires { Task part.now.by.symbol part.now.by.state part.now.node.formula.now part.now.node.rows.now part.now.node.number depth (arm_node F.records part.now.node.number (tree part.now.node.formula.now part.now.node.number) head.kind head.operator head.children ++ parts_bytes F.records part.now.by.symbol part.now.by.state part.now.node.number (tree part.now.node.formula.now part.now.node.number) first.levels first.rule head.children first.start) out.old }
    ensures { Writes (arm_node F.records part.now.node.number (tree part.now.node.formula.now part.now.node.number) head.kind head.operator head.children ++ parts_bytes F.records part.now.by.symbol part.now.by.state part.now.node.number (tree part.now.node.formula.now part.now.node.number) first.levels first.rule head.children first.start) out.old out.new result }
{
    let mut n = F::put_head(head, Origin::Arm, &part.node, out);
    let mut start = first.start;
    for _part in 0..head.children {
        let here = RulePart { start, ..first };
        n += write_rule::<F>(part, here, depth, &mut out[n..]);
        start = here.end();
    }
    n
}

// Min and Max: "Compare against the primal extremum in source order." The derivative of the first child that equals it, with
// conditionals for all but the last.
#[cycle(writing)]
fn write_extremum<F: Form>(part: &Part, depth: usize, out: &mut [u8]) -> usize
    requires { Task part.now.by.symbol part.now.by.state part.now.node.formula.now part.now.node.rows.now part.now.node.number depth (bytes F.records (extremum_tree part.now.by.symbol part.now.by.state part.now.node.number (tree part.now.node.formula.now part.now.node.number))) out.old }
    ensures { Writes (bytes F.records (extremum_tree part.now.by.symbol part.now.by.state part.now.node.number (tree part.now.node.formula.now part.now.node.number))) out.old out.new result }
{
    let children = part.node.children();
    if children == 0 {
        return F::put_literal(0, Origin::Arm, &part.node, out);
    }
    let last = children - 1;
    let mut n = 0;
    for i in 0..last {
        n += put_tie::<F>(&part.node, i, &mut out[n..]);
        n += write_diff::<F>(part, i, depth, &mut out[n..]);
    }
    n + write_diff::<F>(part, last, depth, &mut out[n..])
}

// 0 × formula, up to the derivative.
fn put_primal<F: Form>(whole: &Node, out: &mut [u8]) -> usize
    requires { length (primal_bytes F.records whole.now.number (tree whole.now.formula.now whole.now.number)) ≤ length out.old }
    ensures { Writes (primal_bytes F.records whole.now.number (tree whole.now.formula.now whole.now.number)) out.old out.new result }
{
    let a = F::put_head(Head::ADD, Origin::Outer, whole, out);
    let b = a + F::put_head(Head::MULTIPLY, Origin::Outer, whole, &mut out[a..]);
    let c = b + F::put_literal(0, Origin::Outer, whole, &mut out[b..]);
    c + F::put_copy(whole, &mut out[c..])
}

// "0 × formula + derivative, by the rules of `derivative.rs`": the nodes of the tree that the definition gives, or their
// records, behind them the slice as it was. The four stay apart, as at `survey`, which writes the rows first.
pub fn write_derivative<F: Form>(
    f: &[u8],
    depth: usize,
    by: By,
    rows: &[Row],
    out: &mut [u8],
) -> usize
    requires { Job F.records by.symbol by.state f.now rows.now depth out.old }
    ensures { (d : Formula) → derivative by.symbol by.state (tree f.now 0) ≡ some d → Writes (asked F.records (derivative_records by.symbol by.state (tree f.now 0)) d) out.old out.new result }
{
    let node = Node {
        formula: f,
        rows,
        number: 0,
    };
    let part = Part { node, by };
    let n = put_primal::<F>(&node, out);
    n + differentiate::<F>(&part, depth, &mut out[n..])
}
