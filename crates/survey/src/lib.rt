#![tactic(auto)]
// What is known of a derivative before a node of it is written: its nodes and levels, capped above the limits, and a
// literal's bits. One pass over the formula fills a row of a table for each node; each child is worked out once.
ghost use Rattle.std.specs.Prelude.{◌≡◌, true, [], ◌∷◌, ◌+◌, ◌*◌, ◌<◌, ◌≤◌, length, MatchOption};
ghost use Rattle.formula.specs.Text.{byte_at, half_at};
ghost use Rattle.formula.specs.Optional.{option_of};
ghost use Rattle.formula.specs.Formula.{count, depends, well_formed, is_symbol as is_symbol_of};
ghost use Rattle.formula.specs.Node.{node_size};
ghost use Rattle.derivative.specs.Rules.{instance, less_one, add_of, mul_of};
ghost use Rattle.derivative.specs.Differentiate.{literal_bits, second_literal, first_depends};
ghost use Rattle.derivative.specs.Attributes.{attribute_algebra, attributes_of, primal_attributes, survey as survey_of};
ghost use Rattle.reader.specs.Read.{is_some};
ghost use Rattle.rules.specs.Notation.{or_zero, literal_code, extremum as extremum_of, power_number};
ghost use Rattle.rules.specs.Codes.{literal_number};
ghost use Rattle.survey.specs.Derived.{children_of, head_of_tree, child_of, derived, derived_of, ruled};
ghost use Rattle.survey.specs.Table.{tree, number_of, IsRule, reading, or_literal, row_in, Owned, Ready, IsChild, Room, Filled, found};
ghost use Rattle.survey.specs.Worked.{attribute_parts, worked, worked_all, literal_attributes, inner, over_sum, Capped};

use reader::{NODE_SIZE, NUMBER, SYMBOL, byte, half, long, word};
use rules::{Code, Head, Literal, RulePart, number};

// The bits of the literals 1 and -0.
const ONE: u64 = 0x3ff0000000000000;

const MINUS_ZERO: u64 = 0x8000000000000000;

// A symbol, and whether it is a state: all that the rules ask of its kind.
#[derive(Clone, Copy)]
pub struct By {
    pub symbol: usize,
    pub state: bool,
}

// ---- attributes of trees that are not built

// What is known of a tree: its nodes, its levels, and its bits where it is a literal.
#[derive(Clone, Copy)]
pub struct Attributes {
    pub nodes: usize,
    pub levels: usize,
    pub literal: Option<u64>,
}

// The nodes and the levels of trees one after another.
#[derive(Clone, Copy)]
struct Sum {
    nodes: usize,
    levels: usize,
}

impl Sum {
    // A node above such trees.
    fn above(self) -> Attributes
        requires { (self.nodes ≤ 65540) × (self.levels ≤ 129) }
        ensures { reading result ≡ over_sum self.nodes self.levels }
    {
        Attributes {
            nodes: (self.nodes + 1).min(16385),
            levels: (self.levels + 1).min(129),
            literal: None,
        }
    }
}

// The caps stay in the clauses: were they facts of the type, `is_zero` and `is_one`, which ask for none, would ask for them too.
impl Attributes {
    fn of_literal(bits: u64) -> Attributes
        ensures { reading result ≡ literal_attributes bits }
    {
        Attributes {
            nodes: 1,
            levels: 1,
            literal: Some(bits),
        }
    }

    // "a literal zero (of either sign)"
    pub fn is_zero(self) -> bool
        ensures { result ≡ attribute_algebra.is_zero (reading self) }
    {
        self.literal
            .is_some_and(|bits| bits == 0 || bits == MINUS_ZERO)
    }

    pub fn is_one(self) -> bool
        ensures { result ≡ attribute_algebra.is_one (reading self) }
    {
        self.literal == Some(ONE)
    }

    // A node above two trees.
    fn beside(self, other: Attributes) -> Attributes
        requires { Capped self × Capped other }
        ensures { reading result ≡ inner (reading self ∷ reading other ∷ []) }
    {
        let both = Sum {
            nodes: self.nodes + other.nodes,
            levels: self.levels.max(other.levels),
        };
        both.above()
    }

    // "Only a literal zero (of either sign) beside Add, a literal zero or one beside Multiply .. are simplified."
    fn add(self, other: Attributes) -> Attributes
        requires { Capped self × Capped other }
        ensures { reading result ≡ add_of attribute_algebra (reading self) (reading other) }
    {
        if self.is_zero() {
            return other;
        }
        if other.is_zero() {
            return self;
        }
        self.beside(other)
    }

    fn multiply(self, other: Attributes) -> Attributes
        requires { Capped self × Capped other }
        ensures { reading result ≡ mul_of attribute_algebra (reading self) (reading other) }
    {
        if self.is_zero() || other.is_zero() {
            return Attributes::of_literal(0);
        }
        if self.is_one() {
            return other;
        }
        if other.is_one() {
            return self;
        }
        self.beside(other)
    }

    // Of 0 × formula + derivative, by their attributes.
    pub fn with_primal(self, diff: Attributes) -> Attributes
        requires { Capped self × Capped diff }
        ensures { reading result ≡ primal_attributes (reading self) (reading diff) }
    {
        Attributes::of_literal(0).beside(self).beside(diff)
    }
}

// A conditional with these three parts.
fn conditional(a: Attributes, b: Attributes, c: Attributes) -> Attributes
    requires { Capped a × Capped b × Capped c }
    ensures { reading result ≡ inner (reading a ∷ reading b ∷ reading c ∷ []) }
{
    let all = Sum {
        nodes: a.nodes + b.nodes + c.nodes,
        levels: a.levels.max(b.levels.max(c.levels)),
    };
    all.above()
}

// ---- the table

// A row: a node's own nodes and levels, whether the symbol stands in it, whether it has a derivative, and the derivative's
// attributes, with a literal 0 where a rule is missing: these are known where there is no derivative too, so `fine` and `diff` are no Option.
#[derive(Clone, Copy)]
pub struct Row {
    pub nodes: usize,
    pub levels: usize,
    pub has: bool,
    pub fine: bool,
    pub diff: Attributes,
}

impl Row {
    pub const EMPTY: Row = Row {
        nodes: 0,
        levels: 0,
        has: false,
        fine: false,
        diff: Attributes {
            nodes: 0,
            levels: 0,
            literal: None,
        },
    };
}

// A node of a formula, by its number, where the sizes of the node and of all below it stand in the rows.
#[derive(Clone, Copy)]
pub struct Node<'a> {
    pub formula: &'a [u8],
    pub rows: &'a [Row],
    pub number: usize,
    pub ghost owned: { Owned formula.now rows.now number },
}

fn less_one(n: u64) -> u64
    ensures { result ≡ less_one n }
{
    floats::value::bits_of(floats::value::of_bits(n) - 1.0)
}

impl<'a> Node<'a> {
    // How many children it has.
    pub fn children(&self) -> usize
        ensures { (result ≡ half_at self.now.formula.now (node_size * self.now.number + 2)) × (result < 65536) }
    {
        half(self.formula, NODE_SIZE * self.number + 2)
    }

    // Child i.
    pub fn child(&self, i: usize) -> Option<Node<'a>>
        ensures { MatchOption result (half_at self.now.formula.now (node_size * self.now.number + 2) ≤ i) (λ c. (c.formula.now ≡ self.now.formula.now) × (c.rows.now ≡ self.now.rows.now) × IsChild self.now.formula.now self.now.number i c.number) }
    {
        if i >= self.children() {
            return None;
        }
        let mut number = self.number + 1;
        for _passed in 0..i {
            number += self.rows[number].nodes;
        }
        Some(Node {
            formula: self.formula,
            rows: self.rows,
            number,
        })
    }

    // Its row.
    pub fn row(&self) -> Row
        ensures { result ≡ row_in self.now.rows.now self.now.number }
    {
        self.rows[self.number]
    }

    // The bits of a literal.
    fn literal(&self) -> Option<u64>
        ensures { option_of result ≡ literal_bits (tree self.now.formula.now self.now.number) }
    {
        let at = NODE_SIZE * self.number;
        (byte(self.formula, at) == NUMBER).then(|| long(self.formula, at + 8))
    }

    fn attributes(&self) -> Attributes
        ensures { reading result ≡ attributes_of (tree self.now.formula.now self.now.number) }
    {
        let row = self.row();
        Attributes {
            nodes: row.nodes.min(16385),
            levels: row.levels.min(129),
            literal: self.literal(),
        }
    }

    fn child_attributes(&self, i: usize) -> Attributes
        ensures { reading result ≡ attributes_of (child_of (tree self.now.formula.now self.now.number) i) }
    {
        self.child(i)
            .map_or(Attributes::of_literal(0), |child| child.attributes())
    }

    // The second child's bits where it is a literal.
    fn exponent(&self) -> Option<u64>
        ensures { option_of result ≡ second_literal (children_of (tree self.now.formula.now self.now.number)) }
    {
        self.child(1)?.literal()
    }

    fn exponent_bits(&self) -> u64
        ensures { result ≡ or_zero (second_literal (children_of (tree self.now.formula.now self.now.number))) }
    {
        self.exponent().unwrap_or(0)
    }

    // The bits of a rule's literal.
    pub fn literal_bits(&self, literal: Literal) -> u64
        ensures { result ≡ literal_code (or_zero (second_literal (children_of (tree self.now.formula.now self.now.number)))) (literal_number literal) }
    {
        match literal {
            Literal::Zero => 0,
            Literal::One => ONE,
            Literal::Two => 0x4000000000000000,
            Literal::Three => 0x4008000000000000,
            Literal::Half => 0x3fe0000000000000,
            Literal::ThreeHalves => 0x3ff8000000000000,
            Literal::MinusOne => 0xbff0000000000000,
            Literal::Tiny => 0x3e45798ee2308c3a,
            Literal::LnTen => 0x40026bb1bbb55516,
            Literal::Exponent => self.exponent_bits(),
            Literal::ExponentLessOne => less_one(self.exponent_bits()),
            Literal::Zeroth => ONE,
        }
    }
}

// ---- the rule of a node

// A node and what its derivative is by, where the rows of all below it are filled.
#[derive(Clone, Copy)]
pub struct Part<'a> {
    pub node: Node<'a>,
    pub by: By,
    pub ghost ready: { Ready by.symbol by.state node.formula.now node.rows.now node.number },
}

// "the powers 0 and 1 that the rules themselves write"
fn power_rule(exponent: Option<u64>) -> usize
    ensures { result ≡ power_number (option_of exponent) }
{
    let Some(bits) = exponent else {
        return number::POWER;
    };
    let less = Attributes::of_literal(less_one(bits));
    if less.is_one() {
        return number::SQUARE;
    }
    if less.is_zero() {
        return number::FIRST_POWER;
    }
    number::LITERAL_POWER
}

impl<'a> Part<'a> {
    // Of the derivative of child i.
    pub fn diff_attributes(&self, i: usize) -> Attributes
        ensures { reading result ≡ attributes_of (derived_of self.now.by.symbol self.now.by.state (tree self.now.node.formula.now self.now.node.number) i) }
    {
        self.node
            .child(i)
            .map_or(Attributes::of_literal(0), |child| child.row().diff)
    }

    // Min and Max: "Equality deliberately selects the first argument at a tie", so from the last argument to the first.
    fn extremum(&self) -> Attributes
        ensures { reading result ≡ instance attribute_algebra (attribute_parts self.now.by.symbol self.now.by.state (tree self.now.node.formula.now self.now.node.number)) (extremum_of (count (children_of (tree self.now.node.formula.now self.now.node.number)))) }
    {
        let children = self.node.children();
        if children == 0 {
            return Attributes::of_literal(0);
        }
        let whole = self.node.attributes();
        let last = children - 1;
        let mut selected = self.diff_attributes(last);
        for i in (0..last).rev() {
            let equal = self.node.child_attributes(i).beside(whole);
            selected = conditional(equal, self.diff_attributes(i), selected);
        }
        selected
    }

    // What a part of a rule gives.
    #[cycle(rules)]
    pub fn rule_attributes(&self, here: RulePart) -> Attributes
        ensures { reading result ≡ worked self.now.by.symbol self.now.by.state (tree self.now.node.formula.now self.now.node.number) here.levels here.rule here.start }
    {
        if here.levels == 0 || here.start >= 128 {
            return Attributes::of_literal(0);
        }
        let first = here.first();
        match here.code() {
            Code::Nothing => Attributes::of_literal(0),
            Code::Child(i) => self.node.child_attributes(i),
            Code::Derivative(i) => self.diff_attributes(i),
            Code::Whole => self.node.attributes(),
            Code::Node(head) => self.node_attributes(head, first),
            Code::Unless(i) => {
                if self.diff_attributes(i).is_zero() {
                    return Attributes::of_literal(0);
                }
                self.rule_attributes(first)
            }
            Code::Add => {
                let a = self.rule_attributes(first);
                a.add(self.rule_attributes(first.next()))
            }
            Code::Multiply => {
                let a = self.rule_attributes(first);
                a.multiply(self.rule_attributes(first.next()))
            }
            Code::Extremum => self.extremum(),
            Code::Literal(literal) => Attributes::of_literal(self.node.literal_bits(literal)),
        }
    }

    // Of a new node with the parts from here on.
    #[cycle(rules)]
    fn node_attributes(&self, head: Head, first: RulePart) -> Attributes
        ensures { reading result ≡ inner (worked_all self.now.by.symbol self.now.by.state (tree self.now.node.formula.now self.now.node.number) first.levels first.rule head.children first.start) }
    {
        let mut sum = Sum {
            nodes: 0,
            levels: 0,
        };
        let mut start = first.start;
        for _part in 0..head.children {
            let here = RulePart { start, ..first };
            let part = self.rule_attributes(here);
            sum.nodes += part.nodes;
            sum.levels = sum.levels.max(part.levels);
            start = here.end();
        }
        sum.above()
    }

    // Whether the first child has the symbol.
    fn moving(&self) -> bool
        ensures { result ≡ first_depends self.now.by.symbol (children_of (tree self.now.node.formula.now self.now.node.number)) }
    {
        self.node.child(0).is_some_and(|child| child.row().has)
    }

    // The number of the rule: its kind and its operator, but for Power by a literal, Hill by a state, and what has no rule.
    pub fn rule_number(&self) -> usize
        ensures { result ≡ number_of self.now.by.symbol self.now.by.state self.now.node.formula.now self.now.node.number }
    {
        let at = NODE_SIZE * self.node.number;
        let formula = self.node.formula;
        let q = 16 * usize::from(byte(formula, at)) + usize::from(byte(formula, at + 1));
        match q {
            number::POWER => power_rule(self.node.exponent()),
            number::HILL => {
                if self.by.state {
                    number::HILL_BY_STATE
                } else {
                    q
                }
            }
            number::IFELSE | number::CONDITIONAL => { if self.moving() { number::NONE } else { q } }
            number::MIN | number::MAX => {
                if self.node.children() == 0 {
                    number::NONE
                } else {
                    q
                }
            }
            _ => q,
        }
    }

    // The rule, where there is one.
    pub fn rule(&self) -> Option<RulePart>
        ensures { IsRule self.now.by.symbol self.now.by.state self.now.node.formula.now self.now.node.number result }
    {
        let whole = RulePart::whole(self.rule_number());
        // A match is plainer here: `matches!` would take a negation and `then_some` beside it.
        match whole.code() {
            Code::Nothing => None,
            _ => Some(whole),
        }
    }

    // Of the derivative, where a node that has the symbol has a rule. "A part without the symbol gives 0 before any rule is
    // tried."
    fn diff(&self, has: bool) -> Option<Attributes>
        requires { has ≡ depends self.now.by.symbol (tree self.now.node.formula.now self.now.node.number) }
        ensures { (is_some (option_of result) ≡ ruled self.now.by.symbol self.now.by.state (tree self.now.node.formula.now self.now.node.number)) × (reading (or_literal result) ≡ attributes_of (derived self.now.by.symbol self.now.by.state (tree self.now.node.formula.now self.now.node.number))) }
    {
        if !has {
            return Some(Attributes::of_literal(0));
        }
        let rule = self.rule()?;
        Some(self.rule_attributes(rule))
    }
}

// ---- the survey

fn is_symbol(f: &[u8], k: usize, s: usize) -> bool
    requires { well_formed (tree f.now k) ≡ true }
    ensures { result ≡ is_symbol_of s (head_of_tree (tree f.now k)) }
{
    byte(f, NODE_SIZE * k) == SYMBOL && word(f, NODE_SIZE * k + 4) == s
}

// Fills the rows of a node and of all below it; the rows before and after them stay as they are. While rows are written there
// is no Node, which lends them: so the formula, the depth, what it is by and the rows stay four parameters.
pub fn survey(f: &[u8], k: usize, depth: usize, by: By, rows: &mut [Row])
    requires { Room f.now rows.old k depth }
    ensures { Filled by.symbol by.state f.now rows.old rows.new k }
{
    let mut has = is_symbol(f, k, by.symbol);
    let mut fine = true;
    let mut levels = 0;
    let mut next = k + 1;
    let children = half(f, NODE_SIZE * k + 2);
    for _child in 0..children {
        survey(f, next, depth - 1, by, rows);
        let row = rows[next];
        levels = levels.max(row.levels);
        has |= row.has;
        fine &= row.fine;
        next += row.nodes;
    }
    let mut row = Row {
        nodes: next - k,
        levels: levels + 1,
        has,
        ..Row::EMPTY
    };
    rows[k] = row;
    let node = Node {
        formula: f,
        rows,
        number: k,
    };
    let part = Part { node, by };
    let diff = part.diff(has);
    row.fine = !has | (fine & diff.is_some());
    row.diff = diff.unwrap_or(Attributes::of_literal(0));
    rows[k] = row;
}

// ---- of the whole formula

// The formula's own attributes, whether the symbol stands in it, and its derivative's attributes where it has one.
#[derive(Clone, Copy)]
pub struct Found {
    pub own: Attributes,
    pub has: bool,
    pub diff: Option<Attributes>,
}

// Surveys a formula. "8 at `root` from the rules" is an answer without a derivative.
pub fn survey_formula(f: &[u8], depth: usize, by: By, rows: &mut [Row]) -> Found
    requires { Room f.now rows.old 0 depth }
    ensures { (found result ≡ survey_of by.symbol by.state (tree f.now 0)) × Filled by.symbol by.state f.now rows.old rows.new 0 }
{
    survey(f, 0, depth, by, rows);
    let row = rows[0];
    let whole = Node {
        formula: f,
        rows,
        number: 0,
    };
    Found {
        own: whole.attributes(),
        has: row.has,
        diff: row.fine.then_some(row.diff),
    }
}
