#![tactic(auto)]

mod head;
pub mod number;

// The rules of `derivative.rs`, interpreted: one reading of them works out attributes and another writes nodes.
// They stand in prefix (Polish) notation, a letter for each code, so that `add(mul(da, b), mul(a, db))` is `+*xb*ay`. Arms
// written out would stand twice, once for the attributes and once for the nodes, with each test for a literal zero or one in
// both; here each arm stands once, and the tests of `add` and `mul` once in each reading.
ghost use Rattle.std.specs.Prelude.{◌≡◌, ◌+◌, ◌-◌, ◌<◌, ◌≤◌, get_or};
ghost use Rattle.rules.specs.Notation.{look, binaries, calls, others, coded, operators, operator_codes, code_of, letter_at, code_at, end_at};
ghost use Rattle.rules.specs.Codes.{Reads, parts_in, literal_number};

pub use head::Head;
use reader::byte;

// A literal that a rule writes; the exponent is that of a Power, where it is a literal.
#[derive(Clone, Copy)]
pub enum Literal {
    Zero,
    One,
    Two,
    Three,
    Half,
    ThreeHalves,
    MinusOne,
    Tiny,
    LnTen,
    Exponent,
    ExponentLessOne,
    // The literal 1 that `power` writes for the power 0.
    Zeroth,
}

// What stands at a place of a rule.
#[derive(Clone, Copy)]
pub enum Code {
    // Past the end: a case, not an Option, as every match on a code has an arm for it like the others.
    Nothing,
    Child(usize),
    Derivative(usize),
    // The node itself.
    Whole,
    // A new node, with the parts that follow.
    Node(Head),
    // The literal 0 where the derivative of child i is a literal zero, else what follows.
    Unless(usize),
    // `add` and `mul`, which simplify.
    Add,
    Multiply,
    // The derivative of the first argument that equals the extremum.
    Extremum,
    Literal(Literal),
}

// Add, Subtract, Multiply, Divide, Power, Modulo, and Power by a literal n, by n - 1 = 1, by n - 1 = 0.
fn binary_letter(q: usize, i: usize) -> u8
    ensures { result ≡ get_or (look binaries q) i 0 }
{
    match q {
        0x40 => byte(b"+xy", i),
        0x41 => byte(b"+x*-y", i),
        0x42 => byte(b"+*xb*ay", i),
        0x43 => byte(b"/+*xb*-*ay^b2", i),
        number::POWER => byte(b"+X?=b00?=b1x**b^a+b*-1xY?=a00**wLay", i),
        0x45 => byte(b"+/0w+x*-*F/aby", i),
        number::LITERAL_POWER => byte(b"**n^amx", i),
        number::SQUARE => byte(b"**nax", i),
        number::FIRST_POWER => byte(b"**nox", i),
        _ => 0,
    }
}

// Exp, Log, Log10, Sqrt, Sin, Cos, Tan, Tanh, Abs, Min, Max, Hill, Ifelse, InverseGaussianDensity.
fn call_letter(q: usize, i: usize) -> u8
    ensures { result ≡ get_or (look calls q) i 0 }
{
    match q {
        0x70 => byte(b"*wx", i),
        0x71 => byte(b"*/1ax", i),
        0x72 => byte(b"*/1*aTx", i),
        0x73 => byte(b"*/1*2wx", i),
        0x74 => byte(b"*Cax", i),
        0x75 => byte(b"**-Sax", i),
        0x76 => byte(b"*/1^Ca2x", i),
        0x77 => byte(b"*+1*-^w2x", i),
        0x78 => byte(b"?>a0x?<a0*-x0", i),
        number::MIN => byte(b"M", i),
        number::MAX => byte(b"M", i),
        number::HILL => byte(
            b"?>a0+***/HabcaHcbabx+***wHcba+La*-Lcy*-***/wcHcbabz?<a00X?>b10/10",
            i,
        ),
        number::IFELSE => byte(b"?ayz", i),
        0x7f => byte(
            b"?>w0*w++*+*-/ta*h+/c^a2*-/c^b2x*/*c+a*-b^b3y*+/hc*-/^+a*-b2*2*^b2az0",
            i,
        ),
        _ => 0,
    }
}

// A symbol, Positive, Negative, a conditional, and Hill by a state.
fn other_letter(q: usize, i: usize) -> u8
    ensures { result ≡ get_or (look others q) i 0 }
{
    match q {
        0x20 => byte(b"1", i),
        0x30 => byte(b"x", i),
        0x31 => byte(b"*-x", i),
        number::CONDITIONAL => byte(b"?ayz", i),
        number::HILL_BY_STATE => byte(
            b"?>a0+***/HabcaHcbabx+***wHcba+La*-Lcy*-***/wcHcbabz?<a00X?>b10?=b1/xc***/H*ecbc*ecHcb*ecbx",
            i,
        ),
        _ => 0,
    }
}

// A letter of a rule, 0 past its end. It is looked up apart, and what is made of it is inlined: so a caller's match on a code is
// one with the match on its letter.
#[tactic(auto, unfolding(crate::specs::Notation::letters, crate::specs::Notation::letter_at))]
#[inline(never)]
fn letter(q: usize, i: usize) -> u8
    ensures { result ≡ letter_at q i }
{
    match q / 16 {
        4 => binary_letter(q, i),
        7 => call_letter(q, i),
        _ => other_letter(q, i),
    }
}

// The code of a letter that parts follow, and of M.
#[inline(always)]
fn operator_code(letter: u8) -> Code
    ensures { Reads result (coded operators operator_codes 0 letter) }
{
    match letter {
        b'+' => Code::Add,
        b'*' => Code::Multiply,
        b'/' => Code::Node(Head::DIVIDE),
        b'^' => Code::Node(Head::POWER),
        b'<' => Code::Node(Head::LESS),
        b'>' => Code::Node(Head::GREATER),
        b'=' => Code::Node(Head::EQUAL),
        b'?' => Code::Node(Head::CONDITIONAL),
        b'L' => Code::Node(Head::LOG),
        b'S' => Code::Node(Head::SIN),
        b'C' => Code::Node(Head::COS),
        b'F' => Code::Node(Head::FLOOR),
        b'H' => Code::Node(Head::HILL),
        b'M' => Code::Extremum,
        b'X' => Code::Unless(0),
        b'Y' => Code::Unless(1),
        _ => Code::Nothing,
    }
}

// The code of a letter.
#[tactic(auto, unfolding(crate::specs::Notation::code_of))]
#[inline(always)]
fn code_of(letter: u8) -> Code
    ensures { Reads result (code_of letter) }
{
    match letter {
        b'a' => Code::Child(0),
        b'b' => Code::Child(1),
        b'c' => Code::Child(2),
        b'x' => Code::Derivative(0),
        b'y' => Code::Derivative(1),
        b'z' => Code::Derivative(2),
        b'w' => Code::Whole,
        b'0' => Code::Literal(Literal::Zero),
        b'1' => Code::Literal(Literal::One),
        b'2' => Code::Literal(Literal::Two),
        b'3' => Code::Literal(Literal::Three),
        b'h' => Code::Literal(Literal::Half),
        b't' => Code::Literal(Literal::ThreeHalves),
        b'-' => Code::Literal(Literal::MinusOne),
        b'e' => Code::Literal(Literal::Tiny),
        b'T' => Code::Literal(Literal::LnTen),
        b'n' => Code::Literal(Literal::Exponent),
        b'm' => Code::Literal(Literal::ExponentLessOne),
        b'o' => Code::Literal(Literal::Zeroth),
        _ => operator_code(letter),
    }
}

impl Code {
    // How many parts follow it.
    #[inline(always)]
    pub fn parts(self) -> usize
        ensures { (result ≡ parts_in self) × (result ≤ 3) }
    {
        match self {
            Code::Node(head) => usize::from(head.children),
            Code::Unless(_) => 1,
            Code::Add | Code::Multiply => 2,
            _ => 0,
        }
    }
}

// A part of a rule: the number of the rule, where the part starts, and how many levels it may have. A rule's number is its
// node's kind and operator, two bytes as they stand in the node, or one that no node has: an enum of the 28 rules would need
// this table of numbers too.
#[derive(Clone, Copy)]
pub struct RulePart {
    pub rule: usize,
    pub start: usize,
    pub levels: usize,
}

impl RulePart {
    // A whole rule.
    pub fn whole(rule: usize) -> RulePart
        ensures { result ≡ record { rule = rule; start = 0; levels = 16 } }
    {
        RulePart {
            rule,
            start: 0,
            levels: 16,
        }
    }

    // The code that it starts with.
    #[tactic(auto, unfolding(crate::specs::Notation::code_at))]
    #[inline(always)]
    pub fn code(self) -> Code
        ensures { Reads result (code_at self.rule self.start) }
    {
        code_of(letter(self.rule, self.start))
    }

    // The first of the parts that follow its code.
    #[inline(always)]
    pub fn first(self) -> RulePart
        requires { (0 < self.levels) × (self.start < 128) }
        ensures { result ≡ record { rule = self.rule; start = self.start + 1; levels = self.levels - 1 } }
    {
        RulePart {
            start: self.start + 1,
            levels: self.levels - 1,
            ..self
        }
    }

    // The part after it.
    #[inline(always)]
    pub fn next(self) -> RulePart
        ensures { result ≡ record { rule = self.rule; start = end_at self.levels self.rule self.start; levels = self.levels } }
    {
        RulePart {
            start: self.end(),
            ..self
        }
    }

    // Where it ends: the start of the part after it.
    pub fn end(self) -> usize
        ensures { result ≡ end_at self.levels self.rule self.start }
    {
        if self.levels == 0 || self.start >= 128 {
            return self.start;
        }
        let parts = self.code().parts();
        let mut end = self.start + 1;
        for _part in 0..parts {
            let part = RulePart {
                start: end,
                levels: self.levels - 1,
                ..self
            };
            end = part.end();
        }
        end
    }
}
