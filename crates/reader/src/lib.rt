#![tactic(auto)]

pub mod operator;

ghost use Rattle.std.specs.Prelude.{◌≡◌, true, ◌&&◌, ◌++◌, ◌+◌, ◌^◌, ◌≤◌, ◌<◌, length, take, drop, ltb, eqb};
ghost use Rattle.formula.specs.Text.{byte_at, half_at, word_at, long_at, zeros};
ghost use Rattle.formula.specs.Formula.{well_formed};
ghost use Rattle.formula.specs.Node.{fields_at, head_of, tree_at, formula_of};
ghost use Rattle.formula.specs.Transfer.{transfer_of};
ghost use Rattle.reader.specs.Read.{is_some, written, end_at, limited, told, refused};

use refusals::Refusal;

// How many bytes a node has.
pub const NODE_SIZE: usize = 16;

// N bytes that are all there.
fn known_bytes<const N: usize>(b: &[u8], at: usize) -> [u8; N]
    requires { at + N ≤ length b.now }
    ensures { result ≡ take N (drop at b.now) }
{
    let mut bytes = [0; N];
    bytes.copy_from_slice(&b[at..at + N]);
    bytes
}

// The little-endian number of 2, 4 or 8 bytes that are all there: a name for each width, as the definitions have one each. No test is made:
// with those of `word` in the fields of an instruction, the check of a program takes 2.3 times as many machine instructions.
pub fn known_half(b: &[u8], at: usize) -> usize
    requires { at + 2 ≤ length b.now }
    ensures { (result ≡ half_at b.now at) × (result < 65536) }
{
    usize::from(u16::from_le_bytes(known_bytes::<2>(b, at)))
}

pub fn known_word(b: &[u8], at: usize) -> usize
    requires { at + 4 ≤ length b.now }
    ensures { (result ≡ word_at b.now at) × (result < 2 ^ 32) }
{
    u32::from_le_bytes(known_bytes::<4>(b, at)) as usize
}

fn known_long(b: &[u8], at: usize) -> u64
    requires { at + 8 ≤ length b.now }
    ensures { result ≡ long_at b.now at }
{
    u64::from_le_bytes(known_bytes::<8>(b, at))
}

// Fewer bytes than N, and zeros.
#[cold]
fn padded<const N: usize>(b: &[u8]) -> [u8; N]
    requires { length b.now < N }
    ensures { result ≡ take N (b.now ++ zeros N) }
{
    let mut bytes = [0; N];
    for i in 0..b.len() {
        bytes[i] = b[i];
    }
    bytes
}

// N bytes, with 0 for each past the end. Those that are all there take one load.
fn bytes_from<const N: usize>(b: &[u8], at: usize) -> [u8; N]
    ensures { result ≡ take N (drop at b.now ++ zeros N) }
{
    if at >= b.len() {
        return [0; N];
    }
    if N <= b.len() - at {
        return known_bytes(b, at);
    }
    padded(&b[at..])
}

// The little-endian number of 1, 2, 4 or 8 bytes, with 0 for each past the end.
// `byte` and its like of registers and cells stay one line each over `get`: of one function over `Default`, whose value is told by
// a predicate and not made where the item is there, `result ≡ get_or xs i zero` stayed open.
pub fn byte(b: &[u8], at: usize) -> u8
    ensures { result ≡ byte_at b.now at }
{
    b.get(at).copied().unwrap_or(0)
}

pub fn half(b: &[u8], at: usize) -> usize
    ensures { (result ≡ half_at b.now at) × (result < 65536) }
{
    usize::from(u16::from_le_bytes(bytes_from::<2>(b, at)))
}

pub fn word(b: &[u8], at: usize) -> usize
    ensures { (result ≡ word_at b.now at) × (result < 2 ^ 32) }
{
    u32::from_le_bytes(bytes_from::<4>(b, at)) as usize
}

pub fn long(b: &[u8], at: usize) -> u64
    ensures { result ≡ long_at b.now at }
{
    u64::from_le_bytes(bytes_from::<8>(b, at))
}

// The kinds of nodes. A node's kind stays a number where it is read: a byte may be no kind, and the definitions tell kinds by their numbers.
pub const NUMBER: u8 = 0;

pub const TRUTH: u8 = 1;

pub const SYMBOL: u8 = 2;

pub const UNARY: u8 = 3;

pub const BINARY: u8 = 4;

pub const COMPARE: u8 = 5;

pub const BOOLEAN: u8 = 6;

pub const CALL: u8 = 7;

pub const CONDITIONAL: u8 = 8;

// "Byte 0 is the kind, byte 1 the operator, bytes 2-3 the child count, 4-7 the symbol number from 0, 8-15 the value".
#[derive(Clone, Copy)]
pub struct Fields {
    pub kind: u8,
    pub operator: u8,
    pub children: usize,
    pub symbol: usize,
    pub value: u64,
}

// The fields of the node at a byte, whose bytes are there.
pub fn node(b: &[u8], at: usize) -> Fields
    requires { at + 16 ≤ length b.now }
    ensures { (written result ≡ fields_at b.now at) × (result.children < 65536) }
{
    Fields {
        kind: b[at],
        operator: b[at + 1],
        children: known_half(b, at + 2),
        symbol: known_word(b, at + 4),
        value: known_long(b, at + 8),
    }
}

// A leaf has no operator and no children.
fn is_leaf(f: Fields) -> bool
    ensures { result ≡ (eqb f.operator 0 && eqb f.children 0) }
{
    f.operator == 0 && f.children == 0
}

// A number and a truth value have no symbol besides.
fn is_literal(f: Fields) -> bool
    ensures { result ≡ (eqb f.operator 0 && eqb f.children 0 && eqb f.symbol 0) }
{
    is_leaf(f) && f.symbol == 0
}

// An inner node has one of so many operators, no symbol and no value.
fn is_inner(f: Fields, operators: u8) -> bool
    ensures { result ≡ (ltb f.operator operators && (eqb f.symbol 0 && eqb f.value 0)) }
{
    f.operator < operators && (f.symbol == 0 && f.value == 0)
}

// Whether the fields are a node's: "unused fields zero".
fn is_head(f: Fields) -> bool
    ensures { result ≡ is_some (head_of (written f)) }
{
    match f.kind {
        NUMBER => is_literal(f),
        TRUTH => is_literal(f) && f.value < 2,
        SYMBOL => is_leaf(f) && f.value == 0,
        UNARY => is_inner(f, 3) && f.children == 1,
        BINARY => is_inner(f, 6) && f.children == 2,
        COMPARE => is_inner(f, 6) && f.children == 2,
        BOOLEAN => is_inner(f, 2),
        CALL => is_inner(f, 16),
        CONDITIONAL => is_inner(f, 1) && f.children == 3,
        _ => false,
    }
}

// What is wrong with bytes that are no formula, at which node from 0.
#[derive(Clone, Copy, Debug, PartialEq, Eq)]
pub enum Malformed {
    EndedEarly(usize),
    WrongField(usize),
    LeftOver(usize),
}

impl From<Malformed> for Refusal {
    ghost from_gives = { λ m r. r ≡ refused m };

    fn from(malformed: Malformed) -> Refusal {
        match malformed {
            Malformed::EndedEarly(k) => Refusal::EndedEarly(k),
            Malformed::WrongField(k) => Refusal::WrongField(k),
            Malformed::LeftOver(k) => Refusal::LeftOver(k),
        }
    }
}

// "Nodes of 16 bytes, each followed by its children, nothing after the root's last", or the first fault in the order of the bytes.
// Each tree that is owed takes a node or more. Where more are owed than nodes are left the bytes can only end early or have a wrong
// field, and the count of them need not grow.
pub fn receive(b: &[u8]) -> Result<(), Malformed>
    ensures { result ≡ told (transfer_of b.now) }
{
    let nodes = b.len() / NODE_SIZE;
    let mut owed = 1;
    for k in 0..nodes {
        if owed == 0 {
            return Err(Malformed::LeftOver(k));
        }
        let fields = node(b, NODE_SIZE * k);
        if !is_head(fields) {
            return Err(Malformed::WrongField(k));
        }
        if owed <= nodes - k {
            owed = owed - 1 + fields.children;
        }
    }
    if owed > 0 {
        return Err(Malformed::EndedEarly(nodes));
    }
    if NODE_SIZE * nodes < b.len() {
        return Err(Malformed::LeftOver(nodes));
    }
    Ok(())
}

// Whether the bytes are a formula.
pub fn is_formula(b: &[u8]) -> bool
    ensures { result ≡ is_some (formula_of b.now) }
{
    receive(b).is_ok()
}

// The byte after the tree at a byte, if it has at most so many levels.
fn end_of(b: &[u8], at: usize, levels: usize) -> Option<usize>
    requires { well_formed (tree_at b.now at) ≡ true }
    ensures { result ≡ end_at b.now at levels }
{
    let below = levels.checked_sub(1)?;
    let children = known_half(b, at + 2);
    let mut end = at + NODE_SIZE;
    for child in 0..children {
        end = end_of(b, end, below)?;
    }
    Some(end)
}

// Whether a formula has at most so many nodes and levels. The nodes are counted first, so that long bytes are not gone into.
pub fn is_small(b: &[u8], nodes: usize, levels: usize) -> bool
    requires { is_some (formula_of b.now) ≡ true }
    ensures { result ≡ limited nodes levels (formula_of b.now) }
{
    b.len() / NODE_SIZE <= nodes && end_of(b, 0, levels).is_some()
}
