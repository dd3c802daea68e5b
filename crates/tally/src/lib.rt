#![tactic(auto)]
// What the program of a formula's nodes needs: instructions, path records, list entries.
ghost use Rattle.std.specs.Prelude.{◌≡◌, true, ◌^◌, ◌<◌};
ghost use Rattle.formula.specs.Node.{tree_in};
ghost use Rattle.formula.specs.Formula.{all_well_formed, well_formed};
ghost use Rattle.formula.specs.Term.{terms};
ghost use Rattle.machine.specs.Lower.{instruction_counts};
ghost use Rattle.layout.specs.Image.{path_counts, entry_counts};
ghost use Rattle.lower.specs.Piece.{kids, past};
ghost use Rattle.tally.specs.Weight.{drops_at, more, weight};

use lower::{chooses, listing};
use reader::{BOOLEAN, Fields, NODE_SIZE, SYMBOL};

// The byte after some nodes, and what they need.
#[derive(Clone, Copy)]
pub struct Counts {
    pub node: usize,
    pub code: usize,
    pub paths: usize,
    pub entries: usize,
}

// No nodes, before the first byte.
const NOTHING: Counts = Counts {
    node: 0,
    code: 0,
    paths: 0,
    entries: 0,
};

impl Counts {
    // So much more at the same byte.
    fn grown(self, code: usize, paths: usize, entries: usize) -> Counts
        requires counted { (self.code < 2 ^ 63) × (self.paths < 2 ^ 63) × (self.entries < 2 ^ 63) }
        requires added { (code < 2 ^ 63) × (paths < 2 ^ 63) × (entries < 2 ^ 63) }
        ensures { result ≡ more self code paths entries }
    {
        Counts {
            node: self.node,
            code: self.code + code,
            paths: self.paths + paths,
            entries: self.entries + entries,
        }
    }
}

// Whether a node's children are dropped.
#[tactic(auto, unfolding(crate::specs::Weight::drops_at))]
fn drops(f: Fields) -> bool
    ensures { result ≡ drops_at f }
{
    if f.kind == BOOLEAN {
        f.children < 2
    } else {
        chooses(f) && f.children != 3
    }
}

// A node with all below it, by its fields and what its children need. And, Or and Ifelse with a wrong count drop their children.
fn weigh(f: Fields, inner: Counts) -> Counts
    requires { (inner.code < 2 ^ 63) × (inner.paths < 2 ^ 63) × (inner.entries < 2 ^ 63) × (f.children < 65536) }
    ensures { result ≡ weight f inner }
{
    if f.kind <= SYMBOL || drops(f) {
        return Counts {
            code: 1,
            paths: 1,
            entries: 0,
            ..inner
        };
    }
    let n = f.children;
    if f.kind == BOOLEAN {
        return inner.grown(5 * (n - 1), 2 * (n - 1), 0);
    }
    if chooses(f) {
        return inner.grown(4, 1, 0);
    }
    if listing(f.kind, f.operator) {
        return inner.grown(1, 1, n);
    }
    inner.grown(1, 1, 0)
}

// The `left` nodes that stand from a byte on, with all below them.
pub fn tally(b: &[u8], d: usize, left: usize, at: usize) -> Counts
    requires { all_well_formed (kids b.now d left at) ≡ true }
    ensures { result ≡ record { node = past b.now d left at; code = instruction_counts (terms (kids b.now d left at)); paths = path_counts (terms (kids b.now d left at)); entries = entry_counts (terms (kids b.now d left at)) } }
{
    let mut all = Counts {
        node: at,
        ..NOTHING
    };
    for _ in 0..left {
        let f = reader::node(b, all.node);
        let inner = tally(b, d - 1, f.children, all.node + NODE_SIZE);
        let own = weigh(f, inner);
        all = all.grown(own.code, own.paths, own.entries);
        all.node = own.node;
    }
    all
}

// The whole formula's tree, in one pass over its nodes as long as none drops its children: what each needs by itself. How many
// nodes there are shows once each has said how many children it has.
pub fn count(b: &[u8], d: usize) -> Counts
    requires { well_formed (tree_in d b.now 0) ≡ true }
    ensures { (result.code ≡ instruction_counts (terms (kids b.now d 1 0))) × (result.paths ≡ path_counts (terms (kids b.now d 1 0))) × (result.entries ≡ entry_counts (terms (kids b.now d 1 0))) }
{
    let mut all = NOTHING;
    let mut owed = 1;
    while owed > 0 {
        let f = reader::node(b, all.node);
        if drops(f) {
            return tally(b, d, 1, 0);
        }
        let own = weigh(f, NOTHING);
        all = all.grown(own.code, own.paths, own.entries);
        all.node += NODE_SIZE;
        owed = owed - 1 + f.children;
    }
    all
}
