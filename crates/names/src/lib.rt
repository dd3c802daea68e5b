#![tactic(auto)]

ghost use Rattle.std.specs.Prelude.{◌≡◌, ◌||◌, ◌+◌, ◌-◌, ◌%◌, ◌≤◌, ◌<◌, length, get_or, take, drop, IfSome};
ghost use Rattle.std.specs.Result.{result_ok};
ghost use Rattle.formula.specs.Text.{same_bytes};
ghost use Rattle.formula.specs.Names.{is_letter, is_digit, kind_of, symbols_of};
ghost use Rattle.formula.specs.Values.{digit_of, hex_digits, hex as hex_text};
ghost use Rattle.formula.specs.Optional.{given};
ghost use Rattle.names.specs.Lines.{kind_in, kind_numbered, symbol_kind, Letters, Tells, Stands, Listed, Placed, repeats, text, mark, names_of};

// ---- Digits of values: "each value is 16 lower-case hexadecimal digits, the bits of an f64, joined by commas."

// "the digit worked out by its formula: 48 more than the value below ten, 87 more from ten."
#[tactic(auto, using(crate::proofs::Digits::byte_is))]
fn digit_byte(d: u8) -> u8
    requires { d < 16 }
    ensures { result ≡ get_or hex_digits d 0 }
{
    if d < 10 { 48 + d } else { 87 + d }
}

// And back: 48 less from `0` to `9`, 87 less from `a` to `f`; no other byte is a digit.
pub fn digit(b: u8) -> Option<u64>
    ensures is { result ≡ given (digit_of b) }
    ensures small { IfSome result (λ d. d < 16) }
{
    match b {
        b'0'..=b'9' => Some(u64::from(b - 48)),
        b'a'..=b'f' => Some(u64::from(b - 87)),
        _ => None,
    }
}

// The 16 digits of a value.
pub fn hex(n: u64) -> [u8; 16]
    ensures { result ≡ hex_text n }
{
    let mut out = [0; 16];
    let mut rest = n;
    for i in (0..16).rev() {
        out[i] = digit_byte((rest % 16) as u8);
        rest /= 16;
    }
    out
}

// ---- The name line: "Names joined by commas, each followed by `:` and its kind"

// "`a-z`, `_`"
fn is_letter(b: u8) -> bool
    ensures { result ≡ is_letter b }
{
    b.is_ascii_lowercase() || b == b'_'
}

// "and, not first, `0-9`"
fn is_letter_or_digit(b: u8) -> bool
    ensures { result ≡ (is_letter b || is_digit b) }
{
    is_letter(b) || b.is_ascii_digit()
}

// The letters and digits from a byte on: where they end, and their mark.
#[derive(Drop)]
struct Word {
    end: usize,
    mark: u32,
}

// Marks are numbers that equal names share, and others seldom: so most names are told apart by their marks.
// The end and the mark come of one pass; a chain would be two, a `position` and a `fold`.
#[tactic(auto, using(crate::proofs::Letters::spellings))]
fn word_at(line: &[u8], at: usize) -> Word
    requires { at ≤ length line.now }
    ensures { Letters line.now at result.end × (result.mark ≡ mark (take (result.end - at) (drop at line.now))) }
{
    let mut mark: u32 = 0;
    for end in at..line.len() {
        let b = line[end];
        if !is_letter_or_digit(b) {
            return Word { end, mark };
        }
        mark = mark.wrapping_mul(16777619).wrapping_add(u32::from(b));
    }
    Word {
        end: line.len(),
        mark,
    }
}

// "`p` parameter, `s` state, `t` time, `i` input".
#[derive(Clone, Copy, Debug, PartialEq, Eq)]
pub enum Kind {
    Parameter,
    State,
    Time,
    Input,
}

impl Kind {
    // The kind of a number, for callers whose kinds are bytes: 0 parameter, 1 state, 2 time, and an input from 3 on.
    pub fn of(number: u8) -> Kind
        ensures { symbol_kind result ≡ kind_numbered number }
    {
        match number {
            0 => Kind::Parameter,
            1 => Kind::State,
            2 => Kind::Time,
            _ => Kind::Input,
        }
    }
}

// No other byte is a kind.
impl TryFrom<u8> for Kind {
    type Error = ();

    ghost try_from_gives = { λ b r. result_ok r ≡ kind_in (kind_of b) };

    fn try_from(b: u8) -> Result<Kind, ()> {
        match b {
            b'p' => Ok(Kind::Parameter),
            b's' => Ok(Kind::State),
            b't' => Ok(Kind::Time),
            b'i' => Ok(Kind::Input),
            _ => Err(()),
        }
    }
}

// The kind of the entry whose letters and digits end at a byte: a name of "1 to 64 bytes", a letter first, `:`, the kind, and a comma or
// the line's end.
#[tactic(auto, using(crate::proofs::Entries::entries))]
fn kind_after(line: &[u8], at: usize, end: usize) -> Option<Kind>
    requires { Letters line.now at end }
    ensures { Tells line.now at end result }
{
    if line.len() - end < 2 || end - at > 64 {
        return None;
    }
    if line[end] != b':' || !is_letter(line[at]) {
        return None;
    }
    if end + 2 < line.len() && line[end + 2] != b',' {
        return None;
    }
    Kind::try_from(line[end + 1]).ok()
}

// A name of the line. An entry and its comma have at most 67 bytes, so that 256 of them start below 65,536.
// The line stays a parameter of its methods: 256 names that lend it would have 24 bytes each for 8.
#[derive(Clone, Copy)]
struct Name {
    start: u16,
    length: u8,
    mark: u32,
}

impl Name {
    // Its bytes.
    fn text(self, line: &[u8]) -> &[u8]
        requires { self.start + self.length ≤ length line.now }
        ensures { result.now ≡ text line.now self }
    {
        let start = usize::from(self.start);
        &line[start..start + usize::from(self.length)]
    }

    // Whether two names of the line are the same.
    #[tactic(auto, using(crate::proofs::Marks::unlike_marks))]
    fn is_same(self, other: Name, line: &[u8]) -> bool
        requires { Stands line.now self × Stands line.now other }
        ensures { result ≡ same_bytes (text line.now self) (text line.now other) }
    {
        self.mark == other.mark && self.text(line) == other.text(line)
    }

    // Whether it is one of the names before.
    fn is_repeated(self, names: &[Name], line: &[u8]) -> bool
        requires { Listed line.now names.now × Stands line.now self }
        ensures { result ≡ repeats line.now names.now (text line.now self) }
    {
        names.iter().any(|name| name.is_same(self, line))
    }

    // The place of its mark in a table.
    fn place(self) -> usize
        ensures { result ≡ self.mark % 1024 }
    {
        (self.mark % 1024) as usize
    }

    // The same, with a table of the places that the marks before have taken: where its own place is free, no name before has its mark.
    #[tactic(auto, using(crate::proofs::Marks::not_placed))]
    fn comes_again(self, names: &[Name], taken: &[bool; 1024], line: &[u8]) -> bool
        requires { Listed line.now names.now × Stands line.now self × Placed names.now taken.now }
        ensures { result ≡ repeats line.now names.now (text line.now self) }
    {
        taken[self.place()] && self.is_repeated(names, line)
    }
}

// The names of a line: how many there are, and the kind of each; after them `Parameter` fills the rest, as there is no heap for a
// list.
#[derive(Clone, Copy)]
pub struct Names {
    pub count: usize,
    pub kinds: [Kind; 256],
}

// Reads a name line: "none twice. At most 256 names; an empty line has none."
pub fn read_names(line: &[u8]) -> Option<Names>
    ensures { result ≡ names_of (symbols_of line.now) }
{
    let mut names = [Name {
        start: 0,
        length: 0,
        mark: 0,
    }; 256];
    let mut taken = [false; 1024];
    let mut kinds = [Kind::Parameter; 256];
    if line.is_empty() {
        return Some(Names { count: 0, kinds });
    }
    let mut count = 0;
    let mut at = 0;
    // The pieces of `split` would be read twice: a quarter more instructions for 256 names of 64 letters.
    loop {
        let word = word_at(line, at);
        let kind = kind_after(line, at, word.end)?;
        if count == 256 {
            return None;
        }
        let name = Name {
            start: at as u16,
            length: (word.end - at) as u8,
            mark: word.mark,
        };
        if name.comes_again(&names[..count], &taken, line) {
            return None;
        }
        names[count] = name;
        taken[name.place()] = true;
        kinds[count] = kind;
        count += 1;
        let end = word.end + 2;
        if end == line.len() {
            return Some(Names { count, kinds });
        }
        at = end + 1;
    }
}
