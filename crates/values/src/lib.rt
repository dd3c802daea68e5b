#![tactic(auto)]
// A line of values, read as its bytes come: "each value is 16 lower-case hexadecimal digits, the bits of an f64, joined by
// commas". The memory is a slice for the values and three numbers, however long the line is.
pub mod words;

ghost use Rattle.std.specs.Prelude.{◌≡◌, ◌≢◌, ◌+◌, ◌<◌, ◌≤◌, true, List, [], ◌∷◌, length, take, All, IfOk, from_bits, slice_index, slice_set, Float};
ghost use Rattle.std.specs.Float.{binary64};
ghost use Rattle.names.specs.Lines.{free, part};
ghost use Rattle.values.specs.Reading.{EndsAs, ReadsDigit, ReadsOn, Starts, TellsEmpty, counted};
ghost use Rattle.values.specs.Eights.{Numbers};

use crate::words::read_eight;
use refusals::Refusal;

// A line as it is said to be, as far as it was read: how many values stand before its last comma, how many digits follow it
// and their number. A count above the places of the slice is one more than these. An Option of it would be no plainer: `keep` would
// still compare the count with the places, and ask besides whether there is one.
#[derive(Clone, Copy)]
pub struct Partial {
    pub count: usize,
    pub digits: usize,
    pub bits: u64,
}

// What was read of a line; none of a line that is not as said, whatever follows.
pub type Reading = Option<Partial>;

impl Partial {
    // Before the first digit of a value, with so many values before it.
    fn after(count: usize) -> Partial
        ensures { result ≡ record { count = count; digits = 0; bits = 0 } }
    {
        Partial {
            count,
            digits: 0,
            bits: 0,
        }
    }

    // With one more byte, where it is a digit and less than sixteen stand before it.
    fn with_digit(self, b: u8) -> Reading
        ensures { ReadsDigit self b result }
    {
        let digit = names::digit(b)?;
        if self.digits >= 16 {
            return None;
        }
        Some(Partial {
            digits: self.digits + 1,
            bits: 16 * (self.bits % 0x1000_0000_0000_0000) + digit,
            ..self
        })
    }
}

// Nothing was read yet.
pub fn fresh() -> Reading
    ensures { Starts result }
{
    Some(Partial::after(0))
}

// Stores a value where there is a place for it, and says how many there are then.
fn keep(values: &mut [f64], count: usize, bits: u64) -> usize
    ensures { (result ≡ counted (length values.old) count) × (values.new ≡ slice_set values.old count (from_bits binary64 bits)) }
{
    if count < values.len() {
        values[count] = floats::value::of_bits(bits);
        return count + 1;
    }
    values.len() + 1
}

// One more byte of a line, which is no newline.
pub fn read_byte(s: Reading, b: u8, values: &mut [f64]) -> Reading
    ensures { ReadsOn s values.old (b ∷ []) result values.new }
{
    let line = s?;
    if b != b',' {
        return line.with_digit(b);
    }
    if line.digits != 16 {
        return None;
    }
    Some(Partial::after(keep(values, line.count, line.bits)))
}

// What was read up to a byte of the input. Each place here is one of the caller's input: of a shorter slice, lent from there on,
// `read_values`, `read_part` and `lines` would have to add the place again to each end that they are given.
#[derive(Clone, Copy)]
pub struct Part {
    pub reading: Reading,
    pub end: usize,
}

// Reads the digits from a byte of the input on, one by one.
fn read_each(input: &[u8], from: usize, s: Partial) -> Part
    requires { from ≤ length input.now }
    ensures place { (from ≤ result.end) × (result.end ≤ length input.now) × (free 10 (part input.now from result.end) ≡ true) }
    ensures read { (values : List Float) → ReadsOn (Some s) values (part input.now from result.end) result.reading values }
{
    let mut line = s;
    for end in from..input.len() {
        let Some(longer) = line.with_digit(input[end]) else {
            return Part {
                reading: Some(line),
                end,
            };
        };
        line = longer;
    }
    Part {
        reading: Some(line),
        end: input.len(),
    }
}

// The sixteen digits of a value, from a byte of the input on. Both words are read first, so that one test is enough for both.
fn sixteen(input: &[u8], at: usize) -> Option<u64>
    requires { at + 16 ≤ length input.now }
    ensures { Numbers 16 (part input.now at (at + 16)) result }
{
    let a = reader::long(input, at);
    let b = reader::long(input, at + 8);
    let high = read_eight(a)?;
    let low = read_eight(b)?;
    Some(4294967296 * high + low)
}

// Reads values from a byte of the input on, each with its comma, as far as they stand whole there, and then digits one by one. The
// loop counts for itself, and not by `chunks_exact(17)`, since the reading goes on from where the values end.
fn read_values(input: &[u8], from: usize, s: Partial, values: &mut [f64]) -> Part
    requires { from ≤ length input.now }
    ensures place { (from ≤ result.end) × (result.end ≤ length input.now) × (free 10 (part input.now from result.end) ≡ true) }
    ensures read { ReadsOn (Some s) values.old (part input.now from result.end) result.reading values.new }
{
    if s.digits > 0 {
        return read_each(input, from, s);
    }
    let mut at = from;
    let mut count = s.count;
    while 17 <= input.len() - at {
        let Some(bits) = sixteen(input, at) else {
            break;
        };
        if input[at + 16] != b',' {
            return Part {
                reading: Some(Partial {
                    count,
                    digits: 16,
                    bits,
                }),
                end: at + 16,
            };
        }
        count = keep(values, count, bits);
        at += 17;
    }
    read_each(input, at, Partial::after(count))
}

// Where a byte stands first, or the end.
pub fn first_place(bytes: &[u8], byte: u8) -> usize
    ensures within { result ≤ length bytes.now }
    ensures before { All (λ b. b ≢ byte) (take result bytes.now) }
    ensures found { result < length bytes.now → slice_index bytes.now result ≡ byte }
{
    bytes.iter().position(|b| *b == byte).unwrap_or(bytes.len())
}

// The end of a line from a byte of the input on: its newline or the end of the input.
pub fn line_end(input: &[u8], from: usize) -> usize
    requires { from ≤ length input.now }
    ensures { (from ≤ result) × (result ≤ length input.now) × (free 10 (part input.now from result) ≡ true) × (result < length input.now → slice_index input.now result ≡ 10) }
{
    from + first_place(&input[from..], b'\n')
}

// Reads a line on from a byte of the input, to its newline or to the end of the input.
pub fn read_part(input: &[u8], from: usize, s: Reading, values: &mut [f64]) -> Part
    requires { from ≤ length input.now }
    ensures place { (from ≤ result.end) × (result.end ≤ length input.now) × (free 10 (part input.now from result.end) ≡ true) × (result.end < length input.now → slice_index input.now result.end ≡ 10) }
    ensures read { ReadsOn s values.old (part input.now from result.end) result.reading values.new }
{
    let mut at = from;
    let mut reading = s;
    while let Some(line) = reading {
        let read = read_values(input, at, line, values);
        let end = read.end;
        if end == input.len() || input[end] == b'\n' {
            return read;
        }
        reading = read_byte(read.reading, input[end], values);
        at = end + 1;
    }
    Part {
        reading: None,
        end: line_end(input, at),
    }
}

// Whether no byte of the line was read.
pub fn is_empty(s: Reading) -> bool
    ensures { TellsEmpty s result }
{
    s.is_some_and(|line| line.digits == 0 && line.count == 0)
}

// How many values a line has that ends here; they stand in the slice. A line that is not as said is refused by 3, and one of more
// values than the slice has places by 5.
pub fn finish(s: Reading, values: &mut [f64]) -> Result<usize, Refusal>
    ensures ends { EndsAs s values.old result values.new }
    ensures within { IfOk result (λ n. n ≤ length values.old) }
{
    if is_empty(s) {
        return Ok(0);
    }
    let line = s.ok_or(Refusal::MalformedLine)?;
    if line.digits != 16 {
        return Err(Refusal::MalformedLine);
    }
    let count = keep(values, line.count, line.bits);
    if count > values.len() {
        return Err(Refusal::InvalidInput);
    }
    Ok(count)
}
