#![tactic(auto)]
// What the programs share that replay recorded cases: the numbers of a record, slices beside it, and the count of cases.
ghost use Rattle.std.specs.Prelude.{◌≡◌, ◌↔◌, All, ◌∷◌, replicate, IsTrue, ◌||◌, ℕ, ◌+◌, ◌*◌, ◌%◌, ◌^◌, ◌<◌, ◌≤◌, ltb, cond, length, take as first, drop as past, IfOk, IfErr, IfSome, MatchOption, from_bits, to_bits};
ghost use Rattle.std.specs.declared.ops.ControlFlow.TheVariants.{Continue, Break};
ghost use Rattle.std.specs.Float.{binary64};
ghost use Rattle.std.proofs.Math.Option.{some};
ghost use Rattle.formula.specs.Text.{byte_at, half_at, word_at, long_at};
ghost use Rattle.cases.specs.Recorded.{cells_of, same_cells, IsCell, kind_of, hex_from, HoldsText};

use floats::value::{bits_of, of_bits};
use std::io;
use std::io::{Read, Stdin, Stdout};
use std::ops::ControlFlow;

// ---- a record

// What stands in a record as a cell, 8 bytes with the least first.
pub trait Cell: Copy {
    ghost value_of: { ℕ → Self };

    ghost cell_of: { Self → ℕ };

    fn from_cell(cell: u64) -> Self
        ensures { result ≡ value_of cell };

    fn to_cell(self) -> u64
        ensures { result ≡ cell_of self };
}

impl Cell for u64 {
    ghost value_of = { λ n. n };

    ghost cell_of = { λ n. n };

    fn from_cell(cell: u64) -> u64 {
        cell
    }

    fn to_cell(self) -> u64 {
        self
    }
}

impl Cell for usize {
    ghost value_of = { λ n. n };

    ghost cell_of = { λ n. n };

    fn from_cell(cell: u64) -> usize {
        cell as usize
    }

    fn to_cell(self) -> u64 {
        self as u64
    }
}

impl Cell for f64 {
    ghost value_of = { from_bits binary64 };

    ghost cell_of = { to_bits binary64 };

    fn from_cell(cell: u64) -> f64 {
        of_bits(cell)
    }

    fn to_cell(self) -> u64 {
        bits_of(self)
    }
}

// The rest of a record, which is read from its front. Past the end it reads as zeros.
#[derive(Clone, Copy)]
pub struct Record<'a> {
    rest: &'a [u8],
}

impl<'a> Record<'a> {
    pub fn new(bytes: &'a [u8]) -> Record<'a>
        ensures { result.rest.now ≡ bytes.now }
    {
        Record { rest: bytes }
    }

    pub fn byte(&mut self) -> u8
        ensures value { result ≡ byte_at self.old.rest.now 0 }
        ensures rest { self.new.rest.now ≡ past 1 self.old.rest.now }
    {
        let byte = reader::byte(self.rest, 0);
        self.skip(1);
        byte
    }

    // A number of 2 bytes, the least first.
    pub fn half(&mut self) -> usize
        ensures value { (result ≡ half_at self.old.rest.now 0) × (result < 65536) }
        ensures rest { self.new.rest.now ≡ past 2 self.old.rest.now }
    {
        let half = reader::half(self.rest, 0);
        self.skip(2);
        half
    }

    // A number of 4 bytes, the least first.
    pub fn word(&mut self) -> usize
        ensures value { result ≡ word_at self.old.rest.now 0 }
        ensures rest { self.new.rest.now ≡ past 4 self.old.rest.now }
    {
        let word = reader::word(self.rest, 0);
        self.skip(4);
        word
    }

    pub fn cell<T: Cell>(&mut self) -> T
        ensures value { result ≡ T.value_of (long_at self.old.rest.now 0) }
        ensures rest { self.new.rest.now ≡ past 8 self.old.rest.now }
    {
        let cell = reader::long(self.rest, 0);
        self.skip(8);
        T::from_cell(cell)
    }

    // Reads as many cells as there is room for.
    pub fn cells<T: Cell>(&mut self, out: &mut [T])
        ensures values { out.new ≡ cells_of T.value_of (length out.new) self.old.rest.now }
        ensures rest { self.new.rest.now ≡ past (8 * length out.new) self.old.rest.now }
    {
        for place in out.iter_mut() {
            *place = self.cell();
        }
    }

    // The next n bytes, where there are so many.
    pub fn bytes(&mut self, n: usize) -> Option<&'a [u8]>
        ensures bytes { MatchOption result (length self.old.rest.now < n) (λ bytes. (bytes.now ≡ first n self.old.rest.now) × (length bytes.now ≡ n)) }
        ensures rest { IfSome result (λ bytes. self.new.rest.now ≡ past n self.old.rest.now) }
    {
        let (bytes, rest) = self.rest.split_at_checked(n)?;
        self.rest = rest;
        Some(bytes)
    }

    // Goes on behind the next n bytes; where there are fewer, behind the last.
    pub fn skip(&mut self, n: usize)
        ensures { self.new.rest.now ≡ past n self.old.rest.now }
    {
        self.rest = self.rest.get(n..).unwrap_or(&[]);
    }
}

#[derive(Clone, Copy)]
pub enum Kind {
    Run,
    Resume,
    // A resume with a value.
    Answer(f64),
}

// What a recorded call is given: 0 for a run, 1 for a resume, 2 for one with a value; the path slice's length; budget; value.
#[derive(Clone, Copy)]
pub struct Call {
    pub kind: Kind,
    pub room: usize,
    pub budget: usize,
}

impl Call {
    pub fn read(from: &mut Record) -> Call
        ensures kind { result.kind ≡ kind_of (long_at from.old.rest.now 0) (from_bits binary64 (long_at (past 8 (past 8 (past 8 from.old.rest.now))) 0)) }
        ensures room { result.room ≡ long_at (past 8 from.old.rest.now) 0 }
        ensures budget { result.budget ≡ long_at (past 8 (past 8 from.old.rest.now)) 0 }
    {
        let number: u64 = from.cell();
        let room = from.cell();
        let budget = from.cell();
        let value = from.cell();
        let kind = match number {
            0 => Kind::Run,
            1 => Kind::Resume,
            _ => Kind::Answer(value),
        };
        Call { kind, room, budget }
    }
}

// Whether the cells of some bytes are these numbers, bit for bit.
pub fn same<T: Cell>(recorded: &[u8], numbers: &[T]) -> bool
    ensures { result ≡ same_cells T.cell_of numbers.now recorded.now }
{
    let mut record = Record::new(recorded);
    for number in numbers {
        if number.to_cell() != record.cell::<u64>() {
            return false;
        }
    }
    true
}

// The number that hexadecimal digits write, the last 16 of them.
pub fn hex(digits: &[u8]) -> Option<u64>
    ensures { result ≡ hex_from (some 0) digits.now }
{
    let mut value: u64 = 0;
    for byte in digits {
        value = value.wrapping_mul(16).wrapping_add(names::digit(*byte)?);
    }
    Some(value)
}

// Reads standard input to the start of a buffer until that is full, the input ends or a read fails, and says how many bytes it read.
// A `while`, since each step goes on by as much as a read gave.
pub fn read_full(mut stdin: Stdin, room: &mut [u8]) -> usize
    ensures { result ≤ length room.new }
{
    let mut done = 0;
    while done < room.len() {
        match stdin.read(&mut room[done..]) {
            Ok(0) | Err(_) => break,
            Ok(n) => done += n,
        }
    }
    done
}

// Reads n bytes of standard input; none where the input ends before or they don't fit. Which bytes no clause says, here and in what reads by this:
// std knows none of what standard input has before it is read (its `remaining` is None).
pub fn take(mut stdin: Stdin, room: &mut [u8], n: usize) -> Option<&[u8]>
    ensures { IfSome result (λ bytes. (length bytes.now ≡ n) × (n ≤ length room.old)) }
{
    if room.len() < n {
        return None;
    }
    let part = &mut room[..n];
    if read_full(stdin, part) < n {
        return None;
    }
    Some(part)
}

// The next cell of standard input; none where it ends before. That it is one of 8 bytes is all that can be said, as of what `take` reads.
pub fn take_cell<T: Cell>(stdin: Stdin) -> Option<T>
    ensures { IfSome result (IsCell T.value_of) }
{
    let mut room = [0; 8];
    Some(Record::new(take(stdin, &mut room, 8)?).cell())
}

// So many cells are read at once at most.
const ROW: usize = 256;

// Reads as many cells of standard input as there is room for, a row at once.
pub fn take_cells<T: Cell>(stdin: Stdin, out: &mut [T]) -> Option<()>
    ensures { IfSome result (λ done. All (IsCell T.value_of) out.new) }
{
    take_rows(stdin, out, &mut [0; 8 * ROW])
}

// A `while`, since each step goes on by a row.
fn take_rows<T: Cell>(stdin: Stdin, out: &mut [T], room: &mut [u8]) -> Option<()>
    requires { length room.old ≡ 2048 }
    ensures { IfSome result (λ done. All (IsCell T.value_of) out.new) }
{
    let mut done = 0;
    while done < out.len() {
        let n = (out.len() - done).min(ROW);
        let bytes = take(stdin, room, 8 * n)?;
        Record::new(bytes).cells(&mut out[done..done + n]);
        done += n;
    }
    Some(())
}

// ---- slices beside a record

// A slice that was not written holds what it was filled with.
pub const FILL: u8 = 170;

// Whether a slice is a text with `rest` after it to its end.
pub fn holds(slice: &[u8], text: &[u8], rest: u8) -> bool
    ensures { IsTrue result ↔ HoldsText slice.now text.now rest }
{
    let Some(after) = slice.strip_prefix(text) else {
        return false;
    };
    is_filled(after, rest)
}

// Whether all bytes are this one: the first is, and each other is as the one before it. Two slices are compared many bytes at once.
fn is_filled(bytes: &[u8], byte: u8) -> bool
    ensures { IsTrue result ↔ All (λ b. b ≡ byte) bytes.now }
{
    match bytes.split_first() {
        Some((first, others)) => *first == byte && others == &bytes[..others.len()],
        None => true,
    }
}

// Whether a slice is as a call leaves it: a text and zeros, or zeros, or not written.
pub fn is_left(slice: &[u8], text: &[u8], zero: bool) -> bool
    ensures { IsTrue result ↔ HoldsText slice.now text.now (cond (zero || ltb 0 (length text.now)) 0 170) }
{
    let written = zero || !text.is_empty();
    holds(slice, text, if written { 0 } else { FILL })
}

// What a report holds before a call.
pub const HELD: u64 = 7;

// Whether a node stands in a report's first place, if it has one, and the other places are as they were.
pub fn is_reported(report: &[u64], node: u64) -> bool
    ensures held { IsTrue result ↔ report.now ≡ first (length report.now) (node ∷ replicate (length report.now) 7) }
    ensures eight { length report.now ≡ 8 → (IsTrue result ↔ report.now ≡ node ∷ replicate 7 7) }
{
    let Some((first, others)) = report.split_first() else {
        return true;
    };
    *first == node && others.iter().all(|place| *place == HELD)
}

// ---- the count

// So many cases are replayed at most.
pub const MOST: u64 = 1_000_000;

// The cases so far, the calls in them, and how many cases came out otherwise than recorded.
#[derive(Clone, Copy, Default)]
pub struct Tally {
    pub cases: u64,
    pub calls: u64,
    pub wrong: u64,
}

impl Tally {
    // One case more, with so many calls; says which case came out otherwise.
    pub fn count(&mut self, stdout: Stdout, right: bool, calls: u64) -> io::Result<()>
        ensures cases { IfOk result (λ done. self.new.cases ≡ (self.old.cases + 1) % 2 ^ 64) }
        ensures calls { IfOk result (λ done. self.new.calls ≡ (self.old.calls + calls) % 2 ^ 64) }
        ensures wrong { IfOk result (λ done. self.new.wrong ≡ cond right self.old.wrong ((self.old.wrong + 1) % 2 ^ 64)) }
    {
        if !right {
            println!(stdout; "wrong: case {}", self.cases)?;
            self.wrong = self.wrong.wrapping_add(1);
        }
        self.cases = self.cases.wrapping_add(1);
        self.calls = self.calls.wrapping_add(calls);
        Ok(())
    }

    // The same, and breaks off at a case that came out otherwise: what comes after it can't be told from it.
    pub fn count_while_right(
        &mut self,
        stdout: Stdout,
        right: bool,
        calls: u64,
    ) -> io::Result<ControlFlow<()>>
        ensures cases { IfOk result (λ next. self.new.cases ≡ (self.old.cases + 1) % 2 ^ 64) }
        ensures calls { IfOk result (λ next. self.new.calls ≡ (self.old.calls + calls) % 2 ^ 64) }
        ensures wrong { IfOk result (λ next. self.new.wrong ≡ cond right self.old.wrong ((self.old.wrong + 1) % 2 ^ 64)) }
        ensures next { IfOk result (λ next. next ≡ cond right (Continue tt) (Break tt)) }
    {
        self.count(stdout, right, calls)?;
        Ok(if right {
            ControlFlow::Continue(())
        } else {
            ControlFlow::Break(())
        })
    }

    // Where a case came out otherwise it writes nothing, so nothing can fail.
    pub fn verdict(&self, stdout: Stdout) -> io::Result<()>
        ensures { 0 < self.now.wrong → result ≡ Ok tt }
    {
        if self.wrong == 0 {
            println!(stdout; "ok")?;
        }
        Ok(())
    }
}

// A case that is read of a head of its own and replayed from what stands after it. No clauses: that a case is as recorded speaks of what standard input
// gives, of which std knows nothing before it is read, and the other two only hand on what the record says.
pub trait Replayed: Copy {
    fn read(head: &[u8]) -> Self;

    // Whether it is as recorded; none where its record ends early, or has more than the case reads it into.
    fn is_right(self, stdin: Stdin) -> Option<bool>;

    // How many calls it has.
    fn calls(self) -> u64;
}

// Reads a head that fills the room lent for it and hands it on to `case`, again and again, until the input ends or `case` breaks off. An error is one
// that `case` gave for such a head.
#[tactic(auto, using(std::proofs::lemmas::Result::err_from_is_err_and))]
pub fn each_head<F: FnMut(&[u8]) -> io::Result<ControlFlow<()>>>(
    stdin: Stdin,
    room: &mut [u8],
    mut case: F,
) -> io::Result<()>
    requires { F.IsAlwaysCallable case }
    ensures { IfErr result (λ error. (state : F) × ((head : _) × ((next : F) × ((length head.now ≡ length room.new) × F.step state head (Err error) next)))) }
{
    let length = room.len();
    for _ in 0..MOST {
        let Some(head) = take(stdin, room, length) else {
            break;
        };
        if case(head)?.is_break() {
            break;
        }
    }
    Ok(())
}

// Replays the cases of standard input up to the first that came out otherwise, counts them and says whether all are as recorded. No clause: neither of
// what standard input gives nor of what is printed can one speak.
pub fn replay_all<C: Replayed>(stdin: Stdin, stdout: Stdout, head: &mut [u8]) -> io::Result<()> {
    let mut tally = Tally::default();
    each_head(stdin, head, |head| {
        let case = C::read(head);
        let right = case.is_right(stdin).unwrap_or(false);
        tally.count_while_right(stdout, right, case.calls())
    })?;
    println!(stdout; "{} cases, {} calls", tally.cases, tally.calls)?;
    tally.verdict(stdout)
}

// Counts the cases of a record that begins with their number; `case` says of the next one whether it is as recorded, and leaves the record behind it.
pub fn all_cases<F: FnMut(&mut Record) -> bool>(
    stdout: Stdout,
    cases: &[u8],
    mut case: F,
) -> io::Result<Tally>
    requires { F.IsAlwaysCallable case }
    ensures { IfOk result (λ tally. tally.cases ≡ word_at cases.now 0) }
{
    let mut record = Record::new(cases);
    let mut tally = Tally::default();
    for _ in 0..record.word() {
        let right = case(&mut record);
        tally.count(stdout, right, 0)?;
    }
    Ok(tally)
}
