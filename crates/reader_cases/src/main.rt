#![tactic(auto)]
// Reads cases from standard input, one to a line, and says how many there were and whether each came out as recorded.
//   f111 HEX          a formula's bytes, then whether it is within a formula's and a derivative's limits
//   f12:3 HEX         bytes that are no formula: the refusal and its node
//   g111 A B HEX      either of these, where the first of the nodes stands A times and the last B times
//   n1KINDS LINE      a name line and the kinds of its names, or `n0 LINE`
//   h1 TEXT           16 hexadecimal digits, or `h0 TEXT` where a byte is none
//   sNUMBER TEXT      a step of a path and its text, of which the length is compared
//   dNUMBER           a number in decimal
ghost use Rattle.std.specs.Prelude.{◌+◌, ◌<◌, ◌≤◌, length, IfSome};

use cases::{Tally, holds};
use names::Kind;
use reader::NODE_SIZE;
use refusals::Refusal;
use std::{io, iter};

// What stands before the first such byte and after it; none where there is none.
fn split_once(text: &[u8], mark: u8) -> Option<(&[u8], &[u8])>
    ensures { IfSome result (λ parts. length parts.0.now + length parts.1.now < length text.now) }
{
    let at = text.iter().position(|byte| *byte == mark)?;
    Some((&text[..at], &text[at + 1..]))
}

// What stands after the first space; nothing where there is none.
fn after_space(text: &[u8]) -> &[u8]
    ensures { length result.now ≤ length text.now }
{
    match split_once(text, b' ') {
        Some((_, after)) => after,
        None => &[],
    }
}

// The number in decimal up to a byte that is no digit, the last ten digits of it.
fn number(digits: &[u8]) -> u64
    ensures { result < 10000000000 }
{
    let mut number = 0;
    for byte in digits {
        let digit = byte.wrapping_sub(b'0');
        if digit > 9 {
            break;
        }
        number = number % 1_000_000_000 * 10 + u64::from(digit);
    }
    number
}

// The bytes that pairs of digits stand for, as many as there is room for; none where a byte is no digit.
fn unhex<'a>(digits: &[u8], room: &'a mut [u8]) -> Option<&'a [u8]>
    ensures { IfSome result (λ bytes. length bytes.now ≤ length room.old) }
{
    cases::hex(digits)?;
    let n = room.len().min(digits.len() / 2);
    let bytes = &mut room[..n];
    for (byte, pair) in bytes.iter_mut().zip(digits.chunks_exact(2)) {
        *byte = u8::try_from(cases::hex(pair)?).ok()?;
    }
    Some(bytes)
}

// The nodes, the first of them `first` times and the last `last` times, as many as there is room for. A node is zeros past the end of the bytes.
fn repeated<'a>(nodes: &[u8], first: usize, last: usize, room: &'a mut [u8]) -> &'a [u8]
    ensures { length result.now ≤ length room.old }
{
    let middle = first.wrapping_add((nodes.len() / NODE_SIZE).wrapping_sub(2));
    let length = middle.wrapping_add(last).saturating_mul(NODE_SIZE);
    let n = room.len().min(length);
    let none: &[u8] = &[];
    let begin = nodes.chunks(NODE_SIZE).next().unwrap_or(none);
    let end = nodes.chunks_exact(NODE_SIZE).last().unwrap_or(none);
    let inner = nodes.chunks(NODE_SIZE).skip(1).chain(iter::repeat(none));
    let begins = iter::repeat_n(begin, first).chain(inner).take(middle);
    let nodes = begins.chain(iter::repeat(end));
    for (place, node) in room[..n].chunks_mut(NODE_SIZE).zip(nodes) {
        place.fill(0);
        for (byte, from) in place.iter_mut().zip(node) {
            *byte = *from;
        }
    }
    &room[..n]
}

fn mark(yes: bool) -> u8 {
    b'0' + u8::from(yes)
}

// The three marks of some bytes: a formula, within a formula's limits, within a derivative's; `-` where there is no formula.
fn judged(b: &[u8]) -> [u8; 3] {
    if !reader::is_formula(b) {
        return [b'0', b'-', b'-'];
    }
    let small = mark(reader::is_small(b, 256, 32));
    let large = mark(reader::is_small(b, 16384, 128));
    [b'1', small, large]
}

fn same_fault(told: &[u8], refusal: Refusal) -> bool {
    let Some((name, node)) = split_once(told, b':') else {
        return false;
    };
    number(name) == u64::from(refusal.number())
        && Some(number(node)) == refusal.node().map(|node| node as u64)
}

// Whether bytes are what the line says of them.
fn same_bytes(told: &[u8], b: &[u8]) -> bool {
    match reader::receive(b) {
        Ok(()) => told.starts_with(&judged(b)),
        Err(malformed) => same_fault(told, Refusal::from(malformed)),
    }
}

// The nodes of the case come after how many times the first and the last of them stand.
fn same_repeated(told: &[u8], counts: &[u8], room: &mut [u8]) -> Option<bool> {
    let last = after_space(counts);
    let mut nodes = [0; 256];
    let nodes = unhex(after_space(last), &mut nodes)?;
    let bytes = repeated(nodes, number(counts) as usize, number(last) as usize, room);
    Some(same_bytes(told, bytes))
}

fn digit_of(kind: Kind) -> u8 {
    match kind {
        Kind::Parameter => b'0',
        Kind::State => b'1',
        Kind::Time => b'2',
        Kind::Input => b'3',
    }
}

// The kinds of the names stand as digits, after a mark for a name line and up to a space.
fn same_names(told: &[u8], line: &[u8]) -> bool {
    match (told, names::read_names(line)) {
        ([b'1', digits @ ..], Some(names)) => {
            let kinds = names.kinds;
            let told = digits.iter().copied().take(names.count);
            let told = told.chain(iter::repeat(b'0'));
            digits.len().checked_sub(line.len() + 1) == Some(names.count)
                && told.zip(kinds).all(|(digit, kind)| digit == digit_of(kind))
        }
        ([b'0', ..], None) => true,
        _ => false,
    }
}

fn same_digits(told: &[u8], text: &[u8]) -> bool {
    match (told, cases::hex(text)) {
        ([b'1', ..], Some(value)) => text.starts_with(&names::hex(value)),
        ([b'0', ..], None) => true,
        _ => false,
    }
}

#[tactic(auto, using(writer::proofs::Decimal::decimal_length_le))]
fn same_decimal(digits: &[u8]) -> bool {
    let mut out = [0; 10];
    let end = writer::put_decimal(&mut out, 0, number(digits));
    end == digits.len() && holds(&out, digits, 0)
}

// Whether a line's case is as the line says; none where it says nothing.
fn same_case(line: &[u8], room: &mut [u8]) -> Option<bool> {
    let (letter, told) = line.split_first()?;
    let rest = after_space(told);
    match *letter {
        b'f' => Some(same_bytes(told, unhex(rest, room)?)),
        b'g' => same_repeated(told, rest, room),
        b'n' => Some(same_names(told, rest)),
        b'h' => Some(same_digits(told, rest)),
        b's' => {
            let step = (number(told) % 4294967296) as usize;
            Some(rest.len() == paths::step_length(step))
        }
        b'd' => Some(same_decimal(told)),
        _ => None,
    }
}

// Not `cases::replay_all`: a case is a line of any length, so its end is found in the text and no head of fixed length is read.
fn main(rt: HostRuntime) -> io::Result<()> {
    let stdout = rt.stdout();
    let mut text = [0; 262144];
    let n = cases::read_full(rt.stdin(), &mut text);
    let mut room = [0; 262272];
    let mut tally = Tally::default();
    for line in text[0..n].split_inclusive(|byte| *byte == b'\n') {
        let line = line.strip_suffix(b"\n").unwrap_or(line);
        let right = same_case(line, &mut room).unwrap_or(false);
        tally.count(stdout, right, 0)?;
    }
    println!(stdout; "{} cases", tally.cases)?;
    tally.verdict(stdout)
}
