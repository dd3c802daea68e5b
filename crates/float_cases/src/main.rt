#![tactic(auto)]
// Runs `floats` on recorded cases and compares the bits of each result with another implementation's.
//
// Standard input has a record of 82 bytes for each: a letter, then up to four values and the result in 16 hexadecimal
// digits each, and a newline. tools/floats/make_cases.py made it: the answers are the C library's, by way of
// Python's math, and those of Sqrt, Floor, Ceil and the remainder were worked out a second time with whole
// numbers; Min and Max are worked out by sorting. The arguments are zeros, subnormals, infinities, NaNs, ends of range,
// neighbours of squares and of half way cases, negative multiples and remainders too small to move b, and random bits.
use cases::{Record, Tally, hex};
use floats::extremum::{hold_above, hold_below};
use floats::value::{bits_of, of_bits};
use std::io;
use std::ops::ControlFlow;

// Min or Max of a list, by what holds of two.
fn extreme<F: Fn(f64, f64) -> f64 + Drop>(values: &[f64], hold: F) -> f64
    requires { F.IsAlwaysCallable hold }
{
    values.iter().copied().reduce(hold).unwrap_or(0.0)
}

// The value of the operation.
fn value(letter: u8, [x, y, z, u]: [f64; 4]) -> f64 {
    match letter {
        b's' => floats::root::sqrt(x),
        b'f' => floats::whole::floor(x),
        b'c' => floats::whole::ceil(x),
        b'm' => floats::modulo::modulo(x, y),
        b'l' => extreme(&[x, y], hold_below),
        b'n' => extreme(&[x, y, z], hold_below),
        b'N' => extreme(&[x, y, z, u], hold_below),
        b'g' => extreme(&[x, y], hold_above),
        b'x' => extreme(&[x, y, z], hold_above),
        b'X' => extreme(&[x, y, z, u], hold_above),
        b'a' => floats::value::abs(x),
        _ => x,
    }
}

// What the operation gives on the values: bits, or 1 and 0 for true and false.
fn outcome(letter: u8, values: [f64; 4]) -> u64 {
    match letter {
        b'w' => u64::from(floats::whole::is_whole(values[0])),
        b'i' => u64::from(floats::value::is_finite(values[0])),
        _ => bits_of(value(letter, values)),
    }
}

// Whether a record's last number is what the operation gives on those before it; none where one of them is no number.
fn is_right(record: &[u8]) -> Option<bool> {
    let mut record = Record::new(record);
    let letter = record.byte();
    let mut values = [0.0; 4];
    for value in values.iter_mut() {
        *value = of_bits(hex(record.bytes(16)?)?);
    }
    let recorded = hex(record.bytes(16)?)?;
    Some(outcome(letter, values) == recorded)
}

// Replays the records; one that comes out otherwise is written out. Not `cases::replay_all`, which breaks off at such a case and counts calls: here the
// text that is printed would be lent too, and a flag say whether to go on.
fn main(rt: HostRuntime) -> io::Result<()> {
    let stdout = rt.stdout();
    let mut tally = Tally::default();
    cases::each_head(rt.stdin(), &mut [0; 82], |record| {
        let right = is_right(record).unwrap_or(false);
        if !right {
            stdout.write_all(record)?;
        }
        tally.count(stdout, right, 0)?;
        Ok(ControlFlow::Continue(()))
    })?;
    println!(stdout; "{} cases", tally.cases)?;
    tally.verdict(stdout)
}
