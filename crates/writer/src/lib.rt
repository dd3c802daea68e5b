#![tactic(auto)]
// Bytes and numbers written into a part of a slice; the rest stays as it is.
ghost use Rattle.std.specs.Prelude.{◌≡◌, ◌+◌, ◌≤◌, length};
ghost use Rattle.formula.specs.Text.{decimal, little_endian};
ghost use Rattle.writer.specs.Over.{over, zeroed};

// Writes bytes from a place on, and says where they end. Here and in `reader::padded` a loop copies: `copy_from_slice` calls `memmove`
// where the length is no constant, and the static library takes `memcpy` and `memset` alone.
pub fn put_bytes(out: &mut [u8], at: usize, b: &[u8]) -> usize
    requires { at + length b.now ≤ length out.old }
    ensures { (result ≡ at + length b.now) × (out.new ≡ over out.old at b.now) }
{
    for i in 0..b.len() {
        out[at + i] = b[i];
    }
    at + b.len()
}

// Zeros from a place to the end.
pub fn zero_from(out: &mut [u8], at: usize)
    requires { at ≤ length out.old }
    ensures { out.new ≡ zeroed out.old at }
{
    out[at..].fill(0);
}

// Writes a number in N bytes from a place on, the lowest byte first.
fn put<const N: usize>(p: &mut [u8], at: usize, x: u64)
    requires fits { at + N ≤ length p.old }
    requires narrow { N ≤ 8 }
    ensures { p.new ≡ over p.old at (little_endian N x) }
{
    p[at..at + N].copy_from_slice(&x.to_le_bytes()[..N]);
}

// Writes a number in 2 bytes from a place on, the lowest byte first. Each width has its name, as with the numbers read.
pub fn put_half(p: &mut [u8], at: usize, x: usize)
    requires { at + 2 ≤ length p.old }
    ensures { p.new ≡ over p.old at (little_endian 2 x) }
{
    put::<2>(p, at, x as u64);
}

// Writes a number in 4 bytes from a place on, the lowest byte first.
pub fn put_word(p: &mut [u8], at: usize, x: usize)
    requires { at + 4 ≤ length p.old }
    ensures { p.new ≡ over p.old at (little_endian 4 x) }
{
    put::<4>(p, at, x as u64);
}

// Writes a number in 8 bytes from a place on, the lowest byte first.
pub fn put_long(p: &mut [u8], at: usize, x: u64)
    requires { at + 8 ≤ length p.old }
    ensures { p.new ≡ over p.old at (little_endian 8 x) }
{
    put::<8>(p, at, x);
}

// Writes a number in decimal from a place on, and says where it ends. Written by hand: `write!` would need a writer over
// the slice, and an error for room that is known to be there.
pub fn put_decimal(out: &mut [u8], at: usize, n: u64) -> usize
    requires { at + length (decimal n) ≤ length out.old }
    ensures { (result ≡ at + length (decimal n)) × (out.new ≡ over out.old at (decimal n)) }
{
    if n < 10 {
        out[at] = b'0' + n as u8;
        return at + 1;
    }
    let end = put_decimal(out, at, n / 10);
    out[end] = b'0' + (n % 10) as u8;
    end + 1
}
