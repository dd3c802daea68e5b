// Eight digits of a value in a word, the first in its lowest byte: all are read at once, and written at once.
ghost use Rattle.std.specs.Prelude.{◌≡◌, map};
ghost use Rattle.formula.specs.Text.{little_endian};
ghost use Rattle.formula.specs.Values.{digits_in};
ghost use Rattle.values.specs.Eights.{AllBelow, Numbers, digit_byte};

// The bytes of eight digits, each in a byte of the word: 48 more, and 87 more from ten on.
fn spelled(digits: u64) -> u64
    requires { AllBelow 16 (little_endian 8 digits) }
    ensures { little_endian 8 result ≡ map digit_byte (little_endian 8 digits) }
{
    let tens = ((digits + 0x0606_0606_0606_0606) / 16) & 0x0101_0101_0101_0101;
    digits + 0x3030_3030_3030_3030 + 39 * tens
}

// The number of eight digits. A digit is the last four bits of its byte, and nine more for a letter; where the bytes are not
// what these digits are spelled as, there are other bytes among them.
pub fn read_eight(w: u64) -> Option<u64>
    ensures { Numbers 8 (little_endian 8 w) result }
{
    let letters = (w & 0x4040_4040_4040_4040) / 64;
    let digits = w.wrapping_add(9 * letters) & 0x0f0f_0f0f_0f0f_0f0f;
    if w == spelled(digits) {
        let pairs = (16 * digits + digits / 256) & 0x00ff_00ff_00ff_00ff;
        let fours = (256 * pairs + pairs / 65536) & 0x0000_ffff_0000_ffff;
        return Some((65536 * fours + fours / 4294967296) % 4294967296);
    }
    None
}

// The last eight digits of a number: it is parted into fours, pairs and digits.
pub fn write_eight(n: u64) -> u64
    ensures { little_endian 8 result ≡ digits_in 8 n }
{
    let fours = n / 65536 % 65536 + 4294967296 * (n % 65536);
    let pairs = ((fours / 256) & 0x0000_00ff_0000_00ff) + 65536 * (fours & 0x0000_00ff_0000_00ff);
    let digits = ((pairs / 16) & 0x000f_000f_000f_000f) + 256 * (pairs & 0x000f_000f_000f_000f);
    spelled(digits)
}
