// A finite value without its sign, over whole numbers.
ghost use Rattle.std.specs.Prelude.{◌≡◌, ◌-◌, ◌/◌, ◌^◌, ◌<◌, ◌≤◌};
ghost use Rattle.floats.specs.Fields.{magnitude, infinity_bits, units};

// 2^52, the weight of a significand's leading digit.
pub const LEADING: u64 = 0x10_0000_0000_0000;

// digits * 2^exp units of the smallest value above zero.
#[derive(Clone, Copy)]
pub struct Scaled {
    pub digits: u64,
    pub exp: u64,
}

impl Scaled {
    // The fields of a finite value's bits.
    pub fn of(bits: u64) -> Scaled
        requires { bits < infinity_bits }
        ensures { (result.digits < 2 ^ 53) × (result.exp ≡ bits / 2 ^ 52 - 1) × (magnitude bits ≡ units result) × (0 < bits → 0 < result.digits) × (0 < result.exp → 2 ^ 52 ≤ result.digits) }
    {
        let field = bits / LEADING;
        let low = bits % LEADING;
        if field == 0 {
            Scaled {
                digits: low,
                exp: 0,
            }
        } else {
            Scaled {
                digits: low + LEADING,
                exp: field - 1,
            }
        }
    }

    // The same with 53 digits, or with as many as its exponent has room for.
    pub fn raised(self) -> Scaled
        requires { (0 < self.digits) × (self.digits < 2 ^ 53) }
        ensures { (units result ≡ units self) × (result.digits < 2 ^ 53) × (result.exp ≤ self.exp) × (0 < result.exp → 2 ^ 52 ≤ result.digits) }
    {
        if self.digits >= LEADING {
            return self;
        }
        let room = 52 - u64::from(self.digits.ilog2());
        let places = room.min(self.exp);
        Scaled {
            digits: self.digits << places,
            exp: self.exp - places,
        }
    }
}
