// An f64 taken apart into 53 digits and a power, and put together again.
ghost use Rattle.std.specs.Prelude.{◌≡◌, ◌^◌, ◌<◌};
ghost use Rattle.root.specs.Steps.{digits, power, radicand_of, rounded_of, packed_of};

// The power is the exponent's field and 1023: half of it is the field of the root.
#[derive(Clone, Copy)]
pub struct Parts {
    pub digits: u64,
    pub power: u64,
}

impl Parts {
    // A subnormal's field stands for the same exponent as a 1. Its digits are brought up until 11 zeros lead, each place for one off the field.
    pub fn of(b: u64) -> Parts
        requires { 0 < b }
        ensures { result ≡ record { digits = digits b; power = power b } }
    {
        let field = b / 0x10_0000_0000_0000;
        if field == 0 {
            let up = u64::leading_zeros(b) - 11;
            return Parts {
                digits: b << up,
                power: 1 + 1023 - u64::from(up),
            };
        }
        Parts {
            digits: 0x10_0000_0000_0000 + b % 0x10_0000_0000_0000,
            power: field + 1023,
        }
    }

    // What stands under the root sign: an odd power leaves a factor 2 to the digits.
    pub fn radicand(self) -> u64
        requires { self.digits < 2 ^ 53 }
        ensures { result ≡ radicand_of self.digits self.power }
    {
        if self.power % 2 == 1 {
            2 * self.digits
        } else {
            self.digits
        }
    }
}

// The last digit is dropped; where it is 1, the others go up by one.
pub fn rounded(root: u64) -> u64
    ensures { result ≡ rounded_of root }
{
    root / 2 + root % 2
}

// The field, then the digits without the first, which is always 1.
pub fn packed(field: u64, digits: u64) -> u64
    requires { field < 2 ^ 11 }
    ensures { result ≡ packed_of field digits }
{
    field * 0x10_0000_0000_0000 + digits % 0x10_0000_0000_0000
}
