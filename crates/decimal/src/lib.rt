// The f64 nearest a decimal, by a long division, one binary digit a step.
#![tactic(auto)]

ghost use Rattle.std.specs.Prelude.{◌≡◌, ◌*◌, ◌^◌, ◌≤◌, ◌<◌};
ghost use Rattle.std.specs.Float.{binary64};
ghost use Rattle.std.specs.Float.Ieee.{round};
ghost use Rattle.decimal.specs.Nearest.{Nearest, Decimal};
ghost use Rattle.decimal.specs.Steps.{Divided, rounded_of};

// num · 2^places divided by the denominator.
#[derive(Clone, Copy)]
pub struct Quotient {
    pub digits: u64,
    pub rest: u64,
    pub places: u64,
}

// The whole part, then a binary digit a step until there are 54: twice the rest, and where the denominator goes into it, it is taken away and the digit is 1.
fn divided(num: u64, den: u64) -> Quotient
    requires some { 0 < num }
    requires divides { 0 < den }
    requires den_fits { den < 2 ^ 54 }
    requires num_fits { num < 2 ^ 54 * den }
    ensures { Divided num den result.digits result.rest result.places }
{
    let mut digits = num / den;
    let mut rest = num % den;
    let mut places: u64 = 0;
    while digits < 0x20_0000_0000_0000 {
        let brought = 2 * rest;
        let goes = den <= brought;
        let digit = u64::from(goes);
        let taken = if goes { den } else { 0 };
        rest = brought - taken;
        digits = 2 * digits + digit;
        places += 1;
    }
    Quotient {
        digits,
        rest,
        places,
    }
}

// Half of the digits: rounded down below the middle, to the even one in it, up above it.
#[tactic(auto, unfolding(crate::specs::Steps::rounded_of))]
fn rounded(digits: u64, rest: u64) -> u64
    requires { digits < 2 ^ 54 }
    ensures { result ≡ rounded_of digits rest }
{
    if digits % 2 == 0 {
        return digits / 2;
    }
    if rest == 0 {
        return digits / 2 + digits / 2 % 2;
    }
    digits / 2 + 1
}

fn nearest(num: u64, den: u64) -> f64
    requires divides { 0 < den }
    requires den_fits { den < 2 ^ 54 }
    requires num_fits { num < 2 ^ 54 * den }
    ensures { Nearest num den result }
{
    if num == 0 {
        return 0.0;
    }
    let d = divided(num, den);
    let places = d.places;
    let c = rounded(d.digits, d.rest);
    f64::from_bits(c + (1075 - places) * 0x10_0000_0000_0000)
}

// The digits as one number, at most seventeen of them, of which one to sixteen stand after the point.
pub fn decimal(minus: bool, digits: u64, places: u64) -> f64
    requires { (digits < 10 ^ 17) × (1 ≤ places) × (places ≤ 16) }
    ensures value { result ≡ round binary64 minus digits (10 ^ places) }
    ensures nearest { Decimal minus digits places result }
{
    let den = u64::pow(10, places as u32);
    let r = nearest(digits, den);
    if minus { -r } else { r }
}
