// What stands where an f64 is asked for: a decimal, or sixteen hexadecimal digits.
ghost use Rattle.std.specs.Prelude.{◌≡◌, ℕ, ◌+◌, ◌-◌, ◌^◌, ◌≤◌, ◌<◌};
ghost use Rattle.template.specs.Decimal as Decimal;
ghost use Rattle.template.specs.Says.{field_of};

use crate::digits::read_digit;

// A run of digits: the number with them, how many, and what is left of the text.
#[derive(Clone, Copy)]
struct Run<'a> {
    value: u64,
    count: u64,
    rest: &'a [u8],
}

// At most `most` digits, behind those whose number is `first`, of which there are 17 - most or fewer.
fn read_run(text: &[u8], most: u64, first: u64) -> Run<'_>
    requires at_most_17 { most ≤ 17 }
    requires room { first < 10 ^ (17 - most) }
    ensures run { Decimal.read_run most first 0 text.now ≡ Decimal.run result.value result.count result.rest.now }
    ensures count { result.count ≤ most }
    ensures small { (n : ℕ) → first < 10 ^ n → result.value < 10 ^ (n + result.count) }
{
    let mut value = first;
    let mut rest = text;
    for count in 0..most {
        let Some((digit, after)) = read_digit(rest) else {
            return Run { value, count, rest };
        };
        value = 10 * value + digit;
        rest = after;
    }
    Run {
        value,
        count: most,
        rest,
    }
}

// Digits, a point, digits.
#[tactic(auto, unfolding(crate::specs::Decimal::read_unsigned))]
fn read_unsigned(text: &[u8], minus: bool) -> Option<(u64, &[u8])>
    ensures { field_of result ≡ Decimal.read_unsigned minus text.now }
{
    let whole = read_run(text, 16, 0);
    if whole.count == 0 {
        return None;
    }
    let [b'.', behind @ ..] = whole.rest else {
        return None;
    };
    let places = read_run(behind, 17 - whole.count, whole.value);
    if places.count == 0 {
        return None;
    }
    let x = decimal::decimal(minus, places.value, places.count);
    Some((x.to_bits(), places.rest))
}

#[tactic(auto, unfolding(crate::specs::Decimal::read_decimal))]
fn read_decimal(text: &[u8]) -> Option<(u64, &[u8])>
    ensures { field_of result ≡ Decimal.read_decimal text.now }
{
    if let [b'-', rest @ ..] = text {
        return read_unsigned(rest, true);
    }
    read_unsigned(text, false)
}

#[tactic(auto, unfolding(crate::specs::Decimal::read_value))]
pub fn read_value(text: &[u8]) -> Option<(u64, &[u8])>
    ensures { field_of result ≡ Decimal.read_value text.now }
{
    read_decimal(text).or_else(|| crate::token::read_hex(text))
}
