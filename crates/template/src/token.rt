// What stands at a text's front: a hexadecimal number, a count, one byte, or what a byte of a template asks for.
ghost use Rattle.std.specs.Prelude.{◌≡◌, ◌^◌, ◌<◌};
ghost use Rattle.template.specs.Field as Field;
ghost use Rattle.template.specs.Read as Read;
ghost use Rattle.template.specs.Says.{field_of};

use crate::digits::{read_digit, read_hex_digit};

pub fn read_hex(text: &[u8]) -> Option<(u64, &[u8])>
    ensures { field_of result ≡ Field.read_hex 16 0 text.now }
{
    let mut value = 0;
    let mut rest = text;
    for _ in 0..16u64 {
        let (digit, after) = read_hex_digit(rest)?;
        value = 16 * value + digit;
        rest = after;
    }
    Some((value, rest))
}

// The digits after a count's first. A count is below 2^32.
fn read_more(text: &[u8], first: u64) -> Option<(u64, &[u8])>
    requires { first < 2 ^ 32 }
    ensures { field_of result ≡ Field.read_more first text.now }
{
    let mut value = first;
    let mut rest = text;
    while let Some((digit, after)) = read_digit(rest) {
        value = 10 * value + digit;
        if 0x1_0000_0000 <= value {
            return None;
        }
        rest = after;
    }
    Some((value, rest))
}

#[tactic(auto, unfolding(crate::specs::Field::read_count))]
fn read_count(text: &[u8]) -> Option<(u64, &[u8])>
    ensures { field_of result ≡ Field.read_count text.now }
{
    if let [b'0', rest @ ..] = text {
        return Some((0, rest));
    }
    let (digit, rest) = read_digit(text)?;
    read_more(rest, digit)
}

// The byte c itself, which has no value: 0 stands for it.
#[tactic(auto, unfolding(crate::specs::Field::read_byte))]
fn read_byte(text: &[u8], c: u8) -> Option<(u64, &[u8])>
    ensures { field_of result ≡ Field.read_byte c text.now }
{
    match text {
        [first, rest @ ..] if *first == c => Some((0, rest)),
        _ => None,
    }
}

// What the byte c of a template stands for.
#[tactic(auto, unfolding(crate::specs::Read::read_field))]
pub fn read_field(text: &[u8], c: u8) -> Option<(u64, &[u8])>
    ensures { field_of result ≡ Read.read_field c text.now }
{
    match c {
        b'#' => read_count(text),
        b'%' => crate::value::read_value(text),
        _ => read_byte(text, c),
    }
}
