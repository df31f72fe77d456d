// What a byte is as a digit; a digit at the front of a text, and what is left after it.
ghost use Rattle.std.specs.Prelude.{◌≡◌, ◌-◌, ◌≤◌, true, false, MatchOption};
ghost use Rattle.template.specs.Template.{first, after};
ghost use Rattle.template.specs.Field.{is_digit_of, is_hex_of, hex_value_of};
ghost use Rattle.template.specs.Says.{Digit, HexDigit};

pub fn is_digit(c: u8) -> bool
    ensures { result ≡ is_digit_of c }
{
    b'0' <= c && c <= b'9'
}

pub fn is_hex(c: u8) -> bool
    ensures { result ≡ is_hex_of c }
{
    is_digit(c) || (b'a' <= c && c <= b'f')
}

// 0 below `0`, since no digit is there.
pub fn digit_value(c: u8) -> u64
    ensures value { result ≡ c - 48 }
    ensures within { result ≤ 255 }
{
    u64::from(c.saturating_sub(b'0'))
}

pub fn hex_value(c: u8) -> u64
    ensures { result ≡ hex_value_of c }
{
    if b'a' <= c {
        u64::from(c - 87)
    } else {
        digit_value(c)
    }
}

pub fn read_digit(text: &[u8]) -> Option<(u64, &[u8])>
    ensures { MatchOption result (is_digit_of (first text.now) ≡ false) (λ p. Digit text.now p.0 p.1.now) }
{
    match text {
        [c @ b'0'..=b'9', rest @ ..] => Some((digit_value(*c), rest)),
        _ => None,
    }
}

pub fn read_hex_digit(text: &[u8]) -> Option<(u64, &[u8])>
    ensures { MatchOption result (is_hex_of (first text.now) ≡ false) (λ p. HexDigit text.now p.0 p.1.now) }
{
    match text {
        [c @ b'0'..=b'9', rest @ ..] => Some((hex_value(*c), rest)),
        [c @ b'a'..=b'f', rest @ ..] => Some((hex_value(*c), rest)),
        _ => None,
    }
}
