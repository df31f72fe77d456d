// Draws the square root of each number that standard input has, one a line, as a table of steps. A line that is no number is answered in words.
#![tactic(auto)]

mod say;
mod table;

ghost use Rattle.std.specs.Prelude.{◌≤◌, length, IfOk, IfSome};

use std::io::{Error, ErrorKind, Read};

// The file descriptor of standard error.
const STDERR: i32 = 2;

// The whole line is one number, as a template's hole for the bits of an f64 reads it.
fn number_of(line: &[u8]) -> Option<u64> {
    match template::value::read_value(line) {
        Some((bits, [])) => Some(bits),
        _ => None,
    }
}

// How many bytes the next line has, or no line where the input has ended. No number is as long as the buffer: bytes past it need not be kept.
fn read_line<R: Read>(from: &mut R, line: &mut [u8]) -> std::io::Result<Option<usize>>
    ensures { IfOk result (λ o. IfSome o (λ n. n ≤ length line.new)) }
{
    let mut n = 0;
    for _ in 0..u64::MAX {
        let mut byte = [0; 1];
        if from.read(&mut byte)? == 0 {
            return if n == 0 { Ok(None) } else { Ok(Some(n)) };
        }
        if byte[0] == b'\n' {
            return Ok(Some(n));
        }
        if n < line.len() {
            line[n] = byte[0];
            n += 1;
        }
    }
    Err(Error::from(ErrorKind::Other))
}

// Bits from 1 up and below those of infinity are a positive finite f64's.
fn answer_bits(b: u64) {
    if b % 0x8000_0000_0000_0000 == 0 {
        crate::say::words(b"a zero is its own root\n");
        return;
    }
    if b < 0x7ff0_0000_0000_0000 {
        let r = crate::table::drawn(b);
        crate::say::hex(b"bits     ", r);
        return;
    }
    if b == 0x7ff0_0000_0000_0000 {
        crate::say::words(b"plus infinity is its own root\n");
        return;
    }
    if 0x7ff0_0000_0000_0000 < b % 0x8000_0000_0000_0000 {
        crate::say::words(b"not a number, nor is its root\n");
        return;
    }
    crate::say::words(b"below zero, where the root is not a number\n");
}

fn answer(number: u64, line: &[u8]) {
    crate::say::line(number);
    match number_of(line) {
        Some(b) => {
            crate::say::hex(b": ", b);
            answer_bits(b);
        }
        None => crate::say::words(b": no decimal and no 16 hex digits\n"),
    }
}

fn main(rt: HostRuntime) {
    let mut input = rt.stdin();
    let mut line = [0; 64];
    for number in 1..u64::MAX {
        match read_line(&mut input, &mut line) {
            Ok(Some(n)) => answer(number, &line[..n]),
            Ok(None) => return,
            Err(_) => {
                io::write_all(STDERR, b"root_steps: standard input could not be read\n");
                return;
            }
        }
    }
}
