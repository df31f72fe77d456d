// A reader, as standard input, read to its end into a lent buffer, or until the buffer is full.
#![tactic(auto)]

ghost use Rattle.std.specs.Prelude.{◌≤◌, length, IfOk};

use std::io::Read;

// Answers how many bytes were read. A buffer of one byte more than a text may have is enough to know that it has too many.
pub fn read_all<R: Read>(from: &mut R, text: &mut [u8]) -> std::io::Result<usize>
    ensures { IfOk result (λ n. n ≤ length text.new) }
{
    let mut at = 0;
    while at < text.len() {
        let n = from.read(&mut text[at..])?;
        if n == 0 {
            break;
        }
        at += n;
    }
    Ok(at)
}
