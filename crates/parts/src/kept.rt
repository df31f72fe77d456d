// A text's first bytes, kept in a lent buffer of 8,193: one more than a request may have, so that reading what is kept
// gives the answer for too many by itself. A slice whose length is asked for, and no array: it may be a host's.
ghost use Rattle.std.specs.Prelude.{◌≡◌, ◌+◌, ◌-◌, ◌≤◌, min, length, take};
ghost use Rattle.std.proofs.Math.Seq.{paste};
ghost use Rattle.read.specs.Request.{read_request};
ghost use Rattle.read.specs.Rows.{fill_request, asking_of};
ghost use Rattle.parts.specs.Kept.{room_for_of};

use read::Asking;
use template::read::Form;

// How far the kept bytes reach. An n above 8,193, which no call of ours makes, stands for all there are.
pub fn reach(n: usize) -> usize
    ensures { result ≡ min n 8193 }
{
    n.min(8193)
}

// How many of `len` bytes have a place behind n.
#[tactic(auto, unfolding(crate::specs::Kept::room_for_of))]
fn room_for(n: usize, len: usize) -> usize
    ensures value { result ≡ room_for_of n len }
    ensures in_buffer { result ≤ 8193 - n }
    ensures in_part { result ≤ len }
{
    len.min(8193usize.saturating_sub(n))
}

// Byte by byte: `copy_from_slice` would ask the host for memmove, beside the memcpy and memset of docs/EMBEDDING.md.
fn copied(into: &mut [u8], at: usize, bytes: &[u8], count: usize)
    requires there { count ≤ length into.old - at }
    requires given { count ≤ length bytes.now }
    ensures { into.new ≡ paste into.old at bytes.now count }
{
    for j in 0..count {
        into[at + j] = bytes[j];
    }
}

// Bytes put behind the n that are kept; answers how many are kept then.
pub fn more(buffer: &mut [u8], n: usize, bytes: &[u8]) -> usize
    requires { length buffer.old ≡ 8193 }
    ensures value { result ≡ n + room_for_of n (length bytes.now) }
    ensures buffer_after { buffer.new ≡ paste buffer.old n bytes.now (room_for_of n (length bytes.now)) }
{
    let k = room_for(n, bytes.len());
    copied(buffer, n, bytes, k);
    n + k
}

// The request in the n bytes that are kept.
pub fn request(buffer: &[u8], n: usize, litters: &mut [u32; 384]) -> Result<Asking, Form>
    requires { length buffer.now ≡ 8193 }
    ensures value { result ≡ asking_of 0 (read_request (take n buffer.now)) }
    ensures filled { litters.new ≡ fill_request litters.old (take n buffer.now) }
{
    read::request(&buffer[..reach(n)], litters)
}
