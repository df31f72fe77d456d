// The same for a host that lends its state: a buffer of 8,193 bytes and two counts, how many bytes are kept and whether the text is
// finished. Zeros to begin. Each call answers 1 for a state of another size, or for a short buffer, and then nothing is written.
// The answers are the numbers that the C interface gives.
ghost use Rattle.std.specs.Prelude.{◌≡◌, ◌≤◌, IsTrue};
ghost use Rattle.parts.specs.Lent.{lent, told, is_sized_of, finish_room_of, request_numbers_of, part_in_of, finish_in_of};

use read::Asking;
use template::read::Form;

#[tactic(auto, unfolding(crate::specs::Lent::is_sized_of))]
pub fn is_sized(buffer: usize, counts: usize) -> bool
    ensures { result ≡ is_sized_of buffer counts }
{
    buffer == 8193 && counts == 2
}

// Answers 0; 4 after finishing, for Form with line 0, and then nothing is written.
pub fn part_in(buffer: &mut [u8], counts: &mut [u64], bytes: &[u8]) -> u64
    ensures { lent result buffer.new counts.new ≡ part_in_of buffer.old counts.old bytes.now }
{
    if !is_sized(buffer.len(), counts.len()) {
        return 1;
    }
    if counts[1] != 0 {
        return 4;
    }
    let n = counts[0] as usize;
    let m = crate::kept::more(buffer, n, bytes);
    counts[0] = m as u64;
    0
}

#[tactic(auto, unfolding(crate::specs::Lent::finish_room_of, crate::specs::Lent::is_sized_of))]
fn finish_room(buffer: usize, counts: usize, request: usize, litters: usize) -> bool
    ensures value { result ≡ finish_room_of buffer counts request litters }
    ensures bytes { IsTrue result → buffer ≡ 8193 }
    ensures counts { IsTrue result → counts ≡ 2 }
    ensures request { IsTrue result → 18 ≤ request }
    ensures litters { IsTrue result → 384 ≤ litters }
{
    is_sized(buffer, counts) && 18 <= request && 384 <= litters
}

// The line, the number of litters, the head's sixteen values: zeros where the text has none.
#[tactic(auto, unfolding(crate::specs::Lent::request_numbers_of))]
fn request_numbers(a: Result<Asking, Form>) -> [u64; 18]
    ensures { result ≡ request_numbers_of a }
{
    match a {
        Ok(asking) => {
            let v = asking.values;
            [
                0,
                asking.count,
                v[0],
                v[1],
                v[2],
                v[3],
                v[4],
                v[5],
                v[6],
                v[7],
                v[8],
                v[9],
                v[10],
                v[11],
                v[12],
                v[13],
                v[14],
                v[15],
            ]
        }
        Err(form) => [form.line, 0, 0, 0, 0, 0, 0, 0, 0, 0, 0, 0, 0, 0, 0, 0, 0, 0],
    }
}

// Answers 0 with the request, 4 for Form with its line.
pub fn finish_in(buffer: &[u8], counts: &mut [u64], request: &mut [u64], litters: &mut [u32]) -> u64
    ensures { told result counts.new request.new litters.new ≡ finish_in_of buffer.now counts.old request.old litters.old }
{
    if !finish_room(buffer.len(), counts.len(), request.len(), litters.len()) {
        return 1;
    }
    let n = counts[0] as usize;
    let mut rows = [0u32; 384];
    let a = crate::kept::request(buffer, n, &mut rows);
    counts[1] = 1;
    store::put(&request_numbers(a), request);
    store::put(&rows, litters);
    match a {
        Ok(_) => 0,
        Err(_) => 4,
    }
}
