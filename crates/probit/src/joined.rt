// Parts, then the answer's bytes.
ghost use Rattle.std.specs.Prelude.{◌≡◌, ◌≤◌, ◌<◌, length, take};
ghost use Rattle.render.specs.Written.{written};
ghost use Rattle.print.specs.Room.{room};
ghost use Rattle.text.specs.Answer.{answer_text};
ghost use Rattle.parts.specs.Reader.{finished_of};
ghost use Rattle.probit.specs.Joined.{answer_room_of};

use parts::Reader;

// The answer to the n bytes that are kept.
pub fn answer_kept(buffer: &[u8], n: usize, out: &mut [u8]) -> usize
    requires buffer { length buffer.now ≡ 8193 }
    requires out { room ≤ length out.old }
    ensures length { result ≡ length (answer_text (take n buffer.now)) }
    ensures text { out.new ≡ written out.old 0 (answer_text (take n buffer.now)) }
{
    let m = parts::kept::reach(n);
    text::answer(&buffer[..m], out)
}

#[tactic(auto, unfolding(crate::specs::Joined::answer_room_of))]
pub fn answer_room(held: usize, counts: usize, out: usize) -> bool
    ensures { result ≡ answer_room_of held counts out }
{
    parts::lent::is_sized(held, counts) && 512 <= out
}

// A finishing call of the reader. 0 where `out` has fewer than 512 bytes, and then reader and buffer are left as they were.
pub fn answer(r: &mut Reader, out: &mut [u8]) -> usize
    ensures no_room { length out.old < room → (result ≡ 0) × (r.new ≡ r.old) × (out.new ≡ out.old) }
    ensures finished { room ≤ length out.old → r.new ≡ finished_of r.old }
    ensures length { room ≤ length out.old → result ≡ length (answer_text (take r.old.n r.old.bytes)) }
    ensures text { room ≤ length out.old → out.new ≡ written out.old 0 (answer_text (take r.old.n r.old.bytes)) }
{
    if out.len() < 512 {
        return 0;
    }
    r.finished = true;
    answer_kept(&r.bytes, r.n, out)
}
