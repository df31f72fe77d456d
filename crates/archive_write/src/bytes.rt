// Words, litters, counts and the trailer, put into a buffer from a place on.
ghost use Rattle.std.specs.Prelude.{◌≡◌, ◌+◌, ◌≤◌, length};
ghost use Rattle.std.proofs.lemmas.List.Edits.{sets};
ghost use Rattle.archive_write.specs.Archive.{word_bytes, litter_bytes, group_bytes, counts_bytes, trailer_bytes};

use litters::Litter;
use summary::{Counts, GroupCounts};

// The lowest byte first; what is past 32 bits is left out.
fn put_word(out: &mut [u8], p: usize, x: u64)
    requires { p + 4 ≤ length out.old }
    ensures { out.new ≡ sets out.old p (word_bytes x) }
{
    out[p..p + 4].copy_from_slice(&x.to_le_bytes()[..4]);
}

pub fn put_litter(out: &mut [u8], p: usize, litter: Litter)
    requires { p + 12 ≤ length out.old }
    ensures { out.new ≡ sets out.old p (litter_bytes litter.successes litter.total litter.group) }
{
    put_word(out, p, u64::from(litter.group));
    put_word(out, p + 4, u64::from(litter.successes));
    put_word(out, p + 8, u64::from(litter.total));
}

fn put_group(out: &mut [u8], p: usize, counts: GroupCounts)
    requires { p + 16 ≤ length out.old }
    ensures { out.new ≡ sets out.old p (group_bytes counts) }
{
    put_word(out, p, counts.litters);
    put_word(out, p + 4, counts.successes);
    put_word(out, p + 8, counts.trials);
    put_word(out, p + 12, counts.extreme);
}

pub fn put_counts(out: &mut [u8], p: usize, counts: Counts)
    requires { p + 32 ≤ length out.old }
    ensures { out.new ≡ sets out.old p (counts_bytes counts) }
{
    put_group(out, p, counts.first);
    put_group(out, p + 16, counts.second);
}

pub fn put_trailer(out: &mut [u8], p: usize, n: usize)
    requires room { p + 12 ≤ length out.old }
    requires few { n ≤ 4096 }
    ensures { out.new ≡ sets out.old p (trailer_bytes n) }
{
    let count = n as u64;
    put_word(out, p, count);
    put_word(out, p + 4, 12 * count);
    put_word(out, p + 8, 0);
}
