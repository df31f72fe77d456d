// The writer of archives: litters in, three numbers each, and an archive's bytes out.
#![tactic(auto)]

pub mod bytes;

ghost use Rattle.std.specs.Prelude.{◌≡◌, ◌+◌, ◌*◌, ◌/◌, ◌≤◌, length};
ghost use Rattle.std.proofs.lemmas.List.Edits.{sets};
ghost use Rattle.store.specs.Stored.{stored};
ghost use Rattle.litters.specs.Litters.{count_of};
ghost use Rattle.summary.specs.Both.{BothBelow};
ghost use Rattle.archive_write.specs.Archive.{counted_to, litters_to, totals_to, archive_of, is_writable_of, written, write_of};

use archive::Refused;
use litters::Litter;
use summary::Counts;

#[tactic(auto, unfolding(crate::specs::Archive::is_writable_of))]
fn is_writable(litters: &[u32], room: usize) -> bool
    ensures { result ≡ is_writable_of litters.now room }
{
    let n = litters.len() / 3;
    litters.len() % 3 == 0
        && n <= 4096
        && archive::size(n) <= room
        && litters::valid::each_valid(litters)
}

fn put_litters(litters: &[u32], out: &mut [u8])
    requires { 12 * count_of litters.now ≤ length out.old }
    ensures { out.new ≡ sets out.old 0 (litters_to litters.now (count_of litters.now)) }
{
    for (i, row) in litters::rows(litters).iter().enumerate() {
        bytes::put_litter(out, 12 * i, Litter::from(*row));
    }
}

// The counts of i litters, and of 64 more.
fn next_64(litters: &[u32], i: usize, counts: Counts) -> Counts
    requires so_far { counts ≡ counted_to litters.now i }
    requires below { BothBelow counts (i + 1) }
    requires there { i + 64 ≤ count_of litters.now }
    requires few { i + 64 ≤ 4096 }
    ensures value { result ≡ counted_to litters.now (i + 64) }
    ensures below { BothBelow result (i + 64 + 1) }
{
    let mut counts = counts;
    for row in &litters::rows(litters)[i..i + 64] {
        counts = counts.with(Litter::from(*row));
    }
    counts
}

fn put_totals(litters: &[u32], out: &mut [u8])
    requires few { count_of litters.now ≤ 4096 }
    requires room { 12 * count_of litters.now + 32 * (count_of litters.now / 64) ≤ length out.old }
    ensures { out.new ≡ sets out.old (12 * count_of litters.now) (totals_to litters.now (count_of litters.now / 64)) }
{
    let n = litters.len() / 3;
    let mut counts = Counts::default();
    // By number: the totals lie at places reckoned from it.
    for j in 0..n / 64 {
        counts = next_64(litters, 64 * j, counts);
        bytes::put_counts(out, 12 * n + 32 * j, counts);
    }
}

fn put_archive(litters: &[u32], out: &mut [u8])
    requires few { count_of litters.now ≤ 4096 }
    requires room { 12 * count_of litters.now + 32 * (count_of litters.now / 64) + 12 ≤ length out.old }
    ensures { out.new ≡ stored out.old (archive_of litters.now) }
{
    let n = litters.len() / 3;
    put_litters(litters, out);
    put_totals(litters, out);
    bytes::put_trailer(out, 12 * n + 32 * (n / 64), n);
}

// Litters that are not valid or too many, and a short buffer, are InvalidInput, and nothing is written. Bytes past the archive are kept.
pub fn write(litters: &[u32], out: &mut [u8]) -> Result<(), Refused>
    ensures { written result out.new ≡ write_of litters.now out.old }
{
    if !is_writable(litters, out.len()) {
        return Err(Refused::InvalidInput);
    }
    put_archive(litters, out);
    Ok(())
}
