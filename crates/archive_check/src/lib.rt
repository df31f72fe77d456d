// The full check of an archive: its shape, each litter, and each of the totals beside the litters counted.
#![tactic(auto)]

ghost use Rattle.std.specs.Prelude.{◌≡◌, ◌≤◌};
ghost use Rattle.archive.specs.Layout.{count_in};
ghost use Rattle.num.specs.Every.{every_from};
ghost use Rattle.archive_check.specs.Check.{totals_hold_of, holds_at, check_of};

use archive::Archive;
use summary::Counts;

// The counts are of the first i litters. Where they are full 64s, the totals there say the same.
fn totals_hold(archive: &Archive, i: usize, counts: Counts) -> bool
    requires some { 1 ≤ i }
    requires in_bounds { i ≤ count_in archive.now.bytes.now }
    ensures { result ≡ totals_hold_of archive.now.bytes.now i counts }
{
    if i % 64 != 0 {
        return true;
    }
    let totals = archive.totals(i / 64);
    counts == totals
}

fn holds(archive: &Archive) -> bool
    ensures { result ≡ every_from (holds_at archive.now.bytes.now) (count_in archive.now.bytes.now) 0 }
{
    let mut counts = Counts::default();
    // By number: a litter and the totals before it lie at places reckoned from it.
    for i in 0..archive.count() {
        let litter = archive.litter(i);
        if !litter.is_valid() {
            return false;
        }
        counts = counts.with(litter);
        if !totals_hold(archive, i + 1, counts) {
            return false;
        }
    }
    true
}

#[tactic(auto, unfolding(crate::specs::Check::check_of))]
pub fn check(b: &[u8]) -> bool
    ensures { result ≡ check_of b.now }
{
    match Archive::open(b) {
        Ok(archive) => holds(&archive),
        Err(_) => false,
    }
}
