// The summary over a range of an archive: the difference of two running summaries, each read from at most one of the totals and 63 litters.
#![tactic(auto)]

pub mod difference;
pub mod running;

ghost use Rattle.std.specs.Prelude.{◌≡◌, ◌≤◌};
ghost use Rattle.archive.specs.Layout.{count_in};
ghost use Rattle.archive_range.specs.Range.{judged_of, between_of};

use archive::{Archive, Refused};
use summary::Counts;

// Every litter that is read is looked at before anything is summed.
#[tactic(auto, unfolding(crate::specs::Range::judged_of))]
fn judged(archive: &Archive, from: usize, to: usize) -> Result<Counts, Refused>
    requires in_order { from ≤ to }
    requires in_bounds { to ≤ count_in archive.now.bytes.now }
    ensures { result ≡ judged_of archive.now.bytes.now from to }
{
    if !(running::valid_reads(archive, from) && running::valid_reads(archive, to)) {
        return Err(Refused::InvalidInput);
    }
    difference::difference(
        running::running(archive, from),
        running::running(archive, to),
    )
}

// From one position up to but not including another.
#[tactic(auto, unfolding(crate::specs::Range::between_of))]
pub fn between(b: &[u8], from: usize, to: usize) -> Result<Counts, Refused>
    ensures { result ≡ between_of b.now from to }
{
    let archive = Archive::open(b)?;
    if !(from <= to && to <= archive.count()) {
        return Err(Refused::InvalidInput);
    }
    judged(&archive, from, to)
}
