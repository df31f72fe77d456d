// The running summary at a position: the totals before it, if there are any, and the litters since.
ghost use Rattle.std.specs.Prelude.{◌≡◌, ◌≤◌, ◌/◌};
ghost use Rattle.archive.specs.Layout.{count_in};
ghost use Rattle.summary.specs.Both.{none, BothBelow};
ghost use Rattle.archive_range.specs.Reads.{last_total, reads_of, summed, valid_reads_of, running_of};

use archive::Archive;
use summary::Counts;

pub fn valid_reads(archive: &Archive, p: usize) -> bool
    requires { p ≤ count_in archive.now.bytes.now }
    ensures { result ≡ valid_reads_of archive.now.bytes.now (reads_of p) }
{
    // By number: a litter lies at a place reckoned from it.
    for k in 64 * (p / 64)..p {
        if !archive.valid(k) {
            return false;
        }
    }
    true
}

fn last_total(archive: &Archive, p: usize) -> Counts
    requires { p ≤ count_in archive.now.bytes.now }
    ensures value { result ≡ summed archive.now.bytes.now none (last_total (p / 64)) }
    ensures below { BothBelow result 1 }
{
    let full = p / 64;
    if full == 0 {
        return Counts::default();
    }
    archive.totals(full)
}

pub fn running(archive: &Archive, p: usize) -> Counts
    requires { p ≤ count_in archive.now.bytes.now }
    ensures { result ≡ running_of archive.now.bytes.now p }
{
    let mut counts = last_total(archive, p);
    // By number, as above.
    for i in 64 * (p / 64)..p {
        counts = counts.with(archive.litter(i));
    }
    counts
}
