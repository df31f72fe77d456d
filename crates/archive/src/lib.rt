// An archive of litters as it lies in bytes: its words, its size, its shape, and what it holds.
#![tactic(auto)]

pub mod opened;

ghost use Rattle.std.specs.Prelude.{◌≡◌, ◌+◌, ◌-◌, ◌*◌, ◌≤◌, length};
ghost use Rattle.summary.specs.Most.{Below};
ghost use Rattle.summary.specs.Both.{BothBelow};
ghost use Rattle.archive.specs.Layout.{number_of, word_at, record_in, valid_of, size_of, trailer_holds_of, shaped_of};
ghost use Rattle.archive.specs.Counts.{group_totals_of, totals_of};

use litters::Litter;
pub use opened::Archive;
use summary::{Counts, GroupCounts};

// Why there is no answer about an archive.
#[derive(Clone, Copy, PartialEq, Eq)]
pub enum Refused {
    InvalidInput,
    Form,
}

impl Refused {
    // As C is given it.
    pub fn number(self) -> u64
        ensures { result ≡ number_of self }
    {
        match self {
            Refused::InvalidInput => 1,
            Refused::Form => 4,
        }
    }
}

#[tactic(auto, unfolding(crate::specs::Layout::word_at))]
pub fn word(b: &[u8], p: usize) -> u32
    requires { p + 4 ≤ length b.now }
    ensures { result ≡ word_at b.now p }
{
    u32::from_le_bytes([b[p], b[p + 1], b[p + 2], b[p + 3]])
}

#[tactic(auto, unfolding(crate::specs::Layout::size_of))]
pub fn size(n: usize) -> usize
    requires { n ≤ 0xffff_ffff }
    ensures { result ≡ size_of n }
{
    12 * n + 32 * (n / 64) + 12
}

// How many litters the trailer says there are.
pub fn count(b: &[u8]) -> usize
    requires { 12 ≤ length b.now }
    ensures { result ≡ word_at b.now (length b.now - 12) }
{
    word(b, b.len() - 12) as usize
}

fn trailer_holds(b: &[u8]) -> bool
    requires { 12 ≤ length b.now }
    ensures { result ≡ trailer_holds_of b.now }
{
    let n = count(b);
    n <= 4096
        && b.len() == size(n)
        && word(b, b.len() - 8) as usize == 12 * n
        && word(b, b.len() - 4) == 0
}

// Fewer than 12 bytes have no trailer.
#[tactic(auto, unfolding(crate::specs::Layout::shaped_of))]
pub fn shaped(b: &[u8]) -> bool
    ensures { result ≡ shaped_of b.now }
{
    12 <= b.len() && trailer_holds(b)
}

pub fn litter(b: &[u8], i: usize) -> Litter
    requires { 12 * i + 12 ≤ length b.now }
    ensures { result ≡ record_in b.now i }
{
    let p = 12 * i;
    Litter {
        group: word(b, p),
        successes: word(b, p + 4),
        total: word(b, p + 8),
    }
}

pub fn valid(b: &[u8], i: usize) -> bool
    requires { 12 * i + 12 ≤ length b.now }
    ensures { result ≡ valid_of b.now i }
{
    litter(b, i).is_valid()
}

fn group_totals(b: &[u8], p: usize) -> GroupCounts
    requires { p + 16 ≤ length b.now }
    ensures value { result ≡ group_totals_of b.now p }
    ensures below { Below result 1 }
{
    GroupCounts {
        litters: u64::from(word(b, p)),
        successes: u64::from(word(b, p + 4)),
        trials: u64::from(word(b, p + 8)),
        extreme: u64::from(word(b, p + 12)),
    }
}

// The totals that begin at place p.
pub fn totals(b: &[u8], p: usize) -> Counts
    requires { p + 32 ≤ length b.now }
    ensures value { result ≡ totals_of b.now p }
    ensures below { BothBelow result 1 }
{
    Counts {
        first: group_totals(b, p),
        second: group_totals(b, p + 16),
    }
}
