// One running summary less another: sums past 32 bits, and a difference that would be negative, are Form.
ghost use Rattle.std.specs.Prelude.{◌≡◌, cond, Some, None};
ghost use Rattle.archive_range.specs.Range.{group_fits_of, fits_of, group_within_of, within_of, group_less_of, less_of, difference_of};

use archive::Refused;
use summary::{Counts, GroupCounts};

#[tactic(auto, unfolding(crate::specs::Range::group_fits_of))]
fn group_fits(c: GroupCounts) -> bool
    ensures { result ≡ group_fits_of c }
{
    let most = u64::from(u32::MAX);
    c.litters <= most && c.successes <= most && c.trials <= most && c.extreme <= most
}

#[tactic(auto, unfolding(crate::specs::Range::fits_of))]
fn fits(c: Counts) -> bool
    ensures { result ≡ fits_of c }
{
    group_fits(c.first) && group_fits(c.second)
}

// From a up to b; none where a difference would be negative.
#[tactic(auto, unfolding(crate::specs::Range::group_within_of))]
fn group_less(a: GroupCounts, b: GroupCounts) -> Option<GroupCounts>
    ensures { result ≡ cond (group_within_of a b) (Some (group_less_of a b)) None }
{
    Some(GroupCounts {
        litters: b.litters.checked_sub(a.litters)?,
        successes: b.successes.checked_sub(a.successes)?,
        trials: b.trials.checked_sub(a.trials)?,
        extreme: b.extreme.checked_sub(a.extreme)?,
    })
}

#[tactic(auto, unfolding(crate::specs::Range::within_of))]
fn less(a: Counts, b: Counts) -> Option<Counts>
    ensures { result ≡ cond (within_of a b) (Some (less_of a b)) None }
{
    Some(Counts {
        first: group_less(a.first, b.first)?,
        second: group_less(a.second, b.second)?,
    })
}

#[tactic(auto, unfolding(crate::specs::Range::difference_of))]
pub fn difference(a: Counts, b: Counts) -> Result<Counts, Refused>
    ensures { result ≡ difference_of a b }
{
    if !(fits(a) && fits(b)) {
        return Err(Refused::Form);
    }
    less(a, b).ok_or(Refused::Form)
}
