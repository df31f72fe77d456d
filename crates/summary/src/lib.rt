// The group summary: for each group the number of litters, successes, trials and extreme litters.
#![tactic(auto)]

ghost use Rattle.std.specs.Prelude.{◌≡◌, ℕ, ◌+◌, ◌<◌, length};
ghost use Rattle.summary.specs.Summary.{extreme_of, plus_of, litter_counts_of, counts_of, listed_of, summary_of, Adds};
ghost use Rattle.summary.specs.Most.{Below, capacity};
ghost use Rattle.summary.specs.Both.{both_of, one_of, BothBelow};

use litters::Litter;
use work::Refusal;

#[derive(Clone, Copy, PartialEq, Eq, Default)]
pub struct GroupCounts {
    pub litters: u64,
    pub successes: u64,
    pub trials: u64,
    pub extreme: u64,
}

// Of both groups.
#[derive(Clone, Copy, PartialEq, Eq, Default)]
pub struct Counts {
    pub first: GroupCounts,
    pub second: GroupCounts,
}

// With no successes, or with no failures.
#[tactic(auto, unfolding(crate::specs::Summary::extreme_of))]
pub fn extreme(litter: Litter) -> bool
    ensures { result ≡ extreme_of litter.successes litter.total }
{
    litter.successes == 0 || litter.successes == litter.total
}

impl GroupCounts {
    // What a litter adds to the counts of the group asked for.
    #[tactic(auto, unfolding(crate::specs::Summary::litter_counts_of))]
    pub fn of(litter: Litter, asked: u32) -> GroupCounts
        ensures { result ≡ litter_counts_of asked litter.successes litter.total litter.group }
    {
        if litter.group != asked {
            return GroupCounts::default();
        }
        GroupCounts {
            litters: 1,
            successes: u64::from(litter.successes),
            trials: u64::from(litter.total),
            extreme: u64::from(extreme(litter)),
        }
    }

    pub fn plus(self, more: GroupCounts) -> GroupCounts
        requires { Adds self more }
        ensures { result ≡ plus_of self more }
    {
        GroupCounts {
            litters: self.litters + more.litters,
            successes: self.successes + more.successes,
            trials: self.trials + more.trials,
            extreme: self.extreme + more.extreme,
        }
    }

    // With one litter more.
    pub fn with(self, litter: Litter, asked: u32) -> GroupCounts
        requires { Below self capacity }
        ensures counts { result ≡ plus_of self (litter_counts_of asked litter.successes litter.total litter.group) }
        ensures grown { (k : ℕ) → Below self k → Below result (k + 1) }
    {
        self.plus(GroupCounts::of(litter, asked))
    }

    // The counts of one group over a run. So short a slice cannot overflow them, whatever its numbers.
    pub fn over(litters: &[u32], asked: u32) -> GroupCounts
        requires { length litters.now < 0x1_0000_0000 }
        ensures { result ≡ counts_of litters.now asked }
    {
        let mut counts = GroupCounts::default();
        for row in litters::rows(litters) {
            counts = counts.with(Litter::from(*row), asked);
        }
        counts
    }
}

impl Counts {
    pub fn with(self, litter: Litter) -> Counts
        requires { BothBelow self capacity }
        ensures counts { result ≡ both_of self (one_of litter.successes litter.total litter.group) }
        ensures grown { (k : ℕ) → BothBelow self k → BothBelow result (k + 1) }
    {
        Counts {
            first: self.first.with(litter, 0),
            second: self.second.with(litter, 1),
        }
    }

    // In the order in which a host is given them.
    pub fn listed(self) -> [u64; 8]
        ensures { result ≡ listed_of self.first self.second }
    {
        let Counts { first, second } = self;
        [
            first.litters,
            first.successes,
            first.trials,
            first.extreme,
            second.litters,
            second.successes,
            second.trials,
            second.extreme,
        ]
    }
}

// Litters that are not valid are refused.
pub fn summarize(litters: &[u32]) -> Result<Counts, Refusal>
    ensures { result ≡ summary_of litters.now }
{
    if !litters::valid::valid_litters(litters) {
        return Err(Refusal::InvalidInput);
    }
    Ok(Counts {
        first: GroupCounts::over(litters, 0),
        second: GroupCounts::over(litters, 1),
    })
}
