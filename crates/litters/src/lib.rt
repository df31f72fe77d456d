// Litters: what one is, when a run of them is valid, how many are of a group, and how records are handed on as numbers.
// A run is lent as numbers, three a litter (successes, total, group), since that is what C lends.
#![tactic(auto)]

pub mod groups;
pub mod table;
pub mod valid;

ghost use Rattle.std.specs.Prelude.{◌≡◌, List, ℕ, ◌<◌, length, get_or};
ghost use Rattle.litters.specs.Litters.{count_of, row_at, row_litter};
ghost use Rattle.litters.specs.Valid.{valid_litter_of};

#[derive(Clone, Copy, PartialEq, Eq)]
pub struct Litter {
    pub successes: u32,
    pub total: u32,
    pub group: u32,
}

impl Litter {
    // Group 0 or 1, 1 to 1000 in all, and no more successes than that.
    #[tactic(auto, unfolding(crate::specs::Valid::valid_litter_of))]
    pub fn is_valid(self) -> bool
        ensures { result ≡ valid_litter_of self.successes self.total self.group }
    {
        self.group <= 1 && 1 <= self.total && self.total <= 1000 && self.successes <= self.total
    }
}

impl From<[u32; 3]> for Litter {
    ghost from_gives = { λ row litter. litter ≡ row_litter row };

    fn from(row: [u32; 3]) -> Litter {
        let [successes, total, group] = row;
        Litter {
            successes,
            total,
            group,
        }
    }
}

// The litters of a lent run, three numbers each.
pub fn rows(litters: &[u32]) -> &[[u32; 3]]
    ensures count { length result.now ≡ count_of litters.now }
    ensures each { (i : ℕ) (none : List ℕ) → i < count_of litters.now → get_or result.now i none ≡ row_at litters.now i }
{
    let (rows, _) = litters.as_chunks();
    rows
}
