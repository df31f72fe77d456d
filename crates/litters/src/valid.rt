// When each of a run of litters is valid, and when the run itself is.
ghost use Rattle.std.specs.Prelude.{◌≡◌};
ghost use Rattle.litters.specs.Valid.{each_valid_of, valid_litters_of};

use crate::Litter;

// However many they are.
pub fn each_valid(litters: &[u32]) -> bool
    ensures { result ≡ each_valid_of litters.now }
{
    crate::rows(litters)
        .iter()
        .all(|row| Litter::from(*row).is_valid())
}

#[tactic(auto, unfolding(crate::specs::Valid::valid_litters_of))]
pub fn valid_litters(litters: &[u32]) -> bool
    ensures { result ≡ valid_litters_of litters.now }
{
    let n = litters.len() / 3;
    litters.len() % 3 == 0 && 1 <= n && n <= 128 && each_valid(litters)
}
