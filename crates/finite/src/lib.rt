// Whether every number of a lent run is finite.
#![tactic(auto)]

ghost use Rattle.std.specs.Prelude.{◌≡◌};
ghost use Rattle.finite.specs.Finite.{all_finite_of};

pub fn all_finite(v: &[f64]) -> bool
    ensures { result ≡ all_finite_of v.now }
{
    v.iter().all(|x| num::is_finite(*x))
}
