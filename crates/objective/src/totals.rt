// The sums of the litters' shares: gradient by coordinate, Hessian by rows of the four coordinates.
ghost use Rattle.std.specs.Prelude.{◌≡◌, ◌<◌};
ghost use Rattle.objective.specs.Totals.{index_of, with_share, finite_totals};

use row::Share;
use value::Totals;

pub fn index(group: u32) -> usize
    ensures place { result ≡ index_of group }
    ensures in_range { result < 2 }
{
    if group < 1 { 0 } else { 1 }
}

pub fn accumulated(t: Totals, i: usize, s: Share) -> Totals
    requires { i < 2 }
    ensures { result ≡ with_share t i s }
{
    let mut o = t;
    let j = i + 2;
    let a = 5 * i;
    let b = a + 2;
    let c = a + 8;
    let d = a + 10;
    o.nll = o.nll + s.nll;
    o.gradient[i] = o.gradient[i] + s.gradient[0];
    o.gradient[j] = o.gradient[j] + s.gradient[1];
    o.hessian[a] = o.hessian[a] + s.hessian[0];
    o.hessian[b] = o.hessian[b] + s.hessian[1];
    o.hessian[c] = o.hessian[c] + s.hessian[2];
    o.hessian[d] = o.hessian[d] + s.hessian[3];
    o.refinement = num::max(o.refinement, s.refinement);
    o
}

#[tactic(auto, unfolding(crate::specs::Totals::finite_totals))]
pub fn finite(t: Totals) -> bool
    ensures { result ≡ finite_totals t }
{
    let gradient = t.gradient;
    let hessian = t.hessian;
    let nll = num::is_finite(t.nll);
    let slopes = finite::all_finite(&gradient);
    let curvatures = finite::all_finite(&hessian);
    num::both(nll, num::both(slopes, curvatures))
}
