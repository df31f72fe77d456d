// What a trial of the line search comes to, with the number that decided it.
#![tactic(auto)]

ghost use Rattle.std.specs.Prelude.{◌≡◌};
ghost use Rattle.descent.specs.Descent.{rounds, allowance_of};
ghost use Rattle.trial.specs.Judged.{norm_at_of, idle_of, judged_of};

use descent::Trial;
use step::Region;
use value::Totals;

pub mod watch;

// The projected gradient's norm at a point.
pub fn norm_at(b: Region, x: [f64; 4], v: Totals) -> f64
    ensures { result ≡ norm_at_of b.lo b.hi x v }
{
    step::norm(b.project(x, v.gradient))
}

// A candidate that wants no value: it does not go downhill, or is the point itself.
#[tactic(auto, unfolding(crate::specs::Judged::idle_of))]
pub fn idle(slope: f64) -> Trial
    ensures { result ≡ idle_of slope }
{
    if 0.0 <= slope {
        return Trial::NotDownhill(slope);
    }
    Trial::NotMoved
}

fn allowance(nll: f64) -> f64
    ensures { result ≡ allowance_of nll }
{
    32.0 * 2.220446049250313e-16 * (1.0 + num::abs(nll))
}

#[tactic(auto, unfolding(descent::specs::Descent::rounds))]
fn is_rounding(nll: f64, slope: f64, next: f64, norm: f64, after: f64) -> bool
    ensures { result ≡ rounds nll slope next norm after }
{
    let rounding = allowance(nll);
    let small = num::abs(slope) <= rounding;
    num::both(small, num::both(next <= nll + rounding, after < norm))
}

// What the value c at the candidate `next` decides, from x with its value v.
#[tactic(auto, unfolding(crate::specs::Judged::judged_of, descent::specs::Descent::decreases))]
pub fn judged(b: Region, x: [f64; 4], v: Totals, next: [f64; 4], c: Totals) -> Trial
    ensures { result ≡ judged_of b.lo b.hi x v next c }
{
    let slope = step::slope(v.gradient, next, x);
    let bound = v.nll + 1e-4 * slope;
    if c.nll <= bound {
        return Trial::ByDecrease(slope);
    }
    let before = norm_at(b, x, v);
    let after = norm_at(b, next, c);
    if is_rounding(v.nll, slope, c.nll, before, after) {
        return Trial::ByRounding(allowance(v.nll));
    }
    Trial::TooLittle(c.nll - bound)
}
