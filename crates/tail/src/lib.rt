// The tails: how much mass beyond a point there can be, and steps outward until that is within a goal.
#![tactic(auto)]

ghost use Rattle.std.specs.Prelude.{◌≡◌};
ghost use Rattle.work.specs.Answer.{Did};
ghost use Rattle.posterior.specs.Integrand.{at, here};
ghost use Rattle.tail.specs.Tail.{term_of, tail_bound_of, within_of, closed_of, both_closed_of, bound_after_of, started, span, goal};

use posterior::integrand::Posterior;
use posterior::side::{Ends, Side};
use work::{Meter, Refusal};

// What the walks of one litter share: its posterior, and the mode, the logarithm there, the scale and the goal.
#[derive(Clone, Copy)]
pub struct Hill {
    pub p: Posterior,
    pub mode: f64,
    pub log: f64,
    pub delta: f64,
    pub goal: f64,
}

// Where a walk ends, and the bound on the mass beyond: none while the side is open; a bound may be infinite or a NaN.
#[derive(Clone, Copy)]
pub struct Reach {
    pub z: f64,
    pub bound: Option<f64>,
}

#[tactic(auto, unfolding(crate::specs::Tail::term_of))]
fn term(coefficient: f64, u: f64, i: u32, sd: f64, k: u32, slope: f64, j: u32) -> f64
    ensures { result ≡ term_of coefficient u i sd k slope j }
{
    coefficient * num::powi(u, i) * num::powi(sd, k) / num::powi(slope, j)
}

#[tactic(auto, unfolding(crate::specs::Tail::tail_bound_of))]
pub fn tail_bound(relative: f64, slope: f64, eta: f64, sd: f64, total: u32) -> f64
    ensures { result ≡ tail_bound_of relative slope eta sd total }
{
    let u = 1.0 + num::abs(eta);
    let a = term(1.0, u, 4, sd, 0, slope, 1);
    let b = term(4.0, u, 3, sd, 1, slope, 2);
    let c = term(12.0, u, 2, sd, 2, slope, 3);
    let d = term(24.0, u, 1, sd, 3, slope, 4);
    let e = term(24.0, u, 0, sd, 4, slope, 5);
    let polynomial = num::sum(&[a, b, c, d, e]);
    elementary::exp::exp(relative) * 86.0 * num::powi(total as f64, 4) * polynomial
}

// An open side compares as infinity does.
fn within(b: Option<f64>, goal: f64) -> bool
    ensures { result ≡ within_of b goal }
{
    let open = num::infinity() <= goal;
    match b {
        None => open,
        Some(x) => x <= goal,
    }
}

fn closed(b: Option<f64>, goal: f64) -> bool
    ensures { result ≡ closed_of b goal }
{
    match b {
        None => false,
        Some(x) => num::both(num::is_finite(x), x <= goal),
    }
}

#[tactic(auto, unfolding(crate::specs::Tail::both_closed_of))]
fn both_closed(l: Option<f64>, r: Option<f64>, goal: f64) -> bool
    ensures { result ≡ both_closed_of l r goal }
{
    if closed(l, goal) {
        return closed(r, goal);
    }
    false
}

impl Hill {
    // The bound after an evaluation at z: a new one where the density rises toward the mode, else the one before.
    #[tactic(auto, unfolding(crate::specs::Tail::bound_after_of))]
    fn bound_after(self, side: Side, b: Option<f64>, z: f64, log: f64, slope: f64) -> Option<f64>
        ensures { result ≡ bound_after_of self side b z log slope }
    {
        if side.rises(slope) {
            return Some(tail_bound(
                log - self.log,
                side.steep(slope),
                self.p.mean + self.p.sd * z,
                self.p.sd,
                self.p.total,
            ));
        }
        b
    }

    fn walk_out(self, p: Posterior, side: Side, meter: &mut Meter) -> Result<Reach, Refusal>
        ensures { Did at (started (here p) self side) meter.old result meter.new }
    {
        let mut z = side.outward(self.mode, self.delta);
        let mut bound = None;
        for j in 0..30u32 {
            let v = p.evaluate(z, meter)?;
            bound = self.bound_after(side, bound, z, v.log, v.slope);
            if within(bound, self.goal) {
                return Ok(Reach { z, bound });
            }
            z = side.outward(self.mode, self.delta * num::powi(2.0, j + 1));
        }
        Ok(Reach { z, bound })
    }

    // The ends of the integral, where both sides are bounded. Evaluated is `p`; the bound takes the hill's own numbers.
    pub fn bounded(self, p: Posterior, meter: &mut Meter) -> Result<Ends, Refusal>
        ensures { Did at (span (here p) self) meter.old result meter.new }
    {
        let l = self.walk_out(p, Side::Left, meter)?;
        let r = self.walk_out(p, Side::Right, meter)?;
        if both_closed(l.bound, r.bound, self.goal) {
            return Ok(Ends {
                left: l.z,
                right: r.z,
            });
        }
        Err(Refusal::Domain(3))
    }
}

pub fn tail_goal(
    p: Posterior,
    mode: f64,
    log: f64,
    delta: f64,
    meter: &mut Meter,
) -> Result<f64, Refusal>
    ensures { Did at (goal (here p) mode log delta) meter.old result meter.new }
{
    let l = p.evaluate(mode - delta, meter)?;
    let r = p.evaluate(mode + delta, meter)?;
    let least = elementary::exp::exp(num::min(l.log, r.log) - log);
    Ok(1e-13 * (2.0 * delta * least))
}
