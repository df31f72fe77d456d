// The integral and its derivatives' moments: one rule after another, the panels doubled until two rules agree.
#![tactic(auto)]

ghost use Rattle.std.specs.Prelude.{◌≡◌, false};
ghost use Rattle.work.specs.Answer.{Did};
ghost use Rattle.posterior.specs.Integrand.{at, here};
ghost use Rattle.panel.specs.Panel.{no_sums};
ghost use Rattle.quadrature.specs.Quadrature.{finite_rest_of, sound_of, spoiled_of, larger_of, refined_of, agreed_of, rules};

use legendre::Pair;
use panel::Hump;
use posterior::integrand::Posterior;
use work::{Meter, Refusal};

// The sums of the rule that agreed with the one before it, and their largest relative move from that.
#[derive(Clone, Copy)]
pub struct Integral {
    pub sum: [f64; 6],
    pub refinement: f64,
}

#[tactic(auto, unfolding(crate::specs::Quadrature::finite_rest_of))]
fn finite_rest(sum: [f64; 6]) -> bool
    ensures { result ≡ finite_rest_of sum }
{
    let a = num::both(num::is_finite(sum[4]), num::is_finite(sum[5]));
    let b = num::both(num::is_finite(sum[3]), a);
    let c = num::both(num::is_finite(sum[2]), b);
    num::both(num::is_finite(sum[1]), c)
}

#[tactic(auto, unfolding(crate::specs::Quadrature::sound_of))]
fn sound(sum: [f64; 6]) -> bool
    ensures { result ≡ sound_of sum }
{
    if !num::is_finite(sum[0]) {
        return false;
    }
    if sum[0] <= 0.0 {
        return false;
    }
    finite_rest(sum)
}

fn spoiled(sum: [f64; 6]) -> bool
    ensures { result ≡ spoiled_of sum }
{
    !sound(sum)
}

// The larger of m and a sum's relative move from its old value.
fn larger(m: f64, total: f64, sum: f64, old: f64) -> f64
    ensures { result ≡ larger_of m total sum old }
{
    num::max(m, num::abs(sum - old) / (total + num::abs(sum)))
}

// Sum by sum: the definition is these six steps, and a fold over two arrays is no plainer.
#[tactic(auto, unfolding(crate::specs::Quadrature::refined_of))]
fn refined(sum: [f64; 6], old: [f64; 6]) -> f64
    ensures { result ≡ refined_of sum old }
{
    let a = larger(0.0, sum[0], sum[0], old[0]);
    let b = larger(a, sum[0], sum[1], old[1]);
    let c = larger(b, sum[0], sum[2], old[2]);
    let d = larger(c, sum[0], sum[3], old[3]);
    let e = larger(d, sum[0], sum[4], old[4]);
    larger(e, sum[0], sum[5], old[5])
}

// The largest relative move of a sum from the rule before, where there was one and the two agree.
fn agreed(sum: [f64; 6], old: Option<[f64; 6]>) -> Option<f64>
    ensures { result ≡ agreed_of sum old }
{
    match old {
        None => None,
        Some(o) => {
            let refinement = refined(sum, o);
            if refinement <= 1e-11 {
                Some(refinement)
            } else {
                None
            }
        }
    }
}

pub fn integrated(
    p: Posterior,
    rule: &[Pair; 16],
    h: Hump,
    meter: &mut Meter,
) -> Result<Integral, Refusal>
    ensures { Did at (rules (here p) rule.now h 10 0 false no_sums) meter.old result meter.new }
{
    let mut old = None;
    for k in 0..10u32 {
        let sum = panel::sides(p, rule, h, 1u32 << k, meter)?;
        if spoiled(sum) {
            return Err(Refusal::Domain(4));
        }
        if let Some(refinement) = agreed(sum, old) {
            return Ok(Integral { sum, refinement });
        }
        old = Some(sum);
    }
    Err(Refusal::Domain(5))
}
