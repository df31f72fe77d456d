// The objective at a point: the litters' shares, each under what is left of the limit, summed in their order.
ghost use Rattle.std.specs.Prelude.{◌≡◌, ◌+◌, ◌*◌, ◌<◌, length};
ghost use Rattle.work.specs.Answer.{Did};
ghost use Rattle.posterior.specs.Integrand.{at};
ghost use Rattle.objective.specs.Objective.{ended_of, share_at, limited_objective_of, objective_of};
ghost use Rattle.objective.specs.Named.{invalid_of, at_litter as placed, summed_of, named_objective_of};

use legendre::Pair;
use row::Share;
use value::Totals;
use work::{Meter, QuadratureEvaluations, Refusal};

// The evaluations made, and the value: its coordinates are two means, then two variances.
#[derive(Clone, Copy)]
pub struct Objective {
    pub used: QuadratureEvaluations,
    pub v: Totals,
}

// Why there is no value, and the evaluations made.
#[derive(Clone, Copy)]
pub struct Refused {
    pub refusal: Refusal,
    pub used: QuadratureEvaluations,
}

// A refusal, and the litter at which it came, counted from 1, where it came at one.
#[derive(Clone, Copy)]
pub struct Named {
    pub refused: Refused,
    pub litter: Option<u64>,
}

// What the sum of all litters comes to.
#[tactic(auto, unfolding(crate::specs::Objective::ended_of))]
pub fn ended(used: u64, t: Totals) -> Result<Objective, Refused>
    ensures { result ≡ ended_of used t }
{
    let used = QuadratureEvaluations(used);
    if crate::totals::finite(t) {
        return Ok(Objective { used, v: t });
    }
    let refusal = Refusal::Domain(6);
    Err(Refused { refusal, used })
}

// An input that a check refuses.
fn invalid() -> Named
    ensures { result ≡ invalid_of }
{
    Named {
        refused: Refused {
            refusal: Refusal::InvalidInput,
            used: QuadratureEvaluations(0),
        },
        litter: None,
    }
}

// A refusal by the litter at which it came, where it came at one.
#[tactic(auto, unfolding(crate::specs::Named::at_litter))]
fn at_litter(litter: Option<u64>, o: Result<Objective, Refused>) -> Result<Objective, Named>
    ensures { result ≡ placed litter o }
{
    match o {
        Ok(o) => Ok(o),
        Err(refused) => Err(Named { refused, litter }),
    }
}

fn litter(
    i: usize,
    rule: &[Pair; 16],
    x: [f64; 4],
    litters: &[u32],
    meter: &mut Meter,
) -> Result<Share, Refusal>
    requires { 3 * i + 2 < length litters.now }
    ensures { Did at (share_at rule.now x litters.now i) meter.old result meter.new }
{
    let k = 3 * i;
    let successes = litters[k];
    let total = litters[k + 1];
    let g = crate::totals::index(litters[k + 2]);
    row::row_objective(i as u64, successes, total, rule, x[g], x[g + 2], meter)
}

fn summed(
    rule: [Pair; 16],
    x: [f64; 4],
    litters: &[u32],
    limit: QuadratureEvaluations,
) -> Result<Objective, Named>
    ensures { result ≡ summed_of rule x litters.now limit }
{
    // By index: a litter is three of the numbers, and its place is its name.
    let n = litters.len() / 3;
    let mut meter = Meter::of(limit);
    let mut t = value::nothing();
    for i in 0..n {
        let number = i as u64 + 1;
        match litter(i, &rule, x, litters, &mut meter) {
            Err(refusal) => {
                let used = meter.used;
                let refused = Refused { refusal, used };
                let litter = Some(number);
                return at_litter(litter, Err(refused));
            }
            Ok(s) => {
                let g = crate::totals::index(litters[3 * i + 2]);
                let sum = crate::totals::accumulated(t, g, s);
                t = sum;
            }
        }
    }
    at_litter(None, ended(meter.used.0, t))
}

// The rule is computed once and passed on: the source computes it at each call, to the same bits.
pub fn named_objective(
    rule: [Pair; 16],
    x: [f64; 4],
    litters: &[u32],
    limit: QuadratureEvaluations,
) -> Result<Objective, Named>
    ensures { result ≡ named_objective_of rule x litters.now limit }
{
    if !crate::check::valid_point(x) {
        return Err(invalid());
    }
    if !litters::valid::valid_litters(litters) {
        return Err(invalid());
    }
    summed(rule, x, litters, limit)
}

pub fn limited_objective(
    rule: [Pair; 16],
    x: [f64; 4],
    litters: &[u32],
    limit: QuadratureEvaluations,
) -> Result<Objective, Refused>
    ensures { result ≡ limited_objective_of rule x litters.now limit }
{
    match named_objective(rule, x, litters, limit) {
        Ok(o) => Ok(o),
        Err(n) => Err(n.refused),
    }
}

#[tactic(auto, unfolding(crate::specs::Objective::objective_of))]
pub fn probit_normal_binomial_objective(x: [f64; 4], litters: &[u32]) -> Result<Objective, Refused>
    ensures { result ≡ objective_of x litters.now }
{
    let rule = legendre::legendre();
    limited_objective(rule, x, litters, QuadratureEvaluations(8388608))
}
