// The objective at a point: the rows' shares summed in their order, and whether every sum is finite.
ghost use Rattle.std.specs.Prelude.{◌≡◌, ◌≤◌, length};
ghost use Rattle.planar.specs.Planar.{no_planar};
ghost use Rattle.counts.specs.Rungs.{Held};
ghost use Rattle.counts.specs.Rows.{rows_from, totals_of, finite_of};
ghost use Rattle.counts.specs.Objective.{admits, to_objective, evaluated_of, objective_of};

use crate::share::Rising;
use planar::Planar;
use work::Refusal;

// The passes of the definition's inner loop, one for each event, however few of them `rungs` makes.
#[derive(Clone, Copy)]
pub struct Passes(pub u64);

// A refusal keeps its count.
#[derive(Clone, Copy)]
pub struct Refused {
    pub refusal: Refusal,
    pub passes: Passes,
}

#[derive(Clone, Copy)]
pub struct Value {
    pub passes: Passes,
    pub v: Planar,
}

// The coordinates are the logarithms of shape and rate. The Hessian stands by rows.
#[derive(Clone, Copy)]
pub struct Objective {
    pub passes: Passes,
    pub nll: f64,
    pub gradient: [f64; 2],
    pub hessian: [f64; 4],
}

impl Value {
    fn told(self) -> Objective
        ensures { result ≡ to_objective self.passes.0 self.v }
    {
        let v = self.v;
        Objective {
            passes: self.passes,
            nll: v.nll,
            gradient: [v.x, v.y],
            hessian: [v.xx, v.xy, v.xy, v.yy],
        }
    }
}

fn shares(
    shape: f64,
    y: f64,
    counts: &[u32],
    exposures: &[f64],
    top: u32,
    rungs: &[Rising; 64],
) -> Planar
    requires paired { length counts.now ≤ length exposures.now }
    requires held { Held shape top rungs.now }
    ensures { result ≡ rows_from shape y counts.now exposures.now (length counts.now) 0 no_planar }
{
    // By index: each definition of specs/ reads both lists at a row's place.
    let mut v = planar::nothing();
    for i in 0..counts.len() {
        let t = crate::share::with_row(v, shape, y, counts[i], exposures[i], top, rungs);
        v = t;
    }
    v
}

// The table of the inner loop's sums belongs to one evaluation: they depend on the shape.
#[tactic(auto, unfolding(crate::specs::Rows::totals_of))]
fn totals(x: f64, y: f64, counts: &[u32], exposures: &[f64]) -> Planar
    requires { length counts.now ≤ length exposures.now }
    ensures { result ≡ totals_of x y counts.now exposures.now }
{
    let shape = elementary::exp::exp(x);
    let top = crate::rungs::top_of(counts);
    let mut rungs = [crate::share::nothing(); 64];
    crate::rungs::fill(shape, top, &mut rungs);
    shares(shape, y, counts, exposures, top, &rungs)
}

#[tactic(auto, unfolding(crate::specs::Rows::finite_of))]
fn finite(v: Planar) -> bool
    ensures { result ≡ finite_of v }
{
    num::is_finite(v.nll)
        && num::is_finite(v.x)
        && num::is_finite(v.y)
        && num::is_finite(v.xx)
        && num::is_finite(v.xy)
        && num::is_finite(v.yy)
}

// At the logarithms of shape and rate. The test follows all rows, so a refusal counts every pass too.
#[tactic(auto, unfolding(crate::specs::Objective::evaluated_of))]
pub fn evaluated(x: f64, y: f64, counts: &[u32], exposures: &[f64]) -> Result<Value, Refused>
    requires few { length counts.now ≤ 4096 }
    requires paired { length counts.now ≤ length exposures.now }
    ensures { result ≡ evaluated_of x y counts.now exposures.now }
{
    let v = totals(x, y, counts, exposures);
    let made = Passes(exposure::rows::events(counts));
    if !finite(v) {
        return Err(Refused {
            refusal: Refusal::Domain(6),
            passes: made,
        });
    }
    Ok(Value { v, passes: made })
}

fn admitted(shape: f64, rate: f64, counts: &[u32], exposures: &[f64]) -> bool
    ensures { result ≡ admits shape rate counts.now exposures.now }
{
    exposure::request::valid_shape(shape)
        && exposure::rows::is_positive(rate)
        && exposure::rows::valid_rows(counts, exposures)
}

#[tactic(auto, using(crate::specs::Answers::objective_admitted, crate::specs::Answers::objective_refused, crate::proofs::Laws::few, crate::proofs::Laws::paired))]
pub fn gamma_poisson_objective(
    shape: f64,
    rate: f64,
    counts: &[u32],
    exposures: &[f64],
) -> Result<Objective, Refused>
    ensures { result ≡ objective_of shape rate counts.now exposures.now }
{
    if !admitted(shape, rate, counts, exposures) {
        return Err(Refused {
            refusal: Refusal::InvalidInput,
            passes: Passes(0),
        });
    }
    let x = elementary::log::log(shape);
    let y = elementary::log::log(rate);
    let o = evaluated(x, y, counts, exposures)?;
    Ok(o.told())
}
