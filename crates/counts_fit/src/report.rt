// The fit of a request, and its report.
ghost use Rattle.std.specs.Prelude.{◌≡◌, true};
ghost use Rattle.elementary.specs.Log.{log_of};
ghost use Rattle.planar.specs.Planar.{among_four_of};
ghost use Rattle.exposure.specs.Request.{admitted_of};
ghost use Rattle.counts.specs.Objective.{refused_of};
ghost use Rattle.plane.specs.Among.{placed, plan_of};
ghost use Rattle.counts_fit.specs.Fit.{start_of, plane_for, natural_of, on_bound_of, fit_of};
ghost use Rattle.counts_fit.specs.Among.{region_of, report_from, reported_of};

use counts::{Passes, Refused};
use course::{Course, Stopped};
use descent::Status;
use exposure::request::{Bounds, Request};
use step::Region;
use stepper::Plan;
use work::{FitEvaluations, Iterations, Refusal};

// `active` marks shape and rate where their logarithm lies on that of a bound.
#[derive(Clone, Copy)]
pub struct Fit {
    pub status: Status,
    pub shape: f64,
    pub rate: f64,
    pub nll: f64,
    pub norm: f64,
    pub evaluations: FitEvaluations,
    pub iterations: Iterations,
    pub passes: Passes,
    pub rows: u64,
    pub active: [bool; 2],
}

fn refusal(why: Refusal, passes: u64) -> Refused
    ensures { result ≡ refused_of why passes }
{
    Refused {
        refusal: why,
        passes: Passes(passes),
    }
}

// Shape and rate by their logarithms, among the four coordinates.
fn by_logs(shape: f64, rate: f64) -> [f64; 4]
    ensures { result ≡ among_four_of (log_of shape) (log_of rate) }
{
    let x = elementary::log::log(shape);
    let y = elementary::log::log(rate);
    planar::among_four(x, y)
}

fn region(r: Request) -> Region
    ensures { result ≡ region_of r }
{
    Region {
        lo: by_logs(r.shape.low, r.rate.low),
        hi: by_logs(r.shape.high, r.rate.high),
    }
}

fn start(r: Request) -> [f64; 4]
    ensures { result ≡ placed (start_of r) }
{
    by_logs(r.shape.start, r.rate.start)
}

fn plan(r: Request) -> Plan
    ensures { result ≡ plan_of (plane_for r) }
{
    Plan {
        region: region(r),
        tolerance: r.tolerance,
        most: r.evaluations,
        turns: r.iterations,
    }
}

#[tactic(auto, unfolding(crate::specs::Fit::natural_of))]
fn natural(x: f64, r: Bounds) -> f64
    ensures { result ≡ natural_of x r }
{
    num::clamp(elementary::exp::exp(x), r.low, r.high)
}

#[tactic(auto, unfolding(crate::specs::Fit::on_bound_of))]
fn on_bound(x: f64, r: Bounds) -> bool
    ensures { result ≡ on_bound_of x r }
{
    let low = elementary::log::log(r.low);
    let high = elementary::log::log(r.high);
    num::either(x == low, x == high)
}

// Of n rows, where the descent stopped.
fn report(r: Request, n: u64, used: u64, d: Stopped) -> Fit
    ensures { result ≡ report_from r n used d }
{
    let x = d.x;
    let v = d.v;
    let a = x[1];
    let b = x[3];
    let first = on_bound(a, r.shape);
    let second = on_bound(b, r.rate);
    Fit {
        status: d.status,
        shape: natural(a, r.shape),
        rate: natural(b, r.rate),
        nll: v.nll,
        norm: trial::norm_at(region(r), x, v),
        evaluations: d.evaluations,
        iterations: d.iterations,
        passes: Passes(used),
        rows: n,
        active: [first, second],
    }
}

fn reported(r: Request, n: u64, d: Course) -> Result<Fit, Refused>
    ensures { result ≡ reported_of r n d }
{
    match d.end {
        Ok(s) => Ok(report(r, n, d.used, s)),
        Err(e) => Err(refusal(e.refusal, d.used)),
    }
}

fn fit_admitted(r: Request, counts: &[u32], exposures: &[f64]) -> Result<Fit, Refused>
    requires { admitted_of r counts.now exposures.now ≡ true }
    ensures { result ≡ fit_of r counts.now exposures.now }
{
    let n = counts.len();
    let d = crate::drive::run(counts, exposures, plan(r), start(r));
    reported(r, n as u64, d)
}

pub fn fit_gamma_poisson(r: Request, counts: &[u32], exposures: &[f64]) -> Result<Fit, Refused>
    ensures { result ≡ fit_of r counts.now exposures.now }
{
    if !exposure::request::admitted(r, counts, exposures) {
        return Err(refusal(Refusal::InvalidInput, 0));
    }
    fit_admitted(r, counts, exposures)
}
