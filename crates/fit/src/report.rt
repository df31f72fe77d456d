// The fit of a request, and its report.
ghost use Rattle.std.specs.Prelude.{◌≡◌};
ghost use Rattle.fit.specs.Fit.{region_of, plan_of, sds_of, on_bound_of, active_of, report_from, refused_of, reported_of, fit_admitted_of, unfit_of, fit_of, watched_of};

use course::{Course, Stopped};
use descent::{Status, Trial};
use request::Request;
use step::Region;
use stepper::Plan;
use why::Test;
use work::{FitEvaluations, Iterations, QuadratureEvaluations, Refusal};

// The coordinates are two means, then two variances: gradient, Hessian (by rows) and `active`, which marks those that lie on a bound, go by them.
#[derive(Clone, Copy)]
pub struct Fit {
    pub status: Status,
    pub means: [f64; 2],
    pub sds: [f64; 2],
    pub variances: [f64; 2],
    pub nll: f64,
    pub norm: f64,
    pub gradient: [f64; 4],
    pub hessian: [f64; 16],
    pub evaluations: FitEvaluations,
    pub iterations: Iterations,
    pub quadrature: QuadratureEvaluations,
    pub litters: u64,
    pub active: [bool; 4],
}

// Why there is no fit, and what it had used by then.
#[derive(Clone, Copy)]
pub struct Refused {
    pub refusal: Refusal,
    pub quadrature: QuadratureEvaluations,
}

// The fit, why the trial that was watched ended as it did (None: there is none of that number), and what stopped the descent.
#[derive(Clone, Copy)]
pub struct Seen {
    pub fit: Result<Fit, Refused>,
    pub why: Option<Result<Trial, Refusal>>,
    pub stop: Result<Test, why::Refused>,
}

fn region(r: Request) -> Region
    ensures { result ≡ region_of r }
{
    Region {
        lo: request::low(r),
        hi: request::high(r),
    }
}

fn plan(r: Request) -> Plan
    ensures { result ≡ plan_of r }
{
    Plan {
        region: region(r),
        tolerance: r.tolerance,
        most: r.evaluations,
        turns: r.iterations,
    }
}

#[tactic(auto, unfolding(crate::specs::Fit::sds_of))]
fn sds(r: Request, x: [f64; 4]) -> [f64; 2]
    ensures { result ≡ sds_of r x }
{
    let b = r.sd;
    let first = num::clamp(root::sqrt(x[2]), b.low[0], b.high[0]);
    let second = num::clamp(root::sqrt(x[3]), b.low[1], b.high[1]);
    [first, second]
}

fn on_bound(x: f64, lo: f64, hi: f64) -> bool
    ensures { result ≡ on_bound_of x lo hi }
{
    num::either(x == lo, x == hi)
}

#[tactic(auto, unfolding(crate::specs::Fit::active_of))]
fn active(x: [f64; 4], b: Region) -> [bool; 4]
    ensures { result ≡ active_of x b.lo b.hi }
{
    let first = on_bound(x[0], b.lo[0], b.hi[0]);
    let second = on_bound(x[1], b.lo[1], b.hi[1]);
    let third = on_bound(x[2], b.lo[2], b.hi[2]);
    let fourth = on_bound(x[3], b.lo[3], b.hi[3]);
    [first, second, third, fourth]
}

// Of n litters, where the descent stopped.
#[tactic(auto, unfolding(crate::specs::Fit::sds_of, crate::specs::Fit::active_of))]
fn report(r: Request, n: u64, used: u64, d: Stopped) -> Fit
    ensures { result ≡ report_from r n used d }
{
    let x = d.x;
    let v = d.v;
    let a = x[0];
    let b = x[1];
    let c = x[2];
    let e = x[3];
    let bounds = region(r);
    let s = sds(r, x);
    let first = s[0];
    let second = s[1];
    let gradient = v.gradient;
    let hessian = v.hessian;
    Fit {
        status: d.status,
        means: [a, b],
        sds: [first, second],
        variances: [c, e],
        nll: v.nll,
        norm: trial::norm_at(bounds, x, v),
        gradient,
        hessian,
        evaluations: d.evaluations,
        iterations: d.iterations,
        quadrature: QuadratureEvaluations(used),
        litters: n,
        active: active([a, b, c, e], bounds),
    }
}

fn refusal(why: Refusal, used: u64) -> Refused
    ensures { result ≡ refused_of why used }
{
    Refused {
        refusal: why,
        quadrature: QuadratureEvaluations(used),
    }
}

fn reported(r: Request, n: u64, d: Course) -> Result<Fit, Refused>
    ensures { result ≡ reported_of r n d }
{
    match d.end {
        Ok(s) => Ok(report(r, n, d.used, s)),
        Err(e) => Err(refusal(e.refusal, d.used)),
    }
}

#[tactic(auto, unfolding(crate::specs::Fit::fit_admitted_of, crate::specs::Fit::whole_of))]
fn fit_admitted(r: Request, litters: &[u32], wanted: u64) -> Seen
    ensures { result ≡ fit_admitted_of r litters.now wanted }
{
    let n = litters.len() / 3;
    let course = drive::run(
        litters,
        legendre::legendre(),
        plan(r),
        r.quadrature.0,
        request::start(r),
        wanted,
    );
    Seen {
        fit: reported(r, n as u64, course),
        why: why::watched(course),
        stop: why::stopped(course),
    }
}

// A request that fails a check has no trial and no litter.
fn unfit() -> Seen
    ensures { result ≡ unfit_of }
{
    Seen {
        fit: Err(refusal(Refusal::InvalidInput, 0)),
        why: None,
        stop: Err(why::Refused {
            refusal: Refusal::InvalidInput,
            litter: None,
        }),
    }
}

// The fit, why the trial of the number wanted ended as it did, and what stopped the fit.
pub fn fit_watched(r: Request, litters: &[u32], wanted: u64) -> Seen
    ensures { result ≡ watched_of r litters.now wanted }
{
    if !request::up_to(20000000, r.quadrature.0) {
        return unfit();
    }
    if !request::admitted(r, litters) {
        return unfit();
    }
    fit_admitted(r, litters, wanted)
}

#[tactic(auto, unfolding(crate::specs::Fit::watched_of))]
pub fn fit_probit_normal_binomial(r: Request, litters: &[u32]) -> Result<Fit, Refused>
    ensures { result ≡ fit_of r litters.now }
{
    let s = fit_watched(r, litters, 0);
    s.fit
}
