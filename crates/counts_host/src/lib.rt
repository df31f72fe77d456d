// The calls on counts per exposure as a host makes them: numbers for endings, and answers put into lent buffers.
#![tactic(auto)]

ghost use Rattle.std.specs.Prelude.{◌≡◌, ◌≤◌, length};
ghost use Rattle.counts.specs.Objective.{objective_of};
ghost use Rattle.counts_fit.specs.Fit.{fit_of};
ghost use Rattle.counts_host.specs.Host.{objective_room_of, objective_numbers_of, objective_counts_of, objective_number_of, put_objective_of, objective_given, fit_room_of, fit_numbers_of, fit_counts_of, fit_number_of, put_fit_of, fit_given, request_of};
ghost use Rattle.store.specs.Given.{given};

use counts::{Objective, Refused};
use counts_fit::Fit;
use exposure::request::{Bounds, Request};
use work::{FitEvaluations, Iterations};

// ---- the objective

#[tactic(auto, unfolding(crate::specs::Host::objective_room_of))]
fn objective_room(numbers: usize, counts: usize) -> bool
    ensures { result ≡ objective_room_of numbers counts }
{
    7 <= numbers && 2 <= counts
}

// Zeros of a refusal.
fn objective_numbers(o: Result<Objective, Refused>) -> [f64; 7]
    ensures { result ≡ objective_numbers_of o }
{
    match o {
        Ok(o) => {
            let g = o.gradient;
            let h = o.hessian;
            [o.nll, g[0], g[1], h[0], h[1], h[2], h[3]]
        }
        Err(_) => [0.0; 7],
    }
}

fn objective_counts(o: Result<Objective, Refused>) -> [u64; 2]
    ensures { result ≡ objective_counts_of o }
{
    match o {
        Ok(o) => [o.passes.0, 0],
        Err(e) => [e.passes.0, e.refusal.reason()],
    }
}

fn objective_number(o: Result<Objective, Refused>) -> u64
    ensures { result ≡ objective_number_of o }
{
    match o {
        Ok(_) => 0,
        Err(e) => e.refusal.number(),
    }
}

#[tactic(auto, unfolding(crate::specs::Host::put_objective_of))]
fn put_objective(o: Result<Objective, Refused>, numbers: &mut [f64], counts: &mut [u64]) -> u64
    requires numbers_fit { 7 ≤ length numbers.old }
    requires counts_fit { 2 ≤ length counts.old }
    ensures { given result numbers.new counts.new ≡ put_objective_of o numbers.old counts.old }
{
    let n = objective_numbers(o);
    let c = objective_counts(o);
    store::put(&n, numbers);
    store::put(&c, counts);
    objective_number(o)
}

// A short buffer is 1, and nothing is written.
#[tactic(auto, using(crate::proofs::Laws::objective_numbers, crate::proofs::Laws::objective_counts, crate::proofs::Laws::objective_short, crate::proofs::Laws::objective_is))]
pub fn objective_in(
    shape: f64,
    rate: f64,
    events: &[u32],
    exposures: &[f64],
    numbers: &mut [f64],
    counts: &mut [u64],
) -> u64
    ensures { given result numbers.new counts.new ≡ objective_given (objective_of shape rate events.now exposures.now) numbers.old counts.old }
{
    if !objective_room(numbers.len(), counts.len()) {
        return 1;
    }
    let o = counts::gamma_poisson_objective(shape, rate, events, exposures);
    put_objective(o, numbers, counts)
}

// ---- the fit

#[tactic(auto, unfolding(crate::specs::Host::fit_room_of))]
fn fit_room(bounds: usize, numbers: usize, counts: usize) -> bool
    ensures { result ≡ fit_room_of bounds numbers counts }
{
    bounds == 6 && 4 <= numbers && 8 <= counts
}

fn request(b: &[f64], tolerance: f64, evaluations: u64, iterations: u64) -> Request
    requires { length b.now ≡ 6 }
    ensures { result ≡ request_of b.now tolerance evaluations iterations }
{
    Request {
        shape: Bounds {
            low: b[0],
            high: b[1],
            start: b[2],
        },
        rate: Bounds {
            low: b[3],
            high: b[4],
            start: b[5],
        },
        evaluations: FitEvaluations(evaluations),
        iterations: Iterations(iterations),
        tolerance,
    }
}

// Zeros of a refusal.
fn fit_numbers(f: Result<Fit, Refused>) -> [f64; 4]
    ensures { result ≡ fit_numbers_of f }
{
    match f {
        Ok(f) => [f.shape, f.rate, f.nll, f.norm],
        Err(_) => [0.0; 4],
    }
}

// Of a refusal the passes and the reason alone.
fn fit_counts(f: Result<Fit, Refused>) -> [u64; 8]
    ensures { result ≡ fit_counts_of f }
{
    match f {
        Ok(f) => {
            let on = f.active;
            [
                f.status.number(),
                f.evaluations.0,
                f.iterations.0,
                f.passes.0,
                f.rows,
                0,
                u64::from(on[0]),
                u64::from(on[1]),
            ]
        }
        Err(e) => [0, 0, 0, e.passes.0, 0, e.refusal.reason(), 0, 0],
    }
}

fn fit_number(f: Result<Fit, Refused>) -> u64
    ensures { result ≡ fit_number_of f }
{
    match f {
        Ok(_) => 0,
        Err(e) => e.refusal.number(),
    }
}

#[tactic(auto, unfolding(crate::specs::Host::put_fit_of))]
fn put_fit(f: Result<Fit, Refused>, numbers: &mut [f64], counts: &mut [u64]) -> u64
    requires numbers_fit { 4 ≤ length numbers.old }
    requires counts_fit { 8 ≤ length counts.old }
    ensures { given result numbers.new counts.new ≡ put_fit_of f numbers.old counts.old }
{
    let n = fit_numbers(f);
    let c = fit_counts(f);
    store::put(&n, numbers);
    store::put(&c, counts);
    fit_number(f)
}

// Six bounds: low, high and start of the shape, then of the rate. Another length or a short buffer is 1, and nothing is written.
#[tactic(auto, using(crate::proofs::Laws::fit_bounds, crate::proofs::Laws::fit_numbers, crate::proofs::Laws::fit_counts, crate::proofs::Laws::fit_short, crate::proofs::Laws::fit_is, crate::proofs::Laws::fit_of_lem))]
pub fn fit_in(
    bounds: &[f64],
    tolerance: f64,
    evaluations: u64,
    iterations: u64,
    events: &[u32],
    exposures: &[f64],
    numbers: &mut [f64],
    counts: &mut [u64],
) -> u64
    ensures { given result numbers.new counts.new ≡ fit_given (fit_of (request_of bounds.now tolerance evaluations iterations) events.now exposures.now) bounds.now numbers.old counts.old }
{
    if !fit_room(bounds.len(), numbers.len(), counts.len()) {
        return 1;
    }
    let r = request(bounds, tolerance, evaluations, iterations);
    put_fit(
        counts_fit::fit_gamma_poisson(r, events, exposures),
        numbers,
        counts,
    )
}
