// A fit's request, and what it has to satisfy.
ghost use Rattle.std.specs.Prelude.{◌≡◌, ◌≤◌, length};
ghost use Rattle.exposure.specs.Rows.{events_of};
ghost use Rattle.exposure.specs.Request.{valid_shape_of, is_boxed_of, is_apart_of, valid_shapes_of, valid_rates_of, up_to_of, valid_controls_of, product_of, valid_work_of, valid_request_of, admitted_of};

use crate::rows::{events, is_positive, valid_rows};
use work::{FitEvaluations, Iterations};

// A parameter's bounds and start.
#[derive(Clone, Copy)]
pub struct Bounds {
    pub low: f64,
    pub high: f64,
    pub start: f64,
}

#[derive(Clone, Copy)]
pub struct Request {
    pub shape: Bounds,
    pub rate: Bounds,
    pub evaluations: FitEvaluations,
    pub iterations: Iterations,
    pub tolerance: f64,
}

#[tactic(auto, unfolding(crate::specs::Request::valid_shape_of))]
pub fn valid_shape(x: f64) -> bool
    ensures { result ≡ valid_shape_of x }
{
    num::is_finite(x) && 0.00000001 <= x && x <= 1000000.0
}

#[tactic(auto, unfolding(crate::specs::Request::is_boxed_of))]
fn is_boxed(r: Bounds) -> bool
    ensures { result ≡ is_boxed_of r }
{
    r.low < r.high && r.low <= r.start && r.start <= r.high
}

#[tactic(auto, unfolding(crate::specs::Request::is_apart_of))]
fn is_apart(r: Bounds) -> bool
    ensures { result ≡ is_apart_of r }
{
    let low = elementary::log::log(r.low);
    let high = elementary::log::log(r.high);
    !(high <= low)
}

#[tactic(auto, unfolding(crate::specs::Request::valid_shapes_of))]
fn valid_shapes(r: Bounds) -> bool
    ensures { result ≡ valid_shapes_of r }
{
    valid_shape(r.low) && valid_shape(r.high) && valid_shape(r.start) && is_boxed(r) && is_apart(r)
}

#[tactic(auto, unfolding(crate::specs::Request::valid_rates_of))]
fn valid_rates(r: Bounds) -> bool
    ensures { result ≡ valid_rates_of r }
{
    is_positive(r.low) && is_positive(r.high) && is_positive(r.start) && is_boxed(r) && is_apart(r)
}

#[tactic(auto, unfolding(crate::specs::Request::up_to_of))]
fn up_to(n: u64) -> bool
    ensures { result ≡ up_to_of n }
{
    1 <= n && n <= 10000
}

#[tactic(auto, unfolding(crate::specs::Request::valid_controls_of))]
fn valid_controls(r: Request) -> bool
    ensures { result ≡ valid_controls_of r }
{
    up_to(r.evaluations.0) && up_to(r.iterations.0) && is_positive(r.tolerance)
}

// The product that the passes of a fit stay within. The arguments are bounded first, so it cannot overflow.
#[tactic(auto, unfolding(crate::specs::Request::product_of))]
pub fn product(events: u64, rows: u64, most: u64) -> u64
    requires { (events ≤ 1000000) × (rows ≤ 4096) × (most ≤ 10000) }
    ensures { result ≡ product_of events rows most }
{
    (events + rows) * most
}

#[tactic(auto, unfolding(crate::specs::Request::valid_work_of))]
fn valid_work(most: u64, counts: &[u32]) -> bool
    requires { (length counts.now ≤ 4096) × (events_of counts.now ≤ 1000000) × (most ≤ 10000) }
    ensures { result ≡ valid_work_of most counts.now }
{
    2 <= counts.len() && product(events(counts), counts.len() as u64, most) <= 20000000
}

#[tactic(auto, unfolding(crate::specs::Request::valid_request_of))]
fn valid_request(r: Request) -> bool
    ensures { result ≡ valid_request_of r }
{
    valid_shapes(r.shape) && valid_rates(r.rate) && valid_controls(r)
}

#[tactic(auto, unfolding(crate::specs::Request::admitted_of))]
pub fn admitted(r: Request, counts: &[u32], exposures: &[f64]) -> bool
    ensures { result ≡ admitted_of r counts.now exposures.now }
{
    valid_request(r) && valid_rows(counts, exposures) && valid_work(r.evaluations.0, counts)
}
