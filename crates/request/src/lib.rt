// A fit's request, and what it has to satisfy.
#![tactic(auto)]

ghost use Rattle.std.specs.Prelude.{◌≡◌, ◌<◌, length};
ghost use Rattle.request.specs.Request.{request_of, finite_three_of, is_boxed_of, valid_mean_of, valid_sd_of, valid_means_of, valid_sds_of, range_of, up_to_of, valid_controls_of, two_each_of, admitted_of, start_of, low_of, high_of};

use work::{FitEvaluations, Iterations, QuadratureEvaluations};

// A parameter's bounds and start, of group 0 and of group 1.
#[derive(Clone, Copy)]
pub struct Bounds {
    pub low: [f64; 2],
    pub high: [f64; 2],
    pub start: [f64; 2],
}

// Bounds and starts of both parameters, the limits, and the tolerance of the projected gradient's norm.
#[derive(Clone, Copy)]
pub struct Request {
    pub mean: Bounds,
    pub sd: Bounds,
    pub evaluations: FitEvaluations,
    pub iterations: Iterations,
    pub quadrature: QuadratureEvaluations,
    pub tolerance: f64,
}

// Twelve bounds: low, high and start of mean 0, mean 1, SD 0, SD 1.
pub fn requested(
    b: &[f64],
    tolerance: f64,
    evaluations: u64,
    iterations: u64,
    quadrature: u64,
) -> Request
    requires { length b.now ≡ 12 }
    ensures { result ≡ request_of b.now tolerance evaluations iterations quadrature }
{
    Request {
        mean: Bounds {
            low: [b[0], b[3]],
            high: [b[1], b[4]],
            start: [b[2], b[5]],
        },
        sd: Bounds {
            low: [b[6], b[9]],
            high: [b[7], b[10]],
            start: [b[8], b[11]],
        },
        evaluations: FitEvaluations(evaluations),
        iterations: Iterations(iterations),
        quadrature: QuadratureEvaluations(quadrature),
        tolerance,
    }
}

// One group's bounds and start.
#[derive(Clone, Copy)]
struct Range {
    low: f64,
    high: f64,
    start: f64,
}

impl Range {
    fn is_finite(self) -> bool
        ensures { result ≡ finite_three_of self.low self.high self.start }
    {
        num::both(
            num::is_finite(self.low),
            num::both(num::is_finite(self.high), num::is_finite(self.start)),
        )
    }

    // Bounds that increase, with the start inside, ends included.
    fn is_boxed(self) -> bool
        ensures { result ≡ is_boxed_of self.low self.high self.start }
    {
        num::both(
            self.low < self.high,
            num::both(self.low <= self.start, self.start <= self.high),
        )
    }

    #[tactic(auto, unfolding(crate::specs::Request::valid_mean_of))]
    fn is_mean(self) -> bool
        ensures { result ≡ valid_mean_of self.low self.high self.start }
    {
        let within = num::both(-8.0 <= self.low, self.high <= 8.0);
        num::both(self.is_finite(), num::both(self.is_boxed(), within))
    }

    #[tactic(auto, unfolding(crate::specs::Request::valid_sd_of))]
    fn is_sd(self) -> bool
        ensures { result ≡ valid_sd_of self.low self.high self.start }
    {
        let low = self.low;
        let high = self.high;
        let apart = num::both(high <= 3.0, low * low < high * high);
        num::both(
            self.is_finite(),
            num::both(self.is_boxed(), num::both(0.0 <= low, apart)),
        )
    }
}

impl Bounds {
    fn of_group(self, i: usize) -> Range
        requires { i < 2 }
        ensures { result ≡ range_of self i }
    {
        Range {
            low: self.low[i],
            high: self.high[i],
            start: self.start[i],
        }
    }

    #[tactic(auto, unfolding(crate::specs::Request::valid_means_of))]
    fn are_means(self) -> bool
        ensures { result ≡ valid_means_of self }
    {
        num::both(self.of_group(0).is_mean(), self.of_group(1).is_mean())
    }

    #[tactic(auto, unfolding(crate::specs::Request::valid_sds_of))]
    fn are_sds(self) -> bool
        ensures { result ≡ valid_sds_of self }
    {
        num::both(self.of_group(0).is_sd(), self.of_group(1).is_sd())
    }
}

pub fn up_to(most: u64, n: u64) -> bool
    ensures { result ≡ up_to_of most n }
{
    num::both(1 <= n, n <= most)
}

#[tactic(auto, unfolding(crate::specs::Request::valid_controls_of))]
fn valid_controls(r: Request) -> bool
    ensures { result ≡ valid_controls_of r }
{
    let a = up_to(1000, r.evaluations.0);
    let b = up_to(1000, r.iterations.0);
    let c = num::both(num::is_finite(r.tolerance), 0.0 < r.tolerance);
    num::both(a, num::both(b, c))
}

#[tactic(auto, unfolding(crate::specs::Request::two_each_of))]
fn two_each(litters: &[u32]) -> bool
    ensures { result ≡ two_each_of litters.now }
{
    let a = litters::groups::of_group(litters, 0);
    let b = litters::groups::of_group(litters, 1);
    num::both(2 <= a, 2 <= b)
}

#[tactic(auto, unfolding(crate::specs::Request::admitted_of))]
pub fn admitted(r: Request, litters: &[u32]) -> bool
    ensures { result ≡ admitted_of r litters.now }
{
    let a = num::both(r.mean.are_means(), r.sd.are_sds());
    let b = valid_controls(r);
    let c = litters::valid::valid_litters(litters);
    let d = two_each(litters);
    num::both(a, num::both(b, num::both(c, d)))
}

pub fn start(r: Request) -> [f64; 4]
    ensures { result ≡ start_of r }
{
    let m = r.mean;
    let s = r.sd;
    let c = num::powi(s.start[0], 2);
    let d = num::powi(s.start[1], 2);
    [m.start[0], m.start[1], c, d]
}

pub fn low(r: Request) -> [f64; 4]
    ensures { result ≡ low_of r }
{
    let m = r.mean;
    let s = r.sd;
    [m.low[0], m.low[1], s.low[0] * s.low[0], s.low[1] * s.low[1]]
}

pub fn high(r: Request) -> [f64; 4]
    ensures { result ≡ high_of r }
{
    let m = r.mean;
    let s = r.sd;
    [
        m.high[0],
        m.high[1],
        s.high[0] * s.high[0],
        s.high[1] * s.high[1],
    ]
}
