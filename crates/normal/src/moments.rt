// A litter's likelihood given its place eta on the probit scale: its logarithm, and the moments of its derivatives to the fourth.
ghost use Rattle.std.specs.Prelude.{◌≡◌, ◌-◌};
ghost use Rattle.num.specs.Helpers.{powi_of};
ghost use Rattle.normal.specs.Conditional.{mills_derivatives_of, combined_of, conditional_of};

#[derive(Clone, Copy)]
pub struct ConditionalLog {
    pub log: f64,
    pub score: f64,
    pub curvature: f64,
    pub moments: [f64; 6],
}

// The first four derivatives of the logarithm, from the ratio r at x.
pub fn mills_derivatives(x: f64, r: f64) -> [f64; 4]
    ensures { result ≡ mills_derivatives_of x r }
{
    let first = -r * (x + r);
    let a = (x + r) * (x + 2.0 * r) - 1.0;
    let second = r * a;
    let third = first * a + r * ((1.0 + first) * (x + 2.0 * r) + (x + r) * (1.0 + 2.0 * first));
    [r, first, second, third]
}

// More successes than pups count as no failure: a caller owes nothing.
pub fn failures(successes: u32, total: u32) -> u32
    ensures { result ≡ total - successes }
{
    if successes <= total {
        total - successes
    } else {
        0
    }
}

// s to the fourth power, as `powi` multiplies.
#[tactic(auto, unfolding(num::specs::Helpers::powi_of, num::specs::Helpers::powi_from))]
fn fourth(s: f64) -> f64
    ensures { result ≡ powi_of s 4 }
{
    let square = s * s;
    1.0 * (square * square)
}

// y successes and f failures, with the logarithms lp and lm and the derivatives p and q of each.
#[tactic(auto, unfolding(crate::specs::Conditional::combined_of))]
pub fn combined(y: f64, f: f64, lp: f64, lm: f64, p: [f64; 4], q: [f64; 4]) -> ConditionalLog
    ensures { result ≡ combined_of y f lp lm p q }
{
    let s = y * p[0] - f * q[0];
    let h = y * p[1] + f * q[1];
    let t = y * p[2] - f * q[2];
    let u = y * p[3] + f * q[3];
    let a = s * s + h;
    let b = s * s * s + 3.0 * s * h + t;
    let c = fourth(s) + 6.0 * s * s * h + 3.0 * h * h + 4.0 * s * t + u;
    ConditionalLog {
        log: y * lp + f * lm,
        score: s,
        curvature: h,
        moments: [1.0, s, 0.5 * a, a, 0.5 * b, 0.25 * c],
    }
}

#[tactic(auto, unfolding(crate::specs::Conditional::conditional_of))]
pub fn conditional(eta: f64, successes: u32, total: u32) -> ConditionalLog
    ensures { result ≡ conditional_of eta successes total }
{
    let n = crate::twins::at_both(eta);
    let p = mills_derivatives(eta, n.low.mills);
    let q = mills_derivatives(-eta, n.high.mills);
    let y = successes as f64;
    let f = failures(successes, total) as f64;
    combined(y, f, n.low.log, n.high.log, p, q)
}
