// The inner functions for comparisons from outside: numbers in, results into buffers that the caller lends.
// The status is 1 where a buffer is too short, and then nothing is written; else 0.
#![tactic(auto)]

ghost use Rattle.std.specs.Prelude.{◌≡◌, ◌<◌, ◌≤◌, length, get_or};
ghost use Rattle.legendre.specs.Legendre.{legendre_of};
ghost use Rattle.tail.specs.Tail.{tail_bound_of};
ghost use Rattle.row.specs.Share.{row_used};

use legendre::Pair;
use objective::{Objective, Refused};
use row::Share;
use value::Totals;
use work::{Meter, QuadratureEvaluations};

// Two numbers: the logarithm and the ratio.
pub fn inner_normal(x: f64, out: &mut [f64]) -> u64
    ensures short { length out.old < 2 → result ≡ 1 }
    ensures fits { 2 ≤ length out.old → result ≡ 0 }
{
    if out.len() < 2 {
        return 1;
    }
    let n = normal::normal(x);
    out[0] = n.log;
    out[1] = n.mills;
    0
}

pub fn inner_mills(x: f64, r: f64, out: &mut [f64]) -> u64
    ensures short { length out.old < 4 → result ≡ 1 }
    ensures fits { 4 ≤ length out.old → result ≡ 0 }
{
    if out.len() < 4 {
        return 1;
    }
    let m = normal::moments::mills_derivatives(x, r);
    store::put(&m, out);
    0
}

// Nine numbers: the logarithm, the score, the curvature, six moments.
pub fn inner_conditional(eta: f64, successes: u32, total: u32, out: &mut [f64]) -> u64
    ensures short { length out.old < 9 → result ≡ 1 }
    ensures fits { 9 ≤ length out.old → result ≡ 0 }
{
    if out.len() < 9 {
        return 1;
    }
    let c = normal::conditional(eta, successes, total);
    let m = c.moments;
    let v = [
        c.log,
        c.score,
        c.curvature,
        m[0],
        m[1],
        m[2],
        m[3],
        m[4],
        m[5],
    ];
    store::put(&v, out);
    0
}

// Each node, and its weight after it.
fn pairs(rule: &[Pair; 16], out: &mut [f64]) {
    for (n, o) in rule.iter().zip(out.chunks_exact_mut(2)) {
        o[0] = n.x;
        o[1] = n.w;
    }
}

// Sixteen nodes, each with its weight after it.
pub fn inner_legendre(out: &mut [f64]) -> u64
    ensures short { length out.old < 32 → result ≡ 1 }
    ensures fits { 32 ≤ length out.old → result ≡ 0 }
{
    if out.len() < 32 {
        return 1;
    }
    let rule = legendre::legendre();
    pairs(&rule, out);
    0
}

pub fn inner_tail_bound(relative: f64, slope: f64, eta: f64, sd: f64, total: u32) -> f64
    ensures { result ≡ tail_bound_of relative slope eta sd total }
{
    tail::tail_bound(relative, slope, eta, sd, total)
}

fn share_numbers(s: Share) -> [f64; 8] {
    let g = s.gradient;
    let h = s.hessian;
    [s.nll, g[0], g[1], h[0], h[1], h[2], h[3], s.refinement]
}

// Eight numbers: the value, the gradient, the Hessian by rows, the refinement. Three counts: the ending's number, its reason, the evaluations.
pub fn inner_row(
    mean: f64,
    variance: f64,
    successes: u32,
    total: u32,
    limit: u64,
    out: &mut [f64],
    counts: &mut [u64],
) -> u64
    ensures short_numbers { length out.old < 8 → result ≡ 1 }
    ensures short_counts { length counts.old < 3 → result ≡ 1 }
    ensures fits { 8 ≤ length out.old → 3 ≤ length counts.old → result ≡ 0 }
    ensures count { 8 ≤ length out.old → 3 ≤ length counts.old → get_or counts.new 2 0 ≡ row_used 0 successes total legendre_of mean variance (record { 0 = limit }) }
{
    if out.len() < 8 {
        return 1;
    }
    if counts.len() < 3 {
        return 1;
    }
    let rule = legendre::legendre();
    let mut m = Meter::of(QuadratureEvaluations(limit));
    let r = row::row_objective(0, successes, total, &rule, mean, variance, &mut m);
    let (v, ending) = match r {
        Ok(s) => (share_numbers(s), [0, 0]),
        Err(e) => ([0.0; 8], [e.number(), e.reason()]),
    };
    store::put(&v, out);
    store::put(&[ending[0], ending[1], m.used.0], counts);
    0
}

// Zeros stand for the numbers of a refusal.
fn put(o: Result<Objective, Refused>, out: &mut [f64], counts: &mut [u64])
    requires numbers { 22 ≤ length out.old }
    requires three { 3 ≤ length counts.old }
{
    let (v, c) = match o {
        Ok(o) => (buffers::objective_numbers(o), [0, 0, o.used.0]),
        Err(r) => (
            [0.0; 22],
            [r.refusal.number(), r.refusal.reason(), r.used.0],
        ),
    };
    store::put(&v, out);
    store::put(&c, counts);
}

// Twenty-two numbers: the value, the gradient, the Hessian by rows, the refinement. Three counts: the ending's number, its reason, the evaluations.
pub fn inner_objective(
    x0: f64,
    x1: f64,
    x2: f64,
    x3: f64,
    litters: &[u32],
    limit: u64,
    out: &mut [f64],
    counts: &mut [u64],
) -> u64
    ensures short_numbers { length out.old < 22 → result ≡ 1 }
    ensures short_counts { length counts.old < 3 → result ≡ 1 }
    ensures fits { 22 ≤ length out.old → 3 ≤ length counts.old → result ≡ 0 }
{
    if out.len() < 22 {
        return 1;
    }
    if counts.len() < 3 {
        return 1;
    }
    let rule = legendre::legendre();
    let o = objective::limited_objective(
        rule,
        [x0, x1, x2, x3],
        litters,
        QuadratureEvaluations(limit),
    );
    put(o, out, counts);
    0
}

// A sum of all litters, of its twenty-two numbers in the places where `inner_objective` puts them; zeros for fewer.
fn sum_in(v: &[f64]) -> Totals {
    if v.len() < 22 {
        return value::nothing();
    }
    Totals {
        nll: v[0],
        gradient: [v[1], v[2], v[3], v[4]],
        hessian: [
            v[5], v[6], v[7], v[8], v[9], v[10], v[11], v[12], v[13], v[14], v[15], v[16], v[17],
            v[18], v[19], v[20],
        ],
        refinement: v[21],
    }
}

// What the objective makes of that sum.
pub fn inner_total(v: &[f64], used: u64, out: &mut [f64], counts: &mut [u64]) -> u64
    ensures short_numbers { length out.old < 22 → result ≡ 1 }
    ensures short_counts { length counts.old < 3 → result ≡ 1 }
    ensures fits { 22 ≤ length out.old → 3 ≤ length counts.old → result ≡ 0 }
{
    if counts.len() < 3 {
        return 1;
    }
    if out.len() <= 21 {
        return 1;
    }
    put(objective::sum::ended(used, sum_in(v)), out, counts);
    0
}

// Two numbers: the bits of the f64 that a text begins with, in either spelling, and the place where the text goes on. The status is 2 where it begins with none.
pub fn inner_value(text: &[u8], out: &mut [u64]) -> u64
    ensures { length out.old < 2 → result ≡ 1 }
{
    if out.len() < 2 {
        return 1;
    }
    let Some((value, rest)) = template::value::read_value(text) else {
        return 2;
    };
    out[0] = value;
    out[1] = (text.len() - rest.len()) as u64;
    0
}
