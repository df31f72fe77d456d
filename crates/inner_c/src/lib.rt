// The inner functions for comparisons from outside, in a static library.
#![tactic(auto)]

ghost use Rattle.std.specs.Prelude.{◌≡◌, ◌<◌, ◌≤◌, length, get_or};
ghost use Rattle.legendre.specs.Legendre.{legendre_of};
ghost use Rattle.tail.specs.Tail.{tail_bound_of};
ghost use Rattle.row.specs.Share.{row_used};

// Two numbers: the logarithm and the ratio.
#[unsafe(no_mangle)]
pub extern "C" fn inner_normal(x: f64, out: &mut [f64]) -> u64
    ensures short { length out.old < 2 → result ≡ 1 }
    ensures fits { 2 ≤ length out.old → result ≡ 0 }
{
    inner::inner_normal(x, out)
}

#[unsafe(no_mangle)]
pub extern "C" fn inner_mills(x: f64, r: f64, out: &mut [f64]) -> u64
    ensures short { length out.old < 4 → result ≡ 1 }
    ensures fits { 4 ≤ length out.old → result ≡ 0 }
{
    inner::inner_mills(x, r, out)
}

// Nine numbers: the logarithm, the score, the curvature, six moments.
#[unsafe(no_mangle)]
pub extern "C" fn inner_conditional(eta: f64, successes: u32, total: u32, out: &mut [f64]) -> u64
    ensures short { length out.old < 9 → result ≡ 1 }
    ensures fits { 9 ≤ length out.old → result ≡ 0 }
{
    inner::inner_conditional(eta, successes, total, out)
}

// Sixteen nodes, each with its weight after it.
#[unsafe(no_mangle)]
pub extern "C" fn inner_legendre(out: &mut [f64]) -> u64
    ensures short { length out.old < 32 → result ≡ 1 }
    ensures fits { 32 ≤ length out.old → result ≡ 0 }
{
    inner::inner_legendre(out)
}

#[unsafe(no_mangle)]
pub extern "C" fn inner_tail_bound(relative: f64, slope: f64, eta: f64, sd: f64, total: u32) -> f64
    ensures { result ≡ tail_bound_of relative slope eta sd total }
{
    inner::inner_tail_bound(relative, slope, eta, sd, total)
}

// Eight numbers: the value, the gradient, the Hessian by rows, the refinement. Three counts: the ending's number, its reason, the evaluations.
#[unsafe(no_mangle)]
pub extern "C" fn inner_row(
    mean: f64,
    variance: f64,
    successes: u32,
    total: u32,
    limit: u64,
    out: &mut [f64],
    counts: &mut [u64],
) -> u64
    ensures short_numbers { length out.old < 8 → result ≡ 1 }
    ensures short_counts { length counts.old < 3 → result ≡ 1 }
    ensures fits { 8 ≤ length out.old → 3 ≤ length counts.old → result ≡ 0 }
    ensures count { 8 ≤ length out.old → 3 ≤ length counts.old → get_or counts.new 2 0 ≡ row_used 0 successes total legendre_of mean variance (record { 0 = limit }) }
{
    inner::inner_row(mean, variance, successes, total, limit, out, counts)
}

// Twenty-two numbers: the value, the gradient, the Hessian by rows, the refinement. Three counts: the ending's number, its reason, the evaluations.
#[unsafe(no_mangle)]
pub extern "C" fn inner_objective(
    x0: f64,
    x1: f64,
    x2: f64,
    x3: f64,
    litters: &[u32],
    limit: u64,
    out: &mut [f64],
    counts: &mut [u64],
) -> u64
    ensures short_numbers { length out.old < 22 → result ≡ 1 }
    ensures short_counts { length counts.old < 3 → result ≡ 1 }
    ensures fits { 22 ≤ length out.old → 3 ≤ length counts.old → result ≡ 0 }
{
    inner::inner_objective(x0, x1, x2, x3, litters, limit, out, counts)
}

// What the objective makes of that sum.
#[unsafe(no_mangle)]
pub extern "C" fn inner_total(v: &[f64], used: u64, out: &mut [f64], counts: &mut [u64]) -> u64
    ensures short_numbers { length out.old < 22 → result ≡ 1 }
    ensures short_counts { length counts.old < 3 → result ≡ 1 }
    ensures fits { 22 ≤ length out.old → 3 ≤ length counts.old → result ≡ 0 }
{
    inner::inner_total(v, used, out, counts)
}

// Two numbers: the bits of the f64 that a text begins with, in either spelling, and the place where the text goes on. The status is 2 where it begins with none.
#[unsafe(no_mangle)]
pub extern "C" fn inner_value(text: &[u8], out: &mut [u64]) -> u64
    ensures { length out.old < 2 → result ≡ 1 }
{
    inner::inner_value(text, out)
}
