// The normal distribution at sixteen places, from its values there: logarithms, ratios, and the far tail where one lies in it.
ghost use Rattle.std.specs.Prelude.{◌≡◌};
ghost use Rattle.lanes.specs.Lanes.{erfcs_of};
ghost use Rattle.conditionals.specs.Normals.{across_of, turned_of, sizes_of, halves_of, cdfs_of, gaps_of, normals_of};

use std::array;

const SQRT_2: f64 = 1.4142135623730951;

#[derive(Clone, Copy)]
pub struct Ratios {
    pub log: [f64; 16],
    pub mills: [f64; 16],
}

// The distribution at sixteen places, and across zero from each.
#[derive(Clone, Copy)]
pub struct Pairs {
    pub at: [f64; 16],
    pub across: [f64; 16],
}

pub fn across(x: [f64; 16]) -> [f64; 16]
    ensures { result ≡ across_of x }
{
    array::from_fn(|i| -x[i])
}

// Where erfc is asked for.
fn turned(x: [f64; 16]) -> [f64; 16]
    ensures { result ≡ turned_of x }
{
    array::from_fn(|i| -x[i] / SQRT_2)
}

fn sizes(t: [f64; 16]) -> [f64; 16]
    ensures { result ≡ sizes_of t }
{
    array::from_fn(|i| normal::twins::size(t[i]))
}

// p is erfc of each size.
fn halves(t: [f64; 16], p: [f64; 16]) -> Pairs
    requires { p ≡ erfcs_of (sizes_of t) }
    ensures { result ≡ halves_of t }
{
    // One loop, since both come of one call.
    let mut at = [0.0; 16];
    let mut across = [0.0; 16];
    for i in 0..16usize {
        let e = normal::twins::erfc_with(t[i], p[i]);
        at[i] = 0.5 * e.at;
        across[i] = 0.5 * e.across;
    }
    Pairs { at, across }
}

#[tactic(auto, using(crate::proofs::NormalsLaws::sized, crate::proofs::NormalsLaws::by_halves))]
pub fn cdfs(x: [f64; 16]) -> Pairs
    ensures { result ≡ cdfs_of x }
{
    let t = turned(x);
    let p = lanes::erfcs(sizes(t));
    halves(t, p)
}

fn gaps(x: [f64; 16], log: [f64; 16]) -> [f64; 16]
    ensures { result ≡ gaps_of x log }
{
    array::from_fn(|i| normal::mills::log_phi(x[i]) - log[i])
}

#[tactic(auto, using(num::specs::Choose::choose, crate::proofs::NormalsLaws::by_tails, crate::proofs::NormalsLaws::by_centres))]
pub fn normals(x: [f64; 16], cdf: [f64; 16]) -> Ratios
    ensures { result ≡ normals_of x cdf }
{
    let log = lanes::logs(cdf);
    let mills = lanes::exps(gaps(x, log));
    let n = Ratios { log, mills };
    if crate::tails::beyond(x) {
        return crate::tails::tails(x, n);
    }
    n
}
