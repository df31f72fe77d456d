// The far tail at sixteen places: the continued fraction of each, term by term for all of them.
ghost use Rattle.std.specs.Prelude.{◌≡◌};
ghost use Rattle.conditionals.specs.Tails.{deeper_of, fractions_of, beyond_of, tail_at_of, tails_of};

use crate::normals::Ratios;
use std::array;

// One term farther out: term / (t + f).
fn deeper(t: [f64; 16], f: [f64; 16], term: f64) -> [f64; 16]
    ensures { result ≡ deeper_of t f term }
{
    array::from_fn(|i| term / (t[i] + f[i]))
}

fn fractions(t: [f64; 16]) -> [f64; 16]
    ensures { result ≡ fractions_of t }
{
    let mut f = [0.0; 16];
    let mut k: u32 = 64;
    // Counted down, as the laws of the fraction go: by the terms still to come.
    while 0 < k {
        let g = deeper(t, f, k as f64);
        f = g;
        k -= 1;
    }
    f
}

// Whether a place lies so far out that the fraction serves it.
pub fn beyond(x: [f64; 16]) -> bool
    ensures { result ≡ beyond_of x }
{
    let mut any = false;
    for i in 0..16usize {
        any = num::either(any, x[i] < -8.0);
    }
    any
}

fn tail_at(x: f64, fraction: f64, log: f64, mills: f64) -> normal::LogMills
    ensures { result ≡ tail_at_of x fraction log mills }
{
    if x < -8.0 {
        let ratio = -x + fraction;
        return normal::LogMills {
            log: normal::mills::log_phi(x) - elementary::log::log(ratio),
            mills: ratio,
        };
    }
    normal::LogMills { log, mills }
}

pub fn tails(x: [f64; 16], n: Ratios) -> Ratios
    ensures { result ≡ tails_of x n }
{
    let f = fractions(crate::normals::across(x));
    // One loop, since both come of one call.
    let mut log = [0.0; 16];
    let mut mills = [0.0; 16];
    for i in 0..16usize {
        let t = tail_at(x[i], f[i], n.log[i], n.mills[i]);
        log[i] = t.log;
        mills[i] = t.mills;
    }
    Ratios { log, mills }
}
