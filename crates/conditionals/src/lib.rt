// A litter's conditional likelihood at sixteen places, each stage for all of them.
#![tactic(auto)]

mod normals;
mod tails;

ghost use Rattle.std.specs.Prelude.{◌≡◌};
ghost use Rattle.conditionals.specs.Conditionals.{share_of, shares_of, conditionals_of};

use crate::normals::Ratios;

// Of each place the logarithm and four of the moments; the first moment is 1 and the third half the fourth.
#[derive(Clone, Copy)]
pub struct Moments {
    pub log: [f64; 16],
    pub first: [f64; 16],
    pub second: [f64; 16],
    pub third: [f64; 16],
    pub fourth: [f64; 16],
}

// At one place: y successes and f failures, with the logarithms and the ratios at x and across zero.
fn share(x: f64, y: f64, f: f64, lp: f64, rp: f64, lm: f64, rm: f64) -> normal::ConditionalLog
    ensures { result ≡ share_of x y f lp rp lm rm }
{
    let p = normal::moments::mills_derivatives(x, rp);
    let q = normal::moments::mills_derivatives(-x, rm);
    normal::moments::combined(y, f, lp, lm, p, q)
}

fn shares(x: [f64; 16], y: f64, f: f64, low: Ratios, high: Ratios) -> Moments
    ensures { result ≡ shares_of x y f low high }
{
    // One loop, since each place's five numbers come of one call: five `from_fn` would call it five times.
    let mut log = [0.0; 16];
    let mut first = [0.0; 16];
    let mut second = [0.0; 16];
    let mut third = [0.0; 16];
    let mut fourth = [0.0; 16];
    for i in 0..16usize {
        let c = share(
            x[i],
            y,
            f,
            low.log[i],
            low.mills[i],
            high.log[i],
            high.mills[i],
        );
        let m = c.moments;
        log[i] = c.log;
        first[i] = m[1];
        second[i] = m[3];
        third[i] = m[4];
        fourth[i] = m[5];
    }
    Moments {
        log,
        first,
        second,
        third,
        fourth,
    }
}

#[tactic(auto, using(crate::proofs::Laws::by_stages))]
pub fn conditionals(x: [f64; 16], successes: u32, total: u32) -> Moments
    ensures { result ≡ conditionals_of x successes total }
{
    let e = crate::normals::cdfs(x);
    let at = e.at;
    let across = e.across;
    let low = crate::normals::normals(x, at);
    let high = crate::normals::normals(crate::normals::across(x), across);
    let y = successes as f64;
    let f = normal::failures(successes, total) as f64;
    shares(x, y, f, low, high)
}
