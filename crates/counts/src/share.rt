// A row's share of the likelihood and its derivatives.
ghost use Rattle.std.specs.Prelude.{◌≡◌};
ghost use Rattle.counts.specs.Share.{no_rising, passed_of, softplus_of, odds_with_of, odds_at_of, added_of, with_row_of};
ghost use Rattle.counts.specs.Rungs.{Held};

use planar::Planar;

// Over the terms shape + k, for the k below a row's count: the sums of the logarithms, the reciprocals and their squares.
#[derive(Clone, Copy)]
pub struct Rising {
    pub log: f64,
    pub inverse: f64,
    pub squared: f64,
}

// The parts p and q of a row, and the negatives of their logarithms: p goes with `logq`, q with `logp`, as in the source.
#[derive(Clone, Copy)]
pub struct Odds {
    pub logq: f64,
    pub logp: f64,
    pub p: f64,
    pub q: f64,
}

pub fn nothing() -> Rising
    ensures { result ≡ no_rising }
{
    Rising {
        log: 0.0,
        inverse: 0.0,
        squared: 0.0,
    }
}

impl Rising {
    pub fn passed(self, term: f64) -> Rising
        ensures { result ≡ passed_of self term }
    {
        let reciprocal = 1.0 / term;
        Rising {
            log: self.log + elementary::log::log(term),
            inverse: self.inverse + reciprocal,
            squared: self.squared + reciprocal * reciprocal,
        }
    }
}

#[tactic(auto, unfolding(crate::specs::Share::softplus_of))]
fn softplus(x: f64) -> f64
    ensures { result ≡ softplus_of x }
{
    if 0.0 < x {
        return x + elementary::log1p::log1p(elementary::exp::exp(-x));
    }
    elementary::log1p::log1p(elementary::exp::exp(x))
}

fn odds_with(logq: f64, logp: f64) -> Odds
    ensures { result ≡ odds_with_of logq logp }
{
    Odds {
        logq,
        logp,
        p: elementary::exp::exp(-logq),
        q: elementary::exp::exp(-logp),
    }
}

// At the difference of the logarithms of exposure and rate. On either side of zero the two softplus have their logarithm in common: it is computed once.
#[tactic(auto, using(crate::proofs::Laws::odds_above, crate::proofs::Laws::odds_below), unfolding(crate::specs::Share::odds_at_of))]
fn odds_at(difference: f64) -> Odds
    ensures { result ≡ odds_at_of difference }
{
    if 0.0 < difference {
        let common = elementary::log1p::log1p(elementary::exp::exp(-difference));
        return odds_with(difference + common, common);
    }
    if difference < 0.0 {
        let common = elementary::log1p::log1p(elementary::exp::exp(difference));
        return odds_with(common, -difference + common);
    }
    odds_with(softplus(difference), softplus(-difference))
}

fn added(v: Planar, shape: f64, count: f64, factorial: f64, s: Rising, o: Odds) -> Planar
    ensures { result ≡ added_of v shape count factorial s o }
{
    let a = shape * (o.logq - s.inverse);
    Planar {
        nll: v.nll + (factorial - s.log + shape * o.logq + count * o.logp),
        x: v.x + a,
        y: v.y + (count * o.p - shape * o.q),
        xx: v.xx + (a + shape * shape * s.squared),
        xy: v.xy - shape * o.q,
        yy: v.yy + (shape + count) * o.p * o.q,
    }
}

// The source computes the exposure's logarithm and the factorial once a row; here they are computed at each evaluation, to the same bits.
#[tactic(auto, unfolding(crate::specs::Share::row_of, crate::specs::Share::with_row_of))]
pub fn with_row(
    v: Planar,
    shape: f64,
    y: f64,
    count: u32,
    exposure: f64,
    top: u32,
    rungs: &[Rising; 64],
) -> Planar
    requires { Held shape top rungs.now }
    ensures { result ≡ with_row_of v shape y count exposure }
{
    let difference = elementary::log::log(exposure) - y;
    let o = odds_at(difference);
    let s = crate::rungs::risen(shape, count, top, rungs);
    let factorial = factorial::log_factorial(count);
    added(v, shape, count as f64, factorial, s, o)
}
