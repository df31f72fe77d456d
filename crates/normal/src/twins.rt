// The normal distribution at x and at -x at once: erfc(-t) is 2 - erfc(t), so one erfc serves both.
ghost use Rattle.std.specs.Prelude.{◌≡◌, true};
ghost use Rattle.std.specs.Float.Ieee.{neg};
ghost use Rattle.elementary.specs.Erfc.{erfc_pos_of};
ghost use Rattle.normal.specs.Twins.{size_of, serves_of, by_cdf_of, centres_of, HasErfcs, HasNormals};

use crate::mills::LogMills;

const SQRT_2: f64 = 1.4142135623730951;

#[derive(Clone, Copy)]
pub struct Twins {
    pub low: LogMills,
    pub high: LogMills,
}

// erfc at a number, and at the number across zero.
#[derive(Clone, Copy)]
pub struct Erfcs {
    pub at: f64,
    pub across: f64,
}

fn apart(x: f64) -> Erfcs
    ensures { HasErfcs x result }
{
    Erfcs {
        at: elementary::erfc::erfc(x),
        across: elementary::erfc::erfc(-x),
    }
}

// Whether erfc across zero from x serves x too: where x is below zero. There the tests of -x are never met; they spare
// a proof of what it is.
#[tactic(auto, unfolding(crate::specs::Twins::serves_of))]
fn serves(x: f64) -> bool
    ensures { result ≡ serves_of x }
{
    if -x < -6.0 {
        return false;
    }
    if -x < 0.0 {
        return false;
    }
    x < 0.0
}

fn below(x: f64) -> Erfcs
    ensures { HasErfcs x result }
{
    if serves(x) {
        return served(x, elementary::erfc::erfc_pos(-x));
    }
    apart(x)
}

#[tactic(auto, using(crate::proofs::TwinsLaws::back))]
fn erfc_at_both(x: f64) -> Erfcs
    ensures { HasErfcs x result }
{
    if x < 0.0 {
        return below(x);
    }
    let b = below(-x);
    Erfcs {
        at: b.across,
        across: b.at,
    }
}

// For many numbers at once, erfc is asked for elsewhere, at a number's size.
pub fn size(x: f64) -> f64
    ensures { result ≡ size_of x }
{
    if x < 0.0 { -x } else { x }
}

// p is erfc across zero from an x that it serves.
#[tactic(auto, using(crate::proofs::TwinsLaws::far_served, crate::proofs::TwinsLaws::near_served, crate::proofs::TwinsLaws::across_served))]
fn served(x: f64, p: f64) -> Erfcs
    requires serves { serves_of x ≡ true }
    requires across { p ≡ erfc_pos_of (neg x) }
    ensures { HasErfcs x result }
{
    if x < -6.0 {
        return Erfcs { at: 2.0, across: p };
    }
    Erfcs {
        at: 2.0 - p,
        across: p,
    }
}

// p is erfc across zero from x.
fn below_with(x: f64, p: f64) -> Erfcs
    requires { p ≡ erfc_pos_of (neg x) }
    ensures { HasErfcs x result }
{
    if serves(x) {
        return served(x, p);
    }
    apart(x)
}

// p is erfc of the size of x.
#[tactic(auto, using(crate::proofs::TwinsLaws::size_below, crate::proofs::TwinsLaws::size_above, crate::proofs::TwinsLaws::back))]
pub fn erfc_with(x: f64, p: f64) -> Erfcs
    requires { p ≡ erfc_pos_of (size_of x) }
    ensures { HasErfcs x result }
{
    if x < 0.0 {
        return below_with(x, p);
    }
    let b = below_with(-x, p);
    Erfcs {
        at: b.across,
        across: b.at,
    }
}

fn by_cdf(phi: f64, cdf: f64) -> LogMills
    ensures { result ≡ by_cdf_of phi cdf }
{
    let log = elementary::log::log(cdf);
    LogMills {
        log,
        mills: elementary::exp::exp(phi - log),
    }
}

#[tactic(auto, using(crate::proofs::TwinsLaws::centres_are))]
fn centres(x: f64) -> Twins
    ensures { result ≡ centres_of x }
{
    let e = erfc_at_both(-x / SQRT_2);
    let phi = crate::mills::log_phi(x);
    let low = by_cdf(phi, 0.5 * e.at);
    let high = by_cdf(phi, 0.5 * e.across);
    Twins { low, high }
}

fn far(x: f64) -> Twins
    ensures { HasNormals x result }
{
    let low = crate::mills::normal(x);
    let high = crate::mills::normal(-x);
    Twins { low, high }
}

#[tactic(auto, using(crate::proofs::TwinsLaws::low_centre, crate::proofs::TwinsLaws::high_centre))]
pub fn at_both(x: f64) -> Twins
    ensures { HasNormals x result }
{
    if x < -8.0 {
        return far(x);
    }
    if -x < -8.0 {
        return far(x);
    }
    centres(x)
}
