// The posterior's mode: Newton's steps kept inside the bracket, at most a hundred, then one evaluation that has to confirm it.
#![tactic(auto)]

pub mod bracket;

ghost use Rattle.std.specs.Prelude.{◌≡◌};
ghost use Rattle.work.specs.Answer.{Did};
ghost use Rattle.posterior.specs.Integrand.{at, here};
ghost use Rattle.mode.specs.Mode.{allowed_of, narrowed_of, passes, confirmed, peak};

use posterior::integrand::Posterior;
use posterior::side::Ends;
use work::{Meter, Refusal};

// A bracket and a guess inside it.
#[derive(Clone, Copy)]
pub struct Guess {
    pub lo: f64,
    pub hi: f64,
    pub at: f64,
}

#[derive(Clone, Copy)]
pub struct Mode {
    pub at: f64,
    pub log: f64,
    pub curvature: f64,
}

// A slope at z counts as zero up to c times 1 + |z|.
fn allowed(c: f64, z: f64) -> f64
    ensures { result ≡ allowed_of c z }
{
    c * (1.0 + num::abs(z))
}

impl Guess {
    // The guess after this one, where the slope is d and the curvature k.
    fn narrowed(self, d: f64, k: f64) -> Guess
        ensures { result ≡ narrowed_of self d k }
    {
        let rising = d > 0.0;
        let lo = num::pick(rising, self.at, self.lo);
        let hi = num::pick(rising, self.hi, self.at);
        let next = self.at + d / k;
        let inside = num::both(next > lo, next < hi);
        let at = num::pick(inside, next, 0.5 * (lo + hi));
        Guess { lo, hi, at }
    }
}

fn steps(p: Posterior, start: Guess, meter: &mut Meter) -> Result<f64, Refusal>
    ensures { Did at (passes (here p) 100 start) meter.old result meter.new }
{
    let mut g = start;
    for _ in 0..100u64 {
        let v = p.evaluate(g.at, meter)?;
        if num::abs(v.slope) <= allowed(1e-12, g.at) {
            return Ok(g.at);
        }
        g = g.narrowed(v.slope, v.curvature);
    }
    Ok(g.at)
}

fn confirm(p: Posterior, z: f64, meter: &mut Meter) -> Result<Mode, Refusal>
    ensures { Did at (confirmed (here p) z) meter.old result meter.new }
{
    let v = p.evaluate(z, meter)?;
    if num::abs(v.slope) > allowed(1e-9, z) {
        return Err(Refusal::Domain(2));
    }
    if v.curvature <= 0.0 {
        return Err(Refusal::Domain(2));
    }
    Ok(Mode {
        at: z,
        log: v.log,
        curvature: v.curvature,
    })
}

pub fn find(p: Posterior, within: Ends, meter: &mut Meter) -> Result<Mode, Refusal>
    ensures { Did at (peak (here p) within.left within.right) meter.old result meter.new }
{
    let start = Guess {
        lo: within.left,
        hi: within.right,
        at: num::clamp(0.0, within.left, within.right),
    };
    let z = steps(p, start, meter)?;
    confirm(p, z, meter)
}
