// The mode of a litter's posterior, and how far out its integral is taken.
ghost use Rattle.work.specs.Answer.{Did};
ghost use Rattle.posterior.specs.Integrand.{at, here};
ghost use Rattle.row.specs.Peak.{peaked, spanned, scale_of};

use mode::Mode;
use posterior::integrand::Posterior;
use posterior::side::Ends;
use tail::Hill;
use work::{Meter, Refusal};

pub fn located(p: Posterior, meter: &mut Meter) -> Result<Mode, Refusal>
    ensures { Did at (peaked (here p)) meter.old result meter.new }
{
    let bracket = mode::bracket::bracket(p, meter)?;
    let within = mode::bracket::check(p, bracket, meter)?;
    mode::find(p, within, meter)
}

pub fn limits(p: Posterior, m: Mode, meter: &mut Meter) -> Result<Ends, Refusal>
    ensures { Did at (spanned (here p) p m.at m.log (scale_of m.curvature)) meter.old result meter.new }
{
    let delta = 1.0 / root::sqrt(m.curvature);
    let goal = tail::tail_goal(p, m.at, m.log, delta, meter)?;
    let h = Hill {
        p,
        mode: m.at,
        log: m.log,
        delta,
        goal,
    };
    h.bounded(p, meter)
}
