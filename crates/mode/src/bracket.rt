// The mode's bracket: each end doubled outward until the density rises from there, at most sixteen times, then both ends checked.
ghost use Rattle.work.specs.Answer.{Did};
ghost use Rattle.posterior.specs.Integrand.{at, here};
ghost use Rattle.posterior.specs.Side.{first_of};
ghost use Rattle.mode.specs.Bracket.{doubled, ends, check_ends};

use posterior::integrand::Posterior;
use posterior::side::{Ends, Side};
use work::{Meter, Refusal};

// One end.
fn double(p: Posterior, side: Side, meter: &mut Meter) -> Result<f64, Refusal>
    ensures { Did at (doubled (here p) side 16 (first_of side)) meter.old result meter.new }
{
    let mut z = side.first();
    for _ in 0..16u64 {
        let v = p.evaluate(z, meter)?;
        if side.rises(v.slope) {
            return Ok(z);
        }
        z = z * 2.0;
    }
    Ok(z)
}

pub fn bracket(p: Posterior, meter: &mut Meter) -> Result<Ends, Refusal>
    ensures { Did at (ends (here p)) meter.old result meter.new }
{
    let left = double(p, Side::Left, meter)?;
    let right = double(p, Side::Right, meter)?;
    Ok(Ends { left, right })
}

pub fn check(p: Posterior, e: Ends, meter: &mut Meter) -> Result<Ends, Refusal>
    ensures { Did at (check_ends (here p) e) meter.old result meter.new }
{
    let low = p.evaluate(e.left, meter)?;
    if Side::Left.flat(low.slope) {
        return Err(Refusal::Domain(1));
    }
    let high = p.evaluate(e.right, meter)?;
    if Side::Right.flat(high.slope) {
        return Err(Refusal::Domain(1));
    }
    Ok(e)
}
