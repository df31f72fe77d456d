// One litter's negative log-likelihood with its gradient and Hessian in mean and variance.
ghost use Rattle.std.specs.Prelude.{◌≡◌};
ghost use Rattle.work.specs.Work.{eval};
ghost use Rattle.work.specs.Answer.{Did};
ghost use Rattle.posterior.specs.Integrand.{alone as alone_at, at, here};
ghost use Rattle.row.specs.Share.{gradient_of, hessian_of, by_total_of, spread_share, alone_work, spread as spread_work, share};

use legendre::Pair;
use panel::Hump;
use posterior::integrand::Posterior;
use quadrature::Integral;
use work::{Meter, Refusal};

// A litter's share of the objective. The Hessian stands by rows.
#[derive(Clone, Copy)]
pub struct Share {
    pub nll: f64,
    pub gradient: [f64; 2],
    pub hessian: [f64; 4],
    pub refinement: f64,
}

fn gradient(m: [f64; 6]) -> [f64; 2]
    ensures { result ≡ gradient_of m }
{
    [-m[1], -m[2]]
}

fn hessian(m: [f64; 6]) -> [f64; 4]
    ensures { result ≡ hessian_of m }
{
    let mixed = m[4] - m[1] * m[2];
    [-(m[3] - m[1] * m[1]), -mixed, -mixed, -(m[5] - m[2] * m[2])]
}

fn by_total(s: [f64; 6]) -> [f64; 6]
    ensures { result ≡ by_total_of s }
{
    [
        s[0] / s[0],
        s[1] / s[0],
        s[2] / s[0],
        s[3] / s[0],
        s[4] / s[0],
        s[5] / s[0],
    ]
}

// At variance 0 one evaluation is all there is. The litter's position is only for the definition's list.
fn alone(
    litter: u64,
    successes: u32,
    total: u32,
    mean: f64,
    choose: f64,
    meter: &mut Meter,
) -> Result<Share, Refusal>
    ensures { Did at (alone_work litter successes total mean choose) meter.old result meter.new }
{
    meter.count()?;
    let c = normal::conditional(mean, successes, total);
    let m = c.moments;
    Ok(Share {
        nll: -choose - c.log,
        gradient: gradient(m),
        hessian: hessian(m),
        refinement: 0.0,
    })
}

// The share by the integral.
fn summed(i: Integral, choose: f64, log: f64) -> Share
    ensures { result ≡ spread_share choose log i.sum i.refinement }
{
    let s = i.sum;
    let m = by_total(s);
    Share {
        nll: -choose - log - elementary::log::log(s[0]),
        gradient: gradient(m),
        hessian: hessian(m),
        refinement: i.refinement,
    }
}

fn spread(p: Posterior, rule: &[Pair; 16], choose: f64, meter: &mut Meter) -> Result<Share, Refusal>
    ensures { Did at (spread_work (here p) rule.now p choose) meter.old result meter.new }
{
    let m = crate::peak::located(p, meter)?;
    let ends = crate::peak::limits(p, m, meter)?;
    let h = Hump {
        left: ends.left,
        mode: m.at,
        right: ends.right,
        log: m.log,
    };
    let i = quadrature::integrated(p, rule, h, meter)?;
    Ok(summed(i, choose, h.log))
}

pub fn row_objective(
    litter: u64,
    successes: u32,
    total: u32,
    rule: &[Pair; 16],
    mean: f64,
    variance: f64,
    meter: &mut Meter,
) -> Result<Share, Refusal>
    ensures { Did at (share litter successes total rule.now mean variance) meter.old result meter.new }
{
    let choose = coefficient::coefficient(successes, total);
    if variance == 0.0 {
        return alone(litter, successes, total, mean, choose, meter);
    }
    let p = Posterior {
        litter,
        successes,
        total,
        mean,
        sd: root::sqrt(variance),
    };
    spread(p, rule, choose, meter)
}
