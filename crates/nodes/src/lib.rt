// A panel's sixteen nodes, each stage for all of them, then the sixteen additions in order.
#![tactic(auto)]

pub mod stages;
pub mod sum;

ghost use Rattle.std.specs.Prelude.{◌≡◌};
ghost use Rattle.nodes.specs.Nodes.{sixteen_of};

use legendre::Pair;
use posterior::integrand::Posterior;

// No evaluation is counted here: the caller has seen that the limit covers all sixteen.
#[tactic(auto, using(crate::specs::Batch::batch))]
pub fn sixteen(
    p: Posterior,
    rule: [Pair; 16],
    top: f64,
    center: f64,
    width: f64,
    sum: [f64; 6],
) -> [f64; 6]
    ensures { result ≡ sixteen_of p rule top center width sum }
{
    let z = stages::places(center, width, rule);
    let x = stages::etas(p.mean, p.sd, z);
    let m = conditionals::conditionals(x, p.successes, p.total);
    let log = m.log;
    let h = stages::heights(log, z, top);
    let e = lanes::exps(h);
    sum::summed(width, rule, e, m, sum)
}
