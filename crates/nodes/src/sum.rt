// The sums of a panel, one node added after another.
ghost use Rattle.std.specs.Prelude.{◌≡◌};
ghost use Rattle.nodes.specs.Node.{added_of};
ghost use Rattle.nodes.specs.Stages.{summed_of};

use conditionals::Moments;
use legendre::Pair;

pub fn added(sum: [f64; 6], weight: f64, moments: [f64; 6]) -> [f64; 6]
    ensures { result ≡ added_of sum weight moments }
{
    [
        sum[0] + weight * moments[0],
        sum[1] + weight * moments[1],
        sum[2] + weight * moments[2],
        sum[3] + weight * moments[3],
        sum[4] + weight * moments[4],
        sum[5] + weight * moments[5],
    ]
}

// All sixteen in order; e is the integrand of each, as a share of that at the mode.
pub fn summed(width: f64, rule: [Pair; 16], e: [f64; 16], m: Moments, sum: [f64; 6]) -> [f64; 6]
    ensures { result ≡ summed_of width rule e m sum }
{
    // By index: four arrays and the rule are read at each place, and a zip of six would be no plainer.
    let mut s = sum;
    for i in 0..16usize {
        let moments = [
            1.0,
            m.first[i],
            0.5 * m.second[i],
            m.second[i],
            m.third[i],
            m.fourth[i],
        ];
        let t = added(s, 0.5 * width * rule[i].w * e[i], moments);
        s = t;
    }
    s
}
