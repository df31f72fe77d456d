// One rule's sums: sixteen nodes a panel, the panels of a side in order, the left side of the mode first.
#![tactic(auto)]

ghost use Rattle.std.specs.Prelude.{◌≡◌, ◌-◌, leb};
ghost use Rattle.work.specs.Answer.{Did};
ghost use Rattle.posterior.specs.Integrand.{at, here};
ghost use Rattle.panel.specs.Panel.{no_sums, center_of, nodes, panels as panels_of, sides as sides_of};

use legendre::Pair;
use posterior::integrand::Posterior;
use work::{Meter, Refusal};

// The interval of the integral, with the mode in it and the logarithm there.
#[derive(Clone, Copy)]
pub struct Hump {
    pub left: f64,
    pub mode: f64,
    pub right: f64,
    pub log: f64,
}

// What is summed: a litter's posterior at a rule's nodes, scaled by the logarithm at the mode.
#[derive(Clone, Copy)]
struct Summand {
    p: Posterior,
    rule: [Pair; 16],
    top: f64,
}

// Whether the limit leaves sixteen evaluations.
fn sixteen_left(used: u64, limit: u64) -> bool
    ensures { result ≡ leb 16 (limit - used) }
{
    16 <= limit.saturating_sub(used)
}

// Where the i-th panel of a side lies that starts at a.
fn center(a: f64, width: f64, i: u32) -> f64
    ensures { result ≡ center_of a width i }
{
    a + (i as f64 + 0.5) * width
}

impl Summand {
    // The limit is tested before each node.
    fn one_by_one(
        &self,
        center: f64,
        width: f64,
        sum: [f64; 6],
        meter: &mut Meter,
    ) -> Result<[f64; 6], Refusal>
        ensures { Did at (nodes (here self.now.p) self.now.rule self.now.top center width 16 0 sum) meter.old result meter.new }
    {
        let mut s = sum;
        for n in &self.rule {
            let v = self.p.evaluate(center + 0.5 * width * n.x, meter)?;
            let e = elementary::exp::exp(v.log - self.top);
            // By a local: a call's array laid straight into what the loop carries gets no proof (tried).
            let t = nodes::sum::added(s, 0.5 * width * n.w * e, v.moments);
            s = t;
        }
        Ok(s)
    }

    // The nodes side by side where the limit covers them all, and then it is tested once.
    fn panel(
        &self,
        center: f64,
        width: f64,
        sum: [f64; 6],
        meter: &mut Meter,
    ) -> Result<[f64; 6], Refusal>
        ensures { Did at (nodes (here self.now.p) self.now.rule self.now.top center width 16 0 sum) meter.old result meter.new }
    {
        let limit = meter.limit.0;
        if sixteen_left(meter.used.0, limit) {
            meter.used.0 += 16;
            return Ok(nodes::sixteen(self.p, self.rule, self.top, center, width, sum));
        }
        self.one_by_one(center, width, sum, meter)
    }

    // The panels of the side that starts at a, from the panel `first` on.
    fn side(
        &self,
        a: f64,
        width: f64,
        first: u32,
        panels: u32,
        sum: [f64; 6],
        meter: &mut Meter,
    ) -> Result<[f64; 6], Refusal>
        ensures { Did at (panels_of (here self.now.p) self.now.rule self.now.top a width (panels - first) first sum) meter.old result meter.new }
    {
        let mut s = sum;
        for i in first..panels {
            s = self.panel(center(a, width, i), width, s, meter)?;
        }
        Ok(s)
    }

    // A limit that ends within the first panel is met one by one, before the work that the stages of a side share.
    fn left_side(
        &self,
        a: f64,
        width: f64,
        panels: u32,
        meter: &mut Meter,
    ) -> Result<[f64; 6], Refusal>
        ensures { Did at (panels_of (here self.now.p) self.now.rule self.now.top a width panels 0 no_sums) meter.old result meter.new }
    {
        if 0 < panels {
            if !sixteen_left(meter.used.0, meter.limit.0) {
                let s = self.one_by_one(center(a, width, 0), width, [0.0; 6], meter)?;
                return self.side(a, width, 1, panels, s, meter);
            }
        }
        self.side(a, width, 0, panels, [0.0; 6], meter)
    }
}

pub fn sides(
    p: Posterior,
    rule: &[Pair; 16],
    h: Hump,
    panels: u32,
    meter: &mut Meter,
) -> Result<[f64; 6], Refusal>
    ensures { Did at (sides_of (here p) rule.now h panels) meter.old result meter.new }
{
    let s = Summand {
        p,
        rule: *rule,
        top: h.log,
    };
    let left = s.left_side(h.left, (h.mode - h.left) / panels as f64, panels, meter)?;
    s.side(
        h.mode,
        (h.right - h.mode) / panels as f64,
        0,
        panels,
        left,
        meter,
    )
}
