// The descent of the Gamma-Poisson objective. The pair (1, 3) of its coordinates moves.
ghost use Rattle.std.specs.Prelude.{◌≡◌, ◌≤◌, ◌*◌, length};
ghost use Rattle.exposure.specs.Rows.{events_of};
ghost use Rattle.counts_fit.specs.Among.{answered_of, answer_at, run_of};
ghost use Rattle.counts_fit.specs.Valued.{Ready, Known, counts_laws};

use counts::Refused;
use counts::sum::Value;
use course::{Answer, Course, NoValue, Objective};
use stepper::Plan;

#[derive(Clone, Copy)]
struct Rows<'a> {
    counts: &'a [u32],
    exposures: &'a [f64],
}

fn answered(r: Result<Value, Refused>) -> Answer
    ensures { result ≡ answered_of r }
{
    match r {
        Ok(o) => Answer {
            used: o.passes.0,
            value: Ok(planar::widened(o.v)),
        },
        Err(e) => {
            let none = NoValue {
                refusal: e.refusal,
                part: None,
            };
            Answer {
                used: e.passes.0,
                value: Err(none),
            }
        }
    }
}

// What the passes of all evaluations come to was checked, so no limit is met.
impl Objective for Rows<'_> {
    ghost answer = { λ o l x. answer_at o.counts.now o.exposures.now l x };

    ghost ready = { λ o l. Ready o.counts.now o.exposures.now l };

    ghost known = { λ o p l s u. Known o.counts.now o.exposures.now p l s u };

    ghost laws = { counts_laws (λ o. o.counts.now) (λ o. o.exposures.now) };

    fn evaluate(&self, x: [f64; 4], limit: u64) -> Answer {
        answered(counts::sum::evaluated(x[1], x[3], self.counts, self.exposures))
    }
}

pub fn run(counts: &[u32], exposures: &[f64], p: Plan, x: [f64; 4]) -> Course
    requires few { length counts.now ≤ 4096 }
    requires paired { length counts.now ≤ length exposures.now }
    requires some { 1 ≤ p.most.0 }
    requires within { p.most.0 * events_of counts.now ≤ 20000000 }
    ensures { result ≡ run_of counts.now exposures.now p x }
{
    let o = Rows { counts, exposures };
    course::run(&o, p, 20000000, x, 0)
}
