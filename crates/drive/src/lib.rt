// The descent of the probit-normal objective.
#![tactic(auto)]

ghost use Rattle.std.specs.Prelude.{◌≡◌};
ghost use Rattle.objective.specs.Named.{named_objective_of};
ghost use Rattle.drive.specs.Drive.{answered_of, drive_laws, run_of};

use course::{Answer, Course, NoValue, Objective};
use legendre::Pair;
use objective::sum::Named;
use stepper::Plan;
use work::QuadratureEvaluations;

// The litters, and the rule by which each is integrated.
#[derive(Clone, Copy)]
struct Litters<'a> {
    litters: &'a [u32],
    rule: [Pair; 16],
}

fn answered(r: Result<objective::Objective, Named>) -> Answer
    ensures { result ≡ answered_of r }
{
    match r {
        Ok(o) => Answer {
            used: o.used.0,
            value: Ok(o.v),
        },
        Err(n) => {
            let none = NoValue {
                refusal: n.refused.refusal,
                part: n.litter,
            };
            Answer {
                used: n.refused.used.0,
                value: Err(none),
            }
        }
    }
}

impl Objective for Litters<'_> {
    ghost answer = { λ o l x. answered_of (named_objective_of o.rule x o.litters.now (record { 0 = l })) };

    ghost ready = { λ o l. Unit {0} };

    ghost known = { λ o p l s u. Unit {0} };

    ghost laws = { drive_laws (λ o. o.rule) (λ o. o.litters.now) };

    fn evaluate(&self, x: [f64; 4], limit: u64) -> Answer {
        answered(objective::named_objective(
            self.rule,
            x,
            self.litters,
            QuadratureEvaluations(limit),
        ))
    }
}

pub fn run(
    litters: &[u32],
    rule: [Pair; 16],
    p: Plan,
    limit: u64,
    x: [f64; 4],
    wanted: u64,
) -> Course
    ensures { result ≡ run_of rule litters.now p limit wanted x }
{
    let o = Litters { litters, rule };
    course::run(&o, p, limit, x, wanted)
}
