// A second objective over the same stepper: a bowl in two coordinates, the pair (0, 2); the pair (1, 3) is held at zero.
#![tactic(auto)]

ghost use Rattle.std.specs.Prelude.{◌≡◌, None};
ghost use Rattle.second.specs.Second.{at, bowl_at, bowl_at_of, bowl_laws};
ghost use Rattle.course.specs.Drives.{course_of};

use course::{Answer, Course, NoValue, Objective};
use stepper::Plan;
use value::Totals;
use work::Refusal;

// At (x, y): the value is (x - 1)^2 + y^2; refused where it is not finite.
#[tactic(auto, unfolding(crate::specs::Second::height, crate::specs::Second::bowl_at_of))]
fn bowl_at(x: [f64; 4]) -> Result<Totals, NoValue>
    ensures { result ≡ bowl_at_of x }
{
    let a = x[0] - 1.0;
    let b = x[2];
    let nll = a * a + b * b;
    if !num::is_finite(nll) {
        return Err(NoValue {
            refusal: Refusal::Domain(6),
            part: None,
        });
    }
    Ok(Totals {
        nll,
        gradient: [2.0 * a, 0.0, 2.0 * b, 0.0],
        hessian: [
            2.0, 0.0, 0.0, 0.0, 0.0, 0.0, 0.0, 0.0, 0.0, 0.0, 2.0, 0.0, 0.0, 0.0, 0.0, 0.0,
        ],
        refinement: 0.0,
    })
}

#[derive(Clone, Copy)]
struct Bowl;

impl Objective for Bowl {
    ghost answer = { λ o l x. record { used = 0; value = bowl_at_of x } };

    ghost ready = { λ o l. Unit {0} };

    ghost known = { λ o p l s u. Unit {0} };

    ghost laws = { bowl_laws };

    fn evaluate(&self, x: [f64; 4], limit: u64) -> Answer {
        Answer {
            used: 0,
            value: bowl_at(x),
        }
    }
}

pub fn run(p: Plan, limit: u64, x: [f64; 4], wanted: u64) -> Course
    ensures { result ≡ course_of at bowl_at limit wanted p None x }
{
    course::run(&Bowl, p, limit, x, wanted)
}
