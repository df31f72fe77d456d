// A descent that is driven to its end: ask the stepper for a point, have the objective evaluated there, tell it the value.
#![tactic(auto)]

ghost use Rattle.std.specs.Prelude.{◌≡◌, List, ℕ, Float};
ghost use Rattle.stepper.specs.Machine.{begin_of};
ghost use Rattle.course.specs.declared.Answer.{Answer};
ghost use Rattle.stepper.specs.declared.Plan.{Plan};
ghost use Rattle.stepper.specs.declared.Stepper.{Stepper};
ghost use Rattle.course.specs.Course.{stopped_of, refused_of};
ghost use Rattle.course.specs.Drives.{Lawful, course_by};

use descent::Status;
use stepper::{Phase, Plan, Stepper};
use trial::watch::Watch;
use value::Totals;
use work::{FitEvaluations, Iterations, Refusal};

// Why there is no value at a point, and at which part of the objective, counted from 1, where that is told.
#[derive(Clone, Copy)]
pub struct NoValue {
    pub refusal: Refusal,
    pub part: Option<u64>,
}

// What an objective answers at a point, and what it used for it, in its own count.
#[derive(Clone, Copy)]
pub struct Answer {
    pub used: u64,
    pub value: Result<Totals, NoValue>,
}

pub trait Objective {
    // Its answer, under a limit, at a point.
    ghost answer: { Self → ℕ → List Float → Answer };

    // What an evaluation asks of the limit.
    ghost ready: { Self → ℕ → Type 0 };

    // What is known between two evaluations: of the plan, the limit, the state and the count so far.
    ghost known: { Self → Plan → ℕ → Stepper → ℕ → Type 0 };

    fn evaluate(&self, x: [f64; 4], limit: u64) -> Answer
        requires { ready self.now limit }
        ensures { result ≡ answer self.now limit x };

    ghost laws: { Lawful answer ready known };
}

// Where a descent stopped.
#[derive(Clone, Copy)]
pub struct Stopped {
    pub status: Status,
    pub x: [f64; 4],
    pub v: Totals,
    pub evaluations: FitEvaluations,
    pub iterations: Iterations,
}

// Why a descent has no end. `trial` says that a trial was refused, and not the start.
#[derive(Clone, Copy)]
pub struct Refused {
    pub refusal: Refusal,
    pub part: Option<u64>,
    pub trial: bool,
}

// `used` counts what the objective counts; the watch counts the trials before the end.
#[derive(Clone, Copy)]
pub struct Course {
    pub used: u64,
    pub watch: Watch,
    pub end: Result<Stopped, Refused>,
}

impl Course {
    fn stopped(status: Status, used: u64, s: Stepper) -> Course
        ensures { result ≡ stopped_of status used s }
    {
        let x = s.x;
        Course {
            used,
            watch: s.watch,
            end: Ok(Stopped {
                status,
                x,
                v: s.v,
                evaluations: s.evaluations,
                iterations: s.iterations,
            }),
        }
    }

    fn refused(e: NoValue, used: u64, s: Stepper) -> Course
        ensures { result ≡ refused_of e used s }
    {
        Course {
            used,
            watch: s.watch,
            end: Err(Refused {
                refusal: e.refusal,
                part: e.part,
                trial: matches!(s.phase, Phase::AtTrial),
            }),
        }
    }
}

// The descent of an objective from x, under a limit, with the trial of the number wanted watched.
pub fn run<O: Objective>(o: &O, p: Plan, limit: u64, x: [f64; 4], wanted: u64) -> Course
    requires { O.known o.now p limit (begin_of x wanted) 0 }
    ensures { result ≡ course_by (O.answer o.now) limit wanted p x }
{
    let mut s = Stepper::begin(x, wanted);
    let mut used: u64 = 0;
    loop {
        if let Phase::Over(status) = s.phase {
            return Course::stopped(status, used, s);
        }
        let a = o.evaluate(s.next, limit - used);
        let spent = used + a.used;
        match a.value {
            Ok(v) => s = s.tell(p, v),
            Err(e) => return Course::refused(e, spent, s),
        }
        used = spent;
    }
}
