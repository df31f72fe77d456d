// The descent, driven from outside: a state by value that awaits the objective's value at a point, or has stopped.
#![tactic(auto)]

ghost use Rattle.std.specs.Prelude.{◌≡◌};
ghost use Rattle.stepper.specs.Machine.{awaits_of, direction_at_of, one_more_of, begin_of, over_of, failed_of, line_of, halved_of, awaiting_of, offered_of, propose_of, arrive_of, tell_of};

use descent::{Status, Trial};
use step::Region;
use trial::watch::Watch;
use value::Totals;
use work::{FitEvaluations, Iterations};

// What a descent keeps to: its box, its tolerance and its limits.
#[derive(Clone, Copy)]
pub struct Plan {
    pub region: Region,
    pub tolerance: f64,
    pub most: FitEvaluations,
    pub turns: Iterations,
}

// Awaited is the value at the start, or that at a trial; or the descent has stopped.
#[derive(Clone, Copy, PartialEq, Eq)]
pub enum Phase {
    AtStart,
    AtTrial,
    Over(Status),
}

// The value at `next` is awaited, and the evaluations count it: a trial along `way` from x, where the value is v, at alpha, with `left` trials after it.
#[derive(Clone, Copy)]
pub struct Stepper {
    pub phase: Phase,
    pub next: [f64; 4],
    pub x: [f64; 4],
    pub v: Totals,
    pub evaluations: FitEvaluations,
    pub iterations: Iterations,
    pub way: [f64; 4],
    pub alpha: f64,
    pub left: u64,
    pub watch: Watch,
}

// One more, within the most.
#[tactic(auto, unfolding(crate::specs::Machine::one_more_of))]
fn one_more(n: u64, most: u64) -> u64
    ensures { result ≡ one_more_of n most }
{
    if n < most { n + 1 } else { n }
}

// A line search from x, before its first trial.
fn line(
    way: [f64; 4],
    x: [f64; 4],
    v: Totals,
    e: FitEvaluations,
    k: Iterations,
    watch: Watch,
) -> Stepper
    ensures { result ≡ line_of way x v e.0 k.0 watch }
{
    Stepper {
        phase: Phase::AtTrial,
        next: x,
        x,
        v,
        evaluations: e,
        iterations: k,
        way,
        alpha: 1.0,
        left: 48,
        watch,
    }
}

impl Plan {
    fn direction_at(self, x: [f64; 4], v: Totals) -> [f64; 4]
        ensures { result ≡ direction_at_of self.region.lo self.region.hi x v }
    {
        let g = self.region.project(x, v.gradient);
        self.region.direction(x, g, v.hessian)
    }

    #[tactic(auto, unfolding(crate::specs::Machine::failed_of))]
    fn failed(self, e: FitEvaluations) -> Status
        ensures { result ≡ failed_of self.most.0 e.0 }
    {
        if self.most.0 <= e.0 {
            return Status::EvaluationLimit;
        }
        Status::LineSearchFailed
    }

    // A trial: the candidate whose value it wants, or a trial that took no step.
    #[tactic(auto, unfolding(crate::specs::Machine::offered_of))]
    fn offered(self, s: Stepper) -> Result<[f64; 4], Trial>
        ensures { result ≡ offered_of self s }
    {
        let next = self.region.candidate(s.x, s.way, s.alpha);
        let slope = step::slope(s.v.gradient, next, s.x);
        if num::either(0.0 <= slope, step::still(next, s.x)) {
            return Err(trial::idle(slope));
        }
        Ok(next)
    }

    // The first trial that wants a value, or the end of the search.
    fn propose(self, start: Stepper) -> Stepper
        ensures { result ≡ propose_of self start }
    {
        let mut s = start;
        for n in (0..start.left).rev() {
            if self.most.0 <= s.evaluations.0 {
                return s.over(self.failed(s.evaluations), s.watch.noted(Trial::CutOff));
            }
            match self.offered(s) {
                Ok(next) => return s.awaiting(self.most.0, n, next),
                Err(t) => s = s.halved(t),
            }
        }
        s.over(self.failed(s.evaluations), s.watch)
    }

    // At a point with its value: the three tests at the loop's head, and a search.
    #[tactic(auto, unfolding(crate::specs::Machine::arrive_of))]
    fn arrive(
        self,
        x: [f64; 4],
        v: Totals,
        e: FitEvaluations,
        k: Iterations,
        watch: Watch,
    ) -> Stepper
        ensures { result ≡ arrive_of self x v e.0 k.0 watch }
    {
        let s = line(self.direction_at(x, v), x, v, e, k, watch);
        let near = trial::norm_at(self.region, x, v) <= self.tolerance;
        let spent = self.most.0 <= e.0;
        if near {
            return s.over(Status::Converged, watch);
        }
        if spent {
            return s.over(Status::EvaluationLimit, watch);
        }
        if self.turns.0 <= k.0 {
            return s.over(Status::IterationLimit, watch);
        }
        self.propose(s)
    }
}

impl Stepper {
    pub fn begin(x: [f64; 4], wanted: u64) -> Stepper
        ensures { result ≡ begin_of x wanted }
    {
        Stepper {
            phase: Phase::AtStart,
            next: x,
            x,
            v: value::nothing(),
            evaluations: FitEvaluations(1),
            iterations: Iterations(0),
            way: x,
            alpha: 0.0,
            left: 0,
            watch: Watch::begun(wanted),
        }
    }

    // Whether the value at `next` is awaited.
    pub fn awaits(self) -> bool
        ensures { result ≡ awaits_of self.phase }
    {
        !matches!(self.phase, Phase::Over(_))
    }

    // After a trial that took no step.
    fn halved(self, t: Trial) -> Stepper
        ensures { result ≡ halved_of self t }
    {
        Stepper {
            alpha: self.alpha * 0.5,
            watch: self.watch.noted(t),
            ..self
        }
    }

    fn awaiting(self, most: u64, left: u64, next: [f64; 4]) -> Stepper
        ensures { result ≡ awaiting_of self most left next }
    {
        Stepper {
            next,
            evaluations: FitEvaluations(one_more(self.evaluations.0, most)),
            left,
            ..self
        }
    }

    fn over(self, status: Status, watch: Watch) -> Stepper
        ensures { result ≡ over_of status self watch }
    {
        Stepper {
            phase: Phase::Over(status),
            watch,
            ..self
        }
    }

    // Told the value at `next`.
    #[tactic(auto, unfolding(crate::specs::Machine::tell_of))]
    pub fn tell(self, p: Plan, c: Totals) -> Stepper
        ensures { result ≡ tell_of p self c }
    {
        let next = self.next;
        let e = self.evaluations;
        let k = self.iterations;
        let watch = self.watch;
        match self.phase {
            Phase::AtStart => p.arrive(next, c, e, k, watch),
            Phase::AtTrial | Phase::Over(_) => {
                let t = trial::judged(p.region, self.x, self.v, next, c);
                if t.is_taken() {
                    let more = Iterations(one_more(k.0, p.turns.0));
                    return p.arrive(next, c, e, more, watch.noted(t));
                }
                p.propose(self.halved(t))
            }
        }
    }
}
