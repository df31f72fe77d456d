// Why there is no answer, the three counters, and the meter that holds a limit.
#![tactic(auto)]

ghost use Rattle.std.specs.Prelude.{◌≡◌};
ghost use Rattle.work.specs.Meter.{counts, meter_of};
ghost use Rattle.work.specs.Refusal.{number_of, reason_of};

// Why there is no answer. A `Domain` carries its reason, 1 to 6: a number, as the definitions' `domain` and the theorems
// that bound it (`fit_domain`, `objective_domain`, `row_domain`) have it.
#[derive(Clone, Copy, PartialEq, Eq)]
pub enum Refusal {
    InvalidInput,
    Domain(u64),
    WorkBudget,
}

impl Refusal {
    pub fn number(self) -> u64
        ensures { result ≡ number_of self }
    {
        match self {
            Refusal::InvalidInput => 1,
            Refusal::Domain(_) => 2,
            Refusal::WorkBudget => 3,
        }
    }

    // 0 for what is no `Domain`.
    pub fn reason(self) -> u64
        ensures { result ≡ reason_of self }
    {
        match self {
            Refusal::Domain(r) => r,
            _ => 0,
        }
    }
}

// One counter for each thing counted, so that none stands where another is meant.
#[derive(Clone, Copy)]
pub struct FitEvaluations(pub u64);

#[derive(Clone, Copy)]
pub struct Iterations(pub u64);

#[derive(Clone, Copy)]
pub struct QuadratureEvaluations(pub u64);

// The evaluations made, and the most that may be made.
#[derive(Clone, Copy)]
pub struct Meter {
    pub used: QuadratureEvaluations,
    pub limit: QuadratureEvaluations,
}

impl Meter {
    // No evaluation made yet.
    pub fn of(limit: QuadratureEvaluations) -> Meter
        ensures { result ≡ meter_of limit }
    {
        Meter {
            used: QuadratureEvaluations(0),
            limit,
        }
    }

    // One more, where the limit leaves it.
    pub fn count(&mut self) -> Result<(), Refusal>
        ensures { counts self.old result self.new }
    {
        if self.used.0 < self.limit.0 {
            self.used.0 += 1;
            return Ok(());
        }
        Err(Refusal::WorkBudget)
    }
}
