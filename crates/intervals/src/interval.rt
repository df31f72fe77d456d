// One estimate's interval in the log coordinate.
ghost use Rattle.std.specs.Prelude.{◌≡◌};
ghost use Rattle.intervals.specs.Interval.{number_of, none, proper_of, judged_of, log_interval_of, asked_of};

const Z95: f64 = 1.959963984540054;

// Why there are no intervals.
#[derive(Clone, Copy, PartialEq, Eq)]
pub enum Refusal {
    InvalidInput,
    Unsupported,
}

impl Refusal {
    // As C is given it.
    pub fn number(self) -> u64
        ensures { result ≡ number_of self }
    {
        match self {
            Refusal::InvalidInput => 1,
            Refusal::Unsupported => 8,
        }
    }
}

// The error is in the log coordinate.
#[derive(Clone, Copy)]
pub struct Interval {
    pub error: f64,
    pub lower: f64,
    pub upper: f64,
}

// What C is given of an estimate that is not marked.
fn none() -> Interval
    ensures { result ≡ none }
{
    Interval {
        error: 0.0,
        lower: 0.0,
        upper: 0.0,
    }
}

// Tests that hold keep out what is not a number.
#[tactic(auto, unfolding(crate::specs::Interval::proper_of))]
fn proper(error: f64, lower: f64, upper: f64) -> bool
    ensures { result ≡ proper_of error lower upper }
{
    num::is_finite(error) && (0.0 < lower && lower < upper && num::is_finite(upper))
}

#[tactic(auto, unfolding(crate::specs::Interval::judged_of))]
fn judged(error: f64, lower: f64, upper: f64) -> Result<Interval, Refusal>
    ensures { result ≡ judged_of error lower upper }
{
    if !proper(error, lower, upper) {
        return Err(Refusal::Unsupported);
    }
    Ok(Interval {
        error,
        lower,
        upper,
    })
}

#[tactic(auto, unfolding(crate::specs::Interval::log_interval_of))]
pub fn log_interval(estimate: f64, error: f64) -> Result<Interval, Refusal>
    ensures { result ≡ log_interval_of estimate error }
{
    if !num::is_finite(estimate) {
        return Err(Refusal::InvalidInput);
    }
    if estimate <= 0.0 {
        return Err(Refusal::InvalidInput);
    }
    let log = error / estimate;
    let center = elementary::log::log(estimate);
    let low = elementary::exp::exp(center - Z95 * log);
    let high = elementary::exp::exp(center + Z95 * log);
    judged(log, low, high)
}

// An estimate that is not marked is not looked at.
#[tactic(auto, unfolding(crate::specs::Interval::asked_of))]
pub fn asked(marked: bool, estimate: f64, error: f64) -> Result<Interval, Refusal>
    ensures { result ≡ asked_of marked estimate error }
{
    if marked {
        log_interval(estimate, error)
    } else {
        Ok(none())
    }
}
