// The intervals of all marked estimates, or the first refusal; and the same put into a buffer that is lent.
ghost use Rattle.std.specs.Prelude.{◌≡◌, ◌≤◌, length};
ghost use Rattle.intervals.specs.Intervals.{collected_of, intervals_of, filled, intervals_put, intervals_filled};

use crate::interval::Refusal;

// Three numbers an estimate: error in the log coordinate, lower, upper; zeros where it is not marked.
fn collected(estimates: &[f64], errors: &[f64], marks: u64) -> Result<[f64; 24], Refusal>
    requires few { length estimates.now ≤ 8 }
    requires same { length errors.now ≡ length estimates.now }
    ensures { result ≡ collected_of estimates.now errors.now marks }
{
    let mut numbers = [0.0; 24];
    // By place: an estimate's error, its mark and its three numbers stand at it.
    for i in 0..estimates.len() {
        let marked = crate::shape::marked(marks, i);
        let interval = crate::interval::asked(marked, estimates[i], errors[i])?;
        numbers[3 * i] = interval.error;
        numbers[3 * i + 1] = interval.lower;
        numbers[3 * i + 2] = interval.upper;
    }
    Ok(numbers)
}

#[tactic(auto, unfolding(crate::specs::Intervals::intervals_of))]
pub fn positive_fixed_effect_intervals(
    estimates: &[f64],
    covariance: &[f64],
    errors: &[f64],
    marks: u64,
) -> Result<[f64; 24], Refusal>
    ensures { result ≡ intervals_of estimates.now covariance.now errors.now marks }
{
    if !crate::shape::shaped(estimates.len(), covariance.len(), errors.len(), marks) {
        return Err(Refusal::InvalidInput);
    }
    if !finite::all_finite(covariance) {
        return Err(Refusal::InvalidInput);
    }
    if crate::factor::factored(covariance, errors).is_err() {
        return Err(Refusal::InvalidInput);
    }
    collected(estimates, errors, marks)
}

#[tactic(auto, unfolding(crate::specs::Intervals::intervals_put))]
fn put(answer: Result<[f64; 24], Refusal>, numbers: &mut [f64]) -> u64
    requires { 24 ≤ length numbers.old }
    ensures { filled result numbers.new ≡ intervals_put answer numbers.old }
{
    match answer {
        Ok(found) => {
            store::put(&found, numbers);
            0
        }
        Err(refusal) => {
            store::put(&[0.0; 24], numbers);
            refusal.number()
        }
    }
}

// Where the shape is wrong or the buffer has not 24 places, 1 and nothing is written.
#[tactic(auto, unfolding(crate::specs::Intervals::intervals_filled))]
pub fn put_intervals(
    estimates: &[f64],
    covariance: &[f64],
    errors: &[f64],
    marks: u64,
    numbers: &mut [f64],
) -> u64
    ensures { filled result numbers.new ≡ intervals_filled estimates.now covariance.now errors.now marks numbers.old }
{
    if !crate::shape::shaped(estimates.len(), covariance.len(), errors.len(), marks) {
        return 1;
    }
    if numbers.len() < 24 {
        return 1;
    }
    put(
        positive_fixed_effect_intervals(estimates, covariance, errors, marks),
        numbers,
    )
}
