// Rows of counts, each with its exposure, as two lent slices.
ghost use Rattle.std.specs.Prelude.{◌≡◌, ◌≤◌, length};
ghost use Rattle.exposure.specs.Rows.{is_positive_of, all_positive_of, events_of, valid_rows_of};

#[tactic(auto, unfolding(crate::specs::Rows::is_positive_of))]
pub fn is_positive(x: f64) -> bool
    ensures { result ≡ is_positive_of x }
{
    num::is_finite(x) && 0.0 < x
}

fn all_positive(exposures: &[f64]) -> bool
    ensures { result ≡ all_positive_of exposures.now }
{
    for exposure in exposures {
        if !is_positive(*exposure) {
            return false;
        }
    }
    true
}

// So few rows cannot overflow the sum, whatever their counts.
pub fn events(counts: &[u32]) -> u64
    requires { length counts.now ≤ 4096 }
    ensures { result ≡ events_of counts.now }
{
    let mut sum: u64 = 0;
    for count in counts {
        sum += u64::from(*count);
    }
    sum
}

#[tactic(auto, unfolding(crate::specs::Rows::valid_rows_of))]
pub fn valid_rows(counts: &[u32], exposures: &[f64]) -> bool
    ensures { result ≡ valid_rows_of counts.now exposures.now }
{
    1 <= counts.len()
        && counts.len() <= 4096
        && exposures.len() == counts.len()
        && events(counts) <= 1000000
        && all_positive(exposures)
}
