// The fit, the objective and the summary of a lent run of litter records, whose numbers go to the core.
// More than 128 litters are refused as none are.
#![tactic(auto)]

ghost use Rattle.std.specs.Prelude.{◌≡◌};
ghost use Rattle.objective.specs.Objective.{objective_of};
ghost use Rattle.summary.specs.Summary.{summary_of};
ghost use Rattle.fit.specs.Fit.{fit_of};
ghost use Rattle.litters.specs.Litters.{numbers_of};

use fit::{Fit, Request};
pub use litters::Litter;
use litters::table::with_numbers;
use objective::Objective;
use summary::Counts;
use work::Refusal;

pub fn fit_probit_normal_binomial(r: Request, litters: &[Litter]) -> Result<Fit, fit::Refused>
    ensures { result ≡ fit_of r (numbers_of litters.now) }
{
    with_numbers(
        litters,
        |numbers|
            ensures { result ≡ fit_of r numbers.now }
        { fit::fit_probit_normal_binomial(r, numbers) },
    )
}

pub fn probit_normal_binomial_objective(
    point: [f64; 4],
    litters: &[Litter],
) -> Result<Objective, objective::Refused>
    ensures { result ≡ objective_of point (numbers_of litters.now) }
{
    with_numbers(
        litters,
        |numbers|
            ensures { result ≡ objective_of point numbers.now }
        { objective::probit_normal_binomial_objective(point, numbers) },
    )
}

pub fn summarize(litters: &[Litter]) -> Result<Counts, Refusal>
    ensures { result ≡ summary_of (numbers_of litters.now) }
{
    with_numbers(
        litters,
        |numbers|
            ensures { result ≡ summary_of numbers.now }
        { summary::summarize(numbers) },
    )
}
