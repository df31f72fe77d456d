// The logarithm of the binomial coefficient: how many ways there are to choose the affected pups of a litter.
#![tactic(auto)]

ghost use Rattle.std.specs.Prelude.{◌≡◌, ◌⊎◌, ◌-◌, ◌≤◌};
ghost use Rattle.num.specs.F64.{zero·};
ghost use Rattle.coefficient.specs.Coefficient.{coefficient_of};

// The same with successes and failures exchanged, and +0 where either is zero.
pub fn coefficient(successes: u32, total: u32) -> f64
    ensures definition { result ≡ coefficient_of successes total }
    ensures exchanged { successes ≤ total → result ≡ coefficient_of (total - successes) total }
    ensures nothing_to_choose { total ≤ 1000 → (successes ≡ 0) ⊎ (successes ≡ total) → result ≡ zero· }
{
    let all = factorial::log_factorial(total);
    let a = factorial::log_factorial(successes);
    let b = factorial::log_factorial(normal::failures(successes, total));
    let larger = num::max(a, b);
    let smaller = num::min(a, b);
    all - larger - smaller
}
