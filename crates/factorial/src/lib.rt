// The logarithm of a factorial.
#![tactic(auto)]

ghost use Rattle.std.specs.Prelude.{◌≡◌};
ghost use Rattle.factorial.specs.Factorial.{log_factorial_of};

#[tactic(auto, unfolding(crate::specs::Factorial::log_factorial_of))]
pub fn log_factorial(n: u32) -> f64
    ensures { result ≡ log_factorial_of n }
{
    elementary::lgamma::lgamma(n as f64 + 1.0)
}
