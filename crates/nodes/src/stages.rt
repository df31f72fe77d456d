// What is computed of each of the sixteen nodes before and after its conditional likelihood.
ghost use Rattle.std.specs.Prelude.{◌≡◌};
ghost use Rattle.nodes.specs.Stages.{places_of, etas_of, heights_of};

use legendre::Pair;
use std::array;

const LOG_TWO_PI: f64 = 1.8378770664093453;

// Where each node lies.
pub fn places(center: f64, width: f64, rule: [Pair; 16]) -> [f64; 16]
    ensures { result ≡ places_of center width rule }
{
    array::from_fn(|i| center + 0.5 * width * rule[i].x)
}

// The place on the probit scale.
pub fn etas(mean: f64, sd: f64, z: [f64; 16]) -> [f64; 16]
    ensures { result ≡ etas_of mean sd z }
{
    array::from_fn(|i| mean + sd * z[i])
}

// The logarithm of the integrand, below that at the mode.
pub fn heights(log: [f64; 16], z: [f64; 16], top: f64) -> [f64; 16]
    ensures { result ≡ heights_of log z top }
{
    array::from_fn(|i| log[i] - 0.5 * z[i] * z[i] - 0.5 * LOG_TWO_PI - top)
}
