// One litter's posterior over its own effect: the counted integrand, and the two sides of its mode.
#![tactic(auto)]

pub mod integrand;
pub mod side;
