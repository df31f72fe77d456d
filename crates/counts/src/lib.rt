// Counts per exposure: the Gamma-Poisson likelihood and its derivatives in the logarithms of shape and rate.
#![tactic(auto)]

pub mod rungs;
pub mod share;
pub mod sum;

pub use sum::{Objective, Passes, Refused, gamma_poisson_objective};
