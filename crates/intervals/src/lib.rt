// The 95 percent log-Wald intervals of estimates that are positive by their nature, from covariance and standard errors.
#![tactic(auto)]

pub mod answer;
pub mod factor;
pub mod interval;
pub mod shape;

pub use answer::{positive_fixed_effect_intervals, put_intervals};
pub use interval::Refusal;
