// The fit of counts per exposure: the descent of a request in the logarithms of shape and rate, and its report.
#![tactic(auto)]

pub mod drive;
pub mod report;

pub use counts::Refused;
pub use exposure::request::{Bounds, Request};
pub use report::{Fit, fit_gamma_poisson};
