// The normal distribution's logarithm and tail ratio, and a litter's conditional likelihood with its derivatives.
#![tactic(auto)]

pub mod mills;
pub mod moments;
pub mod twins;

pub use mills::{LogMills, normal};
pub use moments::{ConditionalLog, conditional, failures};
