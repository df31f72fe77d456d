// One litter's share of the objective: its integral over the litter's own effect, by quadrature about the mode.
#![tactic(auto)]

pub mod peak;
pub mod share;

pub use share::{Share, row_objective};
