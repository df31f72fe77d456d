// The interface for hosts: numbers and slices in, answers into buffers that the host lends; for hosts in Rattle, litters as
// lent records, and a request that arrives in parts.
#![tactic(auto)]

pub mod interface;
pub mod joined;

pub use joined::answer;
pub use parts::Reader;
pub use records::{
    Litter, fit_probit_normal_binomial, probit_normal_binomial_objective, summarize,
};
