// Counts per exposure: the rows, a fit's request over them, and what both have to satisfy.
#![tactic(auto)]

pub mod request;
pub mod rows;
