// The objective at a point: the litters' shares, each under what is left of the limit, summed in their order.
#![tactic(auto)]

pub mod check;
pub mod sum;
pub mod totals;

pub use sum::{
    Named, Objective, Refused, limited_objective, named_objective, probit_normal_binomial_objective,
};
