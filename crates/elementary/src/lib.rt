// The elementary functions: each a fixed list of f64 steps, equal to its definition for every f64.
#![tactic(auto)]

pub mod cos;
pub mod erfc;
pub mod exp;
pub mod exports;
pub mod hypot;
pub mod lgamma;
pub mod log;
pub mod log1p;
mod log_parts;
