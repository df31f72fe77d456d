// The rows of the tables that `exp`, `log` and `erfc` read: one module each, written by tools/tables.py.
#![tactic(auto)]

pub mod erfc;
pub mod exp;
pub mod log;

pub use erfc::{ErfcRow, erfc_lane_row, erfc_row};
pub use exp::{ExpRow, exp_lane_row, exp_row};
pub use log::{LogRow, log_lane_row, log_row};
