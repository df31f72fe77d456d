// A function at sixteen numbers. Each part of its steps is taken at all sixteen before the next: no answer differs from one number after another.
// The steps by row have no branch, so that the compiler can take several numbers in one instruction.
#![tactic(auto)]

mod erfc;
mod exp;
mod log;

ghost use Rattle.std.specs.Prelude.{◌≡◌};
ghost use Rattle.lanes.specs.Lanes.{erfcs_of, exps_of, logs_of};

use std::array;
use tables::{ExpRow, LogRow};

pub fn exps(x: [f64; 16]) -> [f64; 16]
    ensures { result ≡ exps_of x }
{
    let m: [u64; 16] = array::from_fn(|i| elementary::exp::place(x[i]));
    let rows: [ExpRow; 16] = array::from_fn(|i| tables::exp_lane_row(m[i] % 64));
    let v: [f64; 16] = array::from_fn(|i| elementary::exp::by_row(x[i], m[i], rows[i]));
    array::from_fn(|i| exp::chosen(x[i], m[i], v[i]))
}

pub fn logs(x: [f64; 16]) -> [f64; 16]
    ensures { result ≡ logs_of x }
{
    let t: [u64; 16] = array::from_fn(|i| elementary::log::place(x[i]));
    let rows: [LogRow; 16] = array::from_fn(|i| log::row(t[i]));
    let v: [f64; 16] = array::from_fn(|i| elementary::log::by_row(t[i], rows[i]));
    array::from_fn(|i| log::chosen(x[i], v[i]))
}

// Of numbers that are not below zero.
pub fn erfcs(x: [f64; 16]) -> [f64; 16]
    ensures { result ≡ erfcs_of x }
{
    let m: [u64; 16] = array::from_fn(|i| elementary::erfc::place(x[i]));
    let v: [f64; 16] = array::from_fn(|i| erfc::by_row(x[i], m[i]));
    array::from_fn(|i| erfc::chosen(x[i], v[i]))
}
