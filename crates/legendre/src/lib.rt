// The Gauss-Legendre rule of sixteen nodes, from its polynomial's recurrence.
#![tactic(auto)]

ghost use Rattle.std.specs.Prelude.{◌≡◌};
ghost use Rattle.legendre.specs.Legendre.{recurrence_of, newton_of, node_and_weight_of, legendre_of};

use std::array;

const PI: f64 = 3.141592653589793;

// A node and its weight.
#[derive(Clone, Copy)]
pub struct Pair {
    pub x: f64,
    pub w: f64,
}

// The polynomial of degree 16 at x, and the one before it.
#[derive(Clone, Copy)]
pub struct Polynomial {
    pub p0: f64,
    pub p1: f64,
}

// A node as Newton's steps leave it, with the derivative found before the last of them.
#[derive(Clone, Copy)]
pub struct Node {
    pub x: f64,
    pub derivative: f64,
}

fn recurrence(x: f64) -> Polynomial
    ensures { result ≡ recurrence_of x }
{
    let mut p0 = 1.0;
    let mut p1 = x;
    for j in 2..17u32 {
        let p = ((2 * j - 1) as f64 * x * p1 - (j - 1) as f64 * p0) / j as f64;
        p0 = p1;
        p1 = p;
    }
    Polynomial { p0, p1 }
}

// At most twenty steps, until a move is below 2e-16.
fn newton(start: f64) -> Node
    ensures { result ≡ newton_of start }
{
    let mut x = start;
    let mut derivative = 0.0;
    for _ in 0..20u64 {
        let p = recurrence(x);
        derivative = 16.0 * (x * p.p1 - p.p0) / (x * x - 1.0);
        let next = x - p.p1 / derivative;
        if num::abs(next - x) < 2e-16 {
            return Node {
                x: next,
                derivative,
            };
        }
        x = next;
    }
    Node { x, derivative }
}

// The k-th pair, k from 1 to 16.
#[tactic(auto, unfolding(crate::specs::Legendre::node_and_weight_of))]
fn node_and_weight(k: u32) -> Pair
    ensures { result ≡ node_and_weight_of k }
{
    let n = newton(elementary::cos::cos(PI * (k as f64 - 0.25) / (16.0 + 0.5)));
    Pair {
        x: n.x,
        w: 2.0 / ((1.0 - n.x * n.x) * n.derivative * n.derivative),
    }
}

pub fn legendre() -> [Pair; 16]
    ensures { result ≡ legendre_of }
{
    array::from_fn(|i| node_and_weight(i as u32 + 1))
}
