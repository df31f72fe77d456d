// The square root of an f64, correctly rounded, one binary digit of the result a step. docs/ROOT.md does it on paper.
// Method: the 53 digits as a whole number, twice that under an odd power; 54 digits of its root, by long hand; the last
// of them rounds the others.
// Error: none but the rounding. The result is proved to be the f64 nearest the exact root (`IsRoot`), half a unit in
// the last place at most; no exact root lies in the middle of two f64.
// Special cases: a zero keeps its sign; NaN, minus infinity and every number below zero give NaN; plus infinity stays.
// A number below normal is brought up by its leading zeros, and its root is normal.
#![tactic(auto)]

pub mod parts;
pub mod pencil;

ghost use Rattle.std.specs.Prelude.{◌≡◌, ◌<◌};
ghost use Rattle.root.specs.Root.{IsRoot};
ghost use Rattle.root.specs.Steps.{digits, power, root_bits_of, sqrt_of};

use parts::Parts;

fn root_bits(b: u64) -> u64
    requires b_nonzero { 0 < b }
    requires b_bound { b < 0x7ff0_0000_0000_0000 }
    ensures { result ≡ root_bits_of (digits b) (power b) }
{
    let x = Parts::of(b);
    let root = pencil::root_of(x.radicand());
    parts::packed(x.power / 2, parts::rounded(root))
}

// Only a positive finite x is taken to its bits; a zero is its own root.
pub fn sqrt(x: f64) -> f64
    ensures value { result ≡ sqrt_of x }
    ensures nearest { IsRoot x result }
{
    if 0.0 < x {
        if x < f64::INFINITY {
            let b = f64::to_bits(x);
            return f64::from_bits(root_bits(b));
        }
        return x;
    }
    if x < 0.0 { 0.0 / 0.0 } else { x }
}
