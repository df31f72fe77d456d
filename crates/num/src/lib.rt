// Helpers on f64. std's methods of these names answer otherwise at zeros and at a NaN. Each contract is a definition that a caller rewrites by.
#![tactic(auto)]

ghost use Rattle.std.specs.Prelude.{◌≡◌, ◌&&◌, ◌||◌, cond};
ghost use Rattle.std.specs.Float.{nan};
ghost use Rattle.num.specs.F64.{infinity·};
ghost use Rattle.num.specs.Helpers.{abs_of, is_finite_of, max_of, min_of, clamp_of, powi_of, sum_of};

// 0 - x is +0 at both zeros, and a NaN fails the test.
#[tactic(auto, unfolding(crate::specs::Helpers::abs_of))]
pub fn abs(x: f64) -> f64
    ensures { result ≡ abs_of x }
{
    if x <= 0.0 { 0.0 - x } else { x }
}

pub fn is_finite(x: f64) -> bool
    ensures { result ≡ is_finite_of x }
{
    let top = f64::from_bits(0x7ff0_0000_0000_0000);
    if x < top { -top < x } else { false }
}

#[tactic(auto, unfolding(crate::specs::Helpers::max_of))]
pub fn max(a: f64, b: f64) -> f64
    ensures { result ≡ max_of a b }
{
    if a < b {
        return b;
    }
    if b < a {
        return a;
    }
    if a == b {
        return if a == 0.0 { a + b } else { a };
    }
    if a != a { b } else { a }
}

#[tactic(auto, unfolding(crate::specs::Helpers::min_of))]
pub fn min(a: f64, b: f64) -> f64
    ensures { result ≡ min_of a b }
{
    -max(-a, -b)
}

#[tactic(auto, unfolding(crate::specs::Helpers::clamp_of))]
pub fn clamp(x: f64, low: f64, high: f64) -> f64
    ensures { result ≡ clamp_of x low high }
{
    if x < low {
        return low;
    }
    if high < x { high } else { x }
}

// A choice by a bool, and tests of two: as calls, they leave no place where ways meet.
pub fn pick(t: bool, a: f64, b: f64) -> f64
    ensures { result ≡ cond t a b }
{
    if t { a } else { b }
}

pub fn both(a: bool, b: bool) -> bool
    ensures { result ≡ (a && b) }
{
    if a { b } else { false }
}

pub fn either(a: bool, b: bool) -> bool
    ensures { result ≡ (a || b) }
{
    if a { true } else { b }
}

pub fn powi(x: f64, k: u32) -> f64
    ensures { result ≡ powi_of x k }
{
    let mut square = x;
    let mut left = k;
    let mut r = 1.0;
    // A bit of k a turn: there is no list to go over.
    while 0 < left {
        let odd = left % 2 == 1;
        if odd {
            r = r * square;
        }
        square = square * square;
        left = left / 2;
    }
    r
}

// A sum from the left that starts at plus zero.
pub fn sum(terms: &[f64]) -> f64
    ensures { result ≡ sum_of terms.now }
{
    let mut s = 0.0;
    for x in terms {
        s = s + *x;
    }
    s
}

// The two values that no literal writes.
pub fn infinity() -> f64
    ensures { result ≡ infinity· }
{
    f64::INFINITY
}

pub fn not_a_number() -> f64
    ensures { result ≡ nan }
{
    f64::NAN
}
