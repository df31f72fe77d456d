// What a point has to satisfy.
ghost use Rattle.std.specs.Prelude.{◌≡◌};
ghost use Rattle.objective.specs.Point.{valid_mean_of, valid_variance_of, valid_point_of};

#[tactic(auto, unfolding(crate::specs::Point::valid_mean_of))]
fn valid_mean(x: f64) -> bool
    ensures { result ≡ valid_mean_of x }
{
    if !num::is_finite(x) {
        return false;
    }
    num::abs(x) <= 8.0
}

#[tactic(auto, unfolding(crate::specs::Point::valid_variance_of))]
fn valid_variance(x: f64) -> bool
    ensures { result ≡ valid_variance_of x }
{
    if !num::is_finite(x) {
        return false;
    }
    num::both(0.0 <= x, x <= 9.0)
}

#[tactic(auto, unfolding(crate::specs::Point::valid_point_of))]
pub fn valid_point(x: [f64; 4]) -> bool
    ensures { result ≡ valid_point_of x }
{
    let v = num::both(valid_variance(x[2]), valid_variance(x[3]));
    num::both(valid_mean(x[0]), num::both(valid_mean(x[1]), v))
}
