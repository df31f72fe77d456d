// A value in two coordinates, and the same among four, of which the first and the third are held at zero.
#![tactic(auto)]

ghost use Rattle.std.specs.Prelude.{◌≡◌};
ghost use Rattle.planar.specs.Planar.{no_planar, among_four_of, widened_of};

use value::Totals;

// The negative log-likelihood, its gradient, and its Hessian, which is the same either way across.
#[derive(Clone, Copy)]
pub struct Planar {
    pub nll: f64,
    pub x: f64,
    pub y: f64,
    pub xx: f64,
    pub xy: f64,
    pub yy: f64,
}

// What stands where there is no value.
pub fn nothing() -> Planar
    ensures { result ≡ no_planar }
{
    Planar {
        nll: 0.0,
        x: 0.0,
        y: 0.0,
        xx: 0.0,
        xy: 0.0,
        yy: 0.0,
    }
}

pub fn among_four(x: f64, y: f64) -> [f64; 4]
    ensures { result ≡ among_four_of x y }
{
    [0.0, x, 0.0, y]
}

pub fn widened(v: Planar) -> Totals
    ensures { result ≡ widened_of v }
{
    Totals {
        nll: v.nll,
        gradient: [0.0, v.x, 0.0, v.y],
        hessian: [
            0.0, 0.0, 0.0, 0.0, 0.0, v.xx, 0.0, v.xy, 0.0, 0.0, 0.0, 0.0, 0.0, v.xy, 0.0, v.yy,
        ],
        refinement: 0.0,
    }
}
