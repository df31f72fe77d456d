// The value of an objective at a point: the negative log-likelihood, its gradient by coordinate, its Hessian by rows, and the largest refinement behind them.
#![tactic(auto)]

ghost use Rattle.std.specs.Prelude.{◌≡◌};
ghost use Rattle.value.specs.Totals.{no_totals};

#[derive(Clone, Copy)]
pub struct Totals {
    pub nll: f64,
    pub gradient: [f64; 4],
    pub hessian: [f64; 16],
    pub refinement: f64,
}

// What stands where there is no value.
pub fn nothing() -> Totals
    ensures { result ≡ no_totals }
{
    Totals {
        nll: 0.0,
        gradient: [0.0; 4],
        hessian: [0.0; 16],
        refinement: 0.0,
    }
}
