// `exps` at one number.
ghost use Rattle.std.specs.Prelude.{◌≡◌};
ghost use Rattle.lanes.specs.ExpParts.{exp_outside, exp_chosen};

// Farther than 3/8 from zero. Near underflow and overflow, and past a cut, `exp` is asked.
#[tactic(auto, unfolding(crate::specs::ExpParts::exp_outside))]
fn outside(x: f64, m: u64, v: f64) -> f64
    ensures { result ≡ exp_outside x m v }
{
    let e = m / 64;
    if e < 1100 {
        return elementary::exp::exp(x);
    }
    if 3070 < e {
        return elementary::exp::exp(x);
    }
    v
}

// v is the value by row.
#[tactic(auto, unfolding(crate::specs::ExpParts::exp_chosen))]
pub fn chosen(x: f64, m: u64, v: f64) -> f64
    ensures { result ≡ exp_chosen x m v }
{
    if x < -0.375 {
        return outside(x, m, v);
    }
    if 0.375 < x {
        return outside(x, m, v);
    }
    elementary::exp::small(x)
}
