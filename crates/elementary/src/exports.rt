// The same functions by the names that C has for them: elementary_c exports them.
ghost use Rattle.std.specs.Prelude.{◌≡◌};
ghost use Rattle.elementary.specs.Exp.{exp_of};
ghost use Rattle.elementary.specs.Log.{log_of};
ghost use Rattle.elementary.specs.Log1p.{log1p_of};
ghost use Rattle.elementary.specs.Erfc.{erfc_of};
ghost use Rattle.elementary.specs.Lgamma.{lgamma_of};
ghost use Rattle.elementary.specs.Cos.{cos_of};
ghost use Rattle.elementary.specs.Hypot.{hypot_of};
ghost use Rattle.root.specs.Root.{IsRoot};
ghost use Rattle.root.specs.Steps.{sqrt_of};

pub fn probit_exp(x: f64) -> f64
    ensures { result ≡ exp_of x }
{
    crate::exp::exp(x)
}

pub fn probit_log(x: f64) -> f64
    ensures { result ≡ log_of x }
{
    crate::log::log(x)
}

pub fn probit_log1p(x: f64) -> f64
    ensures { result ≡ log1p_of x }
{
    crate::log1p::log1p(x)
}

pub fn probit_erfc(x: f64) -> f64
    ensures { result ≡ erfc_of x }
{
    crate::erfc::erfc(x)
}

pub fn probit_lgamma(x: f64) -> f64
    ensures { result ≡ lgamma_of x }
{
    crate::lgamma::lgamma(x)
}

pub fn probit_cos(x: f64) -> f64
    ensures { result ≡ cos_of x }
{
    crate::cos::cos(x)
}

pub fn probit_hypot(a: f64, b: f64) -> f64
    ensures { result ≡ hypot_of a b }
{
    crate::hypot::hypot(a, b)
}

pub fn probit_sqrt(x: f64) -> f64
    ensures value { result ≡ sqrt_of x }
    ensures nearest { IsRoot x result }
{
    root::sqrt(x)
}
