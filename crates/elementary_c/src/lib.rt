// The elementary functions for C, in a static library.
#![tactic(auto)]

ghost use Rattle.std.specs.Prelude.{◌≡◌};
ghost use Rattle.elementary.specs.Exp.{exp_of};
ghost use Rattle.elementary.specs.Log.{log_of};
ghost use Rattle.elementary.specs.Log1p.{log1p_of};
ghost use Rattle.elementary.specs.Erfc.{erfc_of};
ghost use Rattle.elementary.specs.Lgamma.{lgamma_of};
ghost use Rattle.elementary.specs.Cos.{cos_of};
ghost use Rattle.elementary.specs.Hypot.{hypot_of};
ghost use Rattle.root.specs.Root.{IsRoot};
ghost use Rattle.root.specs.Steps.{sqrt_of};

#[unsafe(no_mangle)]
pub extern "C" fn probit_exp(x: f64) -> f64
    ensures { result ≡ exp_of x }
{
    elementary::exports::probit_exp(x)
}

#[unsafe(no_mangle)]
pub extern "C" fn probit_log(x: f64) -> f64
    ensures { result ≡ log_of x }
{
    elementary::exports::probit_log(x)
}

#[unsafe(no_mangle)]
pub extern "C" fn probit_log1p(x: f64) -> f64
    ensures { result ≡ log1p_of x }
{
    elementary::exports::probit_log1p(x)
}

#[unsafe(no_mangle)]
pub extern "C" fn probit_erfc(x: f64) -> f64
    ensures { result ≡ erfc_of x }
{
    elementary::exports::probit_erfc(x)
}

#[unsafe(no_mangle)]
pub extern "C" fn probit_lgamma(x: f64) -> f64
    ensures { result ≡ lgamma_of x }
{
    elementary::exports::probit_lgamma(x)
}

#[unsafe(no_mangle)]
pub extern "C" fn probit_cos(x: f64) -> f64
    ensures { result ≡ cos_of x }
{
    elementary::exports::probit_cos(x)
}

#[unsafe(no_mangle)]
pub extern "C" fn probit_hypot(a: f64, b: f64) -> f64
    ensures { result ≡ hypot_of a b }
{
    elementary::exports::probit_hypot(a, b)
}

#[unsafe(no_mangle)]
pub extern "C" fn probit_sqrt(x: f64) -> f64
    ensures value { result ≡ sqrt_of x }
    ensures nearest { IsRoot x result }
{
    elementary::exports::probit_sqrt(x)
}
