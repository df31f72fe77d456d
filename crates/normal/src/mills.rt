// The logarithm of the normal distribution at x, and the ratio of density to distribution there.
ghost use Rattle.std.specs.Prelude.{◌≡◌};
ghost use Rattle.normal.specs.Normal.{fraction_of, log_phi_of, normal_of, normal_tail, normal_centre};

const LOG_TWO_PI: f64 = 1.8378770664093453;

const SQRT_2: f64 = 1.4142135623730951;

#[derive(Clone, Copy)]
pub struct LogMills {
    pub log: f64,
    pub mills: f64,
}

pub fn log_phi(x: f64) -> f64
    ensures { result ≡ log_phi_of x }
{
    -0.5 * x * x - 0.5 * LOG_TWO_PI
}

// The continued fraction 1/(t + 2/(t + .. 64/t)), from its inmost term out.
fn fraction(t: f64) -> f64
    ensures { result ≡ fraction_of t }
{
    let mut f = 0.0;
    for before in 0..64u32 {
        f = (64 - before) as f64 / (t + f);
    }
    f
}

#[tactic(auto, unfolding(crate::specs::Normal::normal_tail))]
fn tail(x: f64) -> LogMills
    ensures { result ≡ normal_tail x }
{
    let t = -x;
    let mills = t + fraction(t);
    LogMills {
        log: log_phi(x) - elementary::log::log(mills),
        mills,
    }
}

#[tactic(auto, unfolding(crate::specs::Normal::normal_centre))]
fn centre(x: f64) -> LogMills
    ensures { result ≡ normal_centre x }
{
    let cdf = 0.5 * elementary::erfc::erfc(-x / SQRT_2);
    let log_cdf = elementary::log::log(cdf);
    LogMills {
        log: log_cdf,
        mills: elementary::exp::exp(log_phi(x) - log_cdf),
    }
}

#[tactic(auto, unfolding(crate::specs::Normal::normal_of))]
pub fn normal(x: f64) -> LogMills
    ensures { result ≡ normal_of x }
{
    if x < -8.0 {
        return tail(x);
    }
    centre(x)
}
