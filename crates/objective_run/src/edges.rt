// Where two rules meet: the two forms of the normal distribution, the number of litters, the limit.
use normal::LogMills;

const LOG_TWO_PI: f64 = 1.8378770664093453;

const SQRT_2: f64 = 1.4142135623730951;

fn by_erfc(x: f64) -> LogMills {
    let log = elementary::log::log(0.5 * elementary::erfc::erfc(-x / SQRT_2));
    let mills = elementary::exp::exp(-0.5 * x * x - 0.5 * LOG_TWO_PI - log);
    LogMills { log, mills }
}

fn fraction(t: f64) -> f64 {
    let mut f = 0.0;
    for k in (1..65u32).rev() {
        f = k as f64 / (t + f);
    }
    f
}

fn by_fraction(x: f64) -> LogMills {
    let mills = -x + fraction(-x);
    let log = -0.5 * x * x - 0.5 * LOG_TWO_PI - elementary::log::log(mills);
    LogMills { log, mills }
}

fn forms(x: f64) {
    let n = normal::normal(x);
    let e = by_erfc(x);
    let f = by_fraction(x);
    crate::say::pair(b"normal", n.log, n.mills);
    crate::say::pair(b"by erfc", e.log, e.mills);
    crate::say::pair(b"by fraction", f.log, f.mills);
}

// -8 and the number below it.
pub fn normal_at_eight() {
    forms(-8.0);
    forms(-8.000000000000002);
}

fn under(name: &[u8], limit: u64) {
    let rule = legendre::legendre();
    let mut m = crate::say::meter(limit);
    let r = row::row_objective(0, 1, 2, &rule, 0.0, 0.0, &mut m);
    crate::say::answer(name, r, m);
}

// Litters of one pup, affected, in group 1.
pub fn counts() {
    let most = [1u32; 384];
    let more = [1u32; 387];
    crate::refusals::at(b"128 litters", [0.0; 4], &most);
    crate::refusals::at(b"129 litters", [0.0; 4], &more);
    under(b"variance 0, limit 0", 0);
    under(b"variance 0, limit 1", 1);
}
