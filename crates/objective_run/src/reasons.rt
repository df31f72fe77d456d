// Each reason of a Domain.
use mode::Mode;
use panel::Hump;
use posterior::integrand::Posterior;
use tail::Hill;

fn row(name: &[u8], successes: u32, total: u32, mean: f64, variance: f64) {
    let rule = legendre::legendre();
    let mut m = crate::say::meter(8388608);
    let r = row::row_objective(0, successes, total, &rule, mean, variance, &mut m);
    crate::say::answer(name, r, m);
}

pub fn modes() {
    // The mode lies at half the mean, past the last end tried, 65536.
    row(b"1: mean -1000000", 1, 1, -1000000.0, 1.0);
    // The least step of the argument moves the slope by more than it may be off.
    row(b"2: variance 1e12", 7, 1000, 0.0, 1e12);
}

pub fn sums() {
    // The sums are scaled by the logarithm at the mode.
    let rule = legendre::legendre();
    let h = Hump {
        left: -1.0,
        mode: 0.0,
        right: 1.0,
        log: num::not_a_number(),
    };
    let mut m = crate::say::meter(8388608);
    let i = quadrature::integrated(usual(), &rule, h, &mut m);
    crate::say::answer(b"4: log NaN", i, m);
    // A valid request: rounding moves the sums of so large a litter by more than two rules may differ.
    crate::refusals::at(
        b"5: 500 of 1000, variance 9",
        [0.0, 0.0, 9.0, 9.0],
        &[500u32, 1000, 0],
    );
}

fn usual() -> Posterior {
    Posterior {
        litter: 0,
        successes: 1,
        total: 2,
        mean: 0.0,
        sd: 1.0,
    }
}

pub fn tails() {
    // No bound is below zero.
    let h = Hill {
        p: usual(),
        mode: 0.0,
        log: -2.0,
        delta: 1.0,
        goal: -1.0,
    };
    let mut m = crate::say::meter(8388608);
    let r = h.bounded(usual(), &mut m);
    crate::say::answer(b"3: goal -1", r, m);
    // Thirty doublings of so small a scale stay at the mode.
    let narrow = Mode {
        at: 0.0,
        log: -2.0,
        curvature: 1e60,
    };
    let mut m = crate::say::meter(8388608);
    let r = row::peak::limits(usual(), narrow, &mut m);
    crate::say::answer(b"3: curvature 1e60", r, m);
    // A bound that is no number is none.
    row(b"3: mean NaN", 1, 2, num::not_a_number(), 1.0);
}

pub fn totals() {
    let mut t = value::nothing();
    t.nll = num::infinity();
    let o = objective::sum::ended(7, t);
    crate::say::objective(b"6: an infinite sum of all litters", o);
}
