// Runs the lent forms on a few inputs, one line a case: its name, the ending's number, the reason, the evaluations; for a summary, its eight counts.
// Of a slice a fit shows its means, SDs and likelihood too, an objective its likelihood, by their bits, and a summary the ending's number first.
#![tactic(auto)]

ghost use Rattle.std.specs.Prelude.{◌≤◌};

use fit::{Bounds, Fit, Request};
use objective::Objective;
use posterior::integrand::Posterior;
use records::Litter;
use summary::{Counts, GroupCounts};
use work::{FitEvaluations, Iterations, Meter, QuadratureEvaluations, Refusal};

// The refusal's number and reason, 0 and 0 where there is none, and the evaluations.
fn told(name: &[u8], refusal: Option<Refusal>, used: u64) {
    let (number, reason) = match refusal {
        Some(e) => (e.number(), e.reason()),
        None => (0, 0),
    };
    io::write_all(1, name);
    io::write_all(1, b" ");
    io::print_decimal(1, number);
    io::write_all(1, b" ");
    io::print_decimal(1, reason);
    io::write_all(1, b" ");
    io::print_decimal(1, used);
}

fn ended(name: &[u8], refusal: Option<Refusal>, used: u64) {
    told(name, refusal, used);
    io::write_all(1, b"\n");
}

fn shown(x: f64) {
    io::write_all(1, b" ");
    io::print_hex(1, print::bits(x), 16);
}

fn counted(c: GroupCounts) {
    io::write_all(1, b" ");
    io::print_decimal(1, c.litters);
    io::write_all(1, b" ");
    io::print_decimal(1, c.successes);
    io::write_all(1, b" ");
    io::print_decimal(1, c.trials);
    io::write_all(1, b" ");
    io::print_decimal(1, c.extreme);
}

fn number(summary: Result<Counts, Refusal>) -> u64 {
    match summary {
        Ok(_) => 0,
        Err(refusal) => refusal.number(),
    }
}

fn bounds(low: f64, high: f64, start: f64) -> Bounds {
    Bounds {
        low: [low, low],
        high: [high, high],
        start: [start, start],
    }
}

fn fitted(name: &[u8], limit: u64, litters: [Litter; 4]) {
    let r = Request {
        mean: bounds(-1.0, 1.0, 0.0),
        sd: bounds(0.0, 1.0, 0.0),
        evaluations: FitEvaluations(10),
        iterations: Iterations(10),
        quadrature: QuadratureEvaluations(limit),
        tolerance: 0.00000095367431640625,
    };
    match records::fit_probit_normal_binomial(r, &litters) {
        Ok(f) => ended(name, None, f.quadrature.0),
        Err(e) => ended(name, Some(e.refusal), e.quadrature.0),
    }
}

fn evaluated(name: &[u8], litters: [Litter; 4]) {
    match records::probit_normal_binomial_objective([0.0; 4], &litters) {
        Ok(o) => ended(name, None, o.used.0),
        Err(e) => ended(name, Some(e.refusal), e.used.0),
    }
}

// Zeros beside a refusal.
fn totals(name: &[u8], summary: Result<Counts, Refusal>) {
    let Counts { first, second } = summary.unwrap_or_default();
    io::write_all(1, name);
    counted(first);
    counted(second);
    io::write_all(1, b"\n");
}

fn summarized(name: &[u8], litters: [Litter; 4]) {
    totals(name, records::summarize(&litters));
}

fn litter(successes: u32, total: u32, group: u32) -> Litter {
    Litter {
        successes,
        total,
        group,
    }
}

// Of the first four two are in each group; the 128th is like no other.
fn litters() -> [Litter; 129] {
    let mut r = [litter(1, 9, 0); 129];
    r[0] = litter(1, 4, 1);
    r[1] = litter(4, 5, 1);
    r[2] = litter(0, 6, 0);
    r[62] = litter(7, 8, 0);
    r[63] = litter(5, 6, 0);
    r[64] = litter(0, 12, 1);
    r[65] = litter(9, 12, 1);
    r[126] = litter(3, 3, 1);
    r[127] = litter(11, 13, 0);
    r
}

#[derive(Clone, Copy)]
struct Answers {
    fit: Result<Fit, fit::Refused>,
    objective: Result<Objective, objective::Refused>,
    summary: Result<Counts, Refusal>,
}

// The first n of the litters, as a slice that is lent to all three.
fn lent_first(r: Request, point: [f64; 4], litters: [Litter; 129], n: usize) -> Answers
    requires { n ≤ 129 }
{
    let first = &litters[..n];
    Answers {
        fit: records::fit_probit_normal_binomial(r, first),
        objective: records::probit_normal_binomial_objective(point, first),
        summary: records::summarize(first),
    }
}

// Zeros beside a refusal.
fn shown_fit(name: &[u8], fit: Result<Fit, fit::Refused>) {
    let numbers = match fit {
        Ok(f) => {
            told(name, None, f.quadrature.0);
            [f.means[0], f.means[1], f.sds[0], f.sds[1], f.nll]
        }
        Err(e) => {
            told(name, Some(e.refusal), e.quadrature.0);
            [0.0; 5]
        }
    };
    for x in numbers {
        shown(x);
    }
    io::write_all(1, b"\n");
}

fn shown_objective(name: &[u8], objective: Result<Objective, objective::Refused>) {
    match objective {
        Ok(o) => {
            told(name, None, o.used.0);
            shown(o.v.nll);
        }
        Err(e) => {
            told(name, Some(e.refusal), e.used.0);
            shown(0.0);
        }
    }
    io::write_all(1, b"\n");
}

fn sliced(fit: &[u8], objective: &[u8], summary: &[u8], n: usize)
    requires { n ≤ 129 }
{
    let r = Request {
        mean: bounds(-3.0, 3.0, 0.0),
        sd: bounds(0.0, 3.0, 0.5),
        evaluations: FitEvaluations(100),
        iterations: Iterations(100),
        quadrature: QuadratureEvaluations(20000000),
        tolerance: 0.00000095367431640625,
    };
    let a = lent_first(r, [0.25, -0.5, 0.25, 0.5625], litters(), n);
    shown_fit(fit, a.fit);
    shown_objective(objective, a.objective);
    io::write_all(1, summary);
    io::write_all(1, b" ");
    io::print_decimal(1, number(a.summary));
    totals(b"", a.summary);
}

fn lent(name: &[u8], used: u64) {
    let p = Posterior {
        litter: 0,
        successes: 1,
        total: 2,
        mean: 0.0,
        sd: 1.0,
    };
    let mut m = Meter {
        used: QuadratureEvaluations(used),
        limit: QuadratureEvaluations(2),
    };
    let refusal = p.evaluate(0.0, &mut m).err();
    ended(name, refusal, m.used.0);
}

fn main() {
    let a = Litter {
        successes: 1,
        total: 2,
        group: 0,
    };
    let b = Litter {
        successes: 1,
        total: 2,
        group: 1,
    };
    let none = Litter {
        successes: 0,
        total: 5,
        group: 0,
    };
    let many = Litter {
        successes: 6,
        total: 5,
        group: 1,
    };
    fitted(b"example A", 4, [a, a, b, b]);
    fitted(b"example A, limit 3", 3, [a, a, b, b]);
    fitted(b"one litter in a group", 4, [a, a, none, b]);
    evaluated(b"objective", [a, a, b, b]);
    evaluated(b"more affected than pups", [a, a, b, many]);
    summarized(b"summary", [a, none, b, b]);
    summarized(b"more affected than pups", [a, none, b, many]);
    sliced(
        b"fit of a slice of 4",
        b"objective of 4",
        b"summary of 4",
        4,
    );
    sliced(
        b"fit of a slice of 128",
        b"objective of 128",
        b"summary of 128",
        128,
    );
    sliced(
        b"fit of a slice of 129",
        b"objective of 129",
        b"summary of 129",
        129,
    );
    lent(b"lent, one left", 1);
    lent(b"lent, none left", 2);
}
