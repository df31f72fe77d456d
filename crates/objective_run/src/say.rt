// The lines.
use objective::{Objective, Refused};
use work::{Meter, QuadratureEvaluations, Refusal};

fn line(name: &[u8], number: u64, reason: u64, used: u64) {
    io::write_all(1, name);
    io::write_all(1, b" ");
    io::print_decimal(1, number);
    io::write_all(1, b" ");
    io::print_decimal(1, reason);
    io::write_all(1, b" ");
    io::print_decimal(1, used);
    io::write_all(1, b"\n");
}

// The whole limit, none of it used.
pub fn meter(limit: u64) -> Meter {
    Meter::of(QuadratureEvaluations(limit))
}

// Of an answer only that there is one is shown.
pub fn answer<T: Drop>(name: &[u8], r: Result<T, Refusal>, m: Meter) {
    match r {
        Ok(_) => line(name, 0, 0, m.used.0),
        Err(e) => line(name, e.number(), e.reason(), m.used.0),
    }
}

pub fn objective(name: &[u8], o: Result<Objective, Refused>) {
    match o {
        Ok(o) => line(name, 0, 0, o.used.0),
        Err(r) => line(name, r.refusal.number(), r.refusal.reason(), r.used.0),
    }
}

// Two numbers by their bits.
pub fn pair(name: &[u8], a: f64, b: f64) {
    io::write_all(1, name);
    io::write_all(1, b" ");
    io::print_hex(1, bits(a), 16);
    io::write_all(1, b" ");
    io::print_hex(1, bits(b), 16);
    io::write_all(1, b"\n");
}

// The numbers shown are small; the test says that x is no NaN, whose bits are not set.
fn bits(x: f64) -> u64 {
    if x < 1000000.0 {
        return f64::to_bits(x);
    }
    0
}
