// The logarithm in two parts, exact and small, for `log`, `log1p` and `lgamma`: a row of logarithms and a polynomial.
// Method: the number is z 2^k with z from about 0.698 to twice that, and z is centre (1 + p) with the centre of its
// row. `hi` is the sum of what is a multiple of 2^-42, and exact: of k ln 2, of the centre's logarithm and of p. `lo`
// is the rest of each, with a polynomial of degree 7 for log (1 + p) - p.
// Error: measured in the three functions only; their files have it.
// Special cases: none. Each caller has tested that its number is above zero and finite.
ghost use Rattle.std.specs.Prelude.{◌≡◌, ◌<◌, ◌^◌, ◌%◌};
ghost use Rattle.elementary.specs.Log.{log_exponent, log_parts, log_at};

// The bits where the range of the reduced number begins, and of 1 less those.
const LOG_OFF: u64 = 0x3fe6_5555_0000_0000;

pub const LOG_D: u64 = 0x0009_aaab_0000_0000;
// 1.5 · 2^10: added and taken away again it rounds to a multiple of 2^-42.
const LOG_M: f64 = 1536.0;
// ln 2 to a multiple of 2^-42, and the rest.
const LOG_L1: f64 = 0.6931471805598903;

const LOG_L2: f64 = 5.497923018708371e-14;

const LOG_C2: f64 = -0.5000000000000063;

const LOG_C3: f64 = 0.3333333333333411;

const LOG_C4: f64 = -0.24999999941249676;

const LOG_C5: f64 = 0.199999999383762;

const LOG_C6: f64 = -0.16668224912205906;

const LOG_C7: f64 = 0.14287196327371302;

const P46: u64 = 0x4000_0000_0000;

const P52: u64 = 0x10_0000_0000_0000;

#[derive(Clone, Copy)]
pub struct LogParts {
    pub hi: f64,
    pub lo: f64,
}

// Of t, which is a number's bits and LOG_D: its exponent, counted from sub, and the bits of its fraction.
pub fn exponent(t: u64, sub: f64) -> f64
    ensures { result ≡ log_exponent t sub }
{
    ((t / P52) as u32) as f64 - sub
}

pub fn fraction(t: u64) -> u64
    ensures { (result ≡ t % 2 ^ 52) × (result < 2 ^ 52) }
{
    t % P52
}

// b is the bits of a number above zero whose exponent counts from sub.
#[tactic(auto, unfolding(crate::specs::Log::log_parts))]
pub fn parts(b: u64, sub: f64) -> LogParts
    requires { b < 2 ^ 63 }
    ensures { result ≡ log_parts b sub }
{
    let t = b + LOG_D;
    let k = exponent(t, sub);
    let frac = fraction(t);
    at_row(k, frac, tables::log_row(frac / P46))
}

// The same of the exponent and the fraction, by the row.
#[tactic(auto, using(num::specs::Numbers::number_bits))]
pub fn at_row(k: f64, frac: u64, row: tables::LogRow) -> LogParts
    requires { frac < 2 ^ 52 }
    ensures { result ≡ log_at k frac row }
{
    let z = f64::from_bits(frac + LOG_OFF);
    let d = z - row.centre;
    let p = d * row.inverse;
    let rh = (p + LOG_M) - LOG_M;
    let rl = (d - rh * row.centre) * row.inverse;
    let q = p * p;
    let g = q
        * (((LOG_C2 + p * LOG_C3) + q * (LOG_C4 + p * LOG_C5)) + (q * q) * (LOG_C6 + p * LOG_C7));
    LogParts {
        hi: (k * LOG_L1 + row.high) + rh,
        lo: ((k * LOG_L2 + row.low) + rl) + g,
    }
}
