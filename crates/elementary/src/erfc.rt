// The complementary error function: rows of polynomials up to 5.72, a series in 1 / a² times an exponential beyond.
// Method: a row serves the numbers within 1/32 of a multiple of 1/16, by a polynomial of degree 11 about its centre.
// Beyond, exp(-a²) / a times a polynomial of degree 12 in 1 / a², where a² is the exact square of a rounded a and what
// that leaves. Below zero it is 2 less erfc of -x.
// Error: the largest found is 2.70 units in the last place, at 18.447978493698344, of 12,809,475 arguments, and 1.63 up
// to 5.72; where the result is below normal, 1.48 times 2^-1074.
// Special cases: NaN gives NaN, a zero 1. The result is 2 below -6, minus infinity too, and +0 from 28 up, plus
// infinity too.
ghost use Rattle.std.specs.Prelude.{◌≡◌};
ghost use Rattle.elementary.specs.Erfc.{erfc_of, erfc_pos_of, erfc_at_row, erfc_tail, erfc_by_series, erfc_has_row, erfc_place};

// 1.5 · 2^48, which added to a number rounds it to a multiple of 1 / 16; that and 5.75, the sum from which no row serves.
const ERFC_M: f64 = 422212465065984.0;

const ERFC_END: f64 = 422212465065989.75;
// 1.5 · 2^33: added and taken away again it rounds to a multiple of 2^-19, whose square is exact.
const TAIL_M: f64 = 12884901888.0;

const ERFC_S0: f64 = 0.5641895835477563;

const ERFC_S1: f64 = -0.28209479177386376;

const ERFC_S2: f64 = 0.4231421876500811;

const ERFC_S3: f64 = -1.0578554648445748;

const ERFC_S4: f64 = 3.7024930843795305;

const ERFC_S5: f64 = -16.66105265256457;

const ERFC_S6: f64 = 91.61769058864627;

const ERFC_S7: f64 = -594.136885122384;

const ERFC_S8: f64 = 4381.965546368088;

const ERFC_S9: f64 = -34451.2042644077;

const ERFC_S10: f64 = 254800.3156668372;

const ERFC_S11: f64 = -1446410.9151515737;

const ERFC_S12: f64 = 4368768.806555064;

pub fn at_row(row: tables::ErfcRow, a: f64) -> f64
    ensures { result ≡ erfc_at_row row a }
{
    let h = a - row.centre;
    let h2 = h * h;
    let h4 = h2 * h2;
    let p = (row.a1 + h * row.a2) + h2 * (row.a3 + h * row.a4);
    let q = (row.a5 + h * row.a6) + h2 * (row.a7 + h * row.a8);
    let s = (row.a9 + h * row.a10) + h2 * row.a11;
    row.value + h * ((p + h4 * q) + (h4 * h4) * s)
}

fn by_series(u: f64) -> f64
    ensures { result ≡ erfc_by_series u }
{
    ERFC_S0
        + u * (ERFC_S1
            + u * (ERFC_S2
                + u * (ERFC_S3
                    + u * (ERFC_S4
                        + u * (ERFC_S5
                            + u * (ERFC_S6
                                + u * (ERFC_S7
                                    + u * (ERFC_S8
                                        + u * (ERFC_S9
                                            + u * (ERFC_S10
                                                + u * (ERFC_S11 + u * ERFC_S12)))))))))))
}

#[tactic(auto, unfolding(crate::specs::Erfc::erfc_tail))]
fn tail(a: f64) -> f64
    ensures { result ≡ erfc_tail a }
{
    if a < 28.0 {
        let z = (a + TAIL_M) - TAIL_M;
        let g = (z - a) * (z + a);
        let s = by_series(1.0 / (a * a));
        return crate::exp::low(-(z * z), g) * (s / a);
    }
    if a != a { a } else { 0.0 }
}

// For an a that is not below zero.
#[tactic(auto, unfolding(crate::specs::Erfc::erfc_pos_of))]
pub fn erfc_pos(a: f64) -> f64
    ensures { result ≡ erfc_pos_of a }
{
    let w = a + ERFC_M;
    if w < ERFC_END {
        let row = tables::erfc_row(f64::to_bits(w) % 128);
        return at_row(row, a);
    }
    tail(a)
}

#[tactic(auto, unfolding(crate::specs::Erfc::erfc_of))]
pub fn erfc(x: f64) -> f64
    ensures { result ≡ erfc_of x }
{
    if x < -6.0 {
        return 2.0;
    }
    if x < 0.0 {
        return 2.0 - erfc_pos(-x);
    }
    erfc_pos(x)
}

// For many numbers at once, with the table's row between the two: whether a row serves an a that is not below zero, and which; 0 where none does.
pub fn has_row(a: f64) -> bool
    ensures { result ≡ erfc_has_row a }
{
    a + ERFC_M < ERFC_END
}

#[tactic(auto, unfolding(crate::specs::Erfc::erfc_place))]
pub fn place(a: f64) -> u64
    ensures { result ≡ erfc_place a }
{
    let w = a + ERFC_M;
    if w < ERFC_END {
        return f64::to_bits(w) % 128;
    }
    0
}
