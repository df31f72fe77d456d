// The exponential: rows of 2^(i/64) farther than 3/8 from zero, the power series nearer.
// Method: within 3/8 of zero the series to x^14 / 14!. Farther out x is n ln 2 / 64 + r with the nearest whole n: the
// row of n mod 64, a polynomial of degree 5 for exp r, and a power of two, put on in two steps near overflow and
// underflow.
// Error: the largest found is 0.67 units in the last place, within 3/8 of zero, of 11,033,870 arguments; where the
// result is below normal, 0.76 times 2^-1074. Proved within 3/8 of zero: within 2^-48 (crates/exponential).
// Special cases: NaN gives NaN, a zero 1, minus infinity +0, plus infinity itself. The result is plus infinity from
// 709.7827128933841 up, and +0 from -745.1332191019412 down.
ghost use Rattle.std.specs.Prelude.{◌≡◌};
ghost use Rattle.elementary.specs.Exp.{exp_of, exp_small, exp_sum, exp_reduced, exp_poly, exp_scaled, exp_far, exp_finish, exp_low, exp_below, exp_above, exp_place, exp_by_row};

// 64 / ln 2, and 1.5 · 2^52 + 131072, which added to a number rounds it to a whole one.
const EXP_INV: f64 = 92.33248261689366;

const EXP_M: f64 = 6755399441186816.0;
// The sum with EXP_M from which the result is infinite, and up to which it is zero.
const EXP_HIGH: f64 = 6755399441252416.0;

const EXP_LOW: f64 = 6755399441117888.0;
// ln 2 / 64 in two parts. The first is short: its product with the whole number is exact.
const EXP_L1: f64 = 0.010830424696223417;

const EXP_L2: f64 = 2.572804622327669e-14;

const EXP_C2: f64 = 0.49999999999947325;

const EXP_C3: f64 = 0.16666666666657637;

const EXP_C4: f64 = 0.04166672391594978;

const EXP_C5: f64 = 0.008333342095952385;
// 1 / n!
const FACT2: f64 = 0.5;

const FACT3: f64 = 0.16666666666666666;

const FACT4: f64 = 0.041666666666666664;

const FACT5: f64 = 0.008333333333333333;

const FACT6: f64 = 0.001388888888888889;

const FACT7: f64 = 0.0001984126984126984;

const FACT8: f64 = 2.48015873015873e-05;

const FACT9: f64 = 2.7557319223985893e-06;

const FACT10: f64 = 2.755731922398589e-07;

const FACT11: f64 = 2.505210838544172e-08;

const FACT12: f64 = 2.08767569878681e-09;

const FACT13: f64 = 1.6059043836821613e-10;

const FACT14: f64 = 1.1470745597729725e-11;

const P52: u64 = 0x10_0000_0000_0000;

pub fn small(x: f64) -> f64
    ensures { result ≡ exp_small x }
{
    let z = x * x;
    let z2 = z * z;
    let z4 = z2 * z2;
    let p = ((FACT2 + x * FACT3) + z * (FACT4 + x * FACT5))
        + z2 * ((FACT6 + x * FACT7) + z * (FACT8 + x * FACT9));
    let q = ((FACT10 + x * FACT11) + z * (FACT12 + x * FACT13)) + z2 * FACT14;
    let h = 1.0 + x;
    let f = x - (h - 1.0);
    h + (f + z * (p + z4 * q))
}

fn sum(x: f64) -> f64
    ensures { result ≡ exp_sum x }
{
    x * EXP_INV + EXP_M
}

fn reduced(x: f64, w: f64) -> f64
    ensures { result ≡ exp_reduced x w }
{
    let n = w - EXP_M;
    (x - n * EXP_L1) - n * EXP_L2
}

// exp r - 1, and the row's rest with it.
fn polynomial(rest: f64, r: f64) -> f64
    ensures { result ≡ exp_poly rest r }
{
    let z = r * r;
    ((rest + r) + z * (EXP_C2 + r * EXP_C3)) + (z * z) * (EXP_C4 + r * EXP_C5)
}

fn scaled(t: f64, scale: f64, p: f64) -> f64
    ensures { result ≡ exp_scaled t scale p }
{
    let s = t * scale;
    s + s * p
}

#[tactic(auto, using(num::specs::Choose::choose, num::specs::Numbers::number_bits), unfolding(crate::specs::Exp::exp_far))]
fn far(t: f64, p: f64, e: u64) -> f64
    ensures { result ≡ exp_far t p e }
{
    if e < 900 {
        return 0.0;
    }
    if 3100 < e {
        return 0.0;
    }
    let a = e / 2;
    let y = t + t * p;
    (y * f64::from_bits((a - 1) * P52)) * f64::from_bits((e - a - 1) * P52)
}

#[tactic(auto, using(num::specs::Choose::choose, num::specs::Numbers::number_bits), unfolding(crate::specs::Exp::exp_finish))]
fn finish(m: u64, r: f64) -> f64
    ensures { result ≡ exp_finish m r }
{
    let row = tables::exp_row(m % 64);
    let e = m / 64;
    let p = polynomial(row.rest, r);
    if e < 1100 {
        return far(row.value, p, e);
    }
    if 3070 < e {
        return far(row.value, p, e);
    }
    scaled(row.value, f64::from_bits((e - 1025) * P52), p)
}

// The exponential of x + lo, for an x below zero and a far smaller lo.
#[tactic(auto, unfolding(crate::specs::Exp::exp_low))]
pub fn low(x: f64, lo: f64) -> f64
    ensures { result ≡ exp_low x lo }
{
    let w = sum(x);
    if EXP_LOW < w {
        return finish(f64::to_bits(w) % 262144, reduced(x, w) + lo);
    }
    0.0
}

#[tactic(auto, unfolding(crate::specs::Exp::exp_below))]
fn below(x: f64) -> f64
    ensures { result ≡ exp_below x }
{
    let w = sum(x);
    if EXP_LOW < w {
        return finish(f64::to_bits(w) % 262144, reduced(x, w));
    }
    0.0
}

#[tactic(auto, unfolding(crate::specs::Exp::exp_above))]
fn above(x: f64) -> f64
    ensures { result ≡ exp_above x }
{
    let w = sum(x);
    if w < EXP_HIGH {
        return finish(f64::to_bits(w) % 262144, reduced(x, w));
    }
    num::infinity()
}

#[tactic(auto, unfolding(crate::specs::Exp::exp_of))]
pub fn exp(x: f64) -> f64
    ensures { result ≡ exp_of x }
{
    if x < -0.375 {
        return below(x);
    }
    if 0.375 < x {
        return above(x);
    }
    small(x)
}

// For many numbers at once, in two parts with the table's row between them. A number's place is the m that `finish` takes, or 0 past a cut.
#[tactic(auto, unfolding(crate::specs::Exp::exp_place))]
pub fn place(x: f64) -> u64
    ensures { result ≡ exp_place x }
{
    let w = sum(x);
    if EXP_LOW < w {
        if w < EXP_HIGH {
            return f64::to_bits(w) % 262144;
        }
        return 0;
    }
    0
}

// The exponential by the place m and its row, where `finish` does not go to `far`.
#[tactic(auto, using(num::specs::Numbers::number_bits), unfolding(crate::specs::Exp::exp_by_row))]
pub fn by_row(x: f64, m: u64, row: tables::ExpRow) -> f64
    ensures { result ≡ exp_by_row x m row }
{
    let p = polynomial(row.rest, reduced(x, sum(x)));
    // m / 64 - 1025 where the value counts, and a number's exponent at any other m
    scaled(row.value, f64::from_bits((m / 64 + 1023) % 2048 * P52), p)
}
