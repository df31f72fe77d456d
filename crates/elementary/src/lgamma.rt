// The logarithm of the gamma function above zero: a product up to 23.5, Stirling's series beyond.
// Method: from 0 to 1 lgamma (1 + y) is y (y - 1) times a polynomial of degree 21 in y - 1/2. Below 1 it is that less
// log x; up to 23.5 it is the logarithm of (x - 1) (x - 2) .., down to a factor above 1, and lgamma (1 + y) of what is
// left then; beyond, Stirling's series of five terms with log x in two parts.
// Error: the largest found is 0.51 units in the last place, at 52061, of the whole numbers from 1 to 1,000,001. At
// other arguments it is held to no limit.
// Special cases: NaN, minus infinity and every number below zero give NaN; a zero of either sign gives plus infinity;
// plus infinity stays; 1 and 2 give +0.
ghost use Rattle.std.specs.Prelude.{◌≡◌};
ghost use Rattle.elementary.specs.Lgamma.{lgamma_of, lgamma_below_one, lgamma_poly, product_of, lgamma_by_product, lgamma_by_stirling};

const LGAM_C: f64 = 0.4189385332046727;

const STIR0: f64 = 0.08333333333333333;

const STIR1: f64 = -0.002777777777777778;

const STIR2: f64 = 0.0007936507936507937;

const STIR3: f64 = -0.0005952380952380953;

const STIR4: f64 = 0.0008417508417508417;
// 1.5 · 2^26: added and taken away again it rounds to a multiple of 2^-26.
const LGAM_M: f64 = 100663296.0;

const LGAM_S0: f64 = 0.4831289505409809;

const LGAM_S1: f64 = -0.14595989591430608;

const LGAM_S2: f64 = 0.06291140107456945;

const LGAM_S3: f64 = -0.03130848750101045;

const LGAM_S4: f64 = 0.016797098630837448;

const LGAM_S5: f64 = -0.00942562244856262;

const LGAM_S6: f64 = 0.0054464578564080626;

const LGAM_S7: f64 = -0.0032120740718162865;

const LGAM_S8: f64 = 0.00192291593680345;

const LGAM_S9: f64 = -0.0011644146322421886;

const LGAM_S10: f64 = 0.0007115239852444802;

const LGAM_S11: f64 = -0.0004379923965360582;

const LGAM_S12: f64 = 0.0002712734188596436;

const LGAM_S13: f64 = -0.00016892372853121918;

const LGAM_S14: f64 = 0.00010556387816620896;

const LGAM_S15: f64 = -6.610939076060058e-05;

const LGAM_S16: f64 = 4.236498300139654e-05;

const LGAM_S17: f64 = -2.7306675829236123e-05;

const LGAM_S18: f64 = 1.4363511424010439e-05;

const LGAM_S19: f64 = -8.163396895680878e-06;

const LGAM_S20: f64 = 1.1243309734941206e-05;

const LGAM_S21: f64 = -7.909875730557344e-06;

// p is (x - 1) (x - 2) .. down to a last factor above 1, and y what is left then.
#[derive(Clone, Copy)]
pub struct Factors {
    pub p: f64,
    pub y: f64,
}

fn poly(w: f64) -> f64
    ensures { result ≡ lgamma_poly w }
{
    LGAM_S0
        + w * (LGAM_S1
            + w * (LGAM_S2
                + w * (LGAM_S3
                    + w * (LGAM_S4
                        + w * (LGAM_S5
                            + w * (LGAM_S6
                                + w * (LGAM_S7
                                    + w * (LGAM_S8
                                        + w * (LGAM_S9
                                            + w * (LGAM_S10
                                                + w * (LGAM_S11
                                                    + w * (LGAM_S12
                                                        + w * (LGAM_S13
                                                            + w * (LGAM_S14
                                                                + w * (LGAM_S15
                                                                    + w * (LGAM_S16
                                                                        + w * (LGAM_S17
                                                                            + w * (LGAM_S18
                                                                                + w * (LGAM_S19
                                                                                    + w * (LGAM_S20
                                                                                        + w * LGAM_S21))))))))))))))))))))
}

fn product(x: f64) -> Factors
    ensures { result ≡ product_of x }
{
    let mut y = x - 1.0;
    let mut p = 1.0;
    for _ in 0..22u64 {
        if y <= 1.0 {
            return Factors { p: p, y: y };
        }
        p = p * y;
        y = y - 1.0;
    }
    Factors { p: p, y: y }
}

#[tactic(auto, unfolding(crate::specs::Lgamma::lgamma_below_one))]
fn below_one(x: f64) -> f64
    ensures { result ≡ lgamma_below_one x }
{
    if 0.0 < x {
        return (x * (x - 1.0)) * poly(x - 0.5) - crate::log::log(x);
    }
    if x == 0.0 {
        return num::infinity();
    }
    num::not_a_number()
}

// At a whole x the product is an exact factorial.
#[tactic(auto, unfolding(crate::specs::Lgamma::lgamma_by_product))]
fn by_product(x: f64) -> f64
    ensures { result ≡ lgamma_by_product x }
{
    let f = product(x);
    let y = f.y;
    let l = crate::log::log(f.p);
    if y == 1.0 {
        return l;
    }
    if y == 0.0 {
        return l;
    }
    l + (y * (y - 1.0)) * poly(y - 0.5)
}

fn by_stirling(x: f64, hi: f64, lo: f64) -> f64
    ensures { result ≡ lgamma_by_stirling x hi lo }
{
    let a = x - 0.5;
    let h = hi - 1.0;
    let hs = (h + LGAM_M) - LGAM_M;
    let hl = h - hs;
    let u = 1.0 / x;
    let q = u * u;
    let w = u * (STIR0 + q * (STIR1 + q * (STIR2 + q * (STIR3 + q * STIR4))));
    a * hs + (a * (hl + lo) + (LGAM_C + w))
}

pub fn lgamma(x: f64) -> f64
    ensures { result ≡ lgamma_of x }
{
    if x < 1.0 {
        return below_one(x);
    }
    if x < 23.5 {
        return by_product(x);
    }
    if x < num::infinity() {
        let l = crate::log_parts::parts(f64::to_bits(x), 1023.0);
        return by_stirling(x, l.hi, l.lo);
    }
    x
}
