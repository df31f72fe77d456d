// The cosine, as a sine from the nearest odd multiple of π / 2.
// Method: the multiple is taken off by π in three parts, and the sine is its power series to y^23 / 23!.
// Error: the largest found is 0.60 units in the last place, of the sixteen points π (k - 1/4) / 16.5 at which the
// engine calls it. At other arguments it is held to no limit.
// Special cases: NaN and both infinities give NaN, and so does every number from 823549.6645826427 up and from its
// negative down, where the parts of π no longer serve; a zero, and a number below normal, gives 1.
ghost use Rattle.std.specs.Prelude.{◌≡◌};
ghost use Rattle.elementary.specs.Cos.{cos_of, sin_near_of};

const COS_INVPI: f64 = 0.3183098861837907;
// 1.5 · 2^52, which added to a number rounds it to a whole one; that and 262144, the sum from which there is no answer.
const COS_M: f64 = 6755399441055744.0;

const COS_END: f64 = 6755399441317888.0;
// π in three parts; the products of the first two with a half-odd number are exact.
const COS_P1: f64 = 3.1415926534682512;

const COS_P2: f64 = 1.2154201012607932e-10;

const COS_P3: f64 = 4.044532497591901e-21;

const SIN3: f64 = -0.16666666666666666;

const SIN5: f64 = 0.008333333333333333;

const SIN7: f64 = -0.0001984126984126984;

const SIN9: f64 = 2.7557319223985893e-06;

const SIN11: f64 = -2.505210838544172e-08;

const SIN13: f64 = 1.6059043836821613e-10;

const SIN15: f64 = -7.647163731819816e-13;

const SIN17: f64 = 2.8114572543455206e-15;

const SIN19: f64 = -8.22063524662433e-18;

const SIN21: f64 = 1.9572941063391263e-20;

const SIN23: f64 = -3.868170170630684e-23;

fn sin_near(y: f64) -> f64
    ensures { result ≡ sin_near_of y }
{
    let z = y * y;
    let s = SIN3
        + z * (SIN5
            + z * (SIN7
                + z * (SIN9
                    + z * (SIN11
                        + z * (SIN13
                            + z * (SIN15
                                + z * (SIN17 + z * (SIN19 + z * (SIN21 + z * SIN23)))))))));
    y + (y * z) * s
}

#[tactic(auto, unfolding(crate::specs::Cos::cos_of))]
pub fn cos(x: f64) -> f64
    ensures { result ≡ cos_of x }
{
    let a = num::abs(x);
    let v = a * COS_INVPI;
    let w = (v - 0.5) + COS_M;
    if w < COS_END {
        let m = (w - COS_M) + 0.5;
        let b = sin_near(((a - m * COS_P1) - m * COS_P2) - m * COS_P3);
        let even = f64::to_bits(w) % 2 == 0;
        return num::pick(even, -b, b);
    }
    num::not_a_number()
}
