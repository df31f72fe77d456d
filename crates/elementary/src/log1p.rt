// The logarithm of 1 + x: log's two parts of the rounded sum, and what its rounding lost.
// Method: u is 1 + x, rounded. The parts of log u are log_parts.rt's; what the rounding lost, over u, joins the small
// one.
// Error: the largest found is 1.44 units in the last place, next to x = -1.5 · 2^-53, of 10,213,793 arguments.
// Special cases: a zero keeps its sign, and x from -2^-54 to 2^-53, numbers below normal among them, gives x itself; -1
// gives minus infinity, and what is below -1, minus infinity too, NaN; NaN gives NaN, and plus infinity stays.
ghost use Rattle.std.specs.Prelude.{◌≡◌};
ghost use Rattle.elementary.specs.Log1p.{log1p_of};

pub fn log1p(x: f64) -> f64
    ensures { result ≡ log1p_of x }
{
    if x == 0.0 {
        return x;
    }
    let u = 1.0 + x;
    if u < 2.2250738585072014e-308 {
        if u == 0.0 {
            return -num::infinity();
        }
        return num::not_a_number();
    }
    if u < num::infinity() {
        let a = u - 1.0;
        let lost = (x - a) + (1.0 - (u - a));
        let l = crate::log_parts::parts(f64::to_bits(u), 1023.0);
        return l.hi + (l.lo + lost / u);
    }
    x
}
