// The natural logarithm.
// Method: the sum of its two parts, which log_parts.rt finds by a row and a polynomial. The significand of a number
// below normal is first brought up by its leading zeros.
// Error: the largest found is 0.75 units in the last place, next to 1, of 11,995,294 arguments, some below normal.
// Special cases: NaN, minus infinity and every number below zero give NaN; a zero of either sign gives minus infinity;
// plus infinity stays; log 1 is +0.
ghost use Rattle.std.specs.Prelude.{◌≡◌};
ghost use Rattle.elementary.specs.Log.{log_of, log_small, log_place, log_by_row};

const P52: u64 = 0x10_0000_0000_0000;

// Below the least normal number. The significand is brought up by its leading zeros, and the exponent counts from so much more.
#[tactic(auto, using(num::specs::F64::bits_of, num::specs::Choose::choose, num::specs::Numbers::above_number, num::specs::Leading::BroughtUp, num::specs::Leading::brought_up), unfolding(crate::specs::Log::log_small))]
fn small(x: f64) -> f64
    ensures { result ≡ log_small x }
{
    if 0.0 < x {
        let m = f64::to_bits(x) % P52;
        let s = u64::leading_zeros(m) - 11;
        let r = crate::log_parts::parts(m << s, 1023.0 + s as f64);
        return r.hi + r.lo;
    }
    if x == 0.0 {
        return -num::infinity();
    }
    num::not_a_number()
}

pub fn log(x: f64) -> f64
    ensures { result ≡ log_of x }
{
    if x < 2.2250738585072014e-308 {
        return small(x);
    }
    if x < num::infinity() {
        let r = crate::log_parts::parts(f64::to_bits(x), 1023.0);
        return r.hi + r.lo;
    }
    x
}

// For many numbers at once, in two parts with the table's row between them. A number's place is the t that `parts` makes of it, or 0 where `log` goes another way.
pub fn place(x: f64) -> u64
    ensures { result ≡ log_place x }
{
    if x < 2.2250738585072014e-308 {
        return 0;
    }
    if x < num::infinity() {
        return f64::to_bits(x) + crate::log_parts::LOG_D;
    }
    0
}

// The logarithm by the place and its row.
#[tactic(auto, unfolding(crate::specs::Log::log_by_row))]
pub fn by_row(t: u64, row: tables::LogRow) -> f64
    ensures { result ≡ log_by_row t row }
{
    let k = crate::log_parts::exponent(t, 1023.0);
    let r = crate::log_parts::at_row(k, crate::log_parts::fraction(t), row);
    r.hi + r.lo
}
