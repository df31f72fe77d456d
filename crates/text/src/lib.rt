// From a request's bytes to its answer's.
#![tactic(auto)]

ghost use Rattle.std.specs.Prelude.{◌≡◌, ◌≤◌, ◌<◌, length};
ghost use Rattle.num.specs.F64.{bits as F64·bits};
ghost use Rattle.fit.specs.Fit.{fit_of};
ghost use Rattle.render.specs.Written.{written};
ghost use Rattle.print.specs.Answer.{fit_text};
ghost use Rattle.text.specs.Answer.{request_in, answer_text};
ghost use Rattle.print.specs.Room.{room};

use request::Request;

// Any NaN's bits give a NaN.
pub fn number(bits: u64) -> f64
    ensures { result ≡ F64·bits bits }
{
    if 0x7ff0_0000_0000_0000 < bits % 0x8000_0000_0000_0000 {
        return num::not_a_number();
    }
    f64::from_bits(bits)
}

// The bounds first, then the limits of the work and the tolerance.
pub fn request(v: [u64; 16]) -> Request
    ensures { result ≡ request_in v }
{
    let numbers = v.map(number);
    request::requested(&numbers[..12], numbers[15], v[12], v[13], v[14])
}

fn fitted(r: Request, litters: &[u32], out: &mut [u8]) -> usize
    requires { room ≤ length out.old }
    ensures length { result ≡ length (fit_text (fit_of r litters.now)) }
    ensures text { out.new ≡ written out.old 0 (fit_text (fit_of r litters.now)) }
{
    print::fit(fit::fit_probit_normal_binomial(r, litters), out)
}

// The answer's length; 0 where the buffer has not room for every answer, and then it is left as it was.
pub fn answer(text: &[u8], out: &mut [u8]) -> usize
    ensures no_room { length out.old < room → (result ≡ 0) × (out.new ≡ out.old) }
    ensures answered { room ≤ length out.old → (result ≡ length (answer_text text.now)) × (out.new ≡ written out.old 0 (answer_text text.now)) }
    ensures at_most { result ≤ room }
{
    if out.len() < 512 {
        return 0;
    }
    let mut litters = [0; 384];
    match read::request(text, &mut litters) {
        // 4 and 1: the numbers of Form and InvalidInput in an answer's text (docs/FORMAT.md).
        Err(form) => print::refusal(4, 0, form.line, out),
        Ok(asking) if 128 < asking.count => print::refusal(1, 0, 0, out),
        Ok(asking) => {
            let n = 3 * (asking.count as usize);
            fitted(request(asking.values), &litters[..n], out)
        }
    }
}
