// From the bytes of a request with a claim to those of the verdict.
#![tactic(auto)]

ghost use Rattle.std.specs.Prelude.{◌≡◌, ◌≤◌, ◌<◌, length};
ghost use Rattle.num.specs.F64.{bits_of};
ghost use Rattle.render.specs.Written.{written};
ghost use Rattle.print.specs.Room.{room};
ghost use Rattle.vet.specs.Vet.{vet_of};
ghost use Rattle.vet_text.specs.Answer.{claim_in, accepted_text, vetted_text, vet_text};

use claim::{Claim, Refused, Vetted};
use request::Request;

fn claim_of(u: [u64; 5]) -> Claim
    ensures { result ≡ claim_in u }
{
    Claim {
        means: [text::number(u[0]), text::number(u[1])],
        variances: [text::number(u[2]), text::number(u[3])],
        nll: text::number(u[4]),
    }
}

#[tactic(auto, using(render::specs::WrittenLaws::from_start), unfolding(render::specs::Width::width, crate::specs::Answer::accepted_text))]
fn accepted(count: u64, nll: f64, norm: f64, out: &mut [u8]) -> usize
    requires { room ≤ length out.old }
    ensures length { result ≡ length (accepted_text count (bits_of nll) (bits_of norm)) }
    ensures text { out.new ≡ written out.old 0 (accepted_text count (bits_of nll) (bits_of norm)) }
{
    let values = [count, print::bits(nll), print::bits(norm)];
    render::put(b"accepted # % %\n", &values, out, 0)
}

#[tactic(auto, unfolding(crate::specs::Answer::vetted_text))]
fn vetted(v: Result<Vetted, Refused>, out: &mut [u8]) -> usize
    requires { room ≤ length out.old }
    ensures length { result ≡ length (vetted_text v) }
    ensures text { out.new ≡ written out.old 0 (vetted_text v) }
{
    match v {
        Ok(v) => accepted(v.used.0, v.nll, v.norm, out),
        Err(e) => print::refusal(e.refusal.number(), e.used.0, e.refusal.reason(), out),
    }
}

fn judged(r: Request, litters: &[u32], c: Claim, out: &mut [u8]) -> usize
    requires { room ≤ length out.old }
    ensures length { result ≡ length (vetted_text (vet_of r litters.now c)) }
    ensures text { out.new ≡ written out.old 0 (vetted_text (vet_of r litters.now c)) }
{
    vetted(vet::vet(r, litters, c), out)
}

// The verdict's length; 0 where the buffer has not room for every answer, and then it is left as it was.
pub fn answer(text: &[u8], out: &mut [u8]) -> usize
    ensures no_room { length out.old < room → (result ≡ 0) × (out.new ≡ out.old) }
    ensures answered { room ≤ length out.old → (result ≡ length (vet_text text.now)) × (out.new ≡ written out.old 0 (vet_text text.now)) }
    ensures at_most { result ≤ room }
{
    if out.len() < 512 {
        return 0;
    }
    let mut litters = [0; 384];
    match claimed::claimed(text, &mut litters) {
        // 4 and 1: the numbers of Form and InvalidInput in an answer's text (docs/FORMAT.md).
        Err(form) => print::refusal(4, 0, form.line, out),
        Ok(a) if 128 < a.asking.count => print::refusal(1, 0, 0, out),
        Ok(a) => {
            let n = 3 * (a.asking.count as usize);
            let request = text::request(a.asking.values);
            judged(request, &litters[..n], claim_of(a.claim), out)
        }
    }
}
