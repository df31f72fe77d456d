// A request's text with a claim behind it, read: the request's values and litters as `read` has them, and the claim's five numbers.
#![tactic(auto)]

ghost use Rattle.std.specs.Prelude.{◌≡◌, ◌+◌, ◌≤◌, length};
ghost use Rattle.template.specs.Read.{read as Template·read};
ghost use Rattle.claimed.specs.Claimed.{claim as Claimed·claim, claim_at_of, read_claimed};
ghost use Rattle.claimed.specs.Claiming.{behind_of, claiming_of, fill_claimed};

use read::Asking;
use template::read::Form;

// What a text asks and claims.
#[derive(Clone, Copy, PartialEq, Eq)]
pub struct Claiming {
    pub asking: Asking,
    pub claim: [u64; 5],
}

// Where the claim begins: at the first line that begins with a `c`, else at the end.
fn claim_at(text: &[u8]) -> usize
    ensures value { result ≡ claim_at_of 10 text.now }
    ensures inside { result ≤ length text.now }
{
    let mut last = b'\n';
    for (i, c) in text.iter().enumerate() {
        if last == b'\n' && *c == b'c' {
            return i;
        }
        last = *c;
    }
    text.len()
}

// The claim's lines, after a request of n litters.
fn behind(text: &[u8], n: u64) -> Result<[u64; 5], Form>
    requires { n ≤ 8192 }
    ensures { result ≡ behind_of n (Template·read Claimed·claim (9 + n) text.now) }
{
    let line = 9 + n;
    let r = template::read::read(
        text,
        b"claim mean % %\nclaim variance % %\nclaim nll %\n",
        line,
    )?;
    if !r.rest.is_empty() {
        return Err(Form { line: r.line });
    }
    let v = r.values;
    Ok([v[0], v[1], v[2], v[3], v[4]])
}

pub fn claimed(text: &[u8], litters: &mut [u32; 384]) -> Result<Claiming, Form>
    ensures value { result ≡ claiming_of (read_claimed text.now) }
    ensures filled { litters.new ≡ fill_claimed litters.old text.now }
{
    if 8192 < text.len() {
        return Err(Form { line: 0 });
    }
    let (request, rest) = text.split_at(claim_at(text));
    let asking = read::request(request, litters)?;
    let claim = behind(rest, asking.count)?;
    Ok(Claiming { asking, claim })
}
