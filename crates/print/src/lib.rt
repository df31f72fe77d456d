// An answer's text, written into a lent buffer with room for every answer.
#![tactic(auto)]

ghost use Rattle.std.specs.Prelude.{◌≡◌, ◌||◌, false, ◌+◌, ◌≤◌, length, get_or};
ghost use Rattle.num.specs.F64.{bits_of};
ghost use Rattle.render.specs.Written.{written};
ghost use Rattle.print.specs.Answer.{refusal_text, status_text, report_values, mark as Answer·mark, any_of, marks_of, active_of, report_text, fit_text};
ghost use Rattle.print.specs.Room.{room};

use descent::Status;
use fit::{Fit, Refused};

// A NaN's bits are not a number's: any NaN is written as this one.
#[tactic(auto, using(crate::proofs::Laws::nan_bits))]
pub fn bits(x: f64) -> u64
    ensures { result ≡ bits_of x }
{
    if x == x {
        x.to_bits()
    } else {
        0x7ff8_0000_0000_0000
    }
}

#[tactic(auto, using(render::specs::WrittenLaws::from_start), unfolding(render::specs::Width::width, crate::specs::Answer::refusal_text))]
pub fn refusal(number: u64, count: u64, reason: u64, out: &mut [u8]) -> usize
    requires { room ≤ length out.old }
    ensures length { result ≡ length (refusal_text number count reason) }
    ensures text { out.new ≡ written out.old 0 (refusal_text number count reason) }
{
    render::put(b"refused # # #\n", &[number, count, reason], out, 0)
}

#[tactic(auto, unfolding(crate::specs::Answer::status_text))]
fn status(s: Status) -> &'static [u8]
    ensures text { result.now ≡ status_text s }
    ensures fits { length result.now ≤ 26 }
{
    match s {
        Status::Converged => b"status converged\n",
        Status::EvaluationLimit => b"status evaluation-limit\n",
        Status::IterationLimit => b"status iteration-limit\n",
        Status::LineSearchFailed => b"status line-search-failed\n",
    }
}

// The SDs stand twice, as in the template.
fn values(f: Fit) -> [u64; 14]
    ensures { result ≡ report_values f }
{
    [
        bits(f.means[0]),
        bits(f.means[1]),
        bits(f.sds[0]),
        bits(f.sds[1]),
        bits(f.sds[0]),
        bits(f.sds[1]),
        bits(f.variances[0]),
        bits(f.variances[1]),
        bits(f.nll),
        bits(f.norm),
        f.evaluations.0,
        f.iterations.0,
        f.quadrature.0,
        f.litters,
    ]
}

fn any(on: [bool; 4]) -> bool
    ensures { result ≡ any_of on }
{
    on[0] || on[1] || on[2] || on[3]
}

#[tactic(auto, using(crate::proofs::Laws::by_length, render::specs::WrittenLaws::by_text, num::specs::Choose::choose, crate::proofs::Laws::unset_length, crate::proofs::Laws::unset_text))]
fn mark(on: bool, text: &[u8], out: &mut [u8], at: usize) -> usize
    requires { at + length text.now ≤ length out.old }
    ensures end { result ≡ at + length (Answer·mark on text.now) }
    ensures text { out.new ≡ written out.old at (Answer·mark on text.now) }
    ensures upper_bound { result ≤ at + length text.now }
{
    if on { render::text(text, out, at) } else { at }
}

#[tactic(auto, using(crate::proofs::Laws::then_length, crate::proofs::Laws::then_text))]
fn marks(on: [bool; 4], out: &mut [u8], at: usize) -> usize
    requires { at + 8 ≤ length out.old }
    ensures end { result ≡ at + length (marks_of on) }
    ensures text { out.new ≡ written out.old at (marks_of on) }
    ensures upper_bound { result ≤ at + 8 }
{
    let first = mark(on[0], b" 0", out, at);
    let second = mark(on[1], b" 1", out, first);
    let third = mark(on[2], b" 2", out, second);
    mark(on[3], b" 3", out, third)
}

#[tactic(auto, using(crate::proofs::Laws::some_length, crate::proofs::Laws::some_text, crate::proofs::Laws::by_length, render::specs::WrittenLaws::by_text, crate::proofs::Laws::none))]
fn active(on: [bool; 4], out: &mut [u8], at: usize) -> usize
    requires { at + 9 ≤ length out.old }
    ensures end { result ≡ at + length (active_of on) }
    ensures text { out.new ≡ written out.old at (active_of on) }
{
    if any(on) {
        let end = marks(on, out, at);
        return render::text(b"\n", out, end);
    }
    render::text(b" none\n", out, at)
}

#[tactic(auto, unfolding(render::specs::Width::width))]
fn report(f: Fit, out: &mut [u8]) -> usize
    requires { room ≤ length out.old }
    ensures length { result ≡ length (report_text f) }
    ensures text { out.new ≡ written out.old 0 (report_text f) }
{
    let first = render::text(status(f.status), out, 0);
    let second = render::put(
        b"mean % %\nsd % %\nsd % %\nvariance % %\nnll %\ngradient %\ncounts # # #\nlitters #\nactive",
        &values(f),
        out,
        first,
    );
    active(f.active, out, second)
}

#[tactic(auto, unfolding(crate::specs::Answer::fit_text))]
pub fn fit(f: Result<Fit, Refused>, out: &mut [u8]) -> usize
    requires { room ≤ length out.old }
    ensures length { result ≡ length (fit_text f) }
    ensures text { out.new ≡ written out.old 0 (fit_text f) }
{
    match f {
        Ok(f) => report(f, out),
        Err(e) => refusal(e.refusal.number(), e.quadrature.0, e.refusal.reason(), out),
    }
}
