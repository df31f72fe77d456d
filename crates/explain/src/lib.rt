// Why a fit took its steps, in words: a line for a trial, and a line for what stopped the fit. The same as counts, for hosts.
#![tactic(auto)]

ghost use Rattle.std.specs.Prelude.{◌≡◌, ◌≤◌, length};
ghost use Rattle.render.specs.Width.{width};
ghost use Rattle.render.specs.Written.{written};
ghost use Rattle.explain.specs.Lines.{line, number_in, bits_in, trial_form, made_text, refused_text, trial_text, test_text, stopped_text, ending_text};
ghost use Rattle.explain.specs.Counts.{trial_counts_of, ending_counts_of, used_of, why_counts_of, why_room_of, got, put_why_of};

use descent::Trial;
use fit::Fit;
use fit::report::Seen;
use why::Test;
use work::Refusal;

// The number that decided a trial, where one did.
fn number(t: Trial) -> Option<f64>
    ensures { result ≡ number_in t }
{
    match t {
        Trial::NotDownhill(slope) => Some(slope),
        Trial::TooLittle(missed) => Some(missed),
        Trial::ByDecrease(slope) => Some(slope),
        Trial::ByRounding(allowance) => Some(allowance),
        Trial::NotMoved | Trial::CutOff => None,
    }
}

fn bits(t: Trial) -> u64
    ensures { result ≡ bits_in t }
{
    match number(t) {
        Some(x) => print::bits(x),
        None => 0,
    }
}

#[tactic(auto, unfolding(render::specs::Width::width))]
fn form(t: Trial) -> &'static [u8]
    ensures form { result.now ≡ trial_form t }
    ensures fits { width result.now ≤ line }
{
    match t {
        Trial::NotDownhill(_) => b"trial # not-downhill %\n",
        Trial::NotMoved => b"trial # not-moved\n",
        Trial::TooLittle(_) => b"trial # too-little %\n",
        Trial::ByDecrease(_) => b"trial # by-decrease %\n",
        Trial::ByRounding(_) => b"trial # by-rounding %\n",
        Trial::CutOff => b"trial # cut-off\n",
    }
}

#[tactic(auto, using(render::specs::WrittenLaws::from_start, render::specs::WrittenLaws::by_text), unfolding(crate::specs::Lines::made_text))]
fn made(n: u64, t: Trial, out: &mut [u8]) -> usize
    requires { line ≤ length out.old }
    ensures length { result ≡ length (made_text n t) }
    ensures text { out.new ≡ written out.old 0 (made_text n t) }
{
    render::put(form(t), &[n, bits(t)], out, 0)
}

#[tactic(auto, using(render::specs::WrittenLaws::from_start), unfolding(render::specs::Width::width, crate::specs::Lines::refused_text))]
fn refused(n: u64, number: u64, count: u64, reason: u64, out: &mut [u8]) -> usize
    requires { line ≤ length out.old }
    ensures length { result ≡ length (refused_text n number count reason) }
    ensures text { out.new ≡ written out.old 0 (refused_text n number count reason) }
{
    render::put(
        b"trial # refused # # #\n",
        &[n, number, count, reason],
        out,
        0,
    )
}

// The line of trial n; `used` is the fit's own count.
pub fn trial(n: u64, w: Option<Result<Trial, Refusal>>, used: u64, out: &mut [u8]) -> usize
    requires { line ≤ length out.old }
    ensures length { result ≡ length (trial_text n w used) }
    ensures text { out.new ≡ written out.old 0 (trial_text n w used) }
{
    match w {
        Some(Ok(t)) => made(n, t, out),
        Some(Err(e)) => refused(n, e.number(), used, e.reason(), out),
        None => refused(n, 1, 0, 0, out),
    }
}

fn test(t: Test) -> &'static [u8]
    ensures { result.now ≡ test_text t }
{
    match t {
        Test::Norm => b"ending norm\n",
        Test::Evaluations => b"ending evaluations\n",
        Test::Iterations => b"ending iterations\n",
        Test::Halvings => b"ending halvings\n",
        Test::Spent => b"ending cut-off\n",
    }
}

#[tactic(auto, using(render::specs::WrittenLaws::from_start), unfolding(render::specs::Width::width, crate::specs::Lines::stopped_text))]
pub fn stopped(number: u64, count: u64, reason: u64, litter: u64, out: &mut [u8]) -> usize
    requires { line ≤ length out.old }
    ensures length { result ≡ length (stopped_text number count reason litter) }
    ensures text { out.new ≡ written out.old 0 (stopped_text number count reason litter) }
{
    render::put(
        b"ending refused # # # litter #\n",
        &[number, count, reason, litter],
        out,
        0,
    )
}

// The line of what stopped a fit; `used` is the fit's own count.
#[tactic(auto, using(render::specs::WrittenLaws::from_start), unfolding(crate::specs::Lines::ending_text))]
pub fn ending(s: Result<Test, why::Refused>, used: u64, out: &mut [u8]) -> usize
    requires { line ≤ length out.old }
    ensures length { result ≡ length (ending_text s used) }
    ensures text { out.new ≡ written out.old 0 (ending_text s used) }
{
    match s {
        Ok(t) => render::text(test(t), out, 0),
        Err(e) => {
            let litter = e.litter.unwrap_or(0);
            stopped(e.refusal.number(), used, e.refusal.reason(), litter, out)
        }
    }
}

// Of a trial: its kind, the bits of the number that decided it, and where it was not made the refusal's number, count and reason.
fn trial_counts(w: Option<Result<Trial, Refusal>>, used: u64) -> [u64; 5]
    ensures { result ≡ trial_counts_of w used }
{
    match w {
        Some(Ok(t)) => [why::kind(t), bits(t), 0, 0, 0],
        Some(Err(e)) => [7, 0, e.number(), used, e.reason()],
        None => [0, 0, 1, 0, 0],
    }
}

// The test that stopped the fit, or 0, and the litter at which it was refused, or 0.
fn ending_counts(s: Result<Test, why::Refused>) -> [u64; 2]
    ensures { result ≡ ending_counts_of s }
{
    match s {
        Ok(t) => [t.number(), 0],
        Err(e) => [0, e.litter.unwrap_or(0)],
    }
}

// The quadrature evaluations behind a fit or its refusal.
pub fn used(f: Result<Fit, fit::Refused>) -> u64
    ensures { result ≡ used_of f }
{
    match f {
        Ok(f) => f.quadrature.0,
        Err(e) => e.quadrature.0,
    }
}

#[tactic(auto, unfolding(crate::specs::Counts::why_counts_of))]
fn why_counts(s: Seen) -> [u64; 7]
    ensures { result ≡ why_counts_of s }
{
    let [kind, bits, number, count, reason] = trial_counts(s.why, used(s.fit));
    let [test, litter] = ending_counts(s.stop);
    [kind, bits, number, count, reason, test, litter]
}

#[tactic(auto, unfolding(crate::specs::Counts::why_room_of))]
pub fn why_room(bounds: usize, numbers: usize, counts: usize, reasons: usize) -> bool
    ensures { result ≡ why_room_of bounds numbers counts reasons }
{
    buffers::fit_room(bounds, numbers, counts) && 7 <= reasons
}

#[tactic(auto, unfolding(crate::specs::Counts::put_why_of))]
pub fn put_why(s: Seen, numbers: &mut [f64], counts: &mut [u64], reasons: &mut [u64]) -> u64
    requires numbers { 6 ≤ length numbers.old }
    requires counts { 10 ≤ length counts.old }
    requires reasons { 7 ≤ length reasons.old }
    ensures { got result numbers.new counts.new reasons.new ≡ put_why_of s numbers.old counts.old reasons.old }
{
    store::put(&why_counts(s), reasons);
    buffers::put_fit(s.fit, numbers, counts)
}
