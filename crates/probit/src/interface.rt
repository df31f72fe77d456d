// The functions for C and Rust, in the static library. include/probit.h says how to call each.
ghost use Rattle.std.specs.Prelude.{◌≡◌, [], ◌≤◌, ◌<◌, length};
ghost use Rattle.fit.specs.Fit.{fit_of, watched_of};
ghost use Rattle.explain.specs.Counts.{got, why_given};
ghost use Rattle.render.specs.Written.{written};
ghost use Rattle.objective.specs.Objective.{objective_of};
ghost use Rattle.summary.specs.Summary.{summary_of};
ghost use Rattle.request.specs.Request.{request_of};
ghost use Rattle.text.specs.Answer.{answer_text};
ghost use Rattle.print.specs.Room.{room};
ghost use Rattle.intervals.specs.Intervals.{filled, intervals_filled};
ghost use Rattle.archive_host.specs.Host.{given as left, range_given, write_given, check_given, size_given};
ghost use Rattle.claim.specs.Claim.{claim_from};
ghost use Rattle.claim.specs.Give.{vetted_given};
ghost use Rattle.vet.specs.Vet.{vet_of};
ghost use Rattle.counts.specs.Objective.{objective_of as counts_objective_of};
ghost use Rattle.counts_fit.specs.Fit.{fit_of as counts_fit_of};
ghost use Rattle.counts_host.specs.Host.{objective_given as counts_objective_given, fit_given as counts_fit_given, request_of as counts_request_of};
ghost use Rattle.objective.specs.Coordinates.{point_of};
ghost use Rattle.buffers.specs.Buffers.{fit_given, objective_given, summary_given};
ghost use Rattle.store.specs.Given.{given};
ghost use Rattle.parts.specs.Lent.{lent, told, part_in_of, finish_in_of};
ghost use Rattle.probit.specs.Joined.{answered, answer_in};

// Twelve bounds: low, high and start of mean 0, mean 1, SD 0, SD 1. Answers the ending's number.
#[tactic(auto, using(crate::proofs::Laws::fitted), unfolding(buffers::specs::Buffers::fit_room_of, buffers::specs::Buffers::fit_given))]
pub fn probit_fit(
    bounds: &[f64],
    tolerance: f64,
    evaluations: u64,
    iterations: u64,
    quadrature: u64,
    litters: &[u32],
    numbers: &mut [f64],
    counts: &mut [u64],
) -> u64
    ensures { given result numbers.new counts.new ≡ fit_given (fit_of (request_of bounds.now tolerance evaluations iterations quadrature) litters.now) bounds.now numbers.old counts.old }
{
    if !buffers::fit_room(bounds.len(), numbers.len(), counts.len()) {
        return 1;
    }
    let r = request::requested(bounds, tolerance, evaluations, iterations, quadrature);
    let f = fit::fit_probit_normal_binomial(r, vet_host::handed_on(litters));
    buffers::put_fit(f, numbers, counts)
}

// probit_fit, and beside it why the trial of that number, from 1, ended as it did, and what stopped the fit. Answers the ending's number.
#[tactic(auto, using(crate::proofs::Laws::seen), unfolding(explain::specs::Counts::why_room_of, buffers::specs::Buffers::fit_room_of, explain::specs::Counts::why_given))]
pub fn probit_why(
    bounds: &[f64],
    tolerance: f64,
    evaluations: u64,
    iterations: u64,
    quadrature: u64,
    litters: &[u32],
    number: u64,
    numbers: &mut [f64],
    counts: &mut [u64],
    reasons: &mut [u64],
) -> u64
    ensures { got result numbers.new counts.new reasons.new ≡ why_given (watched_of (request_of bounds.now tolerance evaluations iterations quadrature) litters.now number) bounds.now numbers.old counts.old reasons.old }
{
    if !explain::why_room(bounds.len(), numbers.len(), counts.len(), reasons.len()) {
        return 1;
    }
    let r = request::requested(bounds, tolerance, evaluations, iterations, quadrature);
    let s = fit::report::fit_watched(r, vet_host::handed_on(litters), number);
    explain::put_why(s, numbers, counts, reasons)
}

// Claimed are two means, two variances and the likelihood. Answers the verdict's number: 0 accepted, 1, 2, 5, 6 or 7.
#[tactic(auto, unfolding(claim::specs::Give::vet_room_of, claim::specs::Give::vetted_given))]
pub fn probit_vet(
    bounds: &[f64],
    tolerance: f64,
    evaluations: u64,
    iterations: u64,
    quadrature: u64,
    litters: &[u32],
    claimed: &[f64],
    numbers: &mut [f64],
    counts: &mut [u64],
) -> u64
    ensures { given result numbers.new counts.new ≡ vetted_given (vet_of (request_of bounds.now tolerance evaluations iterations quadrature) litters.now (claim_from claimed.now)) bounds.now claimed.now numbers.old counts.old }
{
    if !claim::give::vet_room(bounds.len(), claimed.len(), numbers.len(), counts.len()) {
        return 1;
    }
    let r = request::requested(bounds, tolerance, evaluations, iterations, quadrature);
    vet_host::vet_in(r, litters, claimed, numbers, counts)
}

fn point_of(p: &[f64]) -> [f64; 4]
    requires { length p.now ≡ 4 }
    ensures { result ≡ point_of p.now }
{
    [p[0], p[1], p[2], p[3]]
}

// Four coordinates: two means, then two variances. Answers the ending's number.
#[tactic(auto, unfolding(buffers::specs::Buffers::objective_room_of, buffers::specs::Buffers::objective_given))]
pub fn probit_objective(
    point: &[f64],
    litters: &[u32],
    numbers: &mut [f64],
    counts: &mut [u64],
) -> u64
    ensures { given result numbers.new counts.new ≡ objective_given (objective_of (point_of point.now) litters.now) point.now numbers.old counts.old }
{
    if !buffers::objective_room(point.len(), numbers.len(), counts.len()) {
        return 1;
    }
    let x = point_of(point);
    let o = objective::probit_normal_binomial_objective(x, litters);
    buffers::put_objective(o, numbers, counts)
}

// Answers the ending's number.
#[tactic(auto, unfolding(buffers::specs::Buffers::summary_given))]
pub fn probit_summary(litters: &[u32], counts: &mut [u64]) -> u64
    ensures { given result [] counts.new ≡ summary_given (summary_of litters.now) counts.old }
{
    if counts.len() < 8 {
        return 1;
    }
    buffers::put_summary(summary::summarize(litters), counts)
}

// Estimates, covariance by rows, standard errors; bit i of `marks` marks estimate i as of positive domain. Answers 0, 1 or 8.
pub fn probit_intervals(
    estimates: &[f64],
    covariance: &[f64],
    errors: &[f64],
    marks: u64,
    numbers: &mut [f64],
) -> u64
    ensures { filled result numbers.new ≡ intervals_filled estimates.now covariance.now errors.now marks numbers.old }
{
    intervals::put_intervals(estimates, covariance, errors, marks, numbers)
}

// The bytes of an archive of that many litters; 0 for more than 4,096.
pub fn probit_archive_size(litters: usize) -> usize
    ensures { result ≡ size_given litters }
{
    archive_host::size_in(litters)
}

// Litters in, three numbers each, an archive's bytes out. Answers 0, or 1 and nothing is written.
pub fn probit_archive_write(litters: &[u32], archive: &mut [u8]) -> u64
    ensures { left result archive.new ≡ write_given litters.now archive.old }
{
    archive_host::write_in(litters, archive)
}

// The eight counts from one position up to but not including another. Answers 0, 1 or 4.
pub fn probit_archive_range(archive: &[u8], from: usize, to: usize, counts: &mut [u64]) -> u64
    ensures { left result counts.new ≡ range_given archive.now from to counts.old }
{
    archive_host::range_in(archive, from, to, counts)
}

// 1 for an archive whose shape, litters and totals are right, else 0.
pub fn probit_archive_check(archive: &[u8]) -> u64
    ensures { result ≡ check_given archive.now }
{
    archive_host::check_in(archive)
}

// Events and exposures by rows. Answers the ending's number.
pub fn probit_counts_objective(
    shape: f64,
    rate: f64,
    events: &[u32],
    exposures: &[f64],
    numbers: &mut [f64],
    counts: &mut [u64],
) -> u64
    ensures { given result numbers.new counts.new ≡ counts_objective_given (counts_objective_of shape rate events.now exposures.now) numbers.old counts.old }
{
    counts_host::objective_in(shape, rate, events, exposures, numbers, counts)
}

// Six bounds: low, high and start of the shape, then of the rate. Answers the ending's number.
pub fn probit_counts_fit(
    bounds: &[f64],
    tolerance: f64,
    evaluations: u64,
    iterations: u64,
    events: &[u32],
    exposures: &[f64],
    numbers: &mut [f64],
    counts: &mut [u64],
) -> u64
    ensures { given result numbers.new counts.new ≡ counts_fit_given (counts_fit_of (counts_request_of bounds.now tolerance evaluations iterations) events.now exposures.now) bounds.now numbers.old counts.old }
{
    counts_host::fit_in(
        bounds,
        tolerance,
        evaluations,
        iterations,
        events,
        exposures,
        numbers,
        counts,
    )
}

// The interface's version: 1000 times its first number, and its second.
pub fn probit_version() -> u64
    ensures { result ≡ 1008 }
{
    1008
}

// A request's bytes in, its answer's bytes out: how many, or 0 where `out` has fewer than 512 bytes, and then it is left as it was.
pub fn probit_text(request: &[u8], out: &mut [u8]) -> usize
    ensures no_room { length out.old < room → (result ≡ 0) × (out.new ≡ out.old) }
    ensures answered { room ≤ length out.old → (result ≡ length (answer_text request.now)) × (out.new ≡ written out.old 0 (answer_text request.now)) }
{
    text::answer(request, out)
}

// The state is lent: 8,193 bytes and two counts. Answers 0; 4 after finishing, 1 for another size, and then nothing is written.
pub fn probit_part(held: &mut [u8], counts: &mut [u64], bytes: &[u8]) -> u64
    ensures { lent result held.new counts.new ≡ part_in_of held.old counts.old bytes.now }
{
    parts::lent::part_in(held, counts, bytes)
}

// Answers 0 with the request, 4 for Form with its line.
pub fn probit_finish(
    held: &[u8],
    counts: &mut [u64],
    request: &mut [u64],
    litters: &mut [u32],
) -> u64
    ensures { told result counts.new request.new litters.new ≡ finish_in_of held.now counts.old request.old litters.old }
{
    parts::lent::finish_in(held, counts, request, litters)
}

// A finishing call too, with the answer's bytes: how many, or 0 for a wrong size or a short buffer, and then nothing is written.
#[tactic(auto, unfolding(crate::specs::Joined::answer_room_of, crate::specs::Joined::answer_in, parts::specs::Lent::is_sized_of))]
pub fn probit_answer(held: &[u8], counts: &mut [u64], out: &mut [u8]) -> usize
    ensures { answered result counts.new out.new ≡ answer_in held.now counts.old out.old }
{
    if !crate::joined::answer_room(held.len(), counts.len(), out.len()) {
        return 0;
    }
    let n = counts[0] as usize;
    let m = crate::joined::answer_kept(held, n, out);
    counts[1] = 1;
    m
}
