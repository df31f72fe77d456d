// The functions for C, in the static library. include/probit.h says how to call each.
#![tactic(auto)]

ghost use Rattle.std.specs.Prelude.{◌≡◌, [], ◌≤◌, ◌<◌, length};
ghost use Rattle.fit.specs.Fit.{fit_of, watched_of};
ghost use Rattle.explain.specs.Counts.{got, why_given};
ghost use Rattle.render.specs.Written.{written};
ghost use Rattle.objective.specs.Objective.{objective_of};
ghost use Rattle.summary.specs.Summary.{summary_of};
ghost use Rattle.request.specs.Request.{request_of};
ghost use Rattle.text.specs.Answer.{answer_text};
ghost use Rattle.print.specs.Room.{room};
ghost use Rattle.intervals.specs.Intervals.{filled, intervals_filled};
ghost use Rattle.archive_host.specs.Host.{given as left, range_given, write_given, check_given, size_given};
ghost use Rattle.claim.specs.Claim.{claim_from};
ghost use Rattle.claim.specs.Give.{vetted_given};
ghost use Rattle.vet.specs.Vet.{vet_of};
ghost use Rattle.counts.specs.Objective.{objective_of as counts_objective_of};
ghost use Rattle.counts_fit.specs.Fit.{fit_of as counts_fit_of};
ghost use Rattle.counts_host.specs.Host.{objective_given as counts_objective_given, fit_given as counts_fit_given, request_of as counts_request_of};
ghost use Rattle.objective.specs.Coordinates.{point_of};
ghost use Rattle.buffers.specs.Buffers.{fit_given, objective_given, summary_given};
ghost use Rattle.store.specs.Given.{given};
ghost use Rattle.parts.specs.Lent.{lent, told, part_in_of, finish_in_of};
ghost use Rattle.probit.specs.Joined.{answered, answer_in};

// Twelve bounds: low, high and start of mean 0, mean 1, SD 0, SD 1. Answers the ending's number.
#[unsafe(no_mangle)]
pub extern "C" fn probit_fit(
    bounds: &[f64],
    tolerance: f64,
    evaluations: u64,
    iterations: u64,
    quadrature: u64,
    litters: &[u32],
    numbers: &mut [f64],
    counts: &mut [u64],
) -> u64
    ensures { given result numbers.new counts.new ≡ fit_given (fit_of (request_of bounds.now tolerance evaluations iterations quadrature) litters.now) bounds.now numbers.old counts.old }
{
    probit::interface::probit_fit(
        bounds,
        tolerance,
        evaluations,
        iterations,
        quadrature,
        litters,
        numbers,
        counts,
    )
}

// probit_fit, and beside it why the trial of that number, from 1, ended as it did, and what stopped the fit. Answers the ending's number.
#[unsafe(no_mangle)]
pub extern "C" fn probit_why(
    bounds: &[f64],
    tolerance: f64,
    evaluations: u64,
    iterations: u64,
    quadrature: u64,
    litters: &[u32],
    number: u64,
    numbers: &mut [f64],
    counts: &mut [u64],
    reasons: &mut [u64],
) -> u64
    ensures { got result numbers.new counts.new reasons.new ≡ why_given (watched_of (request_of bounds.now tolerance evaluations iterations quadrature) litters.now number) bounds.now numbers.old counts.old reasons.old }
{
    probit::interface::probit_why(
        bounds,
        tolerance,
        evaluations,
        iterations,
        quadrature,
        litters,
        number,
        numbers,
        counts,
        reasons,
    )
}

// Claimed are two means, two variances and the likelihood. Answers the verdict's number: 0 accepted, 1, 2, 5, 6 or 7.
#[unsafe(no_mangle)]
pub extern "C" fn probit_vet(
    bounds: &[f64],
    tolerance: f64,
    evaluations: u64,
    iterations: u64,
    quadrature: u64,
    litters: &[u32],
    claimed: &[f64],
    numbers: &mut [f64],
    counts: &mut [u64],
) -> u64
    ensures { given result numbers.new counts.new ≡ vetted_given (vet_of (request_of bounds.now tolerance evaluations iterations quadrature) litters.now (claim_from claimed.now)) bounds.now claimed.now numbers.old counts.old }
{
    probit::interface::probit_vet(
        bounds,
        tolerance,
        evaluations,
        iterations,
        quadrature,
        litters,
        claimed,
        numbers,
        counts,
    )
}

// Four coordinates: two means, then two variances. Answers the ending's number.
#[unsafe(no_mangle)]
pub extern "C" fn probit_objective(
    point: &[f64],
    litters: &[u32],
    numbers: &mut [f64],
    counts: &mut [u64],
) -> u64
    ensures { given result numbers.new counts.new ≡ objective_given (objective_of (point_of point.now) litters.now) point.now numbers.old counts.old }
{
    probit::interface::probit_objective(point, litters, numbers, counts)
}

// Answers the ending's number.
#[unsafe(no_mangle)]
pub extern "C" fn probit_summary(litters: &[u32], counts: &mut [u64]) -> u64
    ensures { given result [] counts.new ≡ summary_given (summary_of litters.now) counts.old }
{
    probit::interface::probit_summary(litters, counts)
}

// Estimates, covariance by rows, standard errors; bit i of `marks` marks estimate i as of positive domain. Answers 0, 1 or 8.
#[unsafe(no_mangle)]
pub extern "C" fn probit_intervals(
    estimates: &[f64],
    covariance: &[f64],
    errors: &[f64],
    marks: u64,
    numbers: &mut [f64],
) -> u64
    ensures { filled result numbers.new ≡ intervals_filled estimates.now covariance.now errors.now marks numbers.old }
{
    probit::interface::probit_intervals(estimates, covariance, errors, marks, numbers)
}

// The bytes of an archive of that many litters; 0 for more than 4,096.
#[unsafe(no_mangle)]
pub extern "C" fn probit_archive_size(litters: usize) -> usize
    ensures { result ≡ size_given litters }
{
    probit::interface::probit_archive_size(litters)
}

// Litters in, three numbers each, an archive's bytes out. Answers 0, or 1 and nothing is written.
#[unsafe(no_mangle)]
pub extern "C" fn probit_archive_write(litters: &[u32], archive: &mut [u8]) -> u64
    ensures { left result archive.new ≡ write_given litters.now archive.old }
{
    probit::interface::probit_archive_write(litters, archive)
}

// The eight counts from one position up to but not including another. Answers 0, 1 or 4.
#[unsafe(no_mangle)]
pub extern "C" fn probit_archive_range(
    archive: &[u8],
    from: usize,
    to: usize,
    counts: &mut [u64],
) -> u64
    ensures { left result counts.new ≡ range_given archive.now from to counts.old }
{
    probit::interface::probit_archive_range(archive, from, to, counts)
}

// 1 for an archive whose shape, litters and totals are right, else 0.
#[unsafe(no_mangle)]
pub extern "C" fn probit_archive_check(archive: &[u8]) -> u64
    ensures { result ≡ check_given archive.now }
{
    probit::interface::probit_archive_check(archive)
}

// Events and exposures by rows. Answers the ending's number.
#[unsafe(no_mangle)]
pub extern "C" fn probit_counts_objective(
    shape: f64,
    rate: f64,
    events: &[u32],
    exposures: &[f64],
    numbers: &mut [f64],
    counts: &mut [u64],
) -> u64
    ensures { given result numbers.new counts.new ≡ counts_objective_given (counts_objective_of shape rate events.now exposures.now) numbers.old counts.old }
{
    probit::interface::probit_counts_objective(shape, rate, events, exposures, numbers, counts)
}

// Six bounds: low, high and start of the shape, then of the rate. Answers the ending's number.
#[unsafe(no_mangle)]
pub extern "C" fn probit_counts_fit(
    bounds: &[f64],
    tolerance: f64,
    evaluations: u64,
    iterations: u64,
    events: &[u32],
    exposures: &[f64],
    numbers: &mut [f64],
    counts: &mut [u64],
) -> u64
    ensures { given result numbers.new counts.new ≡ counts_fit_given (counts_fit_of (counts_request_of bounds.now tolerance evaluations iterations) events.now exposures.now) bounds.now numbers.old counts.old }
{
    probit::interface::probit_counts_fit(
        bounds,
        tolerance,
        evaluations,
        iterations,
        events,
        exposures,
        numbers,
        counts,
    )
}

// The interface's version: 1000 times its first number, and its second.
#[unsafe(no_mangle)]
pub extern "C" fn probit_version() -> u64
    ensures { result ≡ 1008 }
{
    probit::interface::probit_version()
}

// A request's bytes in, its answer's bytes out: how many, or 0 where `out` has fewer than 512 bytes, and then it is left as it was.
#[unsafe(no_mangle)]
pub extern "C" fn probit_text(request: &[u8], out: &mut [u8]) -> usize
    ensures no_room { length out.old < room → (result ≡ 0) × (out.new ≡ out.old) }
    ensures answered { room ≤ length out.old → (result ≡ length (answer_text request.now)) × (out.new ≡ written out.old 0 (answer_text request.now)) }
{
    probit::interface::probit_text(request, out)
}

// The state is lent: 8,193 bytes and two counts. Answers 0; 4 after finishing, 1 for another size, and then nothing is written.
#[unsafe(no_mangle)]
pub extern "C" fn probit_part(held: &mut [u8], counts: &mut [u64], bytes: &[u8]) -> u64
    ensures { lent result held.new counts.new ≡ part_in_of held.old counts.old bytes.now }
{
    probit::interface::probit_part(held, counts, bytes)
}

// Answers 0 with the request, 4 for Form with its line.
#[unsafe(no_mangle)]
pub extern "C" fn probit_finish(
    held: &[u8],
    counts: &mut [u64],
    request: &mut [u64],
    litters: &mut [u32],
) -> u64
    ensures { told result counts.new request.new litters.new ≡ finish_in_of held.now counts.old request.old litters.old }
{
    probit::interface::probit_finish(held, counts, request, litters)
}

// A finishing call too, with the answer's bytes: how many, or 0 for a wrong size or a short buffer, and then nothing is written.
#[unsafe(no_mangle)]
pub extern "C" fn probit_answer(held: &[u8], counts: &mut [u64], out: &mut [u8]) -> usize
    ensures { answered result counts.new out.new ≡ answer_in held.now counts.old out.old }
{
    probit::interface::probit_answer(held, counts, out)
}
