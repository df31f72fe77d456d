// What an answer puts into the buffers that a host lends: numbers, then counts.
#![tactic(auto)]

ghost use Rattle.std.specs.Prelude.{◌≡◌, [], ◌≤◌, length};
ghost use Rattle.store.specs.Stored.{stored};
ghost use Rattle.buffers.specs.Buffers.{fit_room_of, all_numbers_of, placed_of, fit_counts_of, refused_counts_of, put_fit_of, objective_room_of, objective_numbers_of, put_objective_of, put_summary_of};
ghost use Rattle.store.specs.Given.{given};

use fit::Fit;
use objective::Objective;
use summary::Counts;
use work::Refusal;

#[tactic(auto, unfolding(crate::specs::Buffers::fit_room_of))]
pub fn fit_room(bounds: usize, numbers: usize, counts: usize) -> bool
    ensures { result ≡ fit_room_of bounds numbers counts }
{
    bounds == 12 && 6 <= numbers && 10 <= counts
}

// Listed one by one, since std joins arrays only on the heap.
fn all_numbers(f: Fit) -> [f64; 28]
    ensures { result ≡ all_numbers_of f }
{
    let means = f.means;
    let sds = f.sds;
    let variances = f.variances;
    let gradient = f.gradient;
    let hessian = f.hessian;
    [
        means[0],
        means[1],
        sds[0],
        sds[1],
        f.nll,
        f.norm,
        variances[0],
        variances[1],
        gradient[0],
        gradient[1],
        gradient[2],
        gradient[3],
        hessian[0],
        hessian[1],
        hessian[2],
        hessian[3],
        hessian[4],
        hessian[5],
        hessian[6],
        hessian[7],
        hessian[8],
        hessian[9],
        hessian[10],
        hessian[11],
        hessian[12],
        hessian[13],
        hessian[14],
        hessian[15],
    ]
}

// A host built before the coordinates were reported lends six places, and has them filled as before.
fn place(all: [f64; 28], numbers: &mut [f64])
    requires { 6 ≤ length numbers.old }
    ensures { numbers.new ≡ stored numbers.old (placed_of all (length numbers.old)) }
{
    if 28 <= numbers.len() {
        store::put(&all, numbers);
    } else {
        store::put(&all[..6], numbers);
    }
}

#[tactic(auto, unfolding(crate::specs::Buffers::fit_counts_of))]
fn fit_counts(f: Fit) -> [u64; 10]
    ensures { result ≡ fit_counts_of f }
{
    let on = f.active;
    [
        f.status.number(),
        f.evaluations.0,
        f.iterations.0,
        f.quadrature.0,
        f.litters,
        0,
        u64::from(on[0]),
        u64::from(on[1]),
        u64::from(on[2]),
        u64::from(on[3]),
    ]
}

#[tactic(auto, unfolding(crate::specs::Buffers::refused_counts_of))]
fn refused_counts(e: fit::Refused) -> [u64; 10]
    ensures { result ≡ refused_counts_of e }
{
    let used = e.quadrature.0;
    [0, 0, 0, used, 0, e.refusal.reason(), 0, 0, 0, 0]
}

// Answers 0, or the refusal's number beside zeros.
#[tactic(auto, unfolding(crate::specs::Buffers::put_fit_of))]
pub fn put_fit(f: Result<Fit, fit::Refused>, numbers: &mut [f64], counts: &mut [u64]) -> u64
    requires numbers { 6 ≤ length numbers.old }
    requires counts { 10 ≤ length counts.old }
    ensures { given result numbers.new counts.new ≡ put_fit_of f numbers.old counts.old }
{
    match f {
        Ok(f) => {
            place(all_numbers(f), numbers);
            store::put(&fit_counts(f), counts);
            0
        }
        Err(e) => {
            place([0.0; 28], numbers);
            store::put(&refused_counts(e), counts);
            e.refusal.number()
        }
    }
}

#[tactic(auto, unfolding(crate::specs::Buffers::objective_room_of))]
pub fn objective_room(point: usize, numbers: usize, counts: usize) -> bool
    ensures { result ≡ objective_room_of point numbers counts }
{
    point == 4 && 22 <= numbers && 2 <= counts
}

// Listed one by one, since std joins arrays only on the heap.
pub fn objective_numbers(o: Objective) -> [f64; 22]
    ensures { result ≡ objective_numbers_of o }
{
    let g = o.v.gradient;
    let h = o.v.hessian;
    [
        o.v.nll,
        g[0],
        g[1],
        g[2],
        g[3],
        h[0],
        h[1],
        h[2],
        h[3],
        h[4],
        h[5],
        h[6],
        h[7],
        h[8],
        h[9],
        h[10],
        h[11],
        h[12],
        h[13],
        h[14],
        h[15],
        o.v.refinement,
    ]
}

// Answers 0, or the refusal's number beside zeros.
#[tactic(auto, unfolding(crate::specs::Buffers::put_objective_of))]
pub fn put_objective(
    o: Result<Objective, objective::Refused>,
    numbers: &mut [f64],
    counts: &mut [u64],
) -> u64
    requires numbers { 22 ≤ length numbers.old }
    requires counts { 2 ≤ length counts.old }
    ensures { given result numbers.new counts.new ≡ put_objective_of o numbers.old counts.old }
{
    match o {
        Ok(o) => {
            store::put(&objective_numbers(o), numbers);
            store::put(&[o.used.0, 0], counts);
            0
        }
        Err(e) => {
            store::put(&[0.0; 22], numbers);
            store::put(&[e.used.0, e.refusal.reason()], counts);
            e.refusal.number()
        }
    }
}

// Answers 0, or the refusal's number beside zeros.
#[tactic(auto, unfolding(crate::specs::Buffers::put_summary_of))]
pub fn put_summary(s: Result<Counts, Refusal>, counts: &mut [u64]) -> u64
    requires { 8 ≤ length counts.old }
    ensures { given result [] counts.new ≡ put_summary_of s counts.old }
{
    match s {
        Ok(s) => {
            store::put(&s.listed(), counts);
            0
        }
        Err(e) => {
            store::put(&[0; 8], counts);
            e.number()
        }
    }
}
