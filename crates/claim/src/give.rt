// What a vetting puts into the buffers that a host lends: numbers, then counts.
ghost use Rattle.std.specs.Prelude.{◌≡◌, ◌≤◌, length};
ghost use Rattle.store.specs.Given.{given};
ghost use Rattle.claim.specs.Give.{vet_room_of, put_vetted_of};

use crate::{Refused, Vetted};

#[tactic(auto, unfolding(crate::specs::Give::vet_room_of))]
pub fn vet_room(bounds: usize, claim: usize, numbers: usize, counts: usize) -> bool
    ensures { result ≡ vet_room_of bounds claim numbers counts }
{
    bounds == 12 && claim == 5 && 2 <= numbers && 2 <= counts
}

// Answers 0, or the refusal's number beside zeros.
#[tactic(auto, unfolding(crate::specs::Give::put_vetted_of))]
pub fn put_vetted(v: Result<Vetted, Refused>, numbers: &mut [f64], counts: &mut [u64]) -> u64
    requires numbers { 2 ≤ length numbers.old }
    requires counts { 2 ≤ length counts.old }
    ensures { given result numbers.new counts.new ≡ put_vetted_of v numbers.old counts.old }
{
    match v {
        Ok(v) => {
            store::put(&[v.nll, v.norm], numbers);
            store::put(&[v.used.0, 0], counts);
            0
        }
        Err(e) => {
            store::put(&[0.0, 0.0], numbers);
            store::put(&[e.used.0, e.refusal.reason()], counts);
            e.refusal.number()
        }
    }
}
