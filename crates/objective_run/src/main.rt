// Runs the objective and the functions below it on inputs at the edge of each rule, one line a case: its name, the ending's number, the reason, the evaluations.
// A Domain that no valid request reaches is reached from inside, by numbers that a request cannot hold.
#![tactic(auto)]

mod edges;
mod reasons;
mod refusals;
mod say;

fn main() {
    crate::edges::normal_at_eight();
    crate::edges::counts();
    crate::refusals::points();
    crate::refusals::litters();
    crate::reasons::modes();
    crate::reasons::tails();
    crate::reasons::sums();
    crate::reasons::totals();
}
