// The shape of what is asked, and the marks: bit i marks estimate i as of positive domain.
ghost use Rattle.std.specs.Prelude.{◌≡◌, ◌<◌};
ghost use Rattle.intervals.specs.Shape.{shaped_of, marked_of};

// One to eight estimates; covariance by rows; at least one mark, none past the dimension.
#[tactic(auto, unfolding(crate::specs::Shape::shaped_of))]
pub fn shaped(estimates: usize, covariance: usize, errors: usize, marks: u64) -> bool
    ensures { result ≡ shaped_of estimates covariance errors marks }
{
    1 <= estimates
        && estimates <= 8
        && 1 <= marks
        && marks >> estimates == 0
        && errors == estimates
        && covariance == estimates * estimates
}

#[tactic(auto, unfolding(crate::specs::Shape::marked_of))]
pub fn marked(marks: u64, i: usize) -> bool
    requires { i < 64 }
    ensures { result ≡ marked_of marks i }
{
    (marks >> i) % 2 == 1
}
