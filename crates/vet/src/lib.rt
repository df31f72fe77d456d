// A claim vetted: the request's checks, the box, then what the objective at the claimed point decides. No work limit is read past its check.
#![tactic(auto)]

ghost use Rattle.std.specs.Prelude.{◌≡◌};
ghost use Rattle.vet.specs.Vet.{placed_of, vet_of};

use claim::{Claim, Refusal, Refused, Vetted};
use request::Request;
use step::Region;
use work::QuadratureEvaluations;

// Of a request that passed its checks.
#[tactic(auto, unfolding(crate::specs::Vet::placed_of, objective::specs::Objective::objective_of))]
fn placed(r: Request, litters: &[u32], c: Claim) -> Result<Vetted, Refused>
    ensures { result ≡ placed_of r litters.now c }
{
    let b = Region {
        lo: request::low(r),
        hi: request::high(r),
    };
    let x = c.point();
    if !claim::in_box(b, x) {
        return Err(Refused {
            refusal: Refusal::OutsideBox,
            used: QuadratureEvaluations(0),
        });
    }
    let o = objective::probit_normal_binomial_objective(x, litters);
    claim::judged(b, r.tolerance, x, c.nll, o)
}

#[tactic(auto, unfolding(crate::specs::Vet::vet_of))]
pub fn vet(r: Request, litters: &[u32], c: Claim) -> Result<Vetted, Refused>
    ensures { result ≡ vet_of r litters.now c }
{
    if !request::up_to(20000000, r.quadrature.0) || !request::admitted(r, litters) {
        return Err(Refused {
            refusal: Refusal::InvalidInput,
            used: QuadratureEvaluations(0),
        });
    }
    placed(r, litters, c)
}
