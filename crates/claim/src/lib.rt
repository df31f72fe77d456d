// What another tool claims of a fit, and what the objective at the claimed point decides of it.
#![tactic(auto)]

ghost use Rattle.std.specs.Prelude.{◌≡◌};
ghost use Rattle.claim.specs.Claim.{number_of, reason_of, point_in, within_of, in_box_of, same_bits_of, by_objective, judged_of};

use objective::Objective;
use step::Region;
use work::QuadratureEvaluations;

pub mod give;

#[derive(Clone, Copy)]
pub struct Claim {
    pub means: [f64; 2],
    pub variances: [f64; 2],
    pub nll: f64,
}

// Why a claim is not accepted. A `Domain` carries the objective's reason.
#[derive(Clone, Copy, PartialEq, Eq)]
pub enum Refusal {
    InvalidInput,
    Domain(u64),
    OutsideBox,
    LikelihoodDiffers,
    NormAbove,
}

// Of a claim that is accepted: the objective's evaluations, its likelihood and norm.
#[derive(Clone, Copy)]
pub struct Vetted {
    pub used: QuadratureEvaluations,
    pub nll: f64,
    pub norm: f64,
}

// Of one that is not: why, and the objective's evaluations.
#[derive(Clone, Copy)]
pub struct Refused {
    pub refusal: Refusal,
    pub used: QuadratureEvaluations,
}

impl Refusal {
    pub fn number(self) -> u64
        ensures { result ≡ number_of self }
    {
        match self {
            Refusal::InvalidInput => 1,
            Refusal::Domain(_) => 2,
            Refusal::OutsideBox => 5,
            Refusal::LikelihoodDiffers => 6,
            Refusal::NormAbove => 7,
        }
    }

    // 0 for what is no `Domain`.
    pub fn reason(self) -> u64
        ensures { result ≡ reason_of self }
    {
        match self {
            Refusal::Domain(r) => r,
            _ => 0,
        }
    }
}

impl From<objective::Refused> for Refused {
    ghost from_gives = { λ e r. r ≡ by_objective e };

    fn from(e: objective::Refused) -> Refused {
        Refused {
            refusal: Refusal::Domain(e.refusal.reason()),
            used: e.used,
        }
    }
}

impl Claim {
    pub fn point(self) -> [f64; 4]
        ensures { result ≡ point_in self }
    {
        let m = self.means;
        let v = self.variances;
        [m[0], m[1], v[0], v[1]]
    }
}

fn within(x: f64, lo: f64, hi: f64) -> bool
    ensures { result ≡ within_of x lo hi }
{
    lo <= x && x <= hi
}

// As numbers: the ends are inside, -0 lies at +0, and a NaN is outside.
#[tactic(auto, unfolding(crate::specs::Claim::in_box_of))]
pub fn in_box(b: Region, x: [f64; 4]) -> bool
    ensures { result ≡ in_box_of x b.lo b.hi }
{
    let lo = b.lo;
    let hi = b.hi;
    within(x[0], lo[0], hi[0])
        && within(x[1], lo[1], hi[1])
        && within(x[2], lo[2], hi[2])
        && within(x[3], lo[3], hi[3])
}

// By their bits: -0 and +0 differ, and any NaN is the same as any other.
#[tactic(auto, unfolding(crate::specs::Claim::same_bits_of))]
fn same_bits(a: f64, b: f64) -> bool
    ensures { result ≡ same_bits_of a b }
{
    print::bits(a) == print::bits(b)
}

// What the objective o at the point x decides of the claimed likelihood.
#[tactic(auto, unfolding(crate::specs::Claim::judged_of))]
pub fn judged(
    b: Region,
    tolerance: f64,
    x: [f64; 4],
    claimed: f64,
    o: Result<Objective, objective::Refused>,
) -> Result<Vetted, Refused>
    ensures { result ≡ judged_of b.lo b.hi tolerance x claimed o }
{
    let o = o?;
    let used = o.used;
    let nll = o.v.nll;
    if !same_bits(nll, claimed) {
        return Err(Refused {
            refusal: Refusal::LikelihoodDiffers,
            used,
        });
    }
    let norm = trial::norm_at(b, x, o.v);
    if norm <= tolerance {
        return Ok(Vetted { used, nll, norm });
    }
    Err(Refused {
        refusal: Refusal::NormAbove,
        used,
    })
}
