// A claim vetted as a host asks for it: five numbers for the claim, the litters as they are lent, the verdict put into buffers.
#![tactic(auto)]

ghost use Rattle.std.specs.Prelude.{◌≡◌, ◌≤◌, length, take};
ghost use Rattle.store.specs.Given.{given};
ghost use Rattle.litters.specs.Table.{handed_on_of};
ghost use Rattle.claim.specs.Claim.{claim_from};
ghost use Rattle.claim.specs.Give.{put_vetted_of};
ghost use Rattle.vet.specs.Vet.{vet_of};

use claim::Claim;
use request::Request;

// The litters that go to the core: so those of a run that is too long are not walked along.
pub fn handed_on(litters: &[u32]) -> &[u32]
    ensures { result.now ≡ take (handed_on_of (length litters.now)) litters.now }
{
    &litters[..litters::table::handed_on(litters.len())]
}

fn claim_of(p: &[f64]) -> Claim
    requires { length p.now ≡ 5 }
    ensures { result ≡ claim_from p.now }
{
    Claim {
        means: [p[0], p[1]],
        variances: [p[2], p[3]],
        nll: p[4],
    }
}

// Two means, two variances and the likelihood are claimed. Answers the verdict's number.
pub fn vet_in(
    r: Request,
    litters: &[u32],
    claimed: &[f64],
    numbers: &mut [f64],
    counts: &mut [u64],
) -> u64
    requires claim { length claimed.now ≡ 5 }
    requires numbers { 2 ≤ length numbers.old }
    requires counts { 2 ≤ length counts.old }
    ensures { given result numbers.new counts.new ≡ put_vetted_of (vet_of r litters.now (claim_from claimed.now)) numbers.old counts.old }
{
    let v = vet::vet(r, handed_on(litters), claim_of(claimed));
    claim::give::put_vetted(v, numbers, counts)
}
