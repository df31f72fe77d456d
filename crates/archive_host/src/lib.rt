// The calls on an archive as a host makes them: numbers for refusals, and counts put into a lent buffer, since that is what C takes.
#![tactic(auto)]

ghost use Rattle.std.specs.Prelude.{◌≡◌, ◌≤◌, length};
ghost use Rattle.archive_host.specs.Host.{number_of, given, put_range_of, range_given, write_given, check_given, size_given};

use archive::Refused;
use summary::Counts;

// The bytes of an archive of n litters; 0 for more than 4,096.
pub fn size_in(n: usize) -> usize
    ensures { result ≡ size_given n }
{
    if n <= 4096 { archive::size(n) } else { 0 }
}

// 1 for an archive that is right, else 0.
pub fn check_in(b: &[u8]) -> u64
    ensures { result ≡ check_given b.now }
{
    u64::from(archive_check::check(b))
}

// 0 for an answer, else its refusal's number.
fn number<T: Drop>(answer: Result<T, Refused>) -> u64
    ensures { result ≡ number_of answer }
{
    match answer {
        Ok(_) => 0,
        Err(refused) => refused.number(),
    }
}

#[tactic(auto, unfolding(crate::specs::Host::write_given))]
pub fn write_in(litters: &[u32], out: &mut [u8]) -> u64
    ensures { given result out.new ≡ write_given litters.now out.old }
{
    number(archive_write::write(litters, out))
}

// Zeros beside a refusal.
#[tactic(auto, unfolding(crate::specs::Host::put_range_of))]
fn put_range(range: Result<Counts, Refused>, counts: &mut [u64]) -> u64
    requires { 8 ≤ length counts.old }
    ensures { given result counts.new ≡ put_range_of range counts.old }
{
    store::put(&range.unwrap_or_default().listed(), counts);
    number(range)
}

// A buffer of fewer than eight places is 1, and nothing is written.
#[tactic(auto, unfolding(crate::specs::Host::range_given))]
pub fn range_in(b: &[u8], from: usize, to: usize, counts: &mut [u64]) -> u64
    ensures { given result counts.new ≡ range_given b.now from to counts.old }
{
    if counts.len() < 8 {
        return 1;
    }
    put_range(archive_range::between(b, from, to), counts)
}
