// Values stored into a lent buffer from its start on.
#![tactic(auto)]

ghost use Rattle.std.specs.Prelude.{◌≡◌, ◌≤◌, length};
ghost use Rattle.store.specs.Stored.{stored};

#[tactic(auto, unfolding(crate::specs::Stored::stored))]
pub fn put<T: Copy>(values: &[T], out: &mut [T])
    requires { length values.now ≤ length out.old }
    ensures { out.new ≡ stored out.old values.now }
{
    out[..values.len()].copy_from_slice(values);
}
