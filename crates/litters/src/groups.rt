// How many litters of a run are of a group.
ghost use Rattle.std.specs.Prelude.{◌≡◌};
ghost use Rattle.litters.specs.Groups.{of_group_of};

use crate::Litter;

pub fn of_group(litters: &[u32], g: u32) -> usize
    ensures { result ≡ of_group_of litters.now g }
{
    let mut count = 0;
    for row in crate::rows(litters) {
        count += usize::from(Litter::from(*row).group == g);
    }
    count
}
