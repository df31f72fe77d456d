// An archive whose trailer says what is so, and what it holds.
ghost use Rattle.std.specs.Prelude.{◌≡◌, ◌-◌, ◌/◌, ◌≤◌, ◌<◌, is_ok, IfOk, IfErr};
ghost use Rattle.summary.specs.Both.{BothBelow};
ghost use Rattle.archive.specs.declared.Refused.TheVariants.{Form};
ghost use Rattle.archive.specs.Layout.{record_in, valid_of, count_in, shaped_of};
ghost use Rattle.archive.specs.Shaped.{Shaped};
ghost use Rattle.archive.specs.Counts.{totals_in};

use crate::Refused;
use litters::Litter;
use summary::Counts;

#[derive(Clone, Copy)]
pub struct Archive<'a> {
    pub bytes: &'a [u8],
    ghost shape: { Shaped bytes.now },
}

impl<'a> Archive<'a> {
    // Bytes of another shape are Form.
    pub fn open(bytes: &'a [u8]) -> Result<Archive<'a>, Refused>
        ensures by_shape { is_ok result ≡ shaped_of bytes.now }
        ensures opened { IfOk result (λ a. a.bytes.now ≡ bytes.now) }
        ensures refused { IfErr result (λ e. e ≡ Form) }
    {
        if !crate::shaped(bytes) {
            return Err(Refused::Form);
        }
        Ok(Archive { bytes })
    }

    // How many litters.
    pub fn count(&self) -> usize
        ensures { result ≡ count_in self.now.bytes.now }
    {
        crate::count(self.bytes)
    }

    pub fn litter(&self, i: usize) -> Litter
        requires { i < count_in self.now.bytes.now }
        ensures { result ≡ record_in self.now.bytes.now i }
    {
        crate::litter(self.bytes, i)
    }

    pub fn valid(&self, i: usize) -> bool
        requires { i < count_in self.now.bytes.now }
        ensures { result ≡ valid_of self.now.bytes.now i }
    {
        crate::valid(self.bytes, i)
    }

    // The totals of so many full 64 litters.
    #[tactic(auto, unfolding(crate::specs::Counts::totals_in))]
    pub fn totals(&self, full: usize) -> Counts
        requires some { 1 ≤ full }
        requires there { full ≤ count_in self.now.bytes.now / 64 }
        ensures value { result ≡ totals_in self.now.bytes.now (count_in self.now.bytes.now) (full - 1) }
        ensures below { BothBelow result 1 }
    {
        crate::totals(self.bytes, 12 * self.count() + 32 * (full - 1))
    }
}
