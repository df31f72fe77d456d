// The table of one root, from the functions by which `root::sqrt` finds it: what is said last is proved to be its result.
ghost use Rattle.std.specs.Prelude.{◌≡◌, ◌^◌, ◌<◌};
ghost use Rattle.root.specs.Steps.{pencil_of, digits, power, root_bits_of};

fn drawn_steps(m: u64) -> u64
    requires { m < 2 ^ 54 }
    ensures { result ≡ pencil_of m }
{
    let mut row = root::pencil::start(m);
    for k in 0..54u64 {
        let next = root::pencil::step(row);
        crate::say::row(k + 1, next);
        row = next;
    }
    row.root
}

pub fn drawn(b: u64) -> u64
    requires b_nonzero { 0 < b }
    requires b_bound { b < 0x7ff0_0000_0000_0000 }
    ensures { result ≡ root_bits_of (digits b) (power b) }
{
    let x = root::parts::Parts::of(b);
    let m = x.radicand();
    crate::say::head(x.digits, x.power, m);
    let found = drawn_steps(m);
    let kept = root::parts::rounded(found);
    crate::say::foot(found, kept, x.power);
    root::parts::packed(x.power / 2, kept)
}
