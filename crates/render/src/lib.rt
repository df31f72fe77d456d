// A template written into a lent buffer: a count in decimal, an f64's bits in hexadecimal, any other byte as it is.
#![tactic(auto)]

ghost use Rattle.std.specs.Prelude.{◌≡◌, ◌∷◌, [], ◌+◌, ◌/◌, ◌%◌, ◌^◌, ◌≤◌, ◌<◌, length, get_or};
ghost use Rattle.template.specs.Digits.{glyph as Digits·glyph, digits as Digits·digits, places as Digits·places};
ghost use Rattle.template.specs.Template.{piece as Template·piece, render};
ghost use Rattle.render.specs.Written.{written};
ghost use Rattle.render.specs.Width.{widest, width, taken_after_of};

// How many digits n has in decimal; never more than twenty.
fn places(n: u64) -> usize
    ensures { result ≡ Digits·places n }
{
    let mut rest = n;
    for k in 1..20usize {
        if rest < 10 {
            return k;
        }
        rest = rest / 10;
    }
    20
}

// The digit of n at place k, counted from the last.
fn digit(base: u64, k: usize, n: u64) -> u64
    requires { 1 < base }
    ensures { result ≡ n / base ^ k % base }
{
    let mut rest = n;
    for _ in 0..k {
        rest = rest / base;
    }
    rest % base
}

fn glyph(d: u64) -> u8
    requires { d < 16 }
    ensures { result ≡ Digits·glyph d }
{
    if d < 10 {
        b'0' + d as u8
    } else {
        b'a' - 10 + d as u8
    }
}

// The last k digits of n, from place `at` on; answers the place after them.
pub fn digits(base: u64, k: usize, n: u64, out: &mut [u8], at: usize) -> usize
    requires { (1 < base) × (base ≤ 16) × (at + k ≤ length out.old) }
    ensures { (result ≡ at + k) × (out.new ≡ written out.old at (Digits·digits base k n)) }
{
    let end = at + k;
    // By place: a digit is found by how far from the last it stands.
    for i in at..end {
        out[i] = glyph(digit(base, end - (i + 1), n));
    }
    end
}

// The bytes of s, from place `at` on; answers the place after them.
pub fn text(s: &[u8], out: &mut [u8], at: usize) -> usize
    requires { at + length s.now ≤ length out.old }
    ensures { (result ≡ at + length s.now) × (out.new ≡ written out.old at s.now) }
{
    let end = at + s.len();
    out[at..end].copy_from_slice(s);
    end
}

fn value(values: &[u64], i: usize) -> u64
    ensures { result ≡ get_or values.now i 0 }
{
    values.get(i).copied().unwrap_or(0)
}

// How many values were taken, after the byte c of a template.
fn taken_after(c: u8, taken: usize) -> usize
    requires { taken < 2 ^ 63 }
    ensures { result ≡ taken_after_of c taken }
{
    match c {
        b'#' | b'%' => taken + 1,
        _ => taken,
    }
}

// What the byte c of a template becomes, v being the next value.
fn piece(c: u8, v: u64, out: &mut [u8], at: usize) -> usize
    requires { at + widest c ≤ length out.old }
    ensures { (result ≡ at + length (Template·piece c (v ∷ []))) × (out.new ≡ written out.old at (Template·piece c (v ∷ []))) }
{
    match c {
        b'#' => digits(10, places(v), v, out, at),
        b'%' => digits(16, 16, v, out, at),
        _ => {
            out[at] = c;
            at + 1
        }
    }
}

// The template with its values, from place `at` on; answers the place after it. A value that is not there is 0.
pub fn put(template: &[u8], values: &[u64], out: &mut [u8], at: usize) -> usize
    requires { at + width template.now ≤ length out.old }
    ensures { (result ≡ at + length (render template.now values.now)) × (out.new ≡ written out.old at (render template.now values.now)) }
{
    let mut next = at;
    let mut taken: usize = 0;
    for c in template {
        next = piece(*c, value(values, taken), out, next);
        taken = taken_after(*c, taken);
    }
    next
}
