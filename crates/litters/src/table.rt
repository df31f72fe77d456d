// A lent run of records handed on as numbers, three a litter.
ghost use Rattle.std.specs.Prelude.{◌≡◌, ◌*◌, ◌≤◌, length, take};
ghost use Rattle.std.specs.Fn.{FnOnceReturnsAt};
ghost use Rattle.litters.specs.Litters.{numbers_of};
ghost use Rattle.litters.specs.Table.{row_in, no_rows, with_rows, lent_of, numbers_for_of, handed_on_of};

use crate::Litter;

// A litter past the last row is left out.
fn put_row(numbers: &mut [u32; 384], i: usize, litter: Litter)
    ensures { numbers.new ≡ row_in numbers.old i litter.successes litter.total litter.group }
{
    if i < 128 {
        let k = 3 * i;
        numbers[k] = litter.successes;
        numbers[k + 1] = litter.total;
        numbers[k + 2] = litter.group;
    }
}

// The numbers of 128 litters, three a litter: those of the first of them, and zeros behind.
pub fn to_table(litters: &[Litter]) -> [u32; 384]
    ensures { result ≡ with_rows litters.now 0 no_rows }
{
    let mut numbers = [0; 384];
    for (i, litter) in litters.iter().enumerate() {
        put_row(&mut numbers, i, *litter);
    }
    numbers
}

// The numbers of up to 128 litters, from the table's start on.
fn numbers(litters: &[Litter]) -> [u32; 384]
    requires { length litters.now ≤ 128 }
    ensures { take (3 * length litters.now) result ≡ numbers_of litters.now }
{
    to_table(litters)
}

// What `f` answers of the litters' numbers. More than 128 are refused as none are, so none go.
pub fn with_numbers<R, F: FnOnce(&[u32]) -> R>(litters: &[Litter], f: F) -> R
    requires { F.IsAlwaysCallable f }
    ensures { FnOnceReturnsAt F.FnOnce f (lent_of litters.now) result }
{
    if 128 < litters.len() {
        return f(&[]);
    }
    f(&numbers(litters)[..3 * litters.len()])
}

// How many of n lent numbers, three a litter, go to the core. More than 128 litters are refused as none are, so none go.
pub fn handed_on(n: usize) -> usize
    ensures number { result ≡ handed_on_of n }
    ensures within { result ≤ n }
{
    if n / 3 <= 128 { n } else { 0 }
}

// How many of the table's numbers stand for n litters. More than 128 are refused as none are, so none do.
pub fn numbers_for(n: usize) -> usize
    ensures number { result ≡ numbers_for_of n }
    ensures within { result ≤ 384 }
{
    if n <= 128 { 3 * n } else { 0 }
}
