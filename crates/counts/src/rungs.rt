// The sums of the inner loop, computed once an evaluation for all rows: a rung for each count up to a top, each going on from the one before it.
ghost use Rattle.std.specs.Prelude.{◌≡◌, ◌≤◌, min};
ghost use Rattle.counts.specs.Share.{risen_of};
ghost use Rattle.counts.specs.Rungs.{largest_of, Held};

use crate::share::Rising;

// The most that the table holds: rungs 0 to 63.
const TOP: u32 = 63;

fn largest(counts: &[u32]) -> u32
    ensures { result ≡ largest_of counts.now }
{
    let mut most: u32 = 0;
    for count in counts {
        most = most.max(*count);
    }
    most
}

// No rung is filled that no row needs: the source computes at least as many logarithms.
pub fn top_of(counts: &[u32]) -> u32
    ensures least { result ≡ min (largest_of counts.now) 63 }
    ensures few { result ≤ 63 }
{
    largest(counts).min(TOP)
}

// What stood past the top's rung stays.
pub fn fill(shape: f64, top: u32, rungs: &mut [Rising; 64])
    requires { top ≤ 63 }
    ensures { Held shape top rungs.new }
{
    let mut s = crate::share::nothing();
    rungs[0] = s;
    for k in 0..top {
        let next = s.passed(shape + k as f64);
        rungs[k as usize + 1] = next;
        s = next;
    }
}

// A row's sums: the rung of its count; past the top, the loop goes on from there.
pub fn risen(shape: f64, count: u32, top: u32, rungs: &[Rising; 64]) -> Rising
    requires { Held shape top rungs.now }
    ensures { result ≡ risen_of shape count }
{
    let first = count.min(top);
    let mut s = rungs[first as usize];
    for k in first..count {
        s = s.passed(shape + k as f64);
    }
    s
}
