// A request's text read: the head's values, and the litters into a lent buffer.
#![tactic(auto)]

ghost use Rattle.std.specs.Prelude.{◌≡◌, List, ℕ, ◌+◌, ◌^◌, ◌≤◌, ◌<◌, length, get_or};
ghost use Rattle.template.specs.Read.{read as Template·read};
ghost use Rattle.read.specs.Request.{closing, read_last, read_rows, read_request};
ghost use Rattle.read.specs.Rows.{put_litter, fill_rows, fill_request, asking_of, rows_say};

use template::read::Form;

// What a request asks: the head's values, and how many litters.
#[derive(Clone, Copy, PartialEq, Eq)]
pub struct Asking {
    pub count: u64,
    pub values: [u64; 16],
}

// The last line, after n litters of which the first starts at `start`: answers n.
fn last(text: &[u8], n: u64, start: usize) -> Result<u64, Form>
    requires { n ≤ 8192 }
    ensures { (vs : List ℕ) → rows_say vs result ≡ asking_of n (read_last vs (8 + n) start n (Template·read closing (8 + n) text.now)) }
{
    let line = 8 + n;
    let last = template::read::read(text, b"rows # at #\n", line)?;
    if last.values[0] != n || last.values[1] != start as u64 {
        return Err(Form { line });
    }
    if !last.rest.is_empty() {
        return Err(Form { line: last.line });
    }
    Ok(n)
}

// The n-th litter, if the buffer has a place for it. A line gives group, successes, total; the buffer holds successes, total, group.
#[tactic(auto, using(crate::proofs::Laws::put_inside, crate::proofs::Laws::put_past))]
fn put(v: [u64; 16], n: u64, litters: &mut [u32; 384])
    requires group { get_or v 0 0 < 2 ^ 32 }
    requires successes { get_or v 1 0 < 2 ^ 32 }
    requires total { get_or v 2 0 < 2 ^ 32 }
    ensures { litters.new ≡ put_litter litters.old n v }
{
    if n < 128 {
        let i = 3 * (n as usize);
        litters[i] = v[1] as u32;
        litters[i + 1] = v[2] as u32;
        litters[i + 2] = v[0] as u32;
    }
}

// The lines after the head, the first of which starts at `start`: answers the number of litters.
fn rows(text: &[u8], start: usize, litters: &mut [u32; 384]) -> Result<u64, Form>
    ensures value { (vs : List ℕ) → rows_say vs result ≡ asking_of 0 (read_rows 8192 vs start 0 text.now) }
    ensures filled { litters.new ≡ fill_rows 8192 0 litters.old text.now }
{
    let mut rest = text;
    for n in 0..8192u64 {
        let Ok(row) = template::read::read(rest, b"litter # # #\n", 8 + n) else {
            return last(rest, n, start);
        };
        put(row.values, n, litters);
        rest = row.rest;
    }
    Err(Form { line: 8200 })
}

pub fn request(text: &[u8], litters: &mut [u32; 384]) -> Result<Asking, Form>
    ensures value { result ≡ asking_of 0 (read_request text.now) }
    ensures filled { litters.new ≡ fill_request litters.old text.now }
{
    if 8192 < text.len() {
        return Err(Form { line: 0 });
    }
    let head = template::read::read(
        text,
        b"probit-request 1\nmean 0 % % %\nmean 1 % % %\nsd 0 % % %\nsd 1 % % %\nwork # # #\ntolerance %\n",
        1,
    )?;
    let start = text.len() - head.rest.len();
    let count = rows(head.rest, start, litters)?;
    Ok(Asking {
        count,
        values: head.values,
    })
}
