// Runs each request of the stored list and holds the answer against the stored one, which the Rust module gave (oracle/list makes the list).
// A record is a line `request N` and N bytes, then a line `answer M` and M bytes. Writes a line for each that differs, then how many ran.
#![tactic(auto)]

ghost use Rattle.std.specs.Prelude.{◌≡◌, ◌≤◌, ◌<◌, length};
ghost use Rattle.template.specs.Template.{holes};

// The file descriptors of standard input and standard output.
const STDIN: i32 = 0;

const STDOUT: i32 = 1;

// The bytes that a record's line announces, and what is left of the list.
fn part<'a>(list: &'a [u8], line: &[u8]) -> Option<(&'a [u8], &'a [u8])>
    requires places { holes line.now ≤ 16 }
    requires short { length line.now < 100 }
{
    let head = template::read::read(list, line, 1).ok()?;
    let count = head.values[0];
    if (head.rest.len() as u64) < count {
        return None;
    }
    Some(head.rest.split_at(count as usize))
}

// A request, its stored answer, and the records after it.
fn record(list: &[u8]) -> Option<(&[u8], &[u8], &[u8])> {
    let (request, rest) = part(list, b"request #\n")?;
    let (stored, rest) = part(rest, b"answer #\n")?;
    Some((request, stored, rest))
}

fn is_answered(request: &[u8], stored: &[u8]) -> bool {
    let mut out = [0; 512];
    let m = text::answer(request, &mut out);
    &out[..m] == stored
}

fn say(number: u64, what: &[u8]) {
    io::print_decimal(STDOUT, number);
    io::write_all(STDOUT, what);
}

// A record has bytes, so there are fewer records than bytes.
fn replay(list: &[u8]) {
    let mut rest = list;
    for n in 0..list.len() {
        if rest.is_empty() {
            say(n as u64, b" answers\n");
            return;
        }
        let Some((request, stored, after)) = record(rest) else {
            say(n as u64, b" is broken\n");
            return;
        };
        if !is_answered(request, stored) {
            say(n as u64, b" differs\n");
        }
        rest = after;
    }
}

// Room for the list. The clause gives the length alone: so many zeros are too many to prove with.
fn empty_list() -> [u8; 524288]
    ensures { 524288 ≡ length result }
{
    [0; 524288]
}

fn main() {
    let mut list = empty_list();
    let n = io::read_full(STDIN, &mut list);
    replay(&list[..n]);
}
