// The lines of a table.
use root::pencil::Row;

// The file descriptor of standard output.
const STDOUT: i32 = 1;

pub fn words(text: &[u8]) {
    io::write_all(STDOUT, text);
}

pub fn line(number: u64) {
    words(b"line ");
    io::print_decimal(STDOUT, number);
}

pub fn hex(name: &[u8], n: u64) {
    words(name);
    io::print_hex(STDOUT, n, 16);
    words(b"\n");
}

fn named(name: &[u8], n: u64) {
    words(name);
    io::print_decimal(STDOUT, n);
    words(b"\n");
}

// A column of 18 places and two before it. What a row holds has 18 digits at most.
fn column(n: u64) {
    let mut text = [0u8; 20];
    let k = io::decimal(n, &mut text);
    let before = [b' '; 18];
    words(b"  ");
    words(&before[k.min(18)..]);
    words(&text[..k]);
}

fn count(k: u64) {
    if k < 10 {
        words(b" ");
    }
    io::print_decimal(STDOUT, k);
}

// Two binary digits.
fn pair(n: u64) {
    match n {
        0 => words(b"    00"),
        1 => words(b"    01"),
        2 => words(b"    10"),
        _ => words(b"    11"),
    }
}

fn goes(digit: u64) {
    if digit == 1 {
        words(b"   yes");
        return;
    }
    words(b"    no");
}

pub fn row(k: u64, r: Row) {
    words(b"  ");
    count(k);
    pair(r.down);
    column(r.brought);
    column(r.trial);
    goes(r.digit);
    column(r.rest);
    column(r.root);
    words(b"\n");
}

pub fn head(digits: u64, power: u64, radicand: u64) {
    named(b"digits   ", digits);
    named(b"power    ", power);
    named(b"radicand ", radicand);
    words(
        b"step  down             brought               trial  goes                rest                root\n",
    );
}

// The last `places` binary digits.
fn binary(name: &[u8], n: u64, places: u64) {
    words(name);
    for k in 0..places {
        digit(n, places - 1 - k);
    }
    words(b"\n");
}

fn digit(n: u64, place: u64) {
    if place < 64 {
        if (n >> place) % 2 == 1 {
            words(b"1");
            return;
        }
    }
    words(b"0");
}

pub fn foot(found: u64, kept: u64, power: u64) {
    binary(b"root     ", found, 54);
    binary(b"rounded  ", kept, 53);
    named(b"field    ", power / 2);
}
