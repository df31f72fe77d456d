// Says why a fit took its steps. Reads one request from standard input until it ends; its argument is a trial's number. Writes the line of that trial, or without an argument the
// line of each, a line of what stopped the fit, and the answer as probitfit writes it.
#![tactic(auto)]

use fit::report::Seen;
use request::Request;
use std::env::{Env, FillError};

// The file descriptors of standard output and standard error.
const STDOUT: i32 = 1;

const STDERR: i32 = 2;

// The argument is no number of a trial.
#[derive(Clone, Copy)]
struct Unclear;

fn say(line: &[u8]) {
    io::write_all(STDERR, line);
}

// The first `end` bytes, of which no clause says that the buffer has so many.
fn write(bytes: &[u8], end: usize) {
    if !io::write_all(STDOUT, &bytes[..end.min(bytes.len())]) {
        say(b"probitwhy: the answer was not written whole\n");
    }
}

fn write_trial(n: u64, s: Seen) {
    let mut out = [0u8; 128];
    let m = explain::trial(n, s.why, explain::used(s.fit), &mut out);
    write(&out, m);
}

fn write_ending(s: Seen) {
    let mut out = [0u8; 128];
    let m = explain::ending(s.stop, explain::used(s.fit), &mut out);
    write(&out, m);
    let mut answer = [0u8; 512];
    let k = print::fit(s.fit, &mut answer);
    write(&answer, k);
}

// The line of a number that no trial has.
fn write_unmade(n: u64) {
    let mut out = [0u8; 128];
    let m = explain::trial(n, None, 0, &mut out);
    write(&out, m);
}

fn write_refused(number: u64, line: u64) {
    let mut out = [0u8; 128];
    let m = explain::stopped(number, 0, line, 0, &mut out);
    write(&out, m);
    let mut answer = [0u8; 512];
    let k = print::refusal(number, 0, line, &mut answer);
    write(&answer, k);
}

// A request that has not the form, or too many litters, has no trial. The litter is 0.
fn write_unread(trial: Option<u64>, number: u64, line: u64) {
    if let Some(n) = trial {
        write_unmade(n);
    }
    write_refused(number, line);
}

// One trial further each time, to the first number that no trial has: there are at most 48,000.
fn write_each(r: Request, litters: &[u32]) {
    for n in 1..48001u64 {
        let s = fit::report::fit_watched(r, litters, n);
        if s.why.is_none() {
            return;
        }
        write_trial(n, s);
    }
}

fn write_one(n: u64, r: Request, litters: &[u32]) {
    let s = fit::report::fit_watched(r, litters, n);
    write_trial(n, s);
    write_ending(s);
}

fn write_all(r: Request, litters: &[u32]) {
    write_each(r, litters);
    let s = fit::report::fit_watched(r, litters, 0);
    write_ending(s);
}

// The trial of that number, or each where none is asked for.
fn write_fit(trial: Option<u64>, r: Request, litters: &[u32]) {
    match trial {
        Some(n) => write_one(n, r, litters),
        None => write_all(r, litters),
    }
}

fn explained(trial: Option<u64>, request: &[u8]) {
    let mut litters = [0; 384];
    match read::request(request, &mut litters) {
        Err(form) => write_unread(trial, 4, form.line),
        Ok(asking) if 128 < asking.count => write_unread(trial, 1, 0),
        Ok(asking) => {
            let n = 3 * (asking.count as usize);
            write_fit(trial, text::request(asking.values), &litters[..n]);
        }
    }
}

// A count, as a request has it, and nothing after it.
fn number(word: &[u8]) -> Result<u64, Unclear> {
    match template::token::read_field(word, b'#') {
        Some((n, [])) => Ok(n),
        _ => Err(Unclear),
    }
}

// Argument 0 is the program's name, and those after 1 are passed over. A number has fewer digits than the word holds.
fn argument(env: &impl Env) -> Result<Option<u64>, Unclear> {
    let mut word = [0; 32];
    match env.arg(1, &mut word) {
        Ok(end) => Ok(Some(number(&word[..end])?)),
        Err(FillError::NotPresent) => Ok(None),
        Err(FillError::TooLong) => Err(Unclear),
    }
}

fn main(rt: HostRuntime) {
    let asked = argument(&rt);
    let mut request = [0; 8193];
    let Ok(n) = input::read_all(&mut rt.stdin(), &mut request) else {
        say(b"probitwhy: standard input could not be read\n");
        return;
    };
    match asked {
        Ok(trial) => explained(trial, &request[..n]),
        Err(Unclear) => say(b"probitwhy: the argument is no trial's number\n"),
    }
}
