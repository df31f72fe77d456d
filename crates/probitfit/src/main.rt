// Reads one request from standard input until it ends, and writes its answer to standard output.
// Where standard input cannot be read nothing is answered; that, and an answer that is not written whole, is said on standard error.
#![tactic(auto)]

// The file descriptors of standard output and standard error.
const STDOUT: i32 = 1;

const STDERR: i32 = 2;

fn answer(request: &[u8]) {
    let mut out = [0; 512];
    let m = text::answer(request, &mut out);
    if !io::write_all(STDOUT, &out[..m]) {
        io::write_all(STDERR, b"probitfit: the answer was not written whole\n");
    }
}

fn main(rt: HostRuntime) {
    let mut request = [0; 8193];
    match input::read_all(&mut rt.stdin(), &mut request) {
        Ok(n) => answer(&request[..n]),
        Err(_) => {
            io::write_all(STDERR, b"probitfit: standard input could not be read\n");
        }
    }
}
