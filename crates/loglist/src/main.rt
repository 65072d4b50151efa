// Lists the log on standard input in document 01's lines.
#![tactic(auto)]

use log_listing::{LISTED_SIZE, LISTING_SIZE};

// One byte more than is listed, so that a longer log is noticed.
const LOG_SIZE: usize = LISTED_SIZE + 1;

fn main(rt: HostRuntime) {
    let mut space = [0u8; LOG_SIZE];
    match input::read_full(&mut rt.stdin(), &mut space) {
        Ok(n) => list(&rt, &space[..n]),
        Err(e) => {
            let _ = eprintln!(rt; "loglist: {e}");
        }
    }
}

fn list(rt: &(impl Print + Eprint), log: &[u8]) {
    let mut out = [0u8; LISTING_SIZE];
    match log_listing::list_log(log, &mut out) {
        Ok(end) => print(rt, le::part(&out, 0, end)),
        Err(_) => print(rt, b""),
    }
}

// Prints a text, or says that it could not be written.
fn print(rt: &(impl Print + Eprint), text: &[u8]) {
    if rt.write_all(text).is_err() {
        let _ = eprintln!(rt; "loglist: writing standard output failed");
    }
}
