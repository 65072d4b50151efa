// Prints the batch whose body stands on standard input: its records and columns, and the bytes that it is encoded in.
// A body of more than 4,096 bytes is refused (1).
// With the word `replay` it replays the list of batch bodies that stands there, and answers as the Rust does (compare/README.md).
// A case: the body's length (2 bytes) and the bytes at its front; the rest of the body is zeros.
#![tactic(auto)]

mod out;
mod print;

use mvcc::BATCH_BODY_SIZE;
use refusal::Refusal;
use replay_lists::List;
use std::rt::{Env, Runtime};

// One byte more than a body has, so that a longer one is noticed.
const BODY_SIZE: usize = 4_097;

fn main(rt: HostRuntime) {
    if is_replay(&rt) {
        replay_lists::run::<Batches>(&rt);
    } else {
        read_body(&rt);
    }
}

// Whether the program's first argument is the word `replay`.
fn is_replay(rt: &impl Env) -> bool {
    let mut word = [0u8; 8];
    rt.arg(1, &mut word)
        .is_ok_and(|n| &word[..n] == b"replay".as_slice())
}

fn read_body(rt: &impl Runtime) {
    let mut space = [0u8; BODY_SIZE];
    match input::read_full(&mut rt.reader(), &mut space) {
        Ok(n) => print_one(rt, &space[..n]),
        Err(e) => {
            let _ = eprintln!(rt; "batchlist: {e}");
        }
    }
}

fn print_one(rt: &impl Print, body: &[u8]) {
    if BATCH_BODY_SIZE < body.len() {
        print::print_refused(rt, Refusal::Area);
        return;
    }
    print::print_body(rt, body, true);
}

// The list of batch bodies.
struct Batches;

impl List for Batches {
    const PROGRAM: &'static str = "batchlist";

    // Makes the body of a case, and answers what decoding makes of it.
    fn answer(rt: &impl Print, case: &[u8]) {
        let len = usize::from(le::read_u16(case, 0));
        let mut space = [0u8; 65_536];
        let _ = le::write_bytes(&mut space, 0, le::part(case, 2, len));
        print::print_body(rt, le::part(&space, 0, len), false);
    }
}
