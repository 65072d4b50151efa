// Test support: the lists of cases that the test programs replay, each its own (compare/README.md), and their one main.
#![tactic(auto)]

mod bodies;
mod frames;
mod headers;
mod logs;
mod print;
mod sums;
mod texts;

pub use bodies::Bodies;
pub use frames::Frames;
pub use headers::Headers;
pub use logs::Logs;
use std::rt::Runtime;
pub use sums::Sums;
pub use texts::Texts;

// A list of cases, by what its cases are.
pub trait List {
    // The program that replays it.
    const PROGRAM: &'static str;

    // Answers what no case of the list asks for.
    fn answer_preamble(_rt: &impl Print) {}

    // Answers one case of the list.
    fn answer(rt: &impl Print, case: &[u8]);
}

// Replays a list: reads it from standard input, and answers every case of it on standard output.
pub fn run<L: List>(rt: &impl Runtime) {
    let mut space = replay::list_room();
    match input::read_full(&mut rt.reader(), &mut space) {
        Ok(n) => {
            L::answer_preamble(rt);
            answer_all::<L>(rt, &space[..n]);
        }
        Err(e) => {
            let _ = eprintln!(rt; "{}: {e}", L::PROGRAM);
        }
    }
}

// Answers every case of the list.
fn answer_all<L: List>(rt: &impl Print, cases: &[u8]) {
    let mut at = 0;
    // no `for`: where the next case begins is for `next_case` to say
    while at < cases.len() {
        let mut case = [0u8; 4_096];
        let n = replay::read_case(cases, at, &mut case);
        L::answer(rt, le::part(&case, 0, n));
        at = replay::next_case(cases, at);
    }
}
