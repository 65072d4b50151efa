// The list of texts (compare/README.md, utf8_replay): answers which bytes are a text as the Rust does, and how many
// scalar values it has by the Standard; and the same, without cases, for all bytes by themselves and all pairs.
ghost use Rattle.std.specs.Prelude.{◌+◌, ◌≤◌, ◌<◌};

use super::{List, print};

#[derive(Clone, Copy)]
pub struct Texts;

impl List for Texts {
    const PROGRAM: &'static str = "utf8_replay";

    // A line for single bytes, and one for each first byte of two.
    fn answer_preamble(rt: &impl Print) {
        print_numbers(rt, b"");
        for a in 0..=255 {
            let first = [a];
            print_numbers(rt, &first);
        }
    }

    // Answers one case; 19 is document 01's number for bytes that are no text.
    fn answer(rt: &impl Print, case: &[u8]) {
        match text::from_utf8(case) {
            Some(chars) => print_chars(rt, chars),
            None => print::text(rt, b"refused 19\n"),
        }
    }
}

// Answers with a text's number.
fn print_chars(rt: &impl Print, chars: usize) {
    let _ = println!(rt; "chars {chars}");
}

// Answers with a number for each last byte behind `front`, two of them in each of 128 hexadecimal digits.
fn print_numbers(rt: &impl Print, front: &[u8]) {
    let mut line = [0u8; 144];
    let mut at = 0;
    for k in 0..128 {
        at = replay::add_hex(&mut line, at, digit(front, 2 * k), 1);
    }
    print::line(rt, &mut line, at);
}

// The numbers of two last bytes from `b` on, the first one in the higher bits.
fn digit(front: &[u8], b: u8) -> u64
    requires { b + 1 < 256 }
{
    4 * chars(front, b) + chars(front, b + 1)
}

// How many scalar values `front` with `b` behind it has, of which no text of two bytes has more than two; 0 for no text.
fn chars(front: &[u8], b: u8) -> u64
    ensures { result ≤ 2 }
{
    let mut bytes = [0u8; 2];
    let last = [b];
    let at = replay::add_text(&mut bytes, 0, front);
    let end = replay::add_text(&mut bytes, at, &last);
    match text::from_utf8(le::part(&bytes, 0, end)) {
        Some(n) => n.min(2) as u64,
        None => 0,
    }
}
