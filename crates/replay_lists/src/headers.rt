// The list of main headers (compare/README.md, header_replay): answers what decoding and encoding make of each.
// A case: the buffer's length (2 bytes), its fill byte, and the bytes at its front.
use super::{List, print};
use header::DbHeader;

#[derive(Clone, Copy)]
pub struct Headers;

impl List for Headers {
    const PROGRAM: &'static str = "header_replay";

    // Makes the buffer of a case, and answers what decoding makes of it.
    fn answer(rt: &impl Print, case: &[u8]) {
        if case.len() < 3 {
            print::wrong(rt);
            return;
        }
        let len = usize::from(le::read_u16(case, 0));
        let mut buf = [case[2]; 65_536];
        let _ = le::write_bytes(&mut buf, 0, le::part(case, 3, case.len()));
        match header::decode_header(le::part(&buf, 0, len)) {
            Ok(h) => accepted(rt, h),
            Err(row) => refused(rt, refusal::number(row) as u64),
        }
    }
}

// Answers a refusal by document 01's number.
fn refused(rt: &impl Print, number: u64) {
    let _ = println!(rt; "refused {number}");
}

// Encodes what was decoded, and answers both.
fn accepted(rt: &impl Print, h: DbHeader) {
    let mut page = [0xeeu8; page::PAGE_SIZE];
    match header::encode_header(h, &mut page) {
        Ok(()) => print_header(rt, h, &page),
        Err(_) => print::wrong(rt),
    }
}

// Answers a header, the bytes it is encoded in, and how many of those behind are not zero.
fn print_header(rt: &impl Print, h: DbHeader, page: &[u8]) {
    let mut line = [0u8; 160];
    let mut at = replay::add_text(&mut line, 0, b"ok ");
    at = add_number(&mut line, at, u64::from(h.page_count));
    at = add_number(&mut line, at, u64::from(h.schema_root_page));
    at = add_number(&mut line, at, u64::from(h.format_version));
    at = add_number(&mut line, at, u64::from(h.freelist_head));
    at = add_hex_bytes(&mut line, at, le::part(page, 0, 32));
    at = replay::add_text(&mut line, at, b" ");
    let nonzero = le::part(page, 32, page.len())
        .iter()
        .filter(|b| **b != 0)
        .count();
    at = replay::add_decimal(&mut line, at, nonzero as u64);
    print::line(rt, &mut line, at);
}

// Adds a number and a space.
fn add_number(line: &mut [u8], at: usize, n: u64) -> usize {
    let end = replay::add_decimal(line, at, n);
    replay::add_text(line, end, b" ")
}

// Adds bytes, each in two hexadecimal digits.
fn add_hex_bytes(line: &mut [u8], at: usize, bytes: &[u8]) -> usize {
    let mut end = at;
    for b in bytes {
        end = replay::add_hex(line, end, u64::from(*b), 2);
    }
    end
}
