// The list of batch bodies (compare/README.md, items_replay): answers where decoding ends, or why, and how many items it read.
// A case: its kind (1 byte), the body's length (2 bytes) and the bytes at its front; the rest of the body is zeros.
use super::{List, print};
use mvcc::MvccCommitBatch;

#[derive(Clone, Copy)]
pub struct Bodies;

impl List for Bodies {
    const PROGRAM: &'static str = "items_replay";

    // Makes the body of a case, and answers for it: 0 as it is, 1 cut at every length, 2 with each byte of its front damaged.
    fn answer(rt: &impl Print, case: &[u8]) {
        if case.len() < 3 {
            print::wrong(rt);
            return;
        }
        let len = usize::from(le::read_u16(case, 1));
        let front = le::part(case, 3, len);
        let mut space = [0u8; 65_536];
        let _ = le::write_bytes(&mut space, 0, front);
        match case[0] {
            0 => report(rt, le::part(&space, 0, len)),
            1 => report_cuts(rt, le::part(&space, 0, len)),
            2 => report_damages(rt, &mut space, len, front.len()),
            _ => print::wrong(rt),
        }
    }
}

// Answers for every beginning of a body, the shortest first.
fn report_cuts(rt: &impl Print, body: &[u8]) {
    for n in 0..=body.len() {
        report(rt, &body[..n]);
    }
}

// Answers for a body with one of its first n bytes damaged, each in three ways.
fn report_damages(rt: &impl Print, space: &mut [u8], len: usize, n: usize) {
    for i in 0..n {
        report_damaged(rt, space, len, i, 0x01);
        report_damaged(rt, space, len, i, 0x80);
        report_damaged(rt, space, len, i, 0xff);
    }
}

// Answers for the body with the bits of a mask turned in one byte, which it then has back.
fn report_damaged(rt: &impl Print, space: &mut [u8], len: usize, i: usize, mask: u8) {
    if i < space.len() {
        let byte = space[i];
        space[i] = byte ^ mask;
        report(rt, le::part(space, 0, len));
        space[i] = byte;
    }
}

// Answers with what decoding a body reports.
fn report(rt: &impl Print, body: &[u8]) {
    let report = MvccCommitBatch::decode(body);
    let items = report.items;
    let answer = report.answer;
    match answer {
        Ok(batch) => print_report(rt, "end", batch.end as u64, items),
        Err(row) => print_report(rt, "refused", refusal::number(row) as u64, items),
    }
}

fn print_report(rt: &impl Print, word: &str, n: u64, items: usize) {
    let _ = println!(rt; "{word} {n} items {items}");
}
