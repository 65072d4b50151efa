// The list of plain sums (compare/README.md, sum_replay): answers the sum carried from a start over a part of a drawn body.
// A case: the start (4 bytes), the body's kind (1) and its seed (4), the part's place and its length (2 each).
use super::{List, print};
use page::PAGE_SIZE;

#[derive(Clone, Copy)]
pub struct Sums;

impl List for Sums {
    const PROGRAM: &'static str = "sum_replay";

    // Draws the body of a case, and answers the sum over its part.
    fn answer(rt: &impl Print, case: &[u8]) {
        if case.len() != 13 {
            print::wrong(rt);
            return;
        }
        let kind = case[4];
        if 5 < kind {
            print::wrong(rt);
            return;
        }
        let mut body = [0u8; PAGE_SIZE];
        replay::draw_body(&mut body, kind, le::read_u32(case, 5));
        let place = usize::from(le::read_u16(case, 9));
        let length = usize::from(le::read_u16(case, 11));
        check(rt, le::part(&body, place, length), le::read_u32(case, 0));
    }
}

// Answers the sum in blocks, where the serial one is the same.
fn check(rt: &impl Print, bytes: &[u8], start: u32) {
    let sum = checksum::sum_over(bytes, start);
    if checksum::sum_serial(bytes, start) != sum {
        print::wrong(rt);
        return;
    }
    print::sum(rt, sum);
}
