// The list of frames (compare/README.md, checksum_replay): stores each in a log, and answers its checksum as the Rust does.
// A case: page, commit count and salt (4 bytes each), the body's kind (1) and its seed (4).
use super::{List, print};
use frame::FrameStart;
use page::PAGE_SIZE;

// Where the frame is stored, in a log that is a little longer.
const AT: usize = 32;

const LOG_SIZE: usize = 4200;

#[derive(Clone, Copy)]
pub struct Frames;

impl List for Frames {
    const PROGRAM: &'static str = "checksum_replay";

    // Stores the frame of a case, and answers what the log then has.
    fn answer(rt: &impl Print, case: &[u8]) {
        if case.len() != 17 {
            print::wrong(rt);
            return;
        }
        let kind = case[12];
        if 5 < kind {
            print::wrong(rt);
            return;
        }
        let start = FrameStart {
            page_num: le::read_u32(case, 0),
            commit_page_count: le::read_u32(case, 4),
            salt: le::read_u32(case, 8),
        };
        let mut body = [0u8; PAGE_SIZE];
        replay::draw_body(&mut body, kind, le::read_u32(case, 13));
        let mut log = [0x5au8; LOG_SIZE];
        match frame::write_frame(&mut log, AT, start, &body) {
            Ok(()) => check(rt, &log, start),
            Err(_) => print::wrong(rt),
        }
    }
}

// Answers the checksum, where the log gives the frame back.
fn check(rt: &impl Print, log: &[u8], start: FrameStart) {
    let h = frame::read_frame_header(log, AT);
    if !frame::is_intact(log, AT, start.salt) {
        print::wrong(rt);
        return;
    }
    if h.page_num != start.page_num
        || h.commit_page_count != start.commit_page_count
        || h.salt != start.salt
    {
        print::wrong(rt);
        return;
    }
    print::sum(rt, h.checksum);
}
