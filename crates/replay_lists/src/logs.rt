// The list of logs (compare/README.md, log_replay): builds each from its items, and lists it as the Rust reads it.
// A case is a row of items: kind (1 byte), a length (2), so many bytes.
use super::{List, print};
use frame::{FRAME_SIZE, FrameStart};
use log_listing::LISTING_SIZE;
use page::PAGE_SIZE;

#[derive(Clone, Copy)]
pub struct Logs;

impl List for Logs {
    const PROGRAM: &'static str = "log_replay";

    // Builds the log of a case, and lists it.
    fn answer(rt: &impl Print, case: &[u8]) {
        let mut log = [0u8; 65_536];
        let len = build(case, &mut log);
        let mut out = [0u8; LISTING_SIZE];
        match log_listing::list_log(le::part(&log, 0, len), &mut out) {
            Ok(end) => print::text(rt, le::part(&out, 0, end)),
            Err(_) => print::wrong(rt),
        }
    }
}

// Builds a log from nothing, and answers its length; an item that is not wholly there ends it.
fn build(case: &[u8], log: &mut [u8]) -> usize {
    let mut len = 0;
    let mut rest = case;
    while let Some((head, items)) = rest.split_first_chunk::<3>() {
        let [kind, low, high] = *head;
        let n = usize::from(u16::from_le_bytes([low, high]));
        let Some((item, next)) = items.split_at_checked(n) else {
            return len;
        };
        len = add_item(log, len, kind, item);
        rest = next;
    }
    len
}

// Carries out an item on a log of a length, and answers the new one.
fn add_item(log: &mut [u8], len: usize, kind: u8, item: &[u8]) -> usize {
    match kind {
        0 => replay::add_text(log, len, item),
        1 => add_drawn(log, len, item),
        2 => add_written(log, len, item),
        3 => {
            let _ = le::write_bytes(
                log,
                le::read_u32(item, 0) as usize,
                le::part(item, 4, PAGE_SIZE),
            );
            len
        }
        _ => resize(log, len, le::read_u32(item, 0) as usize),
    }
}

// Adds a frame whose body is drawn from a seed.
fn add_drawn(log: &mut [u8], len: usize, item: &[u8]) -> usize {
    if item.len() < 17 {
        return len;
    }
    let mut body = [0u8; PAGE_SIZE];
    replay::draw_body(&mut body, item[12], le::read_u32(item, 13));
    add_frame(log, len, item, &body)
}

// Adds a frame whose body is the item's bytes, then zeros.
fn add_written(log: &mut [u8], len: usize, item: &[u8]) -> usize {
    let mut body = [0u8; PAGE_SIZE];
    let _ = le::write_bytes(&mut body, 0, le::part(item, 12, PAGE_SIZE));
    add_frame(log, len, item, &body)
}

// Adds the frame of a body; page, commit count and salt are the item's first.
fn add_frame(log: &mut [u8], len: usize, item: &[u8], body: &[u8]) -> usize {
    let start = FrameStart {
        page_num: le::read_u32(item, 0),
        commit_page_count: le::read_u32(item, 4),
        salt: le::read_u32(item, 8),
    };
    let mut bytes = [0u8; FRAME_SIZE];
    let _ = frame::write_frame(&mut bytes, 0, start, body);
    replay::add_text(log, len, &bytes)
}

// Cuts the log to a length, or brings zeros up to it.
fn resize(log: &mut [u8], len: usize, new: usize) -> usize {
    if len < new {
        let _ = le::write_zeros(log, len, new - len);
    }
    new
}
