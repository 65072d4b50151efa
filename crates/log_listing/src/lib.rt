// The listing of a log: document 01's lines for it, written into a lent buffer.
// The lines are put one behind the other; each function adds a piece at a place and answers where the next one goes.
#![tactic(auto)]

ghost use Rattle.std.specs.Prelude.{◌≡◌, ◌+◌, ◌≤◌, length};
ghost use Rattle.frame.specs.Frame.{frame_at};
ghost use Rattle.wal.specs.Recovery.{recovered, frame_count_of, wal_of};
ghost use Rattle.log_listing.specs.Listing.{decimal, number_text, salt_text, log_line, kind_text, frame_line, frame_lines, last_text, end_line, refused_line, opened_text, listing};
ghost use Rattle.log_listing.specs.Answer.{Added, listed_answer, listed_after};

use frame::FRAME_SIZE;
use mvcc::MVCC_FRAME_MARKER;
use refusal::Refusal;
use wal::{WAL_HEADER_SIZE, Wal, WalHeader};

// The longest log that is listed: the header and 15 frames.
pub const LISTED_SIZE: usize = 61_712;

// A buffer of this length has room for every listing.
pub const LISTING_SIZE: usize = 2_048;

// Adds a text.
fn add_text(out: &mut [u8], at: usize, text: &[u8]) -> usize
    requires { at + length text.now ≤ length out.old }
    ensures { Added (length text.now) out.old at text.now out.new result }
{
    let _ = le::write_bytes(out, at, text);
    at + text.len()
}

// Adds a number in decimal digits.
fn add_decimal(out: &mut [u8], at: usize, n: u64) -> usize
    requires { at + 20 ≤ length out.old }
    ensures { Added 20 out.old at (decimal n) out.new result }
{
    let mut digits = [0u8; 20];
    let k = io::decimal(n, &mut digits);
    add_text(out, at, &digits[..k])
}

// Adds a space and a number in decimal digits.
fn add_number(out: &mut [u8], at: usize, n: u64) -> usize
    requires { at + 21 ≤ length out.old }
    ensures { Added 21 out.old at (number_text n) out.new result }
{
    let end = add_text(out, at, b" ");
    add_decimal(out, end, n)
}

// Adds a space and a salt in eight hexadecimal digits.
fn add_salt(out: &mut [u8], at: usize, salt: u32) -> usize
    requires { at + 9 ≤ length out.old }
    ensures { Added 9 out.old at (salt_text salt) out.new result }
{
    let end = add_text(out, at, b" ");
    let mut digits = [0u8; 16];
    let k = io::hex(u64::from(salt), 8, &mut digits);
    add_text(out, end, &digits[..k])
}

// Adds the first line: what the log's header says.
fn add_header(out: &mut [u8], at: usize, header: WalHeader) -> usize
    requires { at + 76 ≤ length out.old }
    ensures { Added 76 out.old at (log_line header) out.new result }
{
    let word = add_text(out, at, b"log");
    let version = add_number(out, word, u64::from(header.version));
    let salt = add_salt(out, version, header.salt);
    let seq = add_number(out, salt, u64::from(header.checkpoint_seq));
    let clock = add_number(out, seq, header.clock_high_water);
    add_text(out, clock, b"\n")
}

// Adds what a frame is: a page and its number, or a batch and its record count.
fn add_kind(file: &[u8], offset: usize, page_num: u32, out: &mut [u8], at: usize) -> usize
    requires { (offset + 4112 ≤ length file.now) × (at + 27 ≤ length out.old) }
    ensures { Added 27 out.old at (kind_text page_num (frame_at offset file.now)) out.new result }
{
    if page_num == MVCC_FRAME_MARKER {
        let records = le::read_u16(frame::frame_body(file, offset), 16);
        let word = add_text(out, at, b" batch");
        return add_number(out, word, u64::from(records));
    }
    let word = add_text(out, at, b" page");
    add_number(out, word, u64::from(page_num))
}

// Adds the line of a frame.
fn add_frame(file: &[u8], offset: usize, index: usize, out: &mut [u8], at: usize) -> usize
    requires { (offset + 4112 ≤ length file.now) × (at + 69 ≤ length out.old) }
    ensures { Added 69 out.old at (frame_line index (frame_at offset file.now)) out.new result }
{
    let header = frame::read_frame_header(file, offset);
    let first = add_decimal(out, at, index as u64);
    let kind = add_kind(file, offset, header.page_num, out, first);
    let count = add_number(out, kind, u64::from(header.commit_page_count));
    add_text(out, count, b"\n")
}

// Adds a line for each good frame; a last one that was counted and does not decode has none.
fn add_frames(file: &[u8], count: usize, out: &mut [u8], at: usize) -> usize
    requires { (length file.now ≤ 61712) × (count ≡ frame_count_of (recovered file.now)) × (at + 1035 ≤ length out.old) }
    ensures { Added 1035 out.old at (frame_lines 0 (recovered file.now).frames) out.new result }
{
    let mut end = at;
    for i in 0..count {
        let offset = WAL_HEADER_SIZE + FRAME_SIZE * i;
        if !wal::is_readable(file, offset) {
            return end;
        }
        end = add_frame(file, offset, i, out, end);
    }
    end
}

// Adds the last commit count, or `-`.
fn add_last(out: &mut [u8], at: usize, last: Option<u32>) -> usize
    requires { at + 21 ≤ length out.old }
    ensures { Added 21 out.old at (last_text last) out.new result }
{
    match last {
        Some(count) => add_number(out, at, count as u64),
        None => add_text(out, at, b" -"),
    }
}

// Adds the last line.
fn add_end(out: &mut [u8], at: usize, wal: Wal) -> usize
    requires { at + 67 ≤ length out.old }
    ensures { let line = end_line wal.frame_count wal.last_commit_offset wal.last_commit_page_count in
        Added 67 out.old at line out.new result }
{
    let last_commit = wal.last_commit_page_count;
    let word = add_text(out, at, b"end");
    let frames = add_number(out, word, wal.frame_count as u64);
    let point = add_number(out, frames, wal.last_commit_offset as u64);
    let last = add_last(out, point, last_commit);
    add_text(out, last, b"\n")
}

// Adds the lines of a log that was opened.
fn add_opened(file: &[u8], wal: Wal, out: &mut [u8]) -> usize
    requires { (length file.now ≤ 61712) × (wal ≡ wal_of (length file.now) (recovered file.now)) × (2048 ≤ length out.old) }
    ensures { Added 2048 out.old 0 (opened_text (recovered file.now)) out.new result }
{
    let header = wal.header;
    let first = add_header(out, 0, header);
    let frames = add_frames(file, wal.frame_count, out, first);
    add_end(out, frames, wal)
}

// Adds the line of a refusal.
fn add_refused(out: &mut [u8], row: Refusal) -> usize
    requires { 2048 ≤ length out.old }
    ensures { Added 2048 out.old 0 (refused_line row) out.new result }
{
    let word = add_text(out, 0, b"refused");
    let end = add_number(out, word, u64::from(refusal::number(row)));
    add_text(out, end, b"\n")
}

// Adds all the lines.
fn add_listing(file: &[u8], out: &mut [u8]) -> usize
    requires { 2048 ≤ length out.old }
    ensures { Added 2048 out.old 0 (listing file.now) out.new result }
{
    if LISTED_SIZE < file.len() {
        return add_refused(out, Refusal::Area);
    }
    match Wal::open(file) {
        Ok(wal) => add_opened(file, wal, out),
        Err(row) => add_refused(out, row),
    }
}

// Writes the listing of a log at the front of `out`, and answers its length; a buffer that is too short is refused (Area) and stays as it was.
pub fn list_log(file: &[u8], out: &mut [u8]) -> Result<usize, Refusal>
    ensures { (result ≡ listed_answer file.now out.old) × (out.new ≡ listed_after file.now out.old) }
{
    if out.len() < LISTING_SIZE {
        return Err(Refusal::Area);
    }
    Ok(add_listing(file, out))
}
