// One frame of the log: a heading of 16 bytes and a page's bytes behind it.
// A frame is read, summed and written where it lies in the log; no place in the log can hurt.
#![tactic(auto)]

ghost use Rattle.std.specs.Prelude.{◌≡◌, ◌+◌, ◌≤◌, length};
ghost use Rattle.le.specs.Answers.{stored_of};
ghost use Rattle.le.specs.Le.{put};
ghost use Rattle.page.specs.Page.{front_page};
ghost use Rattle.frame.specs.Frame.{frame_size, is_commit, heading, frame_at, frame_header, body_of, checksum_of, intact_at, heading_after, frame_stored, frame_after};

use page::PAGE_SIZE;
use refusal::Refusal;

pub const FRAME_HEADER_SIZE: usize = 16;

pub const FRAME_SIZE: usize = FRAME_HEADER_SIZE + PAGE_SIZE;

// A frame's heading.
#[repr(C)]
#[derive(Clone, Copy)]
pub struct FrameHeader {
    pub page_num: u32,
    pub commit_page_count: u32,
    pub salt: u32,
    pub checksum: u32,
}

impl FrameHeader {
    // Whether the frame commits what stands before it.
    pub fn is_commit(self) -> bool
        ensures { result ≡ is_commit self }
    {
        self.commit_page_count != 0
    }
}

// What a frame's heading says before its checksum.
#[derive(Clone, Copy)]
pub struct FrameStart {
    pub page_num: u32,
    pub commit_page_count: u32,
    pub salt: u32,
}

// The heading of the frame at `at`; a field that is not wholly there is 0.
pub fn read_frame_header(log: &[u8], at: usize) -> FrameHeader
    ensures { result ≡ frame_header (frame_at at log.now) }
{
    let heading = le::part(log, at, FRAME_HEADER_SIZE);
    FrameHeader {
        page_num: le::read_u32(heading, 0),
        commit_page_count: le::read_u32(heading, 4),
        salt: le::read_u32(heading, 8),
        checksum: le::read_u32(heading, 12),
    }
}

// The body of the frame at `at`: the page's own bytes inside the log.
pub fn frame_body(log: &[u8], at: usize) -> &[u8]
    ensures { result.now ≡ body_of (frame_at at log.now) }
{
    if log.len() <= at {
        return &log[..0];
    }
    le::part(log, at + FRAME_HEADER_SIZE, PAGE_SIZE)
}

// The sum of the frame at `at`, over its first 12 bytes and its body.
pub fn compute_checksum(log: &[u8], at: usize) -> u32
    ensures { result ≡ checksum_of (frame_at at log.now) }
{
    let sum = checksum::sum_over(le::part(log, at, 12), 0);
    checksum::sum_over(frame_body(log, at), sum)
}

// Whether a frame stands wholly inside the log at `at` whose salt and checksum agree.
pub fn is_intact(log: &[u8], at: usize, salt: u32) -> bool
    ensures { result ≡ intact_at log.now at salt }
{
    if !le::fits_in(log.len(), at, FRAME_SIZE) {
        return false;
    }
    let header = read_frame_header(log, at);
    if header.salt != salt {
        return false;
    }
    header.checksum == compute_checksum(log, at)
}

// Stores the 12 bytes before the checksum.
fn put_heading(log: &mut [u8], at: usize, start: FrameStart)
    requires { at + 12 ≤ length log.old }
    ensures { log.new ≡ put log.old at (heading start.page_num start.commit_page_count start.salt) }
{
    let _ = le::write_u32(log, at, start.page_num);
    let _ = le::write_u32(log, at + 4, start.commit_page_count);
    let _ = le::write_u32(log, at + 8, start.salt);
}

// Makes a frame of the page that lies behind the heading's place already.
pub fn write_frame_header(log: &mut [u8], at: usize, start: FrameStart) -> Result<(), Refusal>
    ensures value { result ≡ stored_of log.old at frame_size }
    ensures log_after { log.new ≡ heading_after log.old at start.page_num start.commit_page_count start.salt }
{
    if !le::fits_in(log.len(), at, FRAME_SIZE) {
        return Err(Refusal::Area);
    }
    put_heading(log, at, start);
    let sum = compute_checksum(log, at);
    let _ = le::write_u32(log, at + 12, sum);
    Ok(())
}

// Stores a whole frame at `at`.
pub fn write_frame(log: &mut [u8], at: usize, start: FrameStart, body: &[u8]) -> Result<(), Refusal>
    ensures value { result ≡ frame_stored log.old at body.now }
    ensures log_after { log.new ≡ frame_after log.old at start.page_num start.commit_page_count start.salt body.now }
{
    if body.len() != PAGE_SIZE {
        return Err(Refusal::Area);
    }
    if !le::fits_in(log.len(), at, FRAME_SIZE) {
        return Err(Refusal::Area);
    }
    let _ = le::write_bytes(log, at + FRAME_HEADER_SIZE, body);
    write_frame_header(log, at, start)
}

// Stores a whole frame at `at` of a page that has only these 32 bytes in front, and zeros behind. The zeros are not summed: 32 of them
// turn the sum round to itself.
pub fn write_padded_frame(
    log: &mut [u8],
    at: usize,
    start: FrameStart,
    front: &[u8],
) -> Result<(), Refusal>
    ensures value { result ≡ frame_stored log.old at (front_page front.now) }
    ensures log_after { log.new ≡ frame_after log.old at start.page_num start.commit_page_count start.salt (front_page front.now) }
{
    if front.len() != 32 {
        return Err(Refusal::Area);
    }
    if !le::fits_in(log.len(), at, FRAME_SIZE) {
        return Err(Refusal::Area);
    }
    let _ = le::write_bytes(log, at + FRAME_HEADER_SIZE, front);
    let _ = le::write_zeros(log, at + FRAME_HEADER_SIZE + 32, PAGE_SIZE - 32);
    put_heading(log, at, start);
    let heading_sum = checksum::sum_over(le::part(log, at, 12), 0);
    let _ = le::write_u32(log, at + 12, checksum::sum_over(front, heading_sum));
    Ok(())
}
