// The log: its header, what reading it finds, its pages and batches, and the frames added to it.
// A log's bytes are lent; an open log is a few numbers by value. Every public function is total.
#![tactic(auto)]

ghost use Rattle.std.specs.Prelude.{Some, Ok, Err, ◌≡◌, ◌+◌, ◌-◌, ◌/◌, ◌^◌, ◌<◌, length, drop, nat_eq};
ghost use Rattle.le.specs.Choice.{pick};
ghost use Rattle.le.specs.Answers.{stored_of};
ghost use Rattle.le.specs.Le.{store};
ghost use Rattle.page.specs.Page.{front_page};
ghost use Rattle.frame.specs.Frame.{frame_at};
ghost use Rattle.wal.specs.Header.{encode_wal_header, wal_header_in, decode_wal_header};
ghost use Rattle.wal.specs.Recovery.{readable_as, readable, chunks, recovered, wal_of, open_log};
ghost use Rattle.wal.specs.Read.{frame_in, read_log_page, page_place_from, find_log_page, batch_from, next_batch};
ghost use Rattle.wal.specs.Write.{empty_wal, create_answer, create_after, area_fine, truncate_answer, truncate_after, longer, joins, with_frame, has_room, append_frame_answer, append_frame_after, clock_answer};

use frame::{FRAME_HEADER_SIZE, FRAME_SIZE, FrameHeader, FrameStart};
use mvcc::MVCC_FRAME_MARKER;
use page::PAGE_SIZE;
use refusal::Refusal;

pub const WAL_HEADER_SIZE: usize = 32;

// The leading bytes of every log.
pub const WAL_MAGIC: [u8; 8] = *b"SQLRWAL\0";
// The version that is written.
pub const WAL_FORMAT_VERSION: u32 = 3;
// The oldest version that is read.
pub const WAL_FORMAT_VERSION_MIN_SUPPORTED: u32 = 1;
// The log's area: the header and 1,024 frames.
pub const WAL_AREA: usize = 4_210_720;

// What the header says.
#[repr(C)]
#[derive(Clone, Copy)]
pub struct WalHeader {
    pub version: u32,
    pub salt: u32,
    pub checkpoint_seq: u32,
    pub clock_high_water: u64,
}

// Stores the header at the log's start, if there is room for it.
pub fn encode_wal_header(h: WalHeader, log: &mut [u8]) -> Result<(), Refusal>
    ensures { (result ≡ stored_of log.old 0 32) × (log.new ≡ store log.old 0 (encode_wal_header h)) }
{
    if log.len() < WAL_HEADER_SIZE {
        return Err(Refusal::Area);
    }
    let _ = le::write_bytes(log, 0, &WAL_MAGIC);
    let _ = le::write_u32(log, 8, WAL_FORMAT_VERSION);
    let _ = le::write_u32(log, 12, PAGE_SIZE as u32);
    let _ = le::write_u32(log, 16, h.salt);
    let _ = le::write_u32(log, 20, h.checkpoint_seq);
    let _ = le::write_u64(log, 24, h.clock_high_water);
    Ok(())
}

// Reads the header from the log's start, or answers the first of its refusals.
pub fn decode_wal_header(log: &[u8]) -> Result<WalHeader, Refusal>
    ensures { result ≡ decode_wal_header log.now }
{
    if log.len() < WAL_HEADER_SIZE {
        return Err(Refusal::Short);
    }
    if !log.starts_with(&WAL_MAGIC) {
        return Err(Refusal::Magic);
    }
    let version = le::read_u32(log, 8);
    if version < WAL_FORMAT_VERSION_MIN_SUPPORTED {
        return Err(Refusal::Version);
    }
    if WAL_FORMAT_VERSION < version {
        return Err(Refusal::Version);
    }
    let page_size = le::read_u32(log, 12) as usize;
    if page_size != PAGE_SIZE {
        return Err(Refusal::PageSize);
    }
    Ok(WalHeader {
        version,
        salt: le::read_u32(log, 16),
        checkpoint_seq: le::read_u32(log, 20),
        clock_high_water: le::read_u64(log, 24),
    })
}

// An open log.
#[derive(Clone, Copy)]
pub struct Wal {
    pub header: WalHeader,
    // The log's length in its area.
    pub len: usize,
    // Where the good frames end: an added frame joins them only where the length stood right there.
    pub good_end: usize,
    // The commit point: the end of the last commit frame among the good frames.
    pub last_commit_offset: usize,
    // The page count of the last commit frame, if there is one.
    pub last_commit_page_count: Option<u32>,
    // Good frames, committed or not, a last batch frame that did not decode, and every frame added since.
    pub frame_count: usize,
}

// The last commit frame's count, after a frame's.
fn counted(last: Option<u32>, commit_page_count: u32) -> Option<u32>
    ensures { result ≡ pick (nat_eq commit_page_count 0) last (Some commit_page_count) }
{
    if commit_page_count == 0 {
        return last;
    }
    Some(commit_page_count)
}

impl Wal {
    // A log of its header alone. Of an open log's own header: the log cut to it.
    pub fn empty(header: WalHeader) -> Wal
        ensures { result ≡ empty_wal header }
    {
        Wal {
            header,
            len: WAL_HEADER_SIZE,
            good_end: WAL_HEADER_SIZE,
            last_commit_offset: WAL_HEADER_SIZE,
            last_commit_page_count: None,
            frame_count: 0,
        }
    }

    // The log one frame longer. A good frame joins the good ones only where the length stood right at their end,
    // and then a nonzero count commits.
    fn with_frame(self, good: bool, commit_page_count: u32) -> Wal
        requires { self.len + 4112 < 2 ^ 64 }
        ensures { result ≡ longer (joins self good) self commit_page_count }
    {
        let end = self.len + FRAME_SIZE;
        let mut wal = Wal {
            len: end,
            last_commit_page_count: counted(self.last_commit_page_count, commit_page_count),
            frame_count: self.frame_count.wrapping_add(1),
            ..self
        };
        let commits = commit_page_count != 0;
        if good && self.len == self.good_end {
            wal.good_end = end;
            if commits {
                wal.last_commit_offset = end;
            }
        }
        wal
    }

    // The log one good frame longer, which does not commit; as it was where there is no room for one.
    // For a caller that has just stored such a frame at the log's length; of any other log these numbers are made up.
    pub fn longer(self) -> Wal
        ensures { result ≡ pick (has_room self) (with_frame self 0) self }
    {
        if !le::fits_in(WAL_AREA, self.len, FRAME_SIZE) {
            return self;
        }
        self.with_frame(true, 0)
    }

    // Refuses an area of another length than a log's, and one that is shorter than the log (Area).
    pub fn check_area(self, log: &[u8]) -> Result<(), Refusal>
        ensures { result ≡ pick (area_fine log.now self) (Ok tt) (Err Refusal.Area) }
    {
        if log.len() != WAL_AREA || WAL_AREA < self.len {
            return Err(Refusal::Area);
        }
        Ok(())
    }

    // Refuses a frame more where the area has no room for it (LogFull).
    pub fn check_room(self) -> Result<(), Refusal>
        ensures { result ≡ pick (has_room self) (Ok tt) (Err Refusal.LogFull) }
    {
        if !le::fits_in(WAL_AREA, self.len, FRAME_SIZE) {
            return Err(Refusal::LogFull);
        }
        Ok(())
    }

    // Opens a log: judges its header and reads its frames once, where they lie; or answers the first of its refusals.
    pub fn open(file: &[u8]) -> Result<Wal, Refusal>
        ensures { result ≡ open_log file.now }
    {
        if WAL_AREA < file.len() {
            return Err(Refusal::Area);
        }
        let header = decode_wal_header(file)?;
        Ok(replay_frames(file, header))
    }
}

// Whether a body is a page's, or a batch's that decodes.
fn is_readable_as(page_num: u32, body: &[u8]) -> bool
    ensures { result ≡ readable_as page_num body.now }
{
    if page_num != MVCC_FRAME_MARKER {
        return true;
    }
    mvcc::decodes(body)
}

// Whether the frame at `at` is a page's, or a batch's whose body decodes.
pub fn is_readable(file: &[u8], at: usize) -> bool
    ensures { result ≡ readable (frame_at at file.now) }
{
    let header = frame::read_frame_header(file, at);
    is_readable_as(header.page_num, frame::frame_body(file, at))
}

// Reads frames up to the first that is not good.
fn replay_frames(file: &[u8], header: WalHeader) -> Wal
    requires { header ≡ wal_header_in file.now }
    ensures { result ≡ wal_of (length file.now) (recovered file.now) }
{
    let mut wal = Wal::empty(header);
    while frame::is_intact(file, wal.len, header.salt) {
        if !is_readable(file, wal.len) {
            return Wal {
                len: file.len(),
                frame_count: wal.frame_count + 1,
                ..wal
            };
        }
        let found = frame::read_frame_header(file, wal.len);
        wal = wal.with_frame(true, found.commit_page_count);
    }
    Wal {
        len: file.len(),
        ..wal
    }
}

// How many frames can stand in a log of a length.
fn chunk_count(len: usize) -> usize
    ensures { result ≡ (len - 32) / 4112 }
{
    if len < WAL_HEADER_SIZE {
        return 0;
    }
    (len - WAL_HEADER_SIZE) / FRAME_SIZE
}

// Where a frame stands, and its heading.
#[derive(Clone, Copy)]
pub struct FrameAt {
    pub offset: usize,
    pub header: FrameHeader,
}

// The frame at an index, good or not, if one stands wholly inside the log there.
pub fn frame_at(file: &[u8], index: usize) -> Option<FrameAt>
    ensures { result ≡ frame_in file.now index }
{
    if chunk_count(file.len()) <= index {
        return None;
    }
    let offset = WAL_HEADER_SIZE + FRAME_SIZE * index;
    let header = frame::read_frame_header(file, offset);
    Some(FrameAt { offset, header })
}

// The place of the bytes of a page's last frame.
fn last_place(file: &[u8], page_num: u32) -> Option<usize>
    ensures { result ≡ page_place_from page_num 0 (chunks file.now) }
{
    for i in (0..chunk_count(file.len())).rev() {
        let at = WAL_HEADER_SIZE + FRAME_SIZE * i;
        let header = frame::read_frame_header(file, at);
        if header.page_num == page_num {
            return Some(at + FRAME_HEADER_SIZE);
        }
    }
    None
}

// The place of a page's bytes in its last frame up to the commit point.
// The frames up to there are committed good ones, also in a log that was appended to behind a torn tail.
pub fn find_page(file: &[u8], wal: Wal, page_num: u32) -> Option<usize>
    ensures { result ≡ find_log_page file.now wal.last_commit_offset page_num }
{
    if page_num == MVCC_FRAME_MARKER {
        return None;
    }
    last_place(le::part(file, 0, wal.last_commit_offset), page_num)
}

// A page's own bytes inside the log, where `find_page` finds them; no byte if there is none.
pub fn read_page(file: &[u8], wal: Wal, page_num: u32) -> &[u8]
    ensures { result.now ≡ read_log_page file.now wal.last_commit_offset page_num }
{
    match find_page(file, wal, page_num) {
        Some(at) => le::part(file, at, PAGE_SIZE),
        None => &file[..0],
    }
}

// A batch's index among the frames, and its frame's place.
#[derive(Clone, Copy)]
pub struct BatchAt {
    pub index: usize,
    pub offset: usize,
}

// The first batch at an index or behind it.
pub fn first_batch(file: &[u8], index: usize) -> Option<BatchAt>
    ensures { result ≡ batch_from index (drop index (chunks file.now)) }
{
    for i in index..chunk_count(file.len()) {
        let offset = WAL_HEADER_SIZE + FRAME_SIZE * i;
        let header = frame::read_frame_header(file, offset);
        if header.page_num == MVCC_FRAME_MARKER {
            return Some(BatchAt { index: i, offset });
        }
    }
    None
}

// The first batch at an index or behind it, up to the commit point.
pub fn next_batch(file: &[u8], wal: Wal, index: usize) -> Option<BatchAt>
    ensures { result ≡ next_batch file.now wal.last_commit_offset index }
{
    first_batch(le::part(file, 0, wal.last_commit_offset), index)
}

// Makes the area a log without frames; one of another length is refused (Area).
pub fn create(log: &mut [u8], salt: u32) -> Result<Wal, Refusal>
    ensures { (result ≡ create_answer log.old salt) × (log.new ≡ create_after log.old salt) }
{
    if log.len() != WAL_AREA {
        return Err(Refusal::Area);
    }
    let header = WalHeader {
        version: WAL_FORMAT_VERSION,
        salt,
        checkpoint_seq: 0,
        clock_high_water: 0,
    };
    let _ = encode_wal_header(header, log);
    Ok(Wal::empty(header))
}

// Takes the log back to its header, with the next sequence and a new salt. The bytes behind stay in the area.
pub fn truncate(log: &mut [u8], wal: Wal, salt: u32) -> Result<Wal, Refusal>
    ensures { (result ≡ truncate_answer log.old wal salt) × (log.new ≡ truncate_after log.old wal salt) }
{
    wal.check_area(log)?;
    let header = WalHeader {
        version: WAL_FORMAT_VERSION,
        salt,
        checkpoint_seq: wal.header.checkpoint_seq.wrapping_add(1),
        ..wal.header
    };
    let _ = encode_wal_header(header, log);
    Ok(Wal::empty(header))
}

// Stores a frame at the log's length, and answers the log with it; a nonzero count commits.
pub fn append_frame(
    log: &mut [u8],
    wal: Wal,
    page_num: u32,
    content: &[u8],
    commit_page_count: u32,
) -> Result<Wal, Refusal>
    ensures value { result ≡ append_frame_answer log.old wal page_num content.now commit_page_count }
    ensures log_after { log.new ≡ append_frame_after log.old wal page_num content.now commit_page_count }
{
    if content.len() != PAGE_SIZE {
        return Err(Refusal::Area);
    }
    wal.check_area(log)?;
    wal.check_room()?;
    let start = FrameStart {
        page_num,
        commit_page_count,
        salt: wal.header.salt,
    };
    let _ = frame::write_frame(log, wal.len, start, content);
    let good = is_readable_as(page_num, content);
    Ok(wal.with_frame(good, commit_page_count))
}

// Stores page 0's frame: a header's 32 bytes, and zeros behind. A nonzero count commits.
pub fn append_page_zero(
    log: &mut [u8],
    wal: Wal,
    front: &[u8],
    commit_page_count: u32,
) -> Result<Wal, Refusal>
    ensures value { result ≡ append_frame_answer log.old wal 0 (front_page front.now) commit_page_count }
    ensures log_after { log.new ≡ append_frame_after log.old wal 0 (front_page front.now) commit_page_count }
{
    if front.len() != 32 {
        return Err(Refusal::Area);
    }
    wal.check_area(log)?;
    wal.check_room()?;
    let start = FrameStart {
        page_num: 0,
        commit_page_count,
        salt: wal.header.salt,
    };
    let _ = frame::write_padded_frame(log, wal.len, start, front);
    Ok(wal.with_frame(true, commit_page_count))
}

// The log with a clock that is not below its own.
pub fn set_clock_high_water(wal: Wal, value: u64) -> Result<Wal, Refusal>
    ensures { result ≡ clock_answer wal value }
{
    if value < wal.header.clock_high_water {
        return Err(Refusal::Clock);
    }
    let header = WalHeader {
        clock_high_water: value,
        ..wal.header
    };
    Ok(Wal { header, ..wal })
}
