// A batch appended to the log: its canonical form is written straight behind the heading's place at the log's length,
// and becomes an uncommitted frame there.
#![tactic(auto)]

ghost use Rattle.std.specs.Prelude.{◌≡◌};
ghost use Rattle.wal_batch.specs.Batch.{batch_answer, batch_after};

use frame::{FRAME_HEADER_SIZE, FRAME_SIZE, FrameStart};
use mvcc::MVCC_FRAME_MARKER;
use page::PAGE_SIZE;
use refusal::Refusal;
use wal::Wal;

// Appends a batch, as `encode` writes it, uncommitted: the body that is lent may have any bools and any bytes behind its records.
// Answers the log one frame longer, or the first of its refusals. Area: the log's area has another length, the log is longer than it, or the
// body is longer than a page.
pub fn append_mvcc_batch(log: &mut [u8], wal: Wal, body: &[u8]) -> Result<Wal, Refusal>
    ensures value { result ≡ batch_answer log.old wal body.now }
    ensures log_after { log.new ≡ batch_after log.old wal body.now }
{
    wal.check_area(log)?;
    if PAGE_SIZE < body.len() {
        return Err(Refusal::Area);
    }
    mvcc::heading_refusal(body)?;
    wal.check_room()?;
    let from = wal.len + FRAME_HEADER_SIZE;
    let to = wal.len + FRAME_SIZE;
    mvcc_canonical::canonicalize(body, &mut log[from..to])?;
    let start = FrameStart {
        page_num: MVCC_FRAME_MARKER,
        commit_page_count: 0,
        salt: wal.header.salt,
    };
    let _ = frame::write_frame_header(log, wal.len, start);
    Ok(wal.longer())
}
