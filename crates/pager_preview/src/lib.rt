// What a commit would answer and leave, before it is made. It is judged as a commit is, and its end is told without a store.
#![tactic(auto)]

ghost use Rattle.std.specs.Prelude.{◌≡◌, ℕ, ◌+◌, ◌*◌, ◌≤◌};
ghost use Rattle.frame.specs.Frame.{frame_size};
ghost use Rattle.wal.specs.Recovery.{wal_area};
ghost use Rattle.pager_state.specs.World.{world, page_limit};
ghost use Rattle.pager_preview.specs.Preview.{preview_commit};
ghost use Rattle.pager_preview.specs.Closed.{end_of};

use frame::FRAME_SIZE;
use header::DbHeader;
use page::PAGE_SIZE;
use pager_state::{AUTO_CHECKPOINT_THRESHOLD_FRAMES, Areas, Pager};
use refusal::Refusal;
use wal::{WAL_HEADER_SIZE, Wal};

// The answer of a commit, and the store after it.
#[derive(Clone, Copy)]
pub struct Preview {
    // The number of differing pages.
    pub answer: usize,
    pub frame_count: usize,
    pub log_len: usize,
    pub main_len: usize,
    // Whether a checkpoint has followed.
    pub checkpointed: bool,
}

// The end of a commit of so many differing pages, for whose frames and commit frame the log has room.
#[tactic(auto, unfolding(crate::specs::Closed::end_of))]
fn end_of(pages: usize, wal: Wal, main_len: usize, page_count: u32) -> Preview
    requires pages_bound { wal.len + frame_size * (pages + 1) ≤ wal_area }
    requires page_count_le_page_limit { page_count ≤ page_limit }
    ensures { result ≡ end_of pages wal main_len page_count }
{
    let frames = wal.frame_count.wrapping_add(pages + 1);
    if AUTO_CHECKPOINT_THRESHOLD_FRAMES <= frames {
        return Preview {
            answer: pages,
            frame_count: 0,
            log_len: WAL_HEADER_SIZE,
            main_len: PAGE_SIZE * page_count as usize,
            checkpointed: true,
        };
    }
    Preview {
        answer: pages,
        frame_count: frames,
        log_len: wal.len + FRAME_SIZE * (pages + 1),
        main_len,
        checkpointed: false,
    }
}

// What a commit with these arguments, and any salt, would answer and leave. Every area is only read.
pub fn preview_commit(pager: Pager, areas: Areas, new_header: DbHeader) -> Result<Preview, Refusal>
    ensures { let a = areas.entry in
        let w = world pager a.table.now a.log.now a.main.now in
        ((salt : ℕ) → result ≡ preview_commit a.staging.now w new_header salt) }
{
    let judged = pager_judge::judge(pager, areas, new_header)?;
    Ok(end_of(
        judged.pages,
        pager.wal,
        pager.storage.len,
        new_header.page_count,
    ))
}
