// How a commit is judged before anything is stored.
#![tactic(auto)]

ghost use Rattle.std.specs.Prelude.{◌≡◌, IfOk};
ghost use Rattle.pager_state.specs.World.{world};
ghost use Rattle.pager_state.specs.Overlay.{staged_pages};
ghost use Rattle.pager_state.specs.Steps.{header_good, stands_before, all_before, commit_start};
ghost use Rattle.pager_judge.specs.Judged.{start_of, Begins};

use frame::FRAME_SIZE;
use header::DbHeader;
use pager_state::{Areas, PAGES, Pager, STAGED_PAGES, Staged};
use refusal::Refusal;
use wal::WAL_AREA;

// Whether a page's frame in the log, if there is one, ends at `len` or before.
#[tactic(auto, unfolding(pager_state::specs::Overlay::in_log))]
fn stands_before(table: &[u32], page: usize, len: usize) -> bool
    ensures { result ≡ stands_before table.now page len }
{
    let at = pager_state::frame_of(table, page);
    at == 0 || le::fits_in(len, at, FRAME_SIZE)
}

// Whether those of all staged pages do: then no frame stored at `len` or behind changes what a staged page is compared with.
fn all_stand_before(staged: Staged, table: &[u32], len: usize) -> bool
    ensures { result ≡ all_before table.now len (staged_pages staged) }
{
    staged.pages[..staged.count.min(STAGED_PAGES)]
        .iter()
        .all(|page| stands_before(table, usize::from(*page), len))
}

// Whether a new header has a page count and a version that a store can have.
fn is_header_good(header: DbHeader) -> bool
    ensures { result ≡ header_good header }
{
    (1..=PAGES as u32).contains(&header.page_count)
        && (header::FORMAT_VERSION_V4..=header::FORMAT_VERSION_V6).contains(&header.format_version)
}

// What is found of a commit that begins: how many pages differ, and which.
#[derive(Clone, Copy)]
pub struct Judged {
    pub pages: usize,
    // As `Marked` of `pager_differing` has them.
    pub marks: [u16; STAGED_PAGES],
}

// Judges a commit.
#[tactic(auto, unfolding(pager_state::specs::World::fine, pager_state::specs::Steps::commit_start, pager_state::specs::Steps::commit_refusal, pager_state::specs::Steps::lacking, pager_state::specs::Steps::differing))]
pub fn judge(pager: Pager, areas: Areas, new_header: DbHeader) -> Result<Judged, Refusal>
    ensures answer_value { let a = areas.entry in
        let w = world pager a.table.now a.log.now a.main.now in
        start_of result ≡ commit_start a.staging.now w new_header }
    ensures begins { let a = areas.entry in
        let w = world pager a.table.now a.log.now a.main.now in
        IfOk result (Begins a.staging.now w) }
{
    if !areas.are_fine(pager) {
        return Err(Refusal::Area);
    }
    if pager_state::is_busy(pager.job) {
        return Err(Refusal::Busy);
    }
    let staged = pager.staged;
    let wal = pager.wal;
    if !all_stand_before(staged, areas.table, wal.len) {
        return Err(Refusal::Area);
    }
    if pager_state::is_read_only(pager.opening) {
        return Err(Refusal::ReadOnly);
    }
    if !is_header_good(new_header) {
        return Err(Refusal::NewHeader);
    }
    let old = pager.current_header.page_count;
    let new = new_header.page_count;
    if let Some(page) = pager_differing::first_lacking(staged, old, new) {
        return Err(Refusal::Joining(page));
    }
    let found = pager_differing::mark_differing(staged, areas);
    if WAL_AREA < wal.len + FRAME_SIZE * (found.count + 1) {
        return Err(Refusal::LogFull);
    }
    let marks = found.pages;
    Ok(Judged {
        pages: found.count,
        marks,
    })
}
