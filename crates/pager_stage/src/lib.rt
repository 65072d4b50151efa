// What a caller adds to the open store between commits: staged pages, and batches in the log.
// Every public function is total; a refusal changes neither the store nor an area.
#![tactic(auto)]

ghost use Rattle.std.specs.Prelude.{Err, Ok, ◌≡◌, not, eqb};
ghost use Rattle.pager_state.specs.World.{with_wal};
ghost use Rattle.pager_state.specs.Overlay.{slots};
ghost use Rattle.pager_state.specs.Staging.{stage_answer, staged_after, staging_bytes, stage_page, stage_after, clear_staged};
ghost use Rattle.pager_state.specs.Batches.{append_batch, append_after};
ghost use Rattle.pager_stage.specs.Append.{lowest};

use page::PAGE_SIZE;
use pager_state::{Outcome, PAGES, Pager, STAGED_PAGES, STAGING_AREA, Staged};
use refusal::Refusal;
use wal::{WAL_AREA, Wal};

// What staging answers, and how many pages are staged then.
#[derive(Clone, Copy)]
pub struct StagedIn {
    pub answer: Result<(), Refusal>,
    pub count: usize,
}

fn refused_in(refusal: Refusal, count: usize) -> StagedIn
    ensures { (result.answer ≡ Err refusal) × (result.count ≡ count) }
{
    StagedIn {
        answer: Err(refusal),
        count,
    }
}

// Stages a page's bytes, over those staged for it before. The staged pages' numbers are stored where they lie.
fn stage(
    busy: bool,
    page_num: u32,
    count: usize,
    pages: &mut [u16; STAGED_PAGES],
    staging: &mut [u8],
    bytes: &[u8],
) -> StagedIn
    ensures answer_value { result.answer ≡ stage_answer busy (slots count pages.old) staging.old page_num bytes.now }
    ensures pages_after { let s = slots count pages.old in
        slots result.count pages.new ≡ staged_after busy s staging.old page_num bytes.now }
    ensures staging_after { let s = slots count pages.old in
        staging.new ≡ staging_bytes busy s staging.old page_num bytes.now }
{
    if staging.len() != STAGING_AREA {
        return refused_in(Refusal::Area, count);
    }
    if bytes.len() != PAGE_SIZE {
        return refused_in(Refusal::Area, count);
    }
    if busy {
        return refused_in(Refusal::Busy, count);
    }
    if page_num >= PAGES as u32 {
        return refused_in(Refusal::Page, count);
    }
    let slot = pager_state::find_in(pages, count, page_num as usize);
    if slot >= STAGED_PAGES {
        return refused_in(Refusal::Staging, count);
    }
    pages[slot] = page_num as u16;
    let _ = le::write_bytes(staging, PAGE_SIZE * slot, bytes);
    StagedIn {
        answer: Ok(()),
        count: count.max(slot + 1),
    }
}

// The same of what staging takes of a store, for a host that stages often. The job is the C interface's
// number: 0 is none.
pub fn stage_in(
    job: u32,
    page_num: u32,
    staged_count: usize,
    staged: &mut [u16; STAGED_PAGES],
    staging: &mut [u8],
    bytes: &[u8],
) -> StagedIn
    ensures answer_value { let s = slots staged_count staged.old in
        result.answer ≡ stage_answer (not (eqb job 0)) s staging.old page_num bytes.now }
    ensures staged_after { let s = slots staged_count staged.old in
        slots result.count staged.new ≡ staged_after (not (eqb job 0)) s staging.old page_num bytes.now }
    ensures staging_after { let s = slots staged_count staged.old in
        staging.new ≡ staging_bytes (not (eqb job 0)) s staging.old page_num bytes.now }
{
    stage(job != 0, page_num, staged_count, staged, staging, bytes)
}

// Stages a page in a store.
pub fn stage_page(pager: Pager, staging: &mut [u8], page_num: u32, bytes: &[u8]) -> Outcome<()>
    ensures value { result ≡ stage_page pager staging.old page_num bytes.now }
    ensures staging_after { staging.new ≡ stage_after pager staging.old page_num bytes.now }
{
    let job = pager.job;
    let busy = pager_state::is_busy(job);
    let mut later = pager;
    let count = later.staged.count;
    let done = stage(
        busy,
        page_num,
        count,
        &mut later.staged.pages,
        staging,
        bytes,
    );
    later.staged.count = done.count;
    let answer = done.answer;
    Outcome {
        answer,
        pager: later,
    }
}

// Drops all that is staged; the area's bytes stay.
pub fn clear_staged(pager: Pager) -> Outcome<()>
    ensures { result ≡ clear_staged pager }
{
    let job = pager.job;
    if pager_state::is_busy(job) {
        return Outcome {
            answer: Err(Refusal::Busy),
            pager,
        };
    }
    let staged = Staged {
        count: 0,
        ..pager.staged
    };
    Outcome {
        answer: Ok(()),
        pager: Pager { staged, ..pager },
    }
}

// The lowest refusal of a batch where the store takes none: 1, 2 and 3 come before the other.
fn lowest(log: usize, len: usize, body: &[u8], other: Refusal) -> Refusal
    ensures { result ≡ lowest log len body.now other }
{
    if log != WAL_AREA || WAL_AREA < len || PAGE_SIZE < body.len() {
        return Refusal::Area;
    }
    match mvcc::heading_refusal(body) {
        Ok(()) => other,
        Err(refusal) => refusal,
    }
}

// The store as it was, with the refusal that left it so.
fn not_appended(refusal: Refusal, pager: Pager) -> Outcome<()>
    ensures { (result.answer ≡ Err refusal) × (result.pager ≡ pager) }
{
    Outcome {
        answer: Err(refusal),
        pager,
    }
}

// The store with a longer log.
fn appended(wal: Wal, pager: Pager) -> Outcome<()>
    ensures { (result.answer ≡ (Ok tt)) × (result.pager ≡ with_wal pager wal) }
{
    Outcome {
        answer: Ok(()),
        pager: Pager { wal, ..pager },
    }
}

// Appends a batch to the log, as `encode` writes it, uncommitted.
pub fn append_mvcc_batch(pager: Pager, log: &mut [u8], body: &[u8]) -> Outcome<()>
    ensures value { result ≡ append_batch pager log.old body.now }
    ensures log_after { log.new ≡ append_after pager log.old body.now }
{
    let wal = pager.wal;
    let job = pager.job;
    if pager_state::is_busy(job) {
        return not_appended(lowest(log.len(), wal.len, body, Refusal::Busy), pager);
    }
    let opening = pager.opening;
    if pager_state::is_read_only(opening) {
        return not_appended(lowest(log.len(), wal.len, body, Refusal::ReadOnly), pager);
    }
    match wal_batch::append_mvcc_batch(log, wal, body) {
        Err(refusal) => not_appended(refusal, pager),
        Ok(longer) => appended(longer, pager),
    }
}
