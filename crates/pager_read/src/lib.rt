// Reading the open store: its header, access mode and clock, its pages, and the batches that the opening found.
// A page is read where it lies. Every public function is total.
#![tactic(auto)]

ghost use Rattle.std.specs.Prelude.{◌≡◌};
ghost use Rattle.pager_state.specs.World.{world};
ghost use Rattle.pager_state.specs.Overlay.{slots, below, place_page, find_page, read_page};
ghost use Rattle.pager_state.specs.Queries.{header, mode_by, access_mode, clock_high_water_of, raised, observed_by, observe_clock};
ghost use Rattle.pager_state.specs.Batches.{next_recovered};
ghost use Rattle.pager_read.specs.Reading.{may_read, read_end};

use frame::FRAME_HEADER_SIZE;
use header::DbHeader;
use page::PAGE_SIZE;
use pager_state::{
    AccessMode, Areas, Opening, Outcome, PageFound, Pager, STAGED_PAGES, STAGING_AREA, Staged,
};
use refusal::Refusal;
use wal::{BatchAt, WAL_AREA, Wal};

// The header that counts.
pub fn header(pager: Pager) -> Result<DbHeader, Refusal>
    ensures { result ≡ header pager }
{
    let job = pager.job;
    if pager_state::is_busy(job) {
        return Err(Refusal::Busy);
    }
    let current = pager.current_header;
    Ok(current)
}

fn mode_of(opening: Opening) -> AccessMode
    ensures { result ≡ mode_by opening }
{
    match opening {
        Opening::Clean | Opening::Plain => AccessMode::ReadWrite,
        Opening::ReadOnly | Opening::NoLog => AccessMode::ReadOnly,
    }
}

// Whether the store can be written.
pub fn access_mode(pager: Pager) -> Result<AccessMode, Refusal>
    ensures { result ≡ access_mode pager }
{
    let job = pager.job;
    if pager_state::is_busy(job) {
        return Err(Refusal::Busy);
    }
    let opening = pager.opening;
    Ok(mode_of(opening))
}

// The clock, as it was raised last.
pub fn clock_high_water(pager: Pager) -> Result<u64, Refusal>
    ensures { result ≡ clock_high_water_of pager }
{
    let job = pager.job;
    if pager_state::is_busy(job) {
        return Err(Refusal::Busy);
    }
    let wal = pager.wal;
    let header = wal.header;
    Ok(header.clock_high_water)
}

// The log with its clock raised; a lower one is ignored.
fn raised(wal: Wal, value: u64) -> Wal
    ensures { result ≡ raised wal value }
{
    wal::set_clock_high_water(wal, value).unwrap_or(wal)
}

// The same by the kind of opening: without a log the clock stays 0.
fn observed(opening: Opening, wal: Wal, value: u64) -> Wal
    ensures { result ≡ observed_by opening wal value }
{
    match opening {
        Opening::Clean | Opening::Plain | Opening::ReadOnly => raised(wal, value),
        Opening::NoLog => wal,
    }
}

// Raises the clock in memory; it reaches the log's header at a checkpoint.
pub fn observe_clock_high_water(pager: Pager, value: u64) -> Outcome<()>
    ensures { result ≡ observe_clock pager value }
{
    let job = pager.job;
    if pager_state::is_busy(job) {
        return Outcome {
            answer: Err(Refusal::Busy),
            pager,
        };
    }
    let wal = observed(pager.opening, pager.wal, value);
    Outcome {
        answer: Ok(()),
        pager: Pager { wal, ..pager },
    }
}

// Where a page that isn't staged is found: none at or above the page count, else the log, else the main file.
fn below(count: u32, table: &[u32], page_num: u32) -> PageFound
    ensures { result ≡ below count table.now page_num }
{
    if count <= page_num {
        return PageFound::Nothing;
    }
    let page = page_num as usize;
    let frame = pager_state::frame_of(table, page);
    if frame != 0 {
        return PageFound::Log(frame + FRAME_HEADER_SIZE);
    }
    if pager_state::on_main(table, page) {
        return PageFound::Main(PAGE_SIZE * page);
    }
    PageFound::Nothing
}

// Where a page is found: staged before anything else, also at or above the page count. What a reading refuses is judged before (may_read).
pub fn place_page(
    page_count: u32,
    page_num: u32,
    staged_count: usize,
    staged: &[u16; STAGED_PAGES],
    table: &[u32],
) -> PageFound
    ensures { result ≡ place_page page_count (slots staged_count staged.now) table.now page_num }
{
    let slot = pager_state::find_in(staged, staged_count, page_num as usize);
    if staged_count <= slot || STAGED_PAGES <= slot {
        return below(page_count, table, page_num);
    }
    PageFound::Staged(PAGE_SIZE * slot)
}

// The same of a store's staged pages.
fn overlay(staged: Staged, count: u32, table: &[u32], page_num: u32) -> PageFound
    ensures { result ≡ place_page count staged table.now page_num }
{
    place_page(count, page_num, staged.count, &staged.pages, table)
}

// The area and place of a page's bytes: staged, else none if at or above the page count, else in the log, else in the main file.
pub fn find_page(pager: Pager, areas: Areas, page_num: u32) -> Result<PageFound, Refusal>
    ensures { let a = areas.entry in
        let w = world pager a.table.now a.log.now a.main.now in
        result ≡ find_page w a.staging.now page_num }
{
    if !areas.are_fine(pager) {
        return Err(Refusal::Area);
    }
    let job = pager.job;
    if pager_state::is_busy(job) {
        return Err(Refusal::Busy);
    }
    let staged = pager.staged;
    let header = pager.current_header;
    Ok(overlay(staged, header.page_count, areas.table, page_num))
}

// Page numbers that there can be.
const PAGE_NUMBERS: usize = 4_294_967_296;

// No page is found from there on, so that a host need not look: the page count, if nothing is staged.
#[tactic(auto, unfolding(crate::specs::Reading::read_end))]
pub fn read_end(page_count: u32, staged_count: usize) -> usize
    ensures { result ≡ read_end page_count staged_count }
{
    if staged_count == 0 {
        return page_count as usize;
    }
    PAGE_NUMBERS
}

// What a reading refuses, judged once for all pages of a store: for a host that reads often. The job is the C
// interface's number: 0 is none.
pub fn may_read(
    page_count: u32,
    job: u32,
    log_len: usize,
    main_len: usize,
    areas: Areas,
) -> Result<(), Refusal>
    ensures { let a = areas.entry in
        result ≡ may_read page_count job log_len main_len a.table.now a.log.now a.main.now a.staging.now }
{
    if !pager_state::is_inside(
        page_count,
        log_len,
        main_len,
        areas.table.len(),
        areas.log.len(),
        areas.main.len(),
    ) {
        return Err(Refusal::Area);
    }
    if areas.staging.len() != STAGING_AREA {
        return Err(Refusal::Area);
    }
    if job != 0 {
        return Err(Refusal::Busy);
    }
    Ok(())
}

// A page's own bytes inside the staging area, the log or the main file; no byte where there is no page.
pub fn read_page<'a>(pager: Pager, areas: Areas<'a>, page_num: u32) -> &'a [u8]
    ensures { let a = areas.entry in
        let w = world pager a.table.now a.log.now a.main.now in
        result.now ≡ read_page w a.staging.now page_num }
{
    let Ok(found) = find_page(pager, areas, page_num) else {
        return &areas.log[..0];
    };
    match found {
        PageFound::Staged(at) => pager_state::page_from(areas.staging, at),
        PageFound::Log(at) => pager_state::page_from(areas.log, at),
        PageFound::Main(at) => pager_state::page_from(areas.main, at),
        PageFound::Nothing => &areas.log[..0],
    }
}

// The next of the batches that the opening found, at a frame's index or behind it.
pub fn recovered_mvcc_commits(
    pager: Pager,
    log: &[u8],
    index: usize,
) -> Result<Option<BatchAt>, Refusal>
    ensures { result ≡ next_recovered pager log.now index }
{
    if log.len() != WAL_AREA {
        return Err(Refusal::Area);
    }
    let wal = pager.wal;
    if WAL_AREA < wal.len {
        return Err(Refusal::Area);
    }
    let job = pager.job;
    if pager_state::is_busy(job) {
        return Err(Refusal::Busy);
    }
    Ok(wal::first_batch(le::part(log, 0, pager.recovered), index))
}
