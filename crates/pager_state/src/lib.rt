// The open store: what it holds, and what its calls answer. The definitions of every call are this crate's specs.
#![tactic(auto)]

ghost use Rattle.std.specs.Prelude.{◌≡◌, true, ◌+◌, ◌≤◌, ◌<◌, leb, eqb, length, take};
ghost use Rattle.le.specs.Choice.{pick, both};
ghost use Rattle.pager_state.specs.World.{staging_area, staged_limit, busy_with, read_only_by, in_area, files_fine, fine_in, fine_by, with_job, with_wal};
ghost use Rattle.pager_state.specs.Overlay.{page_from, find_in, slot_of, frame_of, on_main};

use header::DbHeader;
use page::PAGE_SIZE;
use refusal::Refusal;
use wal::{WAL_AREA, Wal};

// Pages that a store can have, and entries of the page table.
pub const PAGES: usize = 1_024;

// The main file's area: a page for each.
pub const MAIN_AREA: usize = PAGE_SIZE * PAGES;

// Pages that can be staged at a time.
pub const STAGED_PAGES: usize = 24;

// The staging area: a page for each.
pub const STAGING_AREA: usize = PAGE_SIZE * STAGED_PAGES;

// Frames at which a commit checkpoints.
pub const AUTO_CHECKPOINT_THRESHOLD_FRAMES: usize = 100;

#[derive(Clone, Copy)]
pub enum AccessMode {
    ReadWrite,
    ReadOnly,
}

// How the store came to be open.
#[derive(Clone, Copy)]
pub enum Opening {
    // Created, or opened cleanly.
    Clean,
    Plain,
    ReadOnly,
    // Read-only, and no log was there.
    NoLog,
}

// The main file: its length, and its own header.
#[repr(C)]
#[derive(Clone, Copy)]
pub struct FileStorage {
    pub len: usize,
    pub header: DbHeader,
}

// The numbers of the staged pages; slot i's bytes stand at 4,096 × i in the staging area.
#[repr(C)]
#[derive(Clone, Copy)]
pub struct Staged {
    pub count: usize,
    pub pages: [u16; STAGED_PAGES],
}

// What is part done: its arguments, the first page not looked at, and the answer that its last store gives.
#[derive(Clone, Copy)]
pub enum Job {
    Idle,
    Commit {
        header: DbHeader,
        salt: u32,
        page: usize,
        answer: usize,
    },
    Checkpoint {
        salt: u32,
        page: usize,
        answer: usize,
    },
    MainLength {
        salt: u32,
        answer: usize,
    },
    LogLength {
        salt: u32,
        answer: usize,
    },
    LogHeader {
        salt: u32,
        answer: usize,
    },
}

// An open store. The page table is lent beside it: an entry for each page, twice the place of its frame in the log (0: none),
// and 1 more if the main file has it.
#[derive(Clone, Copy)]
pub struct Pager {
    // The header that counts.
    pub current_header: DbHeader,
    pub wal: Wal,
    // Where the batches end that the opening found.
    pub recovered: usize,
    pub storage: FileStorage,
    pub staged: Staged,
    pub job: Job,
    pub opening: Opening,
}

// Where a page is found: the area and the first byte of its bytes there.
#[derive(Clone, Copy)]
pub enum PageFound {
    Staged(usize),
    Log(usize),
    Main(usize),
    Nothing,
}

// What a call of the store answers, and the store after it.
#[derive(Clone, Copy)]
pub struct Outcome<T> {
    pub answer: Result<T, Refusal>,
    pub pager: Pager,
}

#[derive(Clone, Copy)]
pub enum FileKind {
    Log,
    Main,
}

// A store as it is named: its file, first byte and length (for a length store the new length, then 0), and whether a flush follows.
#[derive(Clone, Copy)]
pub struct Place {
    pub file: FileKind,
    pub at: usize,
    pub len: usize,
    pub flush: bool,
}

// A next step; the last one has the answer of the commit or checkpoint besides.
#[derive(Clone, Copy)]
pub enum Step {
    Idle,
    Stored(Place),
    Last(Place, usize),
}

// How a checkpoint starts; Nothing has no store to do.
#[derive(Clone, Copy)]
pub enum CheckpointStart {
    Begun,
    Nothing,
}

// Whether a commit or checkpoint is part done.
pub fn is_busy(job: Job) -> bool
    ensures { result ≡ busy_with job }
{
    !matches!(job, Job::Idle)
}

// Whether the store writes nothing.
pub fn is_read_only(opening: Opening) -> bool
    ensures { result ≡ read_only_by opening }
{
    matches!(opening, Opening::ReadOnly | Opening::NoLog)
}

fn in_area(area: usize, size: usize, len: usize) -> bool
    ensures { result ≡ in_area size area len }
{
    area == size && len <= size
}

// Whether table and areas have the pager's lengths, and the files lie inside their areas.
pub fn are_files_inside(
    table: usize,
    log_area: usize,
    log: usize,
    main_area: usize,
    main: usize,
) -> bool
    ensures { result ≡ files_fine table log_area log main_area main true }
{
    table == PAGES && in_area(log_area, WAL_AREA, log) && in_area(main_area, MAIN_AREA, main)
}

// The same, and the page count is one that a store can have.
pub fn is_inside(
    page_count: u32,
    log_len: usize,
    main_len: usize,
    table: usize,
    log: usize,
    main: usize,
) -> bool
    ensures { result ≡ fine_in page_count log_len main_len table log main }
{
    are_files_inside(table, log, log_len, main, main_len) && page_count <= PAGES as u32
}

// The same of a store.
pub fn is_fine(pager: Pager, table: usize, log: usize, main: usize) -> bool
    ensures { result ≡ fine_by pager table log main }
{
    let wal = pager.wal;
    let storage = pager.storage;
    let header = pager.current_header;
    is_inside(header.page_count, wal.len, storage.len, table, log, main)
}

// The same, with the staging area's length.
pub fn are_fine(pager: Pager, table: usize, log: usize, main: usize, staging: usize) -> bool
    ensures { result ≡ both (fine_by pager table log main) (eqb staging staging_area) }
{
    is_fine(pager, table, log, main) && staging == STAGING_AREA
}

// The page table and the areas of a store, where they are only read.
#[derive(Clone, Copy)]
pub struct Areas<'a> {
    pub table: &'a [u32],
    pub log: &'a [u8],
    pub main: &'a [u8],
    pub staging: &'a [u8],
}

impl<'a> Areas<'a> {
    // Whether they have the store's lengths, and its files lie inside them.
    pub fn are_fine(self, pager: Pager) -> bool
        ensures { let a = self.entry in
            let fine = fine_by pager (length a.table.now) (length a.log.now) (length a.main.now) in
            result ≡ both fine (eqb (length a.staging.now) staging_area) }
    {
        are_fine(
            pager,
            self.table.len(),
            self.log.len(),
            self.main.len(),
            self.staging.len(),
        )
    }
}

// So many numbers are searched at once: a vector of 16 bytes.
const BLOCK: usize = 8;

// Whether p is none of these numbers. Every one is looked at: with no way out in between the compiler compares several at once.
fn is_none_of(s: &[u16], p: u16) -> bool
    ensures { result ≡ leb (length s.now) (find_in s.now p) }
{
    let mut none = true;
    for x in s {
        none &= *x != p;
    }
    none
}

// The index of the first p, or the length.
fn find_each(s: &[u16], p: usize) -> usize
    ensures { result ≡ find_in s.now p }
{
    s.iter()
        .position(|x| usize::from(*x) == p)
        .unwrap_or(s.len())
}

// Where the blocks in front end that have no p. Every block is looked at, and the end is told by the block's number, so that the compiler
// knows that it is a block's.
fn front_without(s: &[u16], p: u16) -> usize
    ensures upper_bound { (result ≤ length s.now) × (result ≤ find_in s.now p) }
    ensures p_bound { result + 8 ≤ length s.now → find_in s.now p < result + 8 }
{
    let mut clear = true;
    let mut front = 0;
    let (blocks, _) = s.as_chunks::<BLOCK>();
    for (i, block) in blocks.iter().enumerate() {
        clear &= is_none_of(block, p);
        if clear {
            front = BLOCK * (i + 1);
        }
    }
    front
}

// Behind the k numbers from `at` on, if p is none of them.
fn past(s: &[u16], at: usize, k: usize, p: u16) -> usize
    requires { at + k ≤ length s.now }
    ensures { at ≤ find_in s.now p → result ≡ pick (leb (at + k) (find_in s.now p)) (at + k) at }
{
    if is_none_of(&s[at..at + k], p) {
        at + k
    } else {
        at
    }
}

// The index of the first p, or the length: block by block, then by halves.
fn find(s: &[u16], p: usize) -> usize
    ensures { result ≡ find_in s.now p }
{
    if (u16::MAX as usize) < p {
        return find_each(s, p);
    }
    let number = p as u16;
    let front = front_without(s, number);
    if s.len() - front < BLOCK {
        return front + find_each(&s[front..], p);
    }
    let of_four = past(s, front, 4, number);
    let of_two = past(s, of_four, 2, number);
    past(s, of_two, 1, number)
}

// The index of the first p among the first n, or their number. The numbers are an array: a slice would go over in memory.
pub fn find_among(s: &[u16; STAGED_PAGES], n: usize, p: usize) -> usize
    ensures value { result ≡ find_in (take n s.now) p }
    ensures s_len { length s.now ≡ staged_limit }
{
    n.min(find(s, p))
}

// The same, one by one.
fn find_few(s: &[u16], n: usize, p: usize) -> usize
    ensures { result ≡ find_in (take n s.now) p }
{
    find_each(&s[..n.min(s.len())], p)
}

// The same for reading and staging: where nothing or one page is staged, as mostly, no block is searched.
pub fn find_in(s: &[u16; STAGED_PAGES], n: usize, p: usize) -> usize
    ensures value { result ≡ find_in (take n s.now) p }
    ensures s_len { length s.now ≡ staged_limit }
{
    if n < 2 {
        return find_few(s, n, p);
    }
    find_among(s, n, p)
}

// The slot that has the page, else the next free one.
pub fn slot_of(staged: Staged, page: usize) -> usize
    ensures { result ≡ slot_of staged page }
{
    find_in(&staged.pages, staged.count, page)
}

// A page's length from a place on, or what there is of it.
pub fn page_from(area: &[u8], at: usize) -> &[u8]
    ensures { result.now ≡ page_from at area.now }
{
    le::part(area, at, PAGE_SIZE)
}

// Where the log has a page; 0 if it does not.
#[tactic(auto, unfolding(crate::specs::Overlay::frame_of))]
pub fn frame_of(table: &[u32], page: usize) -> usize
    ensures { result ≡ frame_of table.now page }
{
    table.get(page).map_or(0, |entry| *entry as usize / 2)
}

// Whether the main file has a page.
#[tactic(auto, unfolding(crate::specs::Overlay::on_main))]
pub fn on_main(table: &[u32], page: usize) -> bool
    ensures { result ≡ on_main table.now page }
{
    table.get(page).is_some_and(|entry| *entry % 2 == 1)
}

// The store with another log and the next job.
pub fn with_wal(pager: Pager, wal: Wal, job: Job) -> Pager
    ensures { result ≡ with_job (with_wal pager wal) job }
{
    Pager { wal, job, ..pager }
}
