// The stores of a checkpoint, one at a time, and the call that starts a checkpoint.
#![tactic(auto)]

ghost use Rattle.std.specs.Prelude.{Ok, ◌≡◌, true, false, ℕ, suc, ◌+◌, ◌*◌, ◌≤◌, ◌<◌, eqb, length, get_or, [], ◌∷◌, MatchOption};
ghost use Rattle.wal.specs.Recovery.{wal_area};
ghost use Rattle.page.specs.Page.{page_size};
ghost use Rattle.le.specs.Choice.{both};
ghost use Rattle.header.specs.Header.{encode_header};
ghost use Rattle.wal.specs.Header.{header_size, encode_wal_header};
ghost use Rattle.wal.specs.Write.{empty_wal, truncated_header};
ghost use Rattle.le.specs.Le.{put};
ghost use Rattle.pager_state.specs.World.{world, header_of, count_of, with_job, with_wal, page_limit, main_area_size};
ghost use Rattle.pager_state.specs.Overlay.{log_bytes, main_at};
ghost use Rattle.pager_state.specs.Stores.{Put, SetLen, Other, place_of, grown, put_file};
ghost use Rattle.pager_state.specs.Pages.{pages_from, in_checkpoint_by, in_checkpoint};
ghost use Rattle.pager_state.specs.Checkpoint.{checkpointed_from, without_frames, log_length_act, pages_todo, pages_advance};
ghost use Rattle.pager_state.specs.Steps.{named, no_log_pages, begin_checkpoint};
ghost use Rattle.pager_checkpoint.specs.CheckpointStep.{checkpoint_step_answer, checkpoint_stepped, checkpoint_end, file_in, with_main, page_put, header_put, checkpoint_started_as};

use header::DbHeader;
use page::PAGE_SIZE;
use pager_state::{
    Areas, CheckpointStart, FileKind, FileStorage, Job, Outcome, PAGES, Pager, Place, Step,
};
use refusal::Refusal;
use wal::{WAL_HEADER_SIZE, Wal};

// Where the pages end that a checkpoint can store: those below the page count that the table has.
fn checkpoint_end(count: u32, len: usize) -> usize
    ensures { result ≡ checkpoint_end count len }
{
    (count as usize).min(PAGES).min(len)
}

// The bits of all entries: above 1 where one of them is. With no way out in between the compiler takes four at once.
fn bits(entries: &[u32]) -> u32
    ensures { (k : ℕ) → k < length entries.now → get_or entries.now k 0 ≤ result }
{
    let mut bits = 0;
    for entry in entries {
        bits |= *entry;
    }
    bits
}

// How many blocks of 32 entries stand before the first with a page of the log.
fn blocks_without(entries: &[u32]) -> usize
    ensures { (32 * result ≤ length entries.now) × ((k : ℕ) → k < 32 * result → get_or entries.now k 0 ≤ 1) }
{
    let (blocks, _) = entries.as_chunks::<32>();
    blocks
        .iter()
        .position(|block| 1 < bits(block))
        .unwrap_or(blocks.len())
}

// The first entry of a page of the log.
fn first_in_log(entries: &[u32]) -> Option<usize>
    ensures { MatchOption result ((k : ℕ) → k < length entries.now → get_or entries.now k 0 ≤ 1)
        (λ p. (p < length entries.now) × (1 < get_or entries.now p 0) × ((k : ℕ) → k < p → get_or entries.now k 0 ≤ 1)) }
{
    let start = 32 * blocks_without(entries);
    let k = entries[start..].iter().position(|entry| 1 < *entry)?;
    Some(start + k)
}

// The first page from `page` on that a checkpoint stores. Often it is the very next.
fn next_in_checkpoint(count: u32, table: &[u32], page: usize) -> Option<usize>
    ensures { let from = pages_from (in_checkpoint_by count table.now) in
        MatchOption result (from page ≡ []) (λ p. (p < page_limit) × (from page ≡ p ∷ from (suc p))) }
{
    let end = checkpoint_end(count, table.len());
    let first = page.max(1);
    if end <= first {
        return None;
    }
    if 1 < table[first] {
        return Some(first);
    }
    let k = first_in_log(&table[first..end])?;
    Some(first + k)
}

// How many pages a checkpoint stores. The count is as wide as the entries, so that the compiler counts four at once.
fn count_in_checkpoint(count: u32, table: &[u32]) -> usize
    ensures { result ≡ length (pages_from (in_checkpoint_by count table.now) 0) }
{
    let end = checkpoint_end(count, table.len());
    if end == 0 {
        return 0;
    }
    let mut n: u32 = 0;
    for entry in &table[1..end] {
        n += u32::from(1 < *entry);
    }
    n as usize
}

// Makes a file of `len` bytes `to` bytes long, with zeros, if it is shorter.
fn grow(area: &mut [u8], len: usize, to: usize)
    requires { to ≤ length area.old }
    ensures { area.new ≡ grown (file_in area.old len) to }
{
    if to <= len {
        return;
    }
    let _ = le::write_zeros(area, len, to - len);
}

// Stores bytes in a file of `len` bytes, with zeros before them where they start past its end; answers its length.
fn store_bytes(area: &mut [u8], len: usize, at: usize, bytes: &[u8]) -> usize
    requires { at + length bytes.now ≤ length area.old }
    ensures { let f = put_file (file_in area.old len) at bytes.now in (result ≡ f.len) × (area.new ≡ f.area) }
{
    grow(area, len, at);
    let _ = le::write_bytes(area, at, bytes);
    len.max(at + bytes.len())
}

// Stores the main header where it lies; answers the file's length.
fn store_header(main: &mut [u8], len: usize, header: DbHeader) -> usize
    requires { page_size ≤ length main.old }
    ensures { (result ≡ (header_put main.old len header).len) × (main.new ≡ (header_put main.old len header).area) }
{
    let _ = header::encode_header(header, &mut main[..PAGE_SIZE]);
    len.max(PAGE_SIZE)
}

// Makes a whole table that of a checkpointed log: an entry that was not 0 becomes 1, and the first one 0.
fn mark(table: &mut [u32])
    ensures { table.new ≡ checkpointed_from (length table.old) 0 table.old }
{
    for entry in table.iter_mut() {
        *entry = (*entry).min(1);
    }
    if 0 < table.len() {
        table[0] = 0;
    }
}

// The table once the log is checkpointed that has so many pages. One loop with all tests would take one entry at a time.
fn checkpoint_table(table: &mut [u32], count: u32)
    ensures { table.new ≡ checkpointed_from count 0 table.old }
{
    let end = (count as usize).min(table.len());
    let (front, rest) = table.split_at_mut(end);
    mark(front);
    rest.fill(0);
}

// The store with another main file and the next job.
fn with_main(pager: Pager, len: usize, header: DbHeader, job: Job) -> Pager
    ensures { result ≡ with_main pager len header job }
{
    Pager {
        storage: FileStorage { len, header },
        job,
        ..pager
    }
}

// The store with a log of its header alone, and without recovered batches.
fn without_frames(pager: Pager, job: Job) -> Pager
    ensures { result ≡ with_job (without_frames pager) job }
{
    Pager {
        wal: Wal::empty(pager.wal.header),
        recovered: WAL_HEADER_SIZE,
        job,
        ..pager
    }
}

// Stores a page of the log in the main file. A struct of `salt` and `answer` would be no plainer: the jobs that clauses name have the two
// apart. Nor would one of the areas: each step borrows only the areas that it reads or writes.
fn page_step(
    pager: Pager,
    salt: u32,
    answer: usize,
    page: usize,
    last: bool,
    table: &[u32],
    log: &[u8],
    main: &mut [u8],
) -> Outcome<Step>
    requires { (page < page_limit) × (length main.old ≡ main_area_size) }
    ensures answer_value { result.answer ≡ Ok (Step.Stored (place_of (Put Other FileKind.Main (main_at page) (log_bytes table.now log.now page) last))) }
    ensures pager_value { let f = page_put main.old pager.storage.len table.now log.now page in
        result.pager ≡ with_main pager f.len pager.storage.header (Job.Checkpoint salt (page + 1) answer) }
    ensures main_after { main.new ≡ (page_put main.old pager.storage.len table.now log.now page).area }
{
    let at = PAGE_SIZE * page;
    let bytes = frame::frame_body(log, pager_state::frame_of(table, page));
    let len = store_bytes(main, pager.storage.len, at, bytes);
    let job = Job::Checkpoint {
        salt,
        page: page + 1,
        answer,
    };
    let next = with_main(pager, len, pager.storage.header, job);
    let place = Place {
        file: FileKind::Main,
        at,
        len: bytes.len(),
        flush: last,
    };
    Outcome {
        answer: Ok(Step::Stored(place)),
        pager: next,
    }
}

// Stores the main header.
fn header_step(pager: Pager, salt: u32, answer: usize, main: &mut [u8]) -> Outcome<Step>
    requires { page_size ≤ length main.old }
    ensures answer_value { result.answer ≡ Ok (Step.Stored (place_of (Put Other FileKind.Main 0 (encode_header (header_of pager)) false))) }
    ensures pager_value { result.pager ≡ with_main pager (header_put main.old pager.storage.len (header_of pager)).len (header_of pager) (Job.MainLength salt answer) }
    ensures main_after { main.new ≡ (header_put main.old pager.storage.len (header_of pager)).area }
{
    let header = pager.current_header;
    let len = store_header(main, pager.storage.len, header);
    let next = with_main(pager, len, header, Job::MainLength { salt, answer });
    let place = Place {
        file: FileKind::Main,
        at: 0,
        len: PAGE_SIZE,
        flush: false,
    };
    Outcome {
        answer: Ok(Step::Stored(place)),
        pager: next,
    }
}

// The next store of a checkpoint that has pages or the main header to do.
fn pages_step(
    pager: Pager,
    salt: u32,
    page: usize,
    answer: usize,
    table: &[u32],
    log: &[u8],
    main: &mut [u8],
) -> Outcome<Step>
    requires { length main.old ≡ main_area_size }
    ensures answer_value { let w = world pager table.now log.now main.old in
        result.answer ≡ named answer (pages_todo salt answer (pages_from (in_checkpoint w) page) w) }
    ensures main_after { let w = world pager table.now log.now main.old in
        world result.pager table.now log.now main.new ≡ pages_advance salt answer (pages_from (in_checkpoint w) page) w }
{
    let count = pager.current_header.page_count;
    match next_in_checkpoint(count, table, page) {
        Some(q) => {
            let last = next_in_checkpoint(count, table, q + 1).is_none();
            page_step(pager, salt, answer, q, last, table, log, main)
        }
        None => header_step(pager, salt, answer, main),
    }
}

// Sets the main file's length.
fn length_step(pager: Pager, salt: u32, answer: usize, main: &mut [u8]) -> Outcome<Step>
    requires { (count_of (header_of pager) ≤ page_limit) × (length main.old ≡ main_area_size) }
    ensures answer_value { result.answer ≡ Ok (Step.Stored (place_of (SetLen Other FileKind.Main (page_size * count_of (header_of pager)) true))) }
    ensures pager_value { result.pager ≡ with_main pager (page_size * count_of (header_of pager)) pager.storage.header (Job.LogLength salt answer) }
    ensures main_after { main.new ≡ grown (file_in main.old pager.storage.len) (page_size * count_of (header_of pager)) }
{
    let to = PAGE_SIZE * pager.current_header.page_count as usize;
    grow(main, pager.storage.len, to);
    let job = Job::LogLength { salt, answer };
    let next = with_main(pager, to, pager.storage.header, job);
    let place = Place {
        file: FileKind::Main,
        at: to,
        len: 0,
        flush: true,
    };
    Outcome {
        answer: Ok(Step::Stored(place)),
        pager: next,
    }
}

// Sets the log's length to its header's.
fn empty_step(pager: Pager, salt: u32, answer: usize, log: &mut [u8]) -> Outcome<Step>
    requires { header_size ≤ length log.old }
    ensures answer_value { result.answer ≡ Ok (Step.Stored (place_of log_length_act)) }
    ensures pager_value { result.pager ≡ with_job (without_frames pager) (Job.LogHeader salt answer) }
    ensures log_after { log.new ≡ grown (file_in log.old pager.wal.len) header_size }
{
    grow(log, pager.wal.len, WAL_HEADER_SIZE);
    let next = without_frames(pager, Job::LogHeader { salt, answer });
    let place = Place {
        file: FileKind::Log,
        at: WAL_HEADER_SIZE,
        len: 0,
        flush: false,
    };
    Outcome {
        answer: Ok(Step::Stored(place)),
        pager: next,
    }
}

// Stores the log's header; the table then tells of the main file alone.
fn last_step(
    pager: Pager,
    salt: u32,
    answer: usize,
    table: &mut [u32],
    log: &mut [u8],
) -> Outcome<Step>
    requires { (length log.old ≡ wal_area) × (pager.wal.len ≤ wal_area) }
    ensures answer_value { result.answer ≡ Ok (Step.Last (place_of (Put Other FileKind.Log 0 (encode_wal_header (truncated_header pager.wal.header salt)) true)) answer) }
    ensures pager_value { result.pager ≡ with_job (with_wal pager (empty_wal (truncated_header pager.wal.header salt))) Job.Idle }
    ensures table_after { table.new ≡ checkpointed_from (count_of (header_of pager)) 0 table.old }
    ensures log_after { log.new ≡ put log.old 0 (encode_wal_header (truncated_header pager.wal.header salt)) }
{
    let old = pager.wal;
    let Ok(wal) = wal::truncate(log, old, salt) else {
        return Outcome {
            answer: Err(Refusal::Area),
            pager,
        };
    };
    checkpoint_table(table, pager.current_header.page_count);
    let next = pager_state::with_wal(pager, wal, Job::Idle);
    let place = Place {
        file: FileKind::Log,
        at: 0,
        len: WAL_HEADER_SIZE,
        flush: true,
    };
    Outcome {
        answer: Ok(Step::Last(place, answer)),
        pager: next,
    }
}

// Does the next store of a checkpoint that is part done, and no other.
pub fn checkpoint_step(
    pager: Pager,
    table: &mut [u32],
    log: &mut [u8],
    main: &mut [u8],
) -> Outcome<Step>
    ensures answer_value { result.answer ≡ checkpoint_step_answer (world pager table.old log.old main.old) }
    ensures main_after { let w = world pager table.old log.old main.old in
        world result.pager table.new log.new main.new ≡ checkpoint_stepped w }
{
    if !pager_state::is_fine(pager, table.len(), log.len(), main.len()) {
        return Outcome {
            answer: Err(Refusal::Area),
            pager,
        };
    }
    match pager.job {
        Job::Idle | Job::Commit { .. } => Outcome {
            answer: Ok(Step::Idle),
            pager,
        },
        Job::Checkpoint { salt, page, answer } => {
            pages_step(pager, salt, page, answer, table, log, main)
        }
        Job::MainLength { salt, answer } => length_step(pager, salt, answer, main),
        Job::LogLength { salt, answer } => empty_step(pager, salt, answer, log),
        Job::LogHeader { salt, answer } => last_step(pager, salt, answer, table, log),
    }
}

// Whether no page is in the log.
fn no_log_pages(table: &[u32]) -> bool
    ensures { result ≡ no_log_pages table.now }
{
    first_in_log(table).is_none()
}

// Whether there are 0 frames and no log pages.
fn nothing_to_checkpoint(frames: usize, table: &[u32]) -> bool
    ensures { result ≡ both (eqb frames 0) (no_log_pages table.now) }
{
    frames == 0 && no_log_pages(table)
}

fn started(answer: Result<CheckpointStart, Refusal>, pager: Pager) -> Outcome<CheckpointStart>
    ensures { result ≡ checkpoint_started_as answer pager }
{
    Outcome { answer, pager }
}

// Judges a checkpoint; stores nothing. Of the staging area only the length is looked at.
pub fn begin_checkpoint(pager: Pager, areas: Areas, salt: u32) -> Outcome<CheckpointStart>
    ensures { let a = areas.entry in
        let w = world pager a.table.now a.log.now a.main.now in
        result ≡ begin_checkpoint a.staging.now w salt }
{
    if !areas.are_fine(pager) {
        return started(Err(Refusal::Area), pager);
    }
    if pager_state::is_busy(pager.job) {
        return started(Err(Refusal::Busy), pager);
    }
    if pager_state::is_read_only(pager.opening) {
        return started(Err(Refusal::ReadOnly), pager);
    }
    if nothing_to_checkpoint(pager.wal.frame_count, areas.table) {
        return started(Ok(CheckpointStart::Nothing), pager);
    }
    let answer = count_in_checkpoint(pager.current_header.page_count, areas.table);
    let begun = Job::Checkpoint {
        salt,
        page: 0,
        answer,
    };
    started(
        Ok(CheckpointStart::Begun),
        pager_state::with_wal(pager, pager.wal, begun),
    )
}
