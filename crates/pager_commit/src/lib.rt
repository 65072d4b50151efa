// The calls of a commit: its start, its stores one at a time, and all of them up to the commit frame.
#![tactic(auto)]

ghost use Rattle.std.specs.Prelude.{Ok, ◌≡◌, true, false, ◌+◌, ◌≤◌, ◌<◌, length, take};
ghost use Rattle.le.specs.Le.{put};
ghost use Rattle.wal.specs.Recovery.{wal_area};
ghost use Rattle.wal.specs.Write.{with_frame, has_room};
ghost use Rattle.pager_state.specs.World.{world, page_limit, staged_limit, staging_area, count_of, with_job, with_wal};
ghost use Rattle.pager_state.specs.Overlay.{entry};
ghost use Rattle.pager_state.specs.Commit.{with_entry, job_after, committed_with, commit_todo, commit_advance};
ghost use Rattle.pager_state.specs.Steps.{named, done, commit_answer, begin_commit};
ghost use Rattle.pager_commit.specs.CommitStep.{commit_step_answer, commit_stepped, commit_frames_world};
ghost use Rattle.pager_commit.specs.Parts.{Lengths, slot_frame, commit_frame_bytes, log_place, commit_frame_answer, HasRoomFor, FramesStored, RunToCommitFrame};

use frame::{FRAME_SIZE, FrameStart};
use header::DbHeader;
use page::PAGE_SIZE;
use pager_differing::Slot;
use pager_judge::Judged;
use pager_state::{
    AUTO_CHECKPOINT_THRESHOLD_FRAMES, Areas, FileKind, Job, Outcome, PAGES, Pager, Place,
    STAGED_PAGES, Staged, Step,
};
use refusal::Refusal;
use wal::{WAL_AREA, Wal};

// ---- one store

// A page's entry once its frame stands at `at`.
fn entry_at(at: usize, on_main: bool) -> u32
    requires { at ≤ wal_area }
    ensures { result ≡ entry at on_main }
{
    2 * (at as u32) + u32::from(on_main)
}

// Enters a page's frame that stands at `at`.
fn enter(table: &mut [u32], page: usize, at: usize)
    requires { (page < length table.old) × (at ≤ wal_area) }
    ensures { table.new ≡ with_entry table.old page at }
{
    let on_main = pager_state::on_main(table, page);
    table[page] = entry_at(at, on_main);
}

// Stores the frame of a staged page at the log's length, where there is room for it, and enters it.
fn store_frame(wal: Wal, found: Slot, table: &mut [u32], log: &mut [u8], staging: &[u8]) -> Wal
    requires page_lt_page_limit { (found.page < page_limit) × (found.index < staged_limit) }
    requires lengths { Lengths table.old log.old × (length staging.now ≡ staging_area) }
    requires wal_value { has_room wal ≡ true }
    ensures value { result ≡ with_frame wal 0 }
    ensures table_after { table.new ≡ with_entry table.old found.page wal.len }
    ensures log_after { log.new ≡ put log.old wal.len (slot_frame wal found staging.now) }
{
    let body = pager_state::page_from(staging, PAGE_SIZE * found.index);
    let start = FrameStart {
        page_num: found.page as u32,
        commit_page_count: 0,
        salt: wal.header.salt,
    };
    let _ = frame::write_frame(log, wal.len, start, body);
    enter(table, found.page, wal.len);
    wal.longer()
}

// Stores the commit frame at the log's length, where there is room for it, and enters it.
fn store_commit_frame(table: &mut [u32], log: &mut [u8], wal: Wal, header: DbHeader) -> Wal
    requires { Lengths table.old log.old × (has_room wal ≡ true) }
    ensures value { result ≡ with_frame wal (count_of header) }
    ensures table_after { table.new ≡ with_entry table.old 0 wal.len }
    ensures log_after { log.new ≡ put log.old wal.len (commit_frame_bytes wal header) }
{
    enter(table, 0, wal.len);
    let fields = header::encode_fields(header);
    wal::append_page_zero(log, wal, &fields, header.page_count).unwrap_or(wal)
}

// What a commit has left after its commit frame.
fn job_after(wal: Wal, salt: u32, answer: usize) -> Job
    ensures { result ≡ job_after wal salt answer }
{
    if AUTO_CHECKPOINT_THRESHOLD_FRAMES <= wal.frame_count {
        return Job::Checkpoint {
            salt,
            page: 0,
            answer,
        };
    }
    Job::Idle
}

// The store once the commit frame stands: the new header counts and nothing is staged.
fn committed(pager: Pager, header: DbHeader, salt: u32, answer: usize, wal: Wal) -> Pager
    ensures { result ≡ committed_with header salt answer wal pager }
{
    Pager {
        current_header: header,
        wal,
        staged: Staged {
            count: 0,
            ..pager.staged
        },
        job: job_after(wal, salt, answer),
        ..pager
    }
}

// ---- one step

// A frame's place at the log's length.
fn log_place(wal: Wal, flush: bool) -> Place
    ensures { result ≡ log_place wal flush }
{
    Place {
        file: FileKind::Log,
        at: wal.len,
        len: FRAME_SIZE,
        flush,
    }
}

// Stores a staged page's frame.
fn frame_step(
    pager: Pager,
    header: DbHeader,
    salt: u32,
    answer: usize,
    found: Slot,
    table: &mut [u32],
    log: &mut [u8],
    staging: &[u8],
) -> Outcome<Step>
    requires page_lt_page_limit { (found.page < page_limit) × (found.index < staged_limit) }
    requires lengths { Lengths table.old log.old × (length staging.now ≡ staging_area) }
    requires wal_value { has_room pager.wal ≡ true }
    ensures answer_value { result.answer ≡ Ok (Step.Stored (log_place pager.wal false)) }
    ensures pager_value { let later = with_wal pager (with_frame pager.wal 0) in
        result.pager ≡ with_job later (Job.Commit header salt (found.page + 1) answer) }
    ensures table_after { table.new ≡ with_entry table.old found.page pager.wal.len }
    ensures log_after { let frame = slot_frame pager.wal found staging.now in
        log.new ≡ put log.old pager.wal.len frame }
{
    let old = pager.wal;
    let wal = store_frame(old, found, table, log, staging);
    let job = Job::Commit {
        header,
        salt,
        page: found.page + 1,
        answer,
    };
    let next = pager_state::with_wal(pager, wal, job);
    Outcome {
        answer: Ok(Step::Stored(log_place(old, false))),
        pager: next,
    }
}

// What a step that stored the commit frame answers: it is the last, or a checkpoint follows.
fn commit_frame_answer(job: Job, place: Place, answer: usize) -> Result<Step, Refusal>
    ensures { result ≡ commit_frame_answer job place answer }
{
    if pager_state::is_busy(job) {
        return Ok(Step::Stored(place));
    }
    Ok(Step::Last(place, answer))
}

// Stores the commit frame.
fn commit_frame_step(
    pager: Pager,
    header: DbHeader,
    salt: u32,
    answer: usize,
    table: &mut [u32],
    log: &mut [u8],
) -> Outcome<Step>
    requires { Lengths table.old log.old × (has_room pager.wal ≡ true) }
    ensures answer_value { result.answer ≡ commit_frame_answer result.pager.job (log_place pager.wal true) answer }
    ensures pager_value { result.pager ≡ committed_with header salt answer (with_frame pager.wal (count_of header)) pager }
    ensures table_after { table.new ≡ with_entry table.old 0 pager.wal.len }
    ensures log_after { log.new ≡ put log.old pager.wal.len (commit_frame_bytes pager.wal header) }
{
    let old = pager.wal;
    let wal = store_commit_frame(table, log, old, header);
    let next = committed(pager, header, salt, answer, wal);
    Outcome {
        answer: commit_frame_answer(next.job, log_place(old, true), answer),
        pager: next,
    }
}

// The next store of a commit.
fn frames_step<'a>(
    pager: Pager,
    header: DbHeader,
    salt: u32,
    page: usize,
    answer: usize,
    table: &mut [u32],
    log: &mut [u8],
    main: &'a [u8],
    staging: &'a [u8],
) -> Outcome<Step>
    requires { Lengths table.old log.old × (length staging.now ≡ staging_area) }
    ensures answer_value { let w = world pager table.old log.old main.now in
        result.answer ≡ named answer (commit_todo staging.now (Job.Commit header salt page answer) w) }
    ensures later_after { let w = world pager table.old log.old main.now in
        let later = world result.pager table.new log.new main.now in
        let g = staging.now in
        let job = Job.Commit header salt page answer in
        later ≡ done (commit_todo g job w) (commit_advance g job w) w }
{
    let areas = Areas {
        table,
        log,
        main,
        staging,
    };
    let found = pager_differing::next_differing(pager.staged, areas, page);
    if !le::fits_in(WAL_AREA, pager.wal.len, FRAME_SIZE) {
        return Outcome {
            answer: Err(Refusal::Area),
            pager,
        };
    }
    let Some(found) = found else {
        return commit_frame_step(pager, header, salt, answer, table, log);
    };
    frame_step(pager, header, salt, answer, found, table, log, staging)
}

// Does the next store of a commit that is part done, and no other.
pub fn commit_step<'a>(
    pager: Pager,
    table: &mut [u32],
    log: &mut [u8],
    main: &'a [u8],
    staging: &'a [u8],
) -> Outcome<Step>
    ensures answer_value { let w = world pager table.old log.old main.now in
        result.answer ≡ commit_step_answer staging.now w }
    ensures later_after { let w = world pager table.old log.old main.now in
        let later = world result.pager table.new log.new main.now in
        later ≡ commit_stepped staging.now w }
{
    if !pager_state::are_fine(pager, table.len(), log.len(), main.len(), staging.len()) {
        return Outcome {
            answer: Err(Refusal::Area),
            pager,
        };
    }
    let Job::Commit {
        header,
        salt,
        page,
        answer,
    } = pager.job
    else {
        return Outcome {
            answer: Ok(Step::Idle),
            pager,
        };
    };
    frames_step(pager, header, salt, page, answer, table, log, main, staging)
}

// ---- the start

// Judges a commit; stores nothing.
#[tactic(auto, unfolding(pager_state::specs::Steps::begin_commit), using(pager_judge::proofs::Judging::begun, pager_judge::proofs::Judging::refused))]
pub fn begin_commit(pager: Pager, areas: Areas, new_header: DbHeader, salt: u32) -> Outcome<()>
    ensures { let a = areas.entry in
        let w = world pager a.table.now a.log.now a.main.now in
        result ≡ begin_commit a.staging.now w new_header salt }
{
    match pager_judge::judge(pager, areas, new_header) {
        Ok(judged) => {
            let job = Job::Commit {
                header: new_header,
                salt,
                page: 0,
                answer: judged.pages,
            };
            Outcome {
                answer: Ok(()),
                pager: Pager { job, ..pager },
            }
        }
        Err(refusal) => Outcome {
            answer: Err(refusal),
            pager,
        },
    }
}

// ---- all stores up to the commit frame

// Stores the frames of the pages among the first n marks one after another, each as a step does; only the log and the page are handed
// on, not the store, and no page is compared again.
fn store_frames(
    marks: &[u16; STAGED_PAGES],
    n: usize,
    first: Wal,
    table: &mut [u32],
    log: &mut [u8],
    staging: &[u8],
) -> Wal
    requires marks_len { (length marks.now ≡ staged_limit) × HasRoomFor first (take n marks.now) }
    requires lengths { Lengths table.old log.old × (length staging.now ≡ staging_area) }
    ensures fact { let marked = take n marks.now in
        FramesStored marked staging.now first table.old log.old result table.new log.new }
    ensures result_value { has_room result ≡ true }
{
    let mut wal = first;
    let mut page = 0;
    while let Some(found) = pager_differing::next_of(marks, n, page) {
        wal = store_frame(wal, found, table, log, staging);
        page = found.page + 1;
    }
    wal
}

// Runs a commit that was begun up to its commit frame.
fn run_frames(
    pager: Pager,
    header: DbHeader,
    salt: u32,
    judged: &Judged,
    table: &mut [u32],
    log: &mut [u8],
    staging: &[u8],
) -> Pager
    requires marks_len { let marks = judged.now.marks in
        (length marks ≡ staged_limit) × HasRoomFor pager.wal (take pager.staged.count marks) }
    requires lengths { Lengths table.old log.old × (length staging.now ≡ staging_area) }
    ensures { let marked = take pager.staged.count judged.now.marks in
        let before = RunToCommitFrame marked staging.now header salt judged.now.pages pager table.old log.old in
        before result table.new log.new }
{
    let last = store_frames(
        &judged.marks,
        pager.staged.count,
        pager.wal,
        table,
        log,
        staging,
    );
    let wal = store_commit_frame(table, log, last, header);
    committed(pager, header, salt, judged.pages, wal)
}

// Judges a commit and runs it up to its commit frame: a step for each differing page, and one. Answers the number of differing pages.
pub fn commit_frames<'a>(
    pager: Pager,
    table: &mut [u32],
    log: &mut [u8],
    main: &'a [u8],
    staging: &'a [u8],
    new_header: DbHeader,
    salt: u32,
) -> Outcome<usize>
    ensures answer_value { let w = world pager table.old log.old main.now in
        result.answer ≡ commit_answer staging.now w new_header }
    ensures later_after { let w = world pager table.old log.old main.now in
        let later = world result.pager table.new log.new main.now in
        later ≡ commit_frames_world staging.now w new_header salt }
{
    let areas = Areas {
        table,
        log,
        main,
        staging,
    };
    match pager_judge::judge(pager, areas, new_header) {
        Ok(judged) => {
            let store = run_frames(pager, new_header, salt, &judged, table, log, staging);
            Outcome {
                answer: Ok(judged.pages),
                pager: store,
            }
        }
        Err(refusal) => Outcome {
            answer: Err(refusal),
            pager,
        },
    }
}
