// The calls of the store. Each takes the store in numbers, makes the pager's call of the same name, and gives its answer in numbers.
ghost use Rattle.std.specs.Prelude.{◌≡◌, true, false, not, ℕ, eqb};
ghost use Rattle.refusal.specs.Refusal.{number_of};
ghost use Rattle.pager_state.specs.World.{world};
ghost use Rattle.pager_state.specs.Overlay.{slots, place_page, find_page};
ghost use Rattle.pager_state.specs.Staging.{stage_refusal, staged_after, staging_bytes, stage_page, stage_after, clear_staged};
ghost use Rattle.pager_state.specs.Queries.{header, access_mode, clock_high_water_of, observe_clock};
ghost use Rattle.pager_state.specs.Batches.{append_batch, append_after, next_recovered};
ghost use Rattle.pager_state.specs.Opening.{create, create_table, create_log, create_main, open_pager, opened_answer, open_table, open_log_area};
ghost use Rattle.pager_state.specs.Steps.{begin_commit, begin_checkpoint, step_answer, stepped, commit_answer, commit_world, checkpoint_answer, checkpoint_world};
ghost use Rattle.pager_open.specs.Given.{how, files};
ghost use Rattle.pager_preview.specs.Preview.{preview_commit};
ghost use Rattle.pager_read.specs.Reading.{may_read, read_end};
ghost use Rattle.capi_numbers.specs.Numbers.{pager_in};
ghost use Rattle.capi_answers.specs.Answers.{refusal_number, flag_in, mode_in, done_as, header_as, mode_as, clock_as, found_as, recovered_as, commit_begun_as, checkpoint_begun_as, counted_as, previewed_as, stepped_as};

use capi_answers::{
    Answered, BatchPlace, HeaderAnswer, NumberAnswer, PageAnswer, PreviewAnswered, StepAnswered,
};
use capi_numbers::Store;
use header::DbHeader;
use pager_state::{Areas, Pager, STAGED_PAGES};
use refusal::Refusal;

// ---- creation and openings

#[unsafe(no_mangle)]
pub extern "C" fn lateenbael_create(
    table: &mut [u32],
    log: &mut [u8],
    main: &mut [u8],
    staging: &[u8],
    salt: u32,
) -> Answered
    ensures result_value { let a = create table.old log.old main.old staging.now salt in result ≡ done_as a.answer a.pager }
    ensures table_after { table.new ≡ create_table table.old log.old main.old staging.now }
    ensures log_after { log.new ≡ create_log table.old log.old main.old staging.now salt }
    ensures main_after { main.new ≡ create_main table.old log.old main.old staging.now salt }
{
    capi_answers::done_as(pager_open::create(table, log, main, staging, salt))
}

#[unsafe(no_mangle)]
pub extern "C" fn lateenbael_open_with_mode(
    table: &mut [u32],
    log: &mut [u8],
    main: &[u8],
    staging: &[u8],
    main_len: usize,
    log_len: usize,
    access_mode: u32,
    log_exists: u32,
    salt: u32,
) -> Answered
    ensures fact { let d = files main.now main_len log.old log_len in
        let o = how false (mode_in access_mode) (flag_in log_exists) salt in
        (let a = opened_answer (open_pager o table.old d staging.now) in result ≡ done_as a.answer a.pager) }
    ensures table_after { let d = files main.now main_len log.old log_len in
        let o = how false (mode_in access_mode) (flag_in log_exists) salt in
        table.new ≡ open_table o table.old d staging.now }
    ensures log_after { let d = files main.now main_len log.old log_len in
        let o = how false (mode_in access_mode) (flag_in log_exists) salt in
        log.new ≡ open_log_area o table.old d staging.now }
{
    let mode = capi_answers::mode_in(access_mode);
    let exists = capi_answers::flag_in(log_exists);
    capi_answers::done_as(pager_open::open_with_mode(
        table, log, main, staging, main_len, log_len, mode, exists, salt,
    ))
}

#[unsafe(no_mangle)]
pub extern "C" fn lateenbael_open_clean(
    table: &mut [u32],
    log: &mut [u8],
    main: &[u8],
    staging: &[u8],
    main_len: usize,
    log_len: usize,
    access_mode: u32,
    log_exists: u32,
    salt: u32,
) -> Answered
    ensures fact { let d = files main.now main_len log.old log_len in
        let o = how true (mode_in access_mode) (flag_in log_exists) salt in
        (let a = opened_answer (open_pager o table.old d staging.now) in result ≡ done_as a.answer a.pager) }
    ensures table_after { let d = files main.now main_len log.old log_len in
        let o = how true (mode_in access_mode) (flag_in log_exists) salt in
        table.new ≡ open_table o table.old d staging.now }
    ensures log_after { let d = files main.now main_len log.old log_len in
        let o = how true (mode_in access_mode) (flag_in log_exists) salt in
        log.new ≡ open_log_area o table.old d staging.now }
{
    let mode = capi_answers::mode_in(access_mode);
    let exists = capi_answers::flag_in(log_exists);
    capi_answers::done_as(pager_open::open_clean(
        table, log, main, staging, main_len, log_len, mode, exists, salt,
    ))
}

// ---- queries

#[unsafe(no_mangle)]
pub extern "C" fn lateenbael_header(store: Store) -> HeaderAnswer
    ensures { result ≡ header_as (header (pager_in store)) }
{
    capi_answers::header_as(pager_read::header(Pager::from(store)))
}

#[unsafe(no_mangle)]
pub extern "C" fn lateenbael_access_mode(store: Store) -> NumberAnswer
    ensures { result ≡ mode_as (access_mode (pager_in store)) }
{
    capi_answers::mode_as(pager_read::access_mode(Pager::from(store)))
}

#[unsafe(no_mangle)]
pub extern "C" fn lateenbael_clock_high_water(store: Store) -> NumberAnswer
    ensures { result ≡ clock_as (clock_high_water_of (pager_in store)) }
{
    capi_answers::clock_as(pager_read::clock_high_water(Pager::from(store)))
}

#[unsafe(no_mangle)]
pub extern "C" fn lateenbael_observe_clock_high_water(store: Store, value: u64) -> Answered
    ensures { let a = observe_clock (pager_in store) value in result ≡ done_as a.answer a.pager }
{
    capi_answers::done_as(pager_read::observe_clock_high_water(Pager::from(store), value))
}

// ---- pages and batches

#[unsafe(no_mangle)]
pub extern "C" fn lateenbael_find_page(
    store: Store,
    table: &[u32],
    log: &[u8],
    main: &[u8],
    staging: &[u8],
    page_num: u32,
) -> PageAnswer
    ensures { let w = world (pager_in store) table.now log.now main.now in
        result ≡ found_as (find_page w staging.now page_num) }
{
    let areas = Areas {
        table,
        log,
        main,
        staging,
    };
    capi_answers::found_as(pager_read::find_page(Pager::from(store), areas, page_num))
}

// The same in parts, of what a reading takes of the store: its refusals, which stay the same until the store changes, ..
#[unsafe(no_mangle)]
pub extern "C" fn lateenbael_may_read(
    page_count: u32,
    job: u32,
    log_len: usize,
    main_len: usize,
    table: &[u32],
    log: &[u8],
    main: &[u8],
    staging: &[u8],
) -> u32
    ensures { let a = may_read page_count job log_len main_len table.now log.now main.now staging.now in
        result ≡ refusal_number a }
{
    let areas = Areas {
        table,
        log,
        main,
        staging,
    };
    capi_answers::refusal_number(pager_read::may_read(page_count, job, log_len, main_len, areas))
}

// .. the first page number from which on there is no page, ..
#[unsafe(no_mangle)]
pub extern "C" fn lateenbael_read_end(page_count: u32, staged_count: usize) -> usize
    ensures { result ≡ read_end page_count staged_count }
{
    pager_read::read_end(page_count, staged_count)
}

// .. and a page's place.
#[unsafe(no_mangle)]
pub extern "C" fn lateenbael_place_page(
    page_count: u32,
    page_num: u32,
    staged_count: usize,
    staged: &[u16; STAGED_PAGES],
    table: &[u32],
) -> PageAnswer
    ensures { result ≡ found_as (Ok (place_page page_count (slots staged_count staged.now) table.now page_num)) }
{
    capi_answers::found_as(Ok(pager_read::place_page(
        page_count,
        page_num,
        staged_count,
        staged,
        table,
    )))
}

#[unsafe(no_mangle)]
pub extern "C" fn lateenbael_recovered_mvcc_commits(
    store: Store,
    log: &[u8],
    index: usize,
) -> BatchPlace
    ensures { result ≡ recovered_as (next_recovered (pager_in store) log.now index) }
{
    capi_answers::recovered_as(pager_read::recovered_mvcc_commits(Pager::from(store), log, index))
}

#[unsafe(no_mangle)]
pub extern "C" fn lateenbael_stage_page(
    store: Store,
    staging: &mut [u8],
    page_num: u32,
    bytes: &[u8],
) -> Answered
    ensures result_value { let a = stage_page (pager_in store) staging.old page_num bytes.now in
        result ≡ done_as a.answer a.pager }
    ensures staging_after { staging.new ≡ stage_after (pager_in store) staging.old page_num bytes.now }
{
    capi_answers::done_as(pager_stage::stage_page(Pager::from(store), staging, page_num, bytes))
}

// What staging in place gives: a refusal or 0, and how many pages are staged.
#[repr(C)]
#[derive(Clone, Copy)]
pub struct StagedCount {
    pub refusal: u32,
    pub count: usize,
}

// The same of what staging takes of the store: the staged pages' numbers are stored where they lie.
#[unsafe(no_mangle)]
pub extern "C" fn lateenbael_stage_in(
    job: u32,
    page_num: u32,
    staged_count: usize,
    staged: &mut [u16; STAGED_PAGES],
    staging: &mut [u8],
    bytes: &[u8],
) -> StagedCount
    ensures refusal_value { let s = slots staged_count staged.old in
        result.refusal ≡ number_of (stage_refusal (not (eqb job 0)) s staging.old page_num bytes.now) }
    ensures staged_after { let s = slots staged_count staged.old in
        slots result.count staged.new ≡ staged_after (not (eqb job 0)) s staging.old page_num bytes.now }
    ensures staging_after { let s = slots staged_count staged.old in
        staging.new ≡ staging_bytes (not (eqb job 0)) s staging.old page_num bytes.now }
{
    let done = pager_stage::stage_in(job, page_num, staged_count, staged, staging, bytes);
    let answer = done.answer;
    StagedCount {
        refusal: capi_answers::refusal_number(answer),
        count: done.count,
    }
}

#[unsafe(no_mangle)]
pub extern "C" fn lateenbael_clear_staged(store: Store) -> Answered
    ensures { let a = clear_staged (pager_in store) in result ≡ done_as a.answer a.pager }
{
    capi_answers::done_as(pager_stage::clear_staged(Pager::from(store)))
}

#[unsafe(no_mangle)]
pub extern "C" fn lateenbael_append_mvcc_batch(
    store: Store,
    log: &mut [u8],
    body: &[u8],
) -> Answered
    ensures result_value { let a = append_batch (pager_in store) log.old body.now in result ≡ done_as a.answer a.pager }
    ensures log_after { log.new ≡ append_after (pager_in store) log.old body.now }
{
    capi_answers::done_as(pager_stage::append_mvcc_batch(Pager::from(store), log, body))
}

// ---- a commit, before it is made

#[unsafe(no_mangle)]
pub extern "C" fn lateenbael_preview_commit<'a>(
    store: Store,
    table: &[u32],
    log: &'a [u8],
    main: &'a [u8],
    staging: &'a [u8],
    new_header: DbHeader,
) -> PreviewAnswered
    ensures { let w = world (pager_in store) table.now log.now main.now in
        ((salt : ℕ) → result ≡ previewed_as (preview_commit staging.now w new_header salt)) }
{
    let areas = Areas {
        table,
        log,
        main,
        staging,
    };
    capi_answers::previewed_as(pager_preview::preview_commit(Pager::from(store), areas, new_header))
}

// ---- commit and checkpoint, begun

#[unsafe(no_mangle)]
pub extern "C" fn lateenbael_begin_commit<'a>(
    store: Store,
    table: &[u32],
    log: &'a [u8],
    main: &'a [u8],
    staging: &'a [u8],
    new_header: DbHeader,
    salt: u32,
) -> Answered
    ensures { let w = world (pager_in store) table.now log.now main.now in
        (let a = begin_commit staging.now w new_header salt in result ≡ commit_begun_as a.answer a.pager) }
{
    let areas = Areas {
        table,
        log,
        main,
        staging,
    };
    capi_answers::commit_begun_as(pager_commit::begin_commit(
        Pager::from(store),
        areas,
        new_header,
        salt,
    ))
}

#[unsafe(no_mangle)]
pub extern "C" fn lateenbael_begin_checkpoint(
    store: Store,
    table: &[u32],
    log: &[u8],
    main: &[u8],
    staging: &[u8],
    salt: u32,
) -> Answered
    ensures { let w = world (pager_in store) table.now log.now main.now in
        (let a = begin_checkpoint staging.now w salt in result ≡ checkpoint_begun_as a.answer a.pager) }
{
    let areas = Areas {
        table,
        log,
        main,
        staging,
    };
    capi_answers::checkpoint_begun_as(pager_checkpoint::begin_checkpoint(
        Pager::from(store),
        areas,
        salt,
    ))
}

// ---- the next step

#[unsafe(no_mangle)]
pub extern "C" fn lateenbael_next_step(
    store: Store,
    table: &mut [u32],
    log: &mut [u8],
    main: &mut [u8],
    staging: &[u8],
) -> StepAnswered
    ensures result_value { let w = world (pager_in store) table.old log.old main.old in
        let g = staging.now in
        result ≡ stepped_as (step_answer g w) (stepped g w).pager }
    ensures main_after { let w = world (pager_in store) table.old log.old main.old in
        world (pager_in result.store) table.new log.new main.new ≡ stepped staging.now w }
{
    capi_answers::stepped_as(pager::next_step(Pager::from(store), table, log, main, staging))
}

// ---- commit and checkpoint in one call

#[unsafe(no_mangle)]
pub extern "C" fn lateenbael_commit(
    store: Store,
    table: &mut [u32],
    log: &mut [u8],
    main: &mut [u8],
    staging: &[u8],
    new_header: DbHeader,
    salt: u32,
) -> Answered
    ensures result_value { let w = world (pager_in store) table.old log.old main.old in
        let g = staging.now in
        result ≡ counted_as (commit_answer g w new_header) (commit_world g w new_header salt).pager }
    ensures main_after { let w = world (pager_in store) table.old log.old main.old in
        world (pager_in result.store) table.new log.new main.new ≡ commit_world staging.now w new_header salt }
{
    capi_answers::counted_as(pager::commit(
        Pager::from(store),
        table,
        log,
        main,
        staging,
        new_header,
        salt,
    ))
}

#[unsafe(no_mangle)]
pub extern "C" fn lateenbael_checkpoint(
    store: Store,
    table: &mut [u32],
    log: &mut [u8],
    main: &mut [u8],
    staging: &[u8],
    salt: u32,
) -> Answered
    ensures result_value { let w = world (pager_in store) table.old log.old main.old in
        let g = staging.now in
        result ≡ counted_as (checkpoint_answer g w) (checkpoint_world g w salt).pager }
    ensures main_after { let w = world (pager_in store) table.old log.old main.old in
        world (pager_in result.store) table.new log.new main.new ≡ checkpoint_world staging.now w salt }
{
    capi_answers::counted_as(pager::checkpoint(Pager::from(store), table, log, main, staging, salt))
}
