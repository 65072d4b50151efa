// The answers of the store's calls in numbers: document 01's refusal or 0, what the call gives, and the store after it.
// Numbers for kinds, flags and what is none: the C interface.
#![tactic(auto)]

ghost use Rattle.std.specs.Prelude.{◌≡◌};
ghost use Rattle.capi_answers.specs.Answers.{refusal_number, flag_in, reply, refused_as, mode_in, done_as, header_as, number_reply, mode_of, mode_as, clock_as, page, found_as, place, recovered_as, commit_begun_as, checkpoint_begun_as, counted_as, preview_reply, preview_refused, previewed_as, file_number, step_stored, no_step, stepped_as};

use capi_numbers::{Store, no_header};
use header::DbHeader;
use page::PAGE_SIZE;
use pager_preview::Preview;
use pager_state::{AccessMode, CheckpointStart, FileKind, Outcome, PageFound, Pager, Place, Step};
use refusal::Refusal;
use wal::{BatchAt, WAL_AREA};

// What a call answers that may change the store. Where it is refused, the store that was given; creation and openings are given none, and
// tell one without pages that writes nothing.
#[repr(C)]
#[derive(Clone, Copy)]
pub struct Answered {
    pub refusal: u32,
    // 1 where a commit or checkpoint has begun, and its stores are still to be done by next steps.
    pub begun: u32,
    // The answer of a commit or checkpoint; beside refusal 14 the lowest page that is missing.
    pub answer: usize,
    pub store: Store,
}

// The answers of queries.
#[repr(C)]
#[derive(Clone, Copy)]
pub struct HeaderAnswer {
    pub refusal: u32,
    pub header: DbHeader,
}

#[repr(C)]
#[derive(Clone, Copy)]
pub struct NumberAnswer {
    pub refusal: u32,
    pub number: u64,
}

// Where bytes stand: area 0 is none, 1 the log, 2 the main file, 3 the staging area.
#[repr(C)]
#[derive(Clone, Copy)]
pub struct PageAnswer {
    pub refusal: u32,
    pub area: u32,
    pub at: usize,
}

// A batch's index among the frames and its frame's first byte; its body stands 16 bytes behind.
#[repr(C)]
#[derive(Clone, Copy)]
pub struct BatchPlace {
    pub refusal: u32,
    pub found: u32,
    pub index: usize,
    pub offset: usize,
}

// A next step.
#[repr(C)]
#[derive(Clone, Copy)]
pub struct StepAnswered {
    pub refusal: u32,
    // 0 idle, 1 a store, 2 the last store, with the answer.
    pub kind: u32,
    // 1 the log, 2 the main file.
    pub area: u32,
    pub flush: u32,
    pub at: usize,
    pub len: usize,
    pub answer: usize,
    pub store: Store,
}

// What a commit would come to.
#[repr(C)]
#[derive(Clone, Copy)]
pub struct PreviewAnswered {
    pub refusal: u32,
    // 1 where a checkpoint would follow it.
    pub checkpointed: u32,
    // The commit's answer; beside refusal 14 the lowest page that is missing.
    pub answer: usize,
    pub frame_count: usize,
    pub log_len: usize,
    pub main_len: usize,
}

fn reply(refusal: u32, begun: u32, answer: usize, pager: Pager) -> Answered
    ensures { result ≡ reply refusal begun answer pager }
{
    Answered {
        refusal,
        begun,
        answer,
        store: Store::from(pager),
    }
}

// A refusal, beside 14 with the lowest page; the store as the call left it.
fn refused(refusal: Refusal, pager: Pager) -> Answered
    ensures { result ≡ refused_as refusal pager }
{
    reply(
        refusal::number(refusal),
        0,
        refusal::lowest_page(refusal),
        pager,
    )
}

// 0 where nothing was refused.
pub fn refusal_number(answer: Result<(), Refusal>) -> u32
    ensures { result ≡ refusal_number answer }
{
    match answer {
        Ok(()) => 0,
        Err(refusal) => refusal::number(refusal),
    }
}

// 0 is no, any other number yes. There is no From of a number for bool.
pub fn flag_in(n: u32) -> bool
    ensures { result ≡ flag_in n }
{
    n != 0
}

// ---- creation and openings

// 0 is read-write, any other number read-only. Neither type is of this crate, so that an impl of From cannot stand here.
pub fn mode_in(n: u32) -> AccessMode
    ensures { result ≡ mode_in n }
{
    if n == 0 {
        return AccessMode::ReadWrite;
    }
    AccessMode::ReadOnly
}

pub fn done_as(call: Outcome<()>) -> Answered
    ensures { result ≡ done_as call.answer call.pager }
{
    let a = call.answer;
    let p = call.pager;
    match a {
        Ok(()) => reply(0, 0, 0, p),
        Err(refusal) => refused(refusal, p),
    }
}

// ---- queries

pub fn header_as(a: Result<DbHeader, Refusal>) -> HeaderAnswer
    ensures { result ≡ header_as a }
{
    match a {
        Ok(header) => HeaderAnswer { refusal: 0, header },
        Err(refusal) => HeaderAnswer {
            refusal: refusal::number(refusal),
            header: no_header(),
        },
    }
}

fn number_reply(refusal: u32, n: u64) -> NumberAnswer
    ensures { result ≡ number_reply refusal n }
{
    NumberAnswer { refusal, number: n }
}

// Neither type is of this crate, so that an impl of From cannot stand here.
fn mode_of(m: AccessMode) -> u64
    ensures { result ≡ mode_of m }
{
    match m {
        AccessMode::ReadWrite => 0,
        AccessMode::ReadOnly => 1,
    }
}

pub fn mode_as(a: Result<AccessMode, Refusal>) -> NumberAnswer
    ensures { result ≡ mode_as a }
{
    match a {
        Ok(m) => number_reply(0, mode_of(m)),
        Err(refusal) => number_reply(refusal::number(refusal), 0),
    }
}

pub fn clock_as(a: Result<u64, Refusal>) -> NumberAnswer
    ensures { result ≡ clock_as a }
{
    match a {
        Ok(clock) => number_reply(0, clock),
        Err(refusal) => number_reply(refusal::number(refusal), 0),
    }
}

// ---- pages and batches

fn page(refusal: u32, area: u32, at: usize) -> PageAnswer
    ensures { result ≡ page refusal area at }
{
    PageAnswer { refusal, area, at }
}

// A place in the log, where a whole page stands behind it.
fn in_log(at: usize) -> PageAnswer
    ensures { result ≡ found_as (Ok (PageFound.Log at)) }
{
    if WAL_AREA - PAGE_SIZE < at {
        return page(refusal::number(Refusal::Area), 0, 0);
    }
    page(0, 1, at)
}

pub fn found_as(f: Result<PageFound, Refusal>) -> PageAnswer
    ensures { result ≡ found_as f }
{
    match f {
        Ok(PageFound::Staged(at)) => page(0, 3, at),
        Ok(PageFound::Log(at)) => in_log(at),
        Ok(PageFound::Main(at)) => page(0, 2, at),
        Ok(PageFound::Nothing) => page(0, 0, 0),
        Err(refusal) => page(refusal::number(refusal), 0, 0),
    }
}

fn place(refusal: u32, found: u32, index: usize, offset: usize) -> BatchPlace
    ensures { result ≡ place refusal found index offset }
{
    BatchPlace {
        refusal,
        found,
        index,
        offset,
    }
}

pub fn recovered_as(f: Result<Option<BatchAt>, Refusal>) -> BatchPlace
    ensures { result ≡ recovered_as f }
{
    match f {
        Ok(Some(BatchAt { index, offset })) => place(0, 1, index, offset),
        Ok(None) => place(0, 0, 0, 0),
        Err(refusal) => place(refusal::number(refusal), 0, 0, 0),
    }
}

// ---- commit and checkpoint, begun

pub fn commit_begun_as(call: Outcome<()>) -> Answered
    ensures { result ≡ commit_begun_as call.answer call.pager }
{
    let a = call.answer;
    let p = call.pager;
    match a {
        Ok(()) => reply(0, 1, 0, p),
        Err(refusal) => refused(refusal, p),
    }
}

pub fn checkpoint_begun_as(call: Outcome<CheckpointStart>) -> Answered
    ensures { result ≡ checkpoint_begun_as call.answer call.pager }
{
    let a = call.answer;
    let p = call.pager;
    match a {
        Ok(CheckpointStart::Begun) => reply(0, 1, 0, p),
        Ok(CheckpointStart::Nothing) => reply(0, 0, 0, p),
        Err(refusal) => refused(refusal, p),
    }
}

// ---- what a commit would come to

fn preview_reply(p: Preview) -> PreviewAnswered
    ensures { result ≡ preview_reply p }
{
    PreviewAnswered {
        refusal: 0,
        checkpointed: u32::from(p.checkpointed),
        answer: p.answer,
        frame_count: p.frame_count,
        log_len: p.log_len,
        main_len: p.main_len,
    }
}

fn preview_refused(refusal: Refusal) -> PreviewAnswered
    ensures { result ≡ preview_refused refusal }
{
    PreviewAnswered {
        refusal: refusal::number(refusal),
        checkpointed: 0,
        answer: refusal::lowest_page(refusal),
        frame_count: 0,
        log_len: 0,
        main_len: 0,
    }
}

pub fn previewed_as(a: Result<Preview, Refusal>) -> PreviewAnswered
    ensures { result ≡ previewed_as a }
{
    match a {
        Ok(p) => preview_reply(p),
        Err(refusal) => preview_refused(refusal),
    }
}

// ---- the next step

// Neither type is of this crate, so that an impl of From cannot stand here.
fn file_of(f: FileKind) -> u32
    ensures { result ≡ file_number f }
{
    match f {
        FileKind::Log => 1,
        FileKind::Main => 2,
    }
}

fn step_stored(kind: u32, place: Place, answer: usize, pager: Pager) -> StepAnswered
    ensures { result ≡ step_stored kind place answer pager }
{
    StepAnswered {
        refusal: 0,
        kind,
        area: file_of(place.file),
        flush: u32::from(place.flush),
        at: place.at,
        len: place.len,
        answer,
        store: Store::from(pager),
    }
}

fn no_step(refusal: u32, pager: Pager) -> StepAnswered
    ensures { result ≡ no_step refusal pager }
{
    StepAnswered {
        refusal,
        kind: 0,
        area: 0,
        flush: 0,
        at: 0,
        len: 0,
        answer: 0,
        store: Store::from(pager),
    }
}

pub fn stepped_as(call: Outcome<Step>) -> StepAnswered
    ensures { result ≡ stepped_as call.answer call.pager }
{
    let a = call.answer;
    let p = call.pager;
    match a {
        Ok(Step::Idle) => no_step(0, p),
        Ok(Step::Stored(place)) => step_stored(1, place, 0, p),
        Ok(Step::Last(place, answer)) => step_stored(2, place, answer, p),
        Err(refusal) => no_step(refusal::number(refusal), p),
    }
}

// ---- commit and checkpoint in one call

pub fn counted_as(call: Outcome<usize>) -> Answered
    ensures { result ≡ counted_as call.answer call.pager }
{
    let a = call.answer;
    let p = call.pager;
    match a {
        Ok(pages) => reply(0, 0, pages, p),
        Err(refusal) => refused(refusal, p),
    }
}
