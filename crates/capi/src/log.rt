// The calls of the log alone, and of the two headers.
ghost use Rattle.std.specs.Prelude.{◌≡◌};
ghost use Rattle.le.specs.Answers.{stored_of};
ghost use Rattle.le.specs.Le.{store};
ghost use Rattle.header.specs.Header.{encode_answer, encode_after, decode_header};
ghost use Rattle.wal.specs.Header.{encode_wal_header, decode_wal_header};
ghost use Rattle.wal.specs.Recovery.{open_log};
ghost use Rattle.wal.specs.Read.{frame_in, find_log_page, next_batch};
ghost use Rattle.wal.specs.Write.{create_answer, create_after, truncate_answer, truncate_after, append_frame_answer, append_frame_after, clock_answer};
ghost use Rattle.wal_batch.specs.Batch.{batch_answer, batch_after};
ghost use Rattle.log_listing.specs.Answer.{listed_answer, listed_after};
ghost use Rattle.capi_numbers.specs.Numbers.{wal_in};
ghost use Rattle.capi_answers.specs.Answers.{refusal_number, header_as};
ghost use Rattle.capi.specs.Log.{no_wal_header, log_refused, log_given, log_as, frame_as, place_as, batch_as, listed_as, wal_header_refused, wal_header_as};

use capi_answers::{BatchPlace, HeaderAnswer, PageAnswer};
use capi_numbers::WalNumbers;
use frame::FrameHeader;
use header::DbHeader;
use refusal::Refusal;
use wal::{BatchAt, FrameAt, Wal, WalHeader};

// What a call answers that gives an open log: where it is refused, the log's numbers are 0.
#[repr(C)]
#[derive(Clone, Copy)]
pub struct WalAnswer {
    pub refusal: u32,
    pub wal: WalNumbers,
}

#[repr(C)]
#[derive(Clone, Copy)]
pub struct WalHeaderAnswer {
    pub refusal: u32,
    pub header: WalHeader,
}

// What stands at an index of the log: its frame's first byte and heading.
#[repr(C)]
#[derive(Clone, Copy)]
pub struct FrameAnswer {
    pub found: u32,
    pub offset: usize,
    pub header: FrameHeader,
}

// How many bytes a listing has.
#[repr(C)]
#[derive(Clone, Copy)]
pub struct ListAnswer {
    pub refusal: u32,
    pub len: usize,
}

fn no_wal_header() -> WalHeader
    ensures { result ≡ no_wal_header }
{
    WalHeader {
        version: 0,
        salt: 0,
        checkpoint_seq: 0,
        clock_high_water: 0,
    }
}

fn refused(row: Refusal) -> WalAnswer
    ensures { result ≡ log_refused row }
{
    WalAnswer {
        refusal: refusal::number(row),
        wal: WalNumbers {
            header: no_wal_header(),
            len: 0,
            good_end: 0,
            last_commit_offset: 0,
            frame_count: 0,
            committed: 0,
            last_commit_page_count: 0,
        },
    }
}

fn given(wal: Wal) -> WalAnswer
    ensures { result ≡ log_given wal }
{
    WalAnswer {
        refusal: 0,
        wal: WalNumbers::from(wal),
    }
}

fn log_as(answer: Result<Wal, Refusal>) -> WalAnswer
    ensures { result ≡ log_as answer }
{
    match answer {
        Ok(wal) => given(wal),
        Err(row) => refused(row),
    }
}

#[unsafe(no_mangle)]
pub extern "C" fn lateenbael_wal_create(log: &mut [u8], salt: u32) -> WalAnswer
    ensures value { result ≡ log_as (create_answer log.old salt) }
    ensures log_after { log.new ≡ create_after log.old salt }
{
    log_as(wal::create(log, salt))
}

#[unsafe(no_mangle)]
pub extern "C" fn lateenbael_wal_open(file: &[u8]) -> WalAnswer
    ensures { result ≡ log_as (open_log file.now) }
{
    log_as(Wal::open(file))
}

#[unsafe(no_mangle)]
pub extern "C" fn lateenbael_wal_append_frame(
    log: &mut [u8],
    wal: WalNumbers,
    page_num: u32,
    content: &[u8],
    commit_page_count: u32,
) -> WalAnswer
    ensures value { result ≡ log_as (append_frame_answer log.old (wal_in wal) page_num content.now commit_page_count) }
    ensures log_after { log.new ≡ append_frame_after log.old (wal_in wal) page_num content.now commit_page_count }
{
    log_as(wal::append_frame(log, Wal::from(wal), page_num, content, commit_page_count))
}

#[unsafe(no_mangle)]
pub extern "C" fn lateenbael_wal_append_mvcc_batch(
    log: &mut [u8],
    wal: WalNumbers,
    body: &[u8],
) -> WalAnswer
    ensures value { result ≡ log_as (batch_answer log.old (wal_in wal) body.now) }
    ensures log_after { log.new ≡ batch_after log.old (wal_in wal) body.now }
{
    log_as(wal_batch::append_mvcc_batch(log, Wal::from(wal), body))
}

#[unsafe(no_mangle)]
pub extern "C" fn lateenbael_wal_truncate(log: &mut [u8], wal: WalNumbers, salt: u32) -> WalAnswer
    ensures value { result ≡ log_as (truncate_answer log.old (wal_in wal) salt) }
    ensures log_after { log.new ≡ truncate_after log.old (wal_in wal) salt }
{
    log_as(wal::truncate(log, Wal::from(wal), salt))
}

#[unsafe(no_mangle)]
pub extern "C" fn lateenbael_wal_set_clock_high_water(wal: WalNumbers, value: u64) -> WalAnswer
    ensures { result ≡ log_as (clock_answer (wal_in wal) value) }
{
    log_as(wal::set_clock_high_water(Wal::from(wal), value))
}

#[unsafe(no_mangle)]
pub extern "C" fn lateenbael_wal_frame_at(file: &[u8], index: usize) -> FrameAnswer
    ensures { result ≡ frame_as (frame_in file.now index) }
{
    match wal::frame_at(file, index) {
        Some(FrameAt { offset, header }) => FrameAnswer {
            found: 1,
            offset,
            header,
        },
        None => FrameAnswer {
            found: 0,
            offset: 0,
            header: FrameHeader {
                page_num: 0,
                commit_page_count: 0,
                salt: 0,
                checksum: 0,
            },
        },
    }
}

#[unsafe(no_mangle)]
pub extern "C" fn lateenbael_wal_find_page(
    file: &[u8],
    wal: WalNumbers,
    page_num: u32,
) -> PageAnswer
    ensures { result ≡ place_as (find_log_page file.now wal.last_commit_offset page_num) }
{
    match wal::find_page(file, Wal::from(wal), page_num) {
        Some(at) => PageAnswer {
            refusal: 0,
            area: 1,
            at,
        },
        None => PageAnswer {
            refusal: 0,
            area: 0,
            at: 0,
        },
    }
}

#[unsafe(no_mangle)]
pub extern "C" fn lateenbael_wal_next_batch(
    file: &[u8],
    wal: WalNumbers,
    index: usize,
) -> BatchPlace
    ensures { result ≡ batch_as (next_batch file.now wal.last_commit_offset index) }
{
    match wal::next_batch(file, Wal::from(wal), index) {
        Some(BatchAt { index, offset }) => BatchPlace {
            refusal: 0,
            found: 1,
            index,
            offset,
        },
        None => BatchPlace {
            refusal: 0,
            found: 0,
            index: 0,
            offset: 0,
        },
    }
}

#[unsafe(no_mangle)]
pub extern "C" fn lateenbael_list_log(file: &[u8], out: &mut [u8]) -> ListAnswer
    ensures value { result ≡ listed_as (listed_answer file.now out.old) }
    ensures out_after { out.new ≡ listed_after file.now out.old }
{
    match log_listing::list_log(file, out) {
        Ok(len) => ListAnswer { refusal: 0, len },
        Err(row) => ListAnswer {
            refusal: refusal::number(row),
            len: 0,
        },
    }
}

#[unsafe(no_mangle)]
pub extern "C" fn lateenbael_encode_wal_header(header: WalHeader, log: &mut [u8]) -> u32
    ensures value { result ≡ refusal_number (stored_of log.old 0 32) }
    ensures log_after { log.new ≡ store log.old 0 (encode_wal_header header) }
{
    capi_answers::refusal_number(wal::encode_wal_header(header, log))
}

fn no_log_header(row: Refusal) -> WalHeaderAnswer
    ensures { result ≡ wal_header_refused row }
{
    WalHeaderAnswer {
        refusal: refusal::number(row),
        header: no_wal_header(),
    }
}

#[unsafe(no_mangle)]
pub extern "C" fn lateenbael_decode_wal_header(log: &[u8]) -> WalHeaderAnswer
    ensures { result ≡ wal_header_as (decode_wal_header log.now) }
{
    match wal::decode_wal_header(log) {
        Ok(header) => WalHeaderAnswer { refusal: 0, header },
        Err(row) => no_log_header(row),
    }
}

#[unsafe(no_mangle)]
pub extern "C" fn lateenbael_encode_header(header: DbHeader, buf: &mut [u8]) -> u32
    ensures value { result ≡ refusal_number (encode_answer buf.old) }
    ensures buf_after { buf.new ≡ encode_after header buf.old }
{
    capi_answers::refusal_number(header::encode_header(header, buf))
}

#[unsafe(no_mangle)]
pub extern "C" fn lateenbael_decode_header(buf: &[u8]) -> HeaderAnswer
    ensures { result ≡ header_as (decode_header buf.now) }
{
    capi_answers::header_as(header::decode_header(buf))
}
