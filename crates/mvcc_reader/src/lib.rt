// A batch's body and a cursor in it, kept together: a thin reader over the plain functions of `mvcc`.
// Every public function is total.
#![tactic(auto)]

ghost use Rattle.std.specs.Prelude.{◌≡◌};
ghost use Rattle.mvcc.specs.Batch.{heading_size};
ghost use Rattle.mvcc.specs.Fields.{record_answer};
ghost use Rattle.mvcc.specs.Decode.{record_at};

use mvcc::{BATCH_HEADING_SIZE, Field, MvccLogRecord};

#[derive(Clone, Copy)]
pub struct BatchReader<'a> {
    pub body: &'a [u8],
    pub at: usize,
}

// The work: the record at a cursor of a body, with the next cursor.
fn record_at(body: &[u8], at: usize) -> Field<MvccLogRecord>
    ensures { record_answer result ≡ record_at body.now at }
{
    mvcc::decode_record(body, at)
}

// A reader of a body, at the first record.
pub fn new<'a>(body: &'a [u8]) -> BatchReader<'a>
    ensures { (result.body ≡ body.entry) × (result.at ≡ heading_size) }
{
    BatchReader {
        body,
        at: BATCH_HEADING_SIZE,
    }
}

// The record at the reader's cursor, with the next cursor.
pub fn next<'a>(r: BatchReader<'a>) -> Field<MvccLogRecord>
    ensures { record_answer result ≡ record_at r.entry.body.now r.entry.at }
{
    record_at(r.body, r.at)
}

// The reader at another cursor, as the next one that `next` answered.
pub fn moved<'a>(r: BatchReader<'a>, at: usize) -> BatchReader<'a>
    ensures { (result.body ≡ r.entry.body) × (result.at ≡ at) }
{
    BatchReader { at, ..r }
}

// The record at a cursor of a body, for callers that keep no reader.
pub fn record_from(body: &[u8], at: usize) -> Field<MvccLogRecord>
    ensures { record_answer result ≡ record_at body.now at }
{
    next(moved(new(body), at))
}
