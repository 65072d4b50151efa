// Batches of the mvcc log: what a batch's body holds, read in place.
// Nothing is copied: texts and vectors are told by their places in the body, and a batch is walked
// record by record and column by column with a cursor. Every public function is total.
#![tactic(auto)]

ghost use Rattle.std.specs.Prelude.{◌≡◌, ◌^◌, ◌≤◌, ◌<◌, leb, length, drop, take};
ghost use Rattle.le.specs.Choice.{pick};
ghost use Rattle.mvcc.specs.Batch.{body_size};
ghost use Rattle.mvcc.specs.Fields.{num_answer, text_answer, value_answer, column_answer, row_answer, payload_answer, record_answer, items_of, items_in, refused_batch};
ghost use Rattle.mvcc.specs.Decode.{num_at, text_of, text_at, real_of, integer_at, real_at, bool_at, text_value_at, vector_at, value_at, column_at, record_at};
ghost use Rattle.mvcc.specs.Parts.{row_at, columns_at, payload_at};
ghost use Rattle.mvcc.specs.Items.{present_items, judged_items, report_of, body_items};
ghost use Rattle.mvcc.specs.Seen.{heading_judged, decodes, commit_ts_of};
ghost use Rattle.mvcc.specs.Vector.{bits_at, element_at};

use refusal::Refusal;

// The page number of a frame that holds a batch in place of a page.
pub const MVCC_FRAME_MARKER: u32 = 0xffff_ffff;

// Bytes of a body's heading: leading bytes, commit time and record count.
pub const BATCH_HEADING_SIZE: usize = 18;

// Bytes of a body as it is written: a page's.
pub const BATCH_BODY_SIZE: usize = 4096;

// The leading bytes of a body, `MVCC0001`, as one number.
pub const MVCC_BODY_MAGIC: u64 = 0x3130_3030_4343_564d;

// Where a text stands in the body, and its number of Unicode scalar values.
#[repr(C)]
#[derive(Clone, Copy)]
pub struct TextPlace {
    pub start: usize,
    pub len: usize,
    pub chars: usize,
}

// A column's value. A float is its bits: Nan has those of a NaN, Real every other one.
#[derive(Clone, Copy)]
pub enum Value {
    Null,
    Integer(i64),
    Real(f64),
    Nan(u64),
    Text(TextPlace),
    Bool(bool),
    // `count` f32s of 4 bytes each
    Vector { start: usize, count: usize },
}

#[derive(Clone, Copy)]
pub struct Column {
    pub name: TextPlace,
    pub value: Value,
}

#[repr(C)]
#[derive(Clone, Copy)]
pub struct RowID {
    pub table: TextPlace,
    pub rowid: i64,
}

// A present row has `count` columns, the first at the cursor `first`.
#[derive(Clone, Copy)]
pub enum VersionPayload {
    Tombstone,
    Present { count: usize, first: usize },
}

#[derive(Clone, Copy)]
pub struct MvccLogRecord {
    pub row: RowID,
    pub payload: VersionPayload,
}

// A batch: its records start at 18, and decoding ended at `end`.
#[derive(Clone, Copy)]
pub struct MvccCommitBatch {
    pub commit_ts: u64,
    pub records: usize,
    pub end: usize,
}

// What reading at a cursor gives: what was read and the next cursor, or why it is refused.
pub type Field<T> = Result<(T, usize), Refusal>;

// What a record says of its row, with the next cursor; or why it does not, and how many of its items were read before.
type PayloadField = Result<(VersionPayload, usize), (Refusal, usize)>;

// What decoding a body came to, and how many items, records and columns, it read; those before a refusal count too.
#[derive(Clone, Copy)]
pub struct DecodeReport {
    pub answer: Result<MvccCommitBatch, Refusal>,
    pub items: usize,
}

// An element of a vector. A float is its bits: Nan has those of a NaN, Real every other one.
#[derive(Clone, Copy)]
pub enum Element {
    Real(f32),
    Nan(u32),
}

// ---- fields

// A number of one byte. It is no `take::<1>`: with the test that serves every size, decoding columns took a quarter longer.
fn take_byte(body: &[u8], at: usize) -> Field<u64>
    ensures { num_answer result ≡ num_at 1 body.now at }
{
    if body.len() <= at {
        return Err(Refusal::Truncated);
    }
    Ok((u64::from(body[at]), at + 1))
}

// A number of SIZE bytes.
fn take<const SIZE: usize>(body: &[u8], at: usize) -> Field<u64>
    requires { SIZE ≤ 8 }
    ensures { num_answer result ≡ num_at SIZE body.now at }
{
    if !le::fits_in(body.len(), at, SIZE) {
        return Err(Refusal::Truncated);
    }
    let mut n: u64 = 0;
    for i in (0..SIZE).rev() {
        n = 256 * n + u64::from(body[at + i]);
    }
    Ok((n, at + SIZE))
}

// The float with the bits of n; a NaN stays its bits.
fn real_of(n: u64) -> Value
    ensures { result ≡ real_of n }
{
    if 0x7ff0_0000_0000_0000 < n % 0x8000_0000_0000_0000 {
        Value::Nan(n)
    } else {
        Value::Real(f64::from_bits(n))
    }
}

// The text of n bytes from `at` on. The empty one needs no look.
fn text_of(body: &[u8], at: usize, n: usize) -> Field<TextPlace>
    ensures { text_answer result ≡ text_of body.now at n }
{
    if !le::fits_in(body.len(), at, n) {
        return Err(Refusal::Truncated);
    }
    if n == 0 {
        let place = TextPlace {
            start: at,
            len: n,
            chars: 0,
        };
        return Ok((place, at + n));
    }
    let chars = text::count(le::part(body, at, n));
    if chars == 0 {
        return Err(Refusal::Text);
    }
    let place = TextPlace {
        start: at,
        len: n,
        chars,
    };
    Ok((place, at + n))
}

// A text with a length of two bytes.
#[tactic(auto, unfolding(crate::specs::Decode::text_at))]
fn read_str(body: &[u8], at: usize) -> Field<TextPlace>
    ensures { text_answer result ≡ text_at 2 body.now at }
{
    let (n, next) = take::<2>(body, at)?;
    text_of(body, next, n as usize)
}

// ---- values

#[tactic(auto, unfolding(crate::specs::Decode::integer_at))]
fn integer_at(body: &[u8], at: usize) -> Field<Value>
    ensures { value_answer result ≡ integer_at body.now at }
{
    let (n, next) = take::<8>(body, at)?;
    Ok((Value::Integer(n.cast_signed()), next))
}

#[tactic(auto, unfolding(crate::specs::Decode::real_at))]
fn real_at(body: &[u8], at: usize) -> Field<Value>
    ensures { value_answer result ≡ real_at body.now at }
{
    let (n, next) = take::<8>(body, at)?;
    Ok((real_of(n), next))
}

#[tactic(auto, unfolding(crate::specs::Decode::bool_at))]
fn bool_at(body: &[u8], at: usize) -> Field<Value>
    ensures { value_answer result ≡ bool_at body.now at }
{
    let (n, next) = take_byte(body, at)?;
    Ok((Value::Bool(n != 0), next))
}

#[tactic(auto, unfolding(crate::specs::Decode::text_value_at, crate::specs::Decode::text_at))]
fn text_value_at(body: &[u8], at: usize) -> Field<Value>
    ensures { value_answer result ≡ text_value_at body.now at }
{
    let (n, start) = take::<4>(body, at)?;
    let (place, next) = text_of(body, start, n as usize)?;
    Ok((Value::Text(place), next))
}

#[tactic(auto, unfolding(crate::specs::Decode::vector_at))]
fn vector_at(body: &[u8], at: usize) -> Field<Value>
    ensures { value_answer result ≡ vector_at body.now at }
{
    let (n, start) = take::<4>(body, at)?;
    let count = n as usize;
    if (body.len() - start) / 4 < count {
        return Err(Refusal::Truncated);
    }
    Ok((Value::Vector { start, count }, start + count * 4))
}

// The value at a cursor, with the next cursor.
#[tactic(auto, unfolding(crate::specs::Decode::value_at, crate::specs::Decode::tagged_at))]
pub fn decode_value(body: &[u8], at: usize) -> Field<Value>
    ensures { value_answer result ≡ value_at body.now at }
{
    let (tag, next) = take_byte(body, at)?;
    match tag {
        0 => Ok((Value::Null, next)),
        1 => integer_at(body, next),
        2 => real_at(body, next),
        3 => text_value_at(body, next),
        4 => bool_at(body, next),
        5 => vector_at(body, next),
        _ => Err(Refusal::Tag),
    }
}

// ---- columns and records

// The column at a cursor, with the next cursor.
#[tactic(auto, unfolding(crate::specs::Decode::column_at))]
pub fn decode_column(body: &[u8], at: usize) -> Field<Column>
    ensures { column_answer result ≡ column_at body.now at }
{
    let (name, next) = read_str(body, at)?;
    let (value, end) = decode_value(body, next)?;
    Ok((Column { name, value }, end))
}

// A record's op and its row, that is table and row id, with the cursor behind them.
#[tactic(auto, unfolding(crate::specs::Parts::row_at))]
fn row_at(body: &[u8], at: usize) -> Field<(u64, RowID)>
    ensures { row_answer result ≡ row_at body.now at }
{
    let (op, named) = take_byte(body, at)?;
    let (table, next) = read_str(body, named)?;
    let (n, rest) = take::<8>(body, next)?;
    let rowid = n.cast_signed();
    Ok(((op, RowID { table, rowid }), rest))
}

// The rest of a present record: its column count, with which the record counts, and its columns.
fn present_at(body: &[u8], at: usize) -> PayloadField
    ensures result_value { payload_answer result ≡ columns_at body.now at }
    ensures result_value_2 { items_in result ≡ present_items body.now at }
{
    let (n, first) = match take::<2>(body, at) {
        Ok(counted) => counted,
        Err(refusal) => return Err((refusal, 0)),
    };
    let count = n as usize;
    let mut end = first;
    for i in 0..count {
        match decode_column(body, end) {
            Ok((_, next)) => end = next,
            Err(refusal) => return Err((refusal, i + 1)),
        }
    }
    Ok((VersionPayload::Present { count, first }, end))
}

// What follows a row id. The op is judged here: after table and row id are read.
#[tactic(auto, unfolding(crate::specs::Parts::payload_at, crate::specs::Items::judged_items))]
fn payload_at(body: &[u8], op: u64, at: usize) -> PayloadField
    ensures result_value { payload_answer result ≡ payload_at body.now op at }
    ensures result_value_2 { items_in result ≡ judged_items body.now op at }
{
    if op == 0 {
        return Ok((VersionPayload::Tombstone, at));
    }
    if op == 1 {
        return present_at(body, at);
    }
    Err((Refusal::Tag, 0))
}

// The items of a record: itself and its columns.
fn items_of(p: VersionPayload) -> usize
    requires { items_of p < 2 ^ 64 }
    ensures { result ≡ items_of p }
{
    match p {
        VersionPayload::Tombstone => 1,
        VersionPayload::Present { count, first: _ } => count + 1,
    }
}

// How many items of a record were read.
fn items_in(p: PayloadField) -> usize
    requires { items_in p < 2 ^ 64 }
    ensures { result ≡ items_in p }
{
    match p {
        Ok((payload, _)) => items_of(payload),
        Err((_, items)) => items,
    }
}

// The record at a cursor, with the next cursor.
pub fn decode_record(body: &[u8], at: usize) -> Field<MvccLogRecord>
    ensures { record_answer result ≡ record_at body.now at }
{
    let ((op, row), rest) = row_at(body, at)?;
    match payload_at(body, op, rest) {
        Ok((payload, end)) => Ok((MvccLogRecord { row, payload }, end)),
        Err((refusal, _)) => Err(refusal),
    }
}

// ---- a whole body

// A body that is refused when so many items are read.
fn refused_batch(refusal: Refusal, items: usize) -> DecodeReport
    ensures { result ≡ refused_batch refusal items }
{
    DecodeReport {
        answer: Err(refusal),
        items,
    }
}

impl MvccCommitBatch {
    // A batch's body: its heading and its records. Bytes after the last record are ignored.
    pub fn decode(body: &[u8]) -> DecodeReport
        ensures value { result ≡ report_of body.now }
        ensures result_le_body_items { length body.now ≤ body_size → result.items ≤ body_items }
    {
        if let Err(refusal) = heading_refusal(body) {
            return refused_batch(refusal, 0);
        }
        let commit_ts = commit_ts(body);
        let records = usize::from(le::read_u16(body, 16));
        let mut end = BATCH_HEADING_SIZE;
        let mut items = 0;
        for _ in 0..records {
            let (op, rest) = match row_at(body, end) {
                Ok(((op, _), rest)) => (op, rest),
                Err(refusal) => return refused_batch(refusal, items),
            };
            let p = payload_at(body, op, rest);
            items += items_in(p);
            match p {
                Ok((_, next)) => end = next,
                Err((refusal, _)) => return refused_batch(refusal, items),
            }
        }
        DecodeReport {
            answer: Ok(MvccCommitBatch {
                commit_ts,
                records,
                end,
            }),
            items,
        }
    }
}

// Judges a body by its heading: it is too short, or its leading bytes are wrong. No record is looked at.
pub fn heading_refusal(body: &[u8]) -> Result<(), Refusal>
    ensures { result ≡ heading_judged body.now }
{
    if body.len() < BATCH_HEADING_SIZE {
        return Err(Refusal::Short);
    }
    if le::read_u64(body, 0) != MVCC_BODY_MAGIC {
        return Err(Refusal::Magic);
    }
    Ok(())
}

// The commit time in a body's heading; no record is looked at. 0 where the body is too short for it.
pub fn commit_ts(body: &[u8]) -> u64
    ensures { result ≡ pick (leb 16 (length body.now)) (commit_ts_of body.now) 0 }
{
    le::read_u64(body, 8)
}

// Whether a body decodes.
#[tactic(auto, unfolding(crate::specs::Seen::decodes, crate::specs::Seen::decode_refusal))]
pub fn decodes(body: &[u8]) -> bool
    ensures { result ≡ decodes body.now }
{
    MvccCommitBatch::decode(body).answer.is_ok()
}

// ---- what stands at a place

// A text's bytes: that part of the body.
pub fn text(body: &[u8], place: TextPlace) -> &[u8]
    ensures { result.now ≡ take place.len (drop place.start body.now) }
{
    let start = place.start;
    let len = place.len;
    le::part(body, start, len)
}

// The bits of the element with index i of a vector.
#[tactic(auto, unfolding(crate::specs::Vector::bits_at))]
pub fn vector_bits(body: &[u8], start: usize, count: usize, i: usize) -> Option<u32>
    ensures { result ≡ bits_at body.now start count i }
{
    if i < count && start <= body.len() && i < (body.len() - start) / 4 {
        return Some(le::read_u32(body, start + 4 * i));
    }
    None
}

// The element with index i of a vector as a float.
#[tactic(auto, unfolding(crate::specs::Vector::element_at, crate::specs::Vector::float_of))]
pub fn vector_f32(body: &[u8], start: usize, count: usize, i: usize) -> Option<Element>
    ensures { result ≡ element_at body.now start count i }
{
    let bits = vector_bits(body, start, count, i)?;
    if 0x7f80_0000 < bits % 0x8000_0000 {
        return Some(Element::Nan(bits));
    }
    Some(Element::Real(f32::from_bits(bits)))
}
