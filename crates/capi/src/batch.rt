// The calls of batches: walking one in its body, its canonical form, and building one.
ghost use Rattle.std.specs.Prelude.{◌≡◌, not, [], eqb};
ghost use Rattle.mvcc.specs.Batch.{null, integer, real, text, bool, tombstone, present};
ghost use Rattle.mvcc.specs.Decode.{value_at, column_at, record_at};
ghost use Rattle.mvcc.specs.Items.{report_of};
ghost use Rattle.mvcc.specs.Vector.{bits_at};
ghost use Rattle.mvcc_build.specs.Build.{started, started_bytes, record_added, record_bytes, column, column_added, column_bytes, vector_added, vector_bytes};
ghost use Rattle.mvcc_canonical.specs.Canonical.{canonicalized, canonical_bytes};
ghost use Rattle.capi.specs.Batch.{no_batch, batch_numbers, op_number, count_number, first_number, no_place, record_numbers, value_of, no_value, flag_number, value_numbers, value_reply, column_numbers, element_numbers, canonical_as, last_record_in, builder_in, counted_of, columns_of, building_of, refused_building, added_numbers};

use mvcc::{MvccCommitBatch, TextPlace, Value, VersionPayload};
use mvcc_build::{BatchBuilder, OpenRecord};
use refusal::Refusal;

// A batch: its records start at 18, and decoding ended at `end`. How many items were read is told of a refused body too.
#[repr(C)]
#[derive(Clone, Copy)]
pub struct BatchNumbers {
    pub refusal: u32,
    pub commit_ts: u64,
    pub records: usize,
    pub end: usize,
    pub items: usize,
}

// A record: the next cursor, its row, and its columns if it is present, the first at the cursor `first`.
#[repr(C)]
#[derive(Clone, Copy)]
pub struct RecordNumbers {
    pub refusal: u32,
    // 0 a tombstone, 1 present.
    pub op: u32,
    pub next: usize,
    pub table: TextPlace,
    pub rowid: i64,
    pub count: usize,
    pub first: usize,
}

// A value by document 01's tag: 0 null, 1 integer, 2 real, 3 text, 4 bool, 5 vector.
#[repr(C)]
#[derive(Clone, Copy)]
pub struct ValueNumbers {
    pub tag: u32,
    // 1 where it is true.
    pub flag: u32,
    pub integer: i64,
    // A real's bits.
    pub bits: u64,
    // A text's place; a vector's first byte and number of elements, and no character.
    pub place: TextPlace,
}

#[repr(C)]
#[derive(Clone, Copy)]
pub struct ValueAnswer {
    pub refusal: u32,
    pub next: usize,
    pub value: ValueNumbers,
}

#[repr(C)]
#[derive(Clone, Copy)]
pub struct ColumnNumbers {
    pub refusal: u32,
    pub next: usize,
    pub name: TextPlace,
    pub value: ValueNumbers,
}

#[repr(C)]
#[derive(Clone, Copy)]
pub struct ElementNumbers {
    // 1: the vector has that element.
    pub found: u32,
    pub bits: u32,
}

fn no_batch(row: Refusal, items: usize) -> BatchNumbers
    ensures { result ≡ no_batch row items }
{
    BatchNumbers {
        refusal: refusal::number(row),
        commit_ts: 0,
        records: 0,
        end: 0,
        items,
    }
}

#[unsafe(no_mangle)]
pub extern "C" fn lateenbael_mvcc_decode(body: &[u8]) -> BatchNumbers
    ensures { result ≡ batch_numbers (report_of body.now) }
{
    let report = MvccCommitBatch::decode(body);
    let items = report.items;
    let answer = report.answer;
    match answer {
        Ok(b) => BatchNumbers {
            refusal: 0,
            commit_ts: b.commit_ts,
            records: b.records,
            end: b.end,
            items,
        },
        Err(row) => no_batch(row, items),
    }
}

fn op_of(p: VersionPayload) -> u32
    ensures { result ≡ op_number p }
{
    match p {
        VersionPayload::Tombstone => 0,
        VersionPayload::Present { count: _, first: _ } => 1,
    }
}

fn count_of(p: VersionPayload) -> usize
    ensures { result ≡ count_number p }
{
    match p {
        VersionPayload::Tombstone => 0,
        VersionPayload::Present { count, first: _ } => count,
    }
}

fn first_of(p: VersionPayload) -> usize
    ensures { result ≡ first_number p }
{
    match p {
        VersionPayload::Tombstone => 0,
        VersionPayload::Present { count: _, first } => first,
    }
}

fn no_place() -> TextPlace
    ensures { result ≡ no_place }
{
    TextPlace {
        start: 0,
        len: 0,
        chars: 0,
    }
}

#[unsafe(no_mangle)]
pub extern "C" fn lateenbael_mvcc_decode_record(body: &[u8], at: usize) -> RecordNumbers
    ensures { result ≡ record_numbers (record_at body.now at) }
{
    match mvcc::decode_record(body, at) {
        Ok((record, next)) => {
            let row = record.row;
            let table = row.table;
            let payload = record.payload;
            RecordNumbers {
                refusal: 0,
                op: op_of(payload),
                next,
                table,
                rowid: row.rowid,
                count: count_of(payload),
                first: first_of(payload),
            }
        }
        Err(row) => RecordNumbers {
            refusal: refusal::number(row),
            op: 0,
            next: 0,
            table: no_place(),
            rowid: 0,
            count: 0,
            first: 0,
        },
    }
}

fn value_numbers(tag: u32, flag: u32, integer: i64, bits: u64, place: TextPlace) -> ValueNumbers
    ensures { result ≡ value_of tag flag integer bits place }
{
    ValueNumbers {
        tag,
        flag,
        integer,
        bits,
        place,
    }
}

fn flag_of(b: bool) -> u32
    ensures { result ≡ flag_number b }
{
    u32::from(b)
}

fn numbers_of(v: Value) -> ValueNumbers
    ensures { result ≡ value_numbers v }
{
    match v {
        Value::Null => value_numbers(0, 0, 0, 0, no_place()),
        Value::Integer(n) => value_numbers(1, 0, n, 0, no_place()),
        Value::Real(x) => value_numbers(2, 0, 0, mvcc_build::bits_of(x), no_place()),
        Value::Nan(bits) => value_numbers(2, 0, 0, bits, no_place()),
        Value::Text(place) => value_numbers(3, 0, 0, 0, place),
        Value::Bool(b) => value_numbers(4, flag_of(b), 0, 0, no_place()),
        Value::Vector { start, count } => value_numbers(
            5,
            0,
            0,
            0,
            TextPlace {
                start,
                len: count,
                chars: 0,
            },
        ),
    }
}

fn no_value() -> ValueNumbers
    ensures { result ≡ no_value }
{
    value_numbers(0, 0, 0, 0, no_place())
}

#[unsafe(no_mangle)]
pub extern "C" fn lateenbael_mvcc_decode_value(body: &[u8], at: usize) -> ValueAnswer
    ensures { result ≡ value_reply (value_at body.now at) }
{
    match mvcc::decode_value(body, at) {
        Ok((v, next)) => ValueAnswer {
            refusal: 0,
            next,
            value: numbers_of(v),
        },
        Err(row) => ValueAnswer {
            refusal: refusal::number(row),
            next: 0,
            value: no_value(),
        },
    }
}

#[unsafe(no_mangle)]
pub extern "C" fn lateenbael_mvcc_decode_column(body: &[u8], at: usize) -> ColumnNumbers
    ensures { result ≡ column_numbers (column_at body.now at) }
{
    match mvcc::decode_column(body, at) {
        Ok((c, next)) => {
            let value = c.value;
            let name = c.name;
            ColumnNumbers {
                refusal: 0,
                next,
                name,
                value: numbers_of(value),
            }
        }
        Err(row) => ColumnNumbers {
            refusal: refusal::number(row),
            next: 0,
            name: no_place(),
            value: no_value(),
        },
    }
}

#[unsafe(no_mangle)]
pub extern "C" fn lateenbael_mvcc_vector_bits(
    body: &[u8],
    start: usize,
    count: usize,
    i: usize,
) -> ElementNumbers
    ensures { result ≡ element_numbers (bits_at body.now start count i) }
{
    match mvcc::vector_bits(body, start, count, i) {
        Some(bits) => ElementNumbers { found: 1, bits },
        None => ElementNumbers { found: 0, bits: 0 },
    }
}

#[unsafe(no_mangle)]
pub extern "C" fn lateenbael_mvcc_canonicalize(body: &[u8], out: &mut [u8]) -> u32
    ensures value { result ≡ canonical_as (canonicalized body.now out.old) }
    ensures out_after { out.new ≡ canonical_bytes body.now out.old }
{
    match mvcc_canonical::canonicalize(body, out) {
        Ok(()) => 0,
        Err(row) => refusal::number(row),
    }
}

// ---- building

// A batch being built, in numbers.
#[repr(C)]
#[derive(Clone, Copy)]
pub struct Building {
    // Document 01's number; 0 is none. Beside another the rest is 0, and the caller goes on with what he had.
    pub refusal: u32,
    pub at: u32,
    // Where the last record's column count stands; 0 where it has none.
    pub counted: u32,
    pub records: u16,
    pub columns: u16,
}

fn last_in(b: Building) -> Option<OpenRecord>
    ensures { result ≡ last_record_in b }
{
    if b.counted == 0 {
        return None;
    }
    Some(OpenRecord {
        counted: b.counted as usize,
        columns: b.columns,
    })
}

fn builder_in(b: Building) -> BatchBuilder
    ensures { result ≡ builder_in b }
{
    BatchBuilder {
        at: b.at as usize,
        records: b.records,
        last: last_in(b),
    }
}

fn counted_of(last: Option<OpenRecord>) -> u32
    ensures { result ≡ counted_of last }
{
    last.map_or(0, |record| (record.counted % 4294967296) as u32)
}

fn columns_of(last: Option<OpenRecord>) -> u16
    ensures { result ≡ columns_of last }
{
    last.map_or(0, |record| record.columns)
}

fn building_of(b: BatchBuilder) -> Building
    ensures { result ≡ building_of b }
{
    let last = b.last;
    Building {
        refusal: 0,
        at: (b.at % 4294967296) as u32,
        counted: counted_of(last),
        records: b.records,
        columns: columns_of(last),
    }
}

fn refused(row: Refusal) -> Building
    ensures { result ≡ refused_building row }
{
    Building {
        refusal: refusal::number(row),
        at: 0,
        counted: 0,
        records: 0,
        columns: 0,
    }
}

fn added_numbers(k: Result<BatchBuilder, Refusal>) -> Building
    ensures { result ≡ added_numbers k }
{
    match k {
        Ok(b) => building_of(b),
        Err(row) => refused(row),
    }
}

#[unsafe(no_mangle)]
pub extern "C" fn lateenbael_mvcc_start(body: &mut [u8], commit_ts: u64) -> Building
    ensures value { result ≡ added_numbers (started body.old) }
    ensures body_after { body.new ≡ started_bytes commit_ts body.old }
{
    added_numbers(mvcc_build::start(body, commit_ts))
}

#[unsafe(no_mangle)]
pub extern "C" fn lateenbael_mvcc_add_tombstone(
    body: &mut [u8],
    b: Building,
    table: &[u8],
    rowid: i64,
) -> Building
    ensures value { result ≡ added_numbers (record_added (builder_in b) body.old (tombstone table.now rowid)) }
    ensures body_after { body.new ≡ record_bytes (builder_in b) body.old (tombstone table.now rowid) }
{
    added_numbers(mvcc_build::add_tombstone(body, builder_in(b), table, rowid))
}

#[unsafe(no_mangle)]
pub extern "C" fn lateenbael_mvcc_begin_present(
    body: &mut [u8],
    b: Building,
    table: &[u8],
    rowid: i64,
) -> Building
    ensures value { result ≡ added_numbers (record_added (builder_in b) body.old (present table.now rowid [])) }
    ensures body_after { body.new ≡ record_bytes (builder_in b) body.old (present table.now rowid []) }
{
    added_numbers(mvcc_build::begin_present(body, builder_in(b), table, rowid))
}

#[unsafe(no_mangle)]
pub extern "C" fn lateenbael_mvcc_add_null(body: &mut [u8], b: Building, name: &[u8]) -> Building
    ensures value { result ≡ added_numbers (column_added (builder_in b) body.old (column name.now null)) }
    ensures body_after { body.new ≡ column_bytes (builder_in b) body.old (column name.now null) }
{
    added_numbers(mvcc_build::add_null(body, builder_in(b), name))
}

#[unsafe(no_mangle)]
pub extern "C" fn lateenbael_mvcc_add_integer(
    body: &mut [u8],
    b: Building,
    name: &[u8],
    value: i64,
) -> Building
    ensures value { result ≡ added_numbers (column_added (builder_in b) body.old (column name.now (integer value))) }
    ensures body_after { body.new ≡ column_bytes (builder_in b) body.old (column name.now (integer value)) }
{
    added_numbers(mvcc_build::add_integer(body, builder_in(b), name, value))
}

#[unsafe(no_mangle)]
pub extern "C" fn lateenbael_mvcc_add_real_bits(
    body: &mut [u8],
    b: Building,
    name: &[u8],
    bits: u64,
) -> Building
    ensures value { result ≡ added_numbers (column_added (builder_in b) body.old (column name.now (real bits))) }
    ensures body_after { body.new ≡ column_bytes (builder_in b) body.old (column name.now (real bits)) }
{
    added_numbers(mvcc_build::add_real_bits(body, builder_in(b), name, bits))
}

#[unsafe(no_mangle)]
pub extern "C" fn lateenbael_mvcc_add_text(
    body: &mut [u8],
    b: Building,
    name: &[u8],
    value: &[u8],
) -> Building
    ensures value { result ≡ added_numbers (column_added (builder_in b) body.old (column name.now (text value.now))) }
    ensures body_after { body.new ≡ column_bytes (builder_in b) body.old (column name.now (text value.now)) }
{
    added_numbers(mvcc_build::add_text(body, builder_in(b), name, value))
}

#[unsafe(no_mangle)]
pub extern "C" fn lateenbael_mvcc_add_bool(
    body: &mut [u8],
    b: Building,
    name: &[u8],
    value: u32,
) -> Building
    ensures value { result ≡ added_numbers (column_added (builder_in b) body.old (column name.now (bool (not (eqb value 0))))) }
    ensures body_after { body.new ≡ column_bytes (builder_in b) body.old (column name.now (bool (not (eqb value 0)))) }
{
    added_numbers(mvcc_build::add_bool(body, builder_in(b), name, value != 0))
}

#[unsafe(no_mangle)]
pub extern "C" fn lateenbael_mvcc_add_vector(
    body: &mut [u8],
    b: Building,
    name: &[u8],
    bytes: &[u8],
) -> Building
    ensures value { result ≡ added_numbers (vector_added (builder_in b) body.old name.now bytes.now) }
    ensures body_after { body.new ≡ vector_bytes (builder_in b) body.old name.now bytes.now }
{
    added_numbers(mvcc_build::add_vector(body, builder_in(b), name, bytes))
}
