// A batch of the mvcc log, built in a lent body of 4,096 bytes: started, then records and columns added one by one.
// Every public function is total, for made-up builders too. A refused addition leaves the body as it was,
// and the caller's builder still tells the batch.
#![tactic(auto)]

ghost use Rattle.std.specs.Prelude.{◌≡◌, [], true, ◌+◌, ◌*◌, ◌≤◌, ◌<◌, leb, eqb, length};
ghost use Rattle.std.specs.Int.Bits.{bit_and};
ghost use Rattle.std.specs.Float.{binary64};
ghost use Rattle.std.specs.Float.Ieee.{to_bits};
ghost use Rattle.le.specs.Choice.{pick};
ghost use Rattle.le.specs.Le.{le_bytes, field, put};
ghost use Rattle.text.specs.Utf8.{well_formed};
ghost use Rattle.text.specs.Walk.{Ascii};
ghost use Rattle.mvcc.specs.Batch.{body_size, null, integer, real, text, bool, tombstone, present, encode_text};
ghost use Rattle.mvcc_build.specs.Words.{Wide};
ghost use Rattle.refusal.specs.declared.Refusal.TheVariants.{Area, Text, Fit};
ghost use Rattle.mvcc_build.specs.Build.{is_full, head_bytes, last_of, tagged, started, started_bytes, body_after, record_count, head_result, record_added, record_bytes, column_count, column_result, column, column_added, column_bytes, vector_added, vector_bytes, judged};

use mvcc::{BATCH_BODY_SIZE, BATCH_HEADING_SIZE};
use refusal::Refusal;

// A record that takes columns: where its column count stands, and how many columns it has.
#[derive(Clone, Copy)]
pub struct OpenRecord {
    pub counted: usize,
    pub columns: u16,
}

// A batch being built: the end of its bytes, its records, and the last of them if it takes columns: there is one, and it is no tombstone.
// An addition answers the builder to go on with, or the first of its refusals. Area: the body has not 4,096 bytes.
// Truncated: the last element of a vector is cut. Text: a name or a text is not UTF-8. Fit: the batch would pass 4,096 bytes.
// NoRecord: a column, and no present record is last.
#[derive(Clone, Copy)]
pub struct BatchBuilder {
    pub at: usize,
    pub records: u16,
    pub last: Option<OpenRecord>,
}

// ---- texts: a short one is looked at and stored as two words, its first bytes and its last, which may overlap

// The widest word, of 8, 4, 2 or 1 bytes, that fits into n.
fn width(n: usize) -> usize
    requires { (0 < n) × (n ≤ 16) }
    ensures { (result ≤ n) × (n ≤ 2 * result) × Wide result }
{
    if 8 <= n {
        return 8;
    }
    if 4 <= n {
        return 4;
    }
    if 2 <= n {
        return 2;
    }
    1
}

// The word of w bytes at `at`.
fn word(s: &[u8], at: usize, w: usize) -> u64
    requires { (at + w ≤ length s.now) × Wide w }
    ensures { result ≡ field w at s.now }
{
    if w == 8 {
        return le::read_u64(s, at);
    }
    if w == 4 {
        return u64::from(le::read_u32(s, at));
    }
    if w == 2 {
        return u64::from(le::read_u16(s, at));
    }
    u64::from(s[at])
}

// Whether a word has ASCII bytes only.
fn is_ascii(w: u64) -> bool
    ensures { result ≡ eqb (bit_and w 0x8080_8080_8080_8080) 0 }
{
    w & 0x8080_8080_8080_8080 == 0
}

// Whether s has at most 16 bytes, all ASCII, as most names of tables and columns have.
fn is_short_ascii(s: &[u8]) -> bool
    ensures { result ≡ true → Ascii s.now 0 (length s.now) }
{
    let n = s.len();
    if n == 0 {
        return true;
    }
    if 16 < n {
        return false;
    }
    let w = width(n);
    is_ascii(word(s, 0, w)) & is_ascii(word(s, n - w, w))
}

// Whether s is UTF-8.
fn is_text(s: &[u8]) -> bool
    ensures { result ≡ well_formed s.now }
{
    if is_short_ascii(s) {
        return true;
    }
    text::is_utf8(s)
}

// Stores the k lowest bytes of a number.
fn put_number(body: &mut [u8], at: usize, k: usize, v: u64)
    requires { (length body.old ≡ body_size) × (at + k ≤ body_size) }
    ensures { body.new ≡ put body.old at (le_bytes k v) }
{
    if k == 8 {
        let _ = le::write_u64(body, at, v);
        return;
    }
    if k == 4 {
        let _ = le::write_u32(body, at, (v % 4294967296) as u32);
        return;
    }
    if k == 2 {
        let _ = le::write_u16(body, at, (v % 65536) as u16);
        return;
    }
    let mut left = v;
    for i in 0..k {
        body[at + i] = (left % 256) as u8;
        left /= 256;
    }
}

// Stores all of s.
fn put_bytes(body: &mut [u8], at: usize, s: &[u8])
    requires { (length body.old ≡ body_size) × (at + length s.now ≤ body_size) }
    ensures { body.new ≡ put body.old at s.now }
{
    let n = s.len();
    if n == 0 {
        return;
    }
    if 16 < n {
        let _ = le::write_bytes(body, at, s);
        return;
    }
    let w = width(n);
    put_number(body, at, w, word(s, 0, w));
    put_number(body, at + (n - w), w, word(s, n - w, w));
}

// ---- parts of a record or column

// Whether `fixed` bytes and a text and bytes of these lengths end within 4,096 from `at` on.
fn fits(at: usize, fixed: usize, text: usize, bytes: usize) -> bool
    requires { fixed ≤ body_size }
    ensures { result ≡ leb (at + (fixed + text + bytes)) body_size }
{
    if BATCH_BODY_SIZE < text {
        return false;
    }
    if BATCH_BODY_SIZE < bytes {
        return false;
    }
    if BATCH_BODY_SIZE < at {
        return false;
    }
    at + (fixed + text + bytes) <= BATCH_BODY_SIZE
}

// A float's bits. The one NaN that there is to a function is written as the quiet one.
pub fn bits_of(x: f64) -> u64
    ensures { result ≡ to_bits binary64 x }
{
    if x.is_nan() {
        0x7ff8_0000_0000_0000
    } else {
        x.to_bits()
    }
}

// What an addition to a body of this length is refused with where a text of it is not UTF-8.
fn no_text(len: usize) -> Result<(), Refusal>
    ensures { result ≡ pick (eqb len body_size) (Err Text) (Err Area) }
{
    if len != BATCH_BODY_SIZE {
        return Err(Refusal::Area);
    }
    Err(Refusal::Text)
}

// Refuses an addition at `at` to a body of length `len`: where the body has another length, where the addition's texts are not UTF-8, and
// where `fixed` bytes and a text and bytes of these lengths do not fit. The texts' outcome is tested first, so that nothing lies between it
// and what follows from it.
#[tactic(auto, unfolding(crate::specs::Build::judged))]
fn judge(
    len: usize,
    texts: bool,
    at: usize,
    fixed: usize,
    text: usize,
    bytes: usize,
) -> Result<(), Refusal>
    requires { fixed ≤ body_size }
    ensures { result ≡ judged len texts (at + (fixed + text + bytes)) }
{
    if !texts {
        return no_text(len);
    }
    if len != BATCH_BODY_SIZE {
        return Err(Refusal::Area);
    }
    if !fits(at, fixed, text, bytes) {
        return Err(Refusal::Fit);
    }
    Ok(())
}

// Stores a text with a length of two bytes.
fn put_text(body: &mut [u8], at: usize, t: &[u8])
    requires { (length body.old ≡ body_size) × (at + (2 + length t.now) ≤ body_size) }
    ensures { body.new ≡ put body.old at (encode_text 2 t.now) }
{
    let _ = le::write_u16(body, at, t.len() as u16);
    put_bytes(body, at + 2, t);
}

// ---- starting a batch and adding records

// Starts a batch: magic, commit time, no records, zeros behind.
pub fn start(body: &mut [u8], commit_ts: u64) -> Result<BatchBuilder, Refusal>
    ensures value { result ≡ started body.old }
    ensures body_after { body.new ≡ started_bytes commit_ts body.old }
{
    if body.len() != BATCH_BODY_SIZE {
        return Err(Refusal::Area);
    }
    let _ = le::write_u64(body, 0, 0x3130_3030_4343_564d);
    let _ = le::write_u64(body, 8, commit_ts);
    let _ = le::write_zeros(body, 16, 4080);
    Ok(BatchBuilder {
        at: BATCH_HEADING_SIZE,
        records: 0,
        last: None,
    })
}

// A record with this op has been added: a present one has its column count at `counted`.
fn last_of(op: u8, counted: usize) -> Option<OpenRecord>
    ensures { result ≡ last_of op counted }
{
    if op == 0 {
        return None;
    }
    Some(OpenRecord {
        counted,
        columns: 0,
    })
}

// Stores a record: op, table, row id and zeros, which are the column count of a present one.
fn put_record(body: &mut [u8], at: usize, op: u8, table: &[u8], rowid: i64, zeros: usize)
    requires { (length body.old ≡ body_size) × (at + (11 + zeros + length table.now) ≤ body_size) }
    ensures { body.new ≡ put body.old at (head_bytes op table.now rowid zeros) }
{
    let n = table.len();
    body[at] = op;
    put_text(body, at + 1, table);
    let _ = le::write_u64(body, at + (3 + n), rowid.cast_unsigned());
    let _ = le::write_zeros(body, at + (11 + n), zeros);
}

// Adds a record, and counts it. `texts`: its table is UTF-8.
fn add_record(
    body: &mut [u8],
    b: BatchBuilder,
    texts: bool,
    op: u8,
    table: &[u8],
    rowid: i64,
    zeros: usize,
) -> Result<BatchBuilder, Refusal>
    requires { zeros ≤ 2 }
    ensures value { result ≡ head_result b body.old texts op table.now rowid zeros }
    ensures body_after { body.new ≡ body_after record_count b body.old (head_bytes op table.now rowid zeros) result }
{
    let at = b.at;
    let records = b.records;
    judge(body.len(), texts, at, 11 + zeros, table.len(), 0)?;
    if records == u16::MAX {
        return Err(Refusal::Fit);
    }
    put_record(body, at, op, table, rowid, zeros);
    let _ = le::write_u16(body, 16, records + 1);
    let counted = at + (11 + table.len());
    Ok(BatchBuilder {
        at: counted + zeros,
        records: records + 1,
        last: last_of(op, counted),
    })
}

// Adds a tombstone.
pub fn add_tombstone(
    body: &mut [u8],
    b: BatchBuilder,
    table: &[u8],
    rowid: i64,
) -> Result<BatchBuilder, Refusal>
    ensures value { result ≡ record_added b body.old (tombstone table.now rowid) }
    ensures body_after { body.new ≡ record_bytes b body.old (tombstone table.now rowid) }
{
    add_record(body, b, is_text(table), 0, table, rowid, 0)
}

// Adds a present record with no columns yet.
pub fn begin_present(
    body: &mut [u8],
    b: BatchBuilder,
    table: &[u8],
    rowid: i64,
) -> Result<BatchBuilder, Refusal>
    ensures value { result ≡ record_added b body.old (present table.now rowid []) }
    ensures body_after { body.new ≡ record_bytes b body.old (present table.now rowid []) }
{
    add_record(body, b, is_text(table), 1, table, rowid, 2)
}

// ---- adding columns

// Stores a column: its name, and its value's tag, number of k bytes, and bytes.
fn put_column(body: &mut [u8], at: usize, name: &[u8], tag: u8, k: usize, v: u64, bytes: &[u8])
    requires { (length body.old ≡ body_size) × (at + (3 + k + length name.now + length bytes.now) ≤ body_size) }
    ensures { body.new ≡ put body.old at (tagged name.now tag k v bytes.now) }
{
    let n = name.len();
    put_text(body, at, name);
    body[at + (2 + n)] = tag;
    put_number(body, at + (3 + n), k, v);
    put_bytes(body, at + (3 + n + k), bytes);
}

// Whether the last record has as many columns as can be counted. Asked before the record's case is opened: asked behind it, a row
// of nulls took a quarter longer.
fn is_full(last: Option<OpenRecord>) -> bool
    ensures { result ≡ is_full last }
{
    match last {
        None => false,
        Some(record) => record.columns == u16::MAX,
    }
}

// Adds a column to the last record, and counts it. `texts`: its texts are UTF-8.
fn add_column(
    body: &mut [u8],
    b: BatchBuilder,
    texts: bool,
    name: &[u8],
    tag: u8,
    k: usize,
    v: u64,
    bytes: &[u8],
) -> Result<BatchBuilder, Refusal>
    requires { k ≤ 8 }
    ensures value { result ≡ column_result b body.old texts (tagged name.now tag k v bytes.now) }
    ensures body_after { body.new ≡ body_after column_count b body.old (tagged name.now tag k v bytes.now) result }
{
    let at = b.at;
    judge(body.len(), texts, at, 3 + k, name.len(), bytes.len())?;
    if is_full(b.last) {
        return Err(Refusal::Fit);
    }
    let Some(record) = b.last else {
        return Err(Refusal::NoRecord);
    };
    put_column(body, at, name, tag, k, v, bytes);
    let columns = record.columns + 1;
    let _ = le::write_u16(body, record.counted, columns);
    Ok(BatchBuilder {
        at: at + (3 + k + name.len() + bytes.len()),
        last: Some(OpenRecord { columns, ..record }),
        ..b
    })
}

pub fn add_null(body: &mut [u8], b: BatchBuilder, name: &[u8]) -> Result<BatchBuilder, Refusal>
    ensures value { result ≡ column_added b body.old (column name.now null) }
    ensures body_after { body.new ≡ column_bytes b body.old (column name.now null) }
{
    add_column(body, b, is_text(name), name, 0, 0, 0, b"")
}

pub fn add_integer(
    body: &mut [u8],
    b: BatchBuilder,
    name: &[u8],
    value: i64,
) -> Result<BatchBuilder, Refusal>
    ensures value { result ≡ column_added b body.old (column name.now (integer value)) }
    ensures body_after { body.new ≡ column_bytes b body.old (column name.now (integer value)) }
{
    add_column(
        body,
        b,
        is_text(name),
        name,
        1,
        8,
        value.cast_unsigned(),
        b"",
    )
}

// A real by its bits, NaNs too.
pub fn add_real_bits(
    body: &mut [u8],
    b: BatchBuilder,
    name: &[u8],
    bits: u64,
) -> Result<BatchBuilder, Refusal>
    ensures value { result ≡ column_added b body.old (column name.now (real bits)) }
    ensures body_after { body.new ≡ column_bytes b body.old (column name.now (real bits)) }
{
    add_column(body, b, is_text(name), name, 2, 8, bits, b"")
}

pub fn add_real(
    body: &mut [u8],
    b: BatchBuilder,
    name: &[u8],
    value: f64,
) -> Result<BatchBuilder, Refusal>
    ensures value { result ≡ column_added b body.old (column name.now (real (to_bits binary64 value))) }
    ensures body_after { body.new ≡ column_bytes b body.old (column name.now (real (to_bits binary64 value))) }
{
    add_real_bits(body, b, name, bits_of(value))
}

pub fn add_text(
    body: &mut [u8],
    b: BatchBuilder,
    name: &[u8],
    value: &[u8],
) -> Result<BatchBuilder, Refusal>
    ensures value { result ≡ column_added b body.old (column name.now (text value.now)) }
    ensures body_after { body.new ≡ column_bytes b body.old (column name.now (text value.now)) }
{
    let texts = is_text(value) & is_text(name);
    add_column(body, b, texts, name, 3, 4, value.len() as u64, value)
}

pub fn add_bool(
    body: &mut [u8],
    b: BatchBuilder,
    name: &[u8],
    value: bool,
) -> Result<BatchBuilder, Refusal>
    ensures value { result ≡ column_added b body.old (column name.now (bool value)) }
    ensures body_after { body.new ≡ column_bytes b body.old (column name.now (bool value)) }
{
    add_column(body, b, is_text(name), name, 4, 1, u64::from(value), b"")
}

// A vector, from its elements' little-endian bytes, four each.
pub fn add_vector(
    body: &mut [u8],
    b: BatchBuilder,
    name: &[u8],
    bytes: &[u8],
) -> Result<BatchBuilder, Refusal>
    ensures value { result ≡ vector_added b body.old name.now bytes.now }
    ensures body_after { body.new ≡ vector_bytes b body.old name.now bytes.now }
{
    if body.len() != BATCH_BODY_SIZE {
        return Err(Refusal::Area);
    }
    if bytes.len() % 4 != 0 {
        return Err(Refusal::Truncated);
    }
    add_column(
        body,
        b,
        is_text(name),
        name,
        5,
        4,
        (bytes.len() / 4) as u64,
        bytes,
    )
}
