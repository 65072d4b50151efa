// A batch's body as text on standard output, field by field.
// Names and texts are lower-case hexadecimal bytes, `-` if empty; floats are their bits.
ghost use Rattle.std.specs.Prelude.{◌≡◌};
ghost use Rattle.mvcc.specs.Seen.{decodes};

use crate::out::Out;
use mvcc::BATCH_HEADING_SIZE;
use mvcc_build::bits_of;
use refusal::Refusal;
use std::fmt::{self, Write};

// Bytes, shown in two hexadecimal digits each, `-` if there are none.
#[derive(Clone, Copy)]
struct Hex<'a>(&'a [u8]);

impl fmt::Display for Hex<'_> {
    fn fmt<W: fmt::Write>(&self, f: &mut fmt::Formatter<W>) -> fmt::Result {
        if self.0.is_empty() {
            return f.write_str("-");
        }
        for run in self.0.chunks(RUN) {
            write_digits(f, run)?;
        }
        Ok(())
    }
}

// So many bytes are made digits of at once: a text of 4,000 letters took six times as long with a call for each.
const RUN: usize = 128;

const DIGITS: usize = 2 * RUN;

// The digit of the low half of a byte.
fn digit_of(b: u8) -> u8 {
    let half = b % 16;
    if half < 10 {
        b'0' + half
    } else {
        b'a' - 10 + half
    }
}

// Writes the digits of the first bytes, as many as a run has.
fn write_digits<W: fmt::Write>(f: &mut fmt::Formatter<W>, run: &[u8]) -> fmt::Result {
    let mut digits = [b'0'; DIGITS];
    for (pair, b) in digits.as_chunks_mut::<2>().0.iter_mut().zip(run) {
        *pair = [digit_of(*b / 16), digit_of(*b)];
    }
    match str::from_utf8(le::part(&digits, 0, 2 * run.len().min(RUN))) {
        Ok(text) => f.write_str(text),
        Err(_) => Err(fmt::Error),
    }
}

// ---- values, columns and records

// A value of a body.
#[derive(Clone, Copy)]
struct Shown<'a> {
    body: &'a [u8],
    value: mvcc::Value,
}

impl fmt::Display for Shown<'_> {
    fn fmt<W: fmt::Write>(&self, f: &mut fmt::Formatter<W>) -> fmt::Result {
        let body = self.body;
        match self.value {
            mvcc::Value::Null => f.write_str("null"),
            mvcc::Value::Integer(z) => write!(f, "integer {z}"),
            mvcc::Value::Real(x) => write!(f, "real {:016x}", bits_of(x)),
            mvcc::Value::Nan(bits) => write!(f, "real {bits:016x}"),
            mvcc::Value::Text(place) => write!(f, "text {}", Hex(mvcc::text(body, place))),
            mvcc::Value::Bool(b) => write!(f, "bool {b}"),
            mvcc::Value::Vector { start, count } => {
                write!(f, "vector {count}")?;
                write_elements(f, body, start, count)
            }
        }
    }
}

// Writes the bits of a vector's elements, each behind a space.
fn write_elements<W: fmt::Write>(
    f: &mut fmt::Formatter<W>,
    body: &[u8],
    start: usize,
    count: usize,
) -> fmt::Result {
    for i in 0..count {
        let Some(n) = mvcc::vector_bits(body, start, count, i) else {
            return Ok(());
        };
        write!(f, " {n:08x}")?;
    }
    Ok(())
}

// Prints the line of the column with the index j.
fn print_column<P: Print>(out: &mut Out<P>, body: &[u8], j: usize, column: mvcc::Column) {
    let name = Hex(mvcc::text(body, column.name));
    let value = Shown {
        body,
        value: column.value,
    };
    let _ = writeln!(out, "column {j} {name} {value}");
    out.flush();
}

// Prints the lines of the columns from the cursor `first` on.
fn print_columns<P: Print>(out: &mut Out<P>, body: &[u8], count: usize, first: usize) {
    let mut at = first;
    for j in 0..count {
        let Ok((column, next)) = mvcc::decode_column(body, at) else {
            return;
        };
        print_column(out, body, j, column);
        at = next;
    }
}

// Prints a record's kind, its table and row id.
fn print_row<P: Print>(out: &mut Out<P>, kind: &str, body: &[u8], row: mvcc::RowID) {
    let table = Hex(mvcc::text(body, row.table));
    let _ = write!(out, " {kind} {table} {}", row.rowid);
}

// Prints the line of a present record, and those of its columns.
fn print_present<P: Print>(
    out: &mut Out<P>,
    body: &[u8],
    row: mvcc::RowID,
    count: usize,
    first: usize,
) {
    print_row(out, "present", body, row);
    let _ = writeln!(out, " {count}");
    out.flush();
    print_columns(out, body, count, first);
}

fn print_tombstone<P: Print>(out: &mut Out<P>, body: &[u8], row: mvcc::RowID) {
    print_row(out, "tombstone", body, row);
    let _ = writeln!(out);
    out.flush();
}

// Prints the lines of the record with the index i.
fn print_record<P: Print>(out: &mut Out<P>, body: &[u8], i: usize, record: mvcc::MvccLogRecord) {
    let row = record.row;
    let payload = record.payload;
    let _ = write!(out, "record {i}");
    match payload {
        mvcc::VersionPayload::Tombstone => print_tombstone(out, body, row),
        mvcc::VersionPayload::Present { count, first } => print_present(
            out, body, row, count, first,
        ),
    }
}

// Prints the lines of all records.
fn print_records<P: Print>(out: &mut Out<P>, body: &[u8], count: usize) {
    let mut at: usize = BATCH_HEADING_SIZE;
    for i in 0..count {
        let Ok((record, next)) = mvcc_reader::record_from(body, at) else {
            return;
        };
        print_record(out, body, i, record);
        at = next;
    }
}

// ---- a whole body

// Prints a refusal by document 01's number.
pub fn print_refused(rt: &impl Print, row: Refusal) {
    let _ = println!(rt; "refused {}", refusal::number(row));
}

// Prints the lines of a batch.
fn print_decoded<P: Print>(out: &mut Out<P>, body: &[u8], batch: mvcc::MvccCommitBatch) {
    let count = batch.records;
    let _ = writeln!(out, "batch {} {count}", batch.commit_ts);
    out.flush();
    print_records(out, body, count);
}

// Prints what a body says, or why it does not decode, and answers whether it decodes.
pub fn print_batch(rt: &impl Print, body: &[u8]) -> bool
    ensures { result ≡ decodes body.now }
{
    let answer = mvcc::MvccCommitBatch::decode(body).answer;
    match answer {
        Ok(batch) => {
            print_decoded(&mut Out::new(rt), body, batch);
            true
        }
        Err(row) => {
            print_refused(rt, row);
            false
        }
    }
}

// Prints the line of the bytes that a batch is encoded in.
fn print_encoded<P: Print>(out: &mut Out<P>, bytes: &[u8]) {
    let _ = writeln!(out, "encoded {}", Hex(bytes));
    out.flush();
}

// How many bytes there are up to the last one that is not zero.
fn used(bytes: &[u8]) -> usize {
    bytes.iter().rposition(|b| *b != 0).map_or(0, |i| i + 1)
}

// Prints what a body says and the bytes that it is encoded in, all 4,096 or those before the zeros at their end;
// or why it does not decode.
pub fn print_body(rt: &impl Print, body: &[u8], zeros: bool) {
    if !print_batch(rt, body) {
        return;
    }
    let mut out = [0u8; 4_096];
    let Ok(()) = mvcc_canonical::canonicalize(body, &mut out) else {
        return;
    };
    if zeros {
        print_encoded(&mut Out::new(rt), &out);
    } else {
        print_encoded(&mut Out::new(rt), le::part(&out, 0, used(&out)));
    }
}
