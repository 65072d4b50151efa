// The canonical form of a batch's body: what `MvccCommitBatch::encode` writes for what the body says.
// It has the body's own bytes up to where decoding ended, with every bool 0 or 1, and zeros behind them.
#![tactic(auto)]

ghost use Rattle.std.specs.Prelude.{◌≡◌, ◌≤◌, length};
ghost use Rattle.mvcc.specs.Batch.{heading_size};
ghost use Rattle.mvcc.specs.Answer.{many};
ghost use Rattle.mvcc.specs.Decode.{column_at, record_at};
ghost use Rattle.mvcc_canonical.specs.Canonical.{answer_end, fix_all, fix_value, column_step, record_step, fix_record, Stands, Columns, Walk, BoolsTo, canonicalized, canonical_bytes};

use mvcc::{BATCH_BODY_SIZE, BATCH_HEADING_SIZE};
use refusal::Refusal;

// A bool whose byte ends at `end` becomes 0 or 1; any other value stays as it is.
fn fix_value(out: &mut [u8], value: mvcc::Value, end: usize)
    ensures { out.new ≡ fix_value value end out.old }
{
    let mvcc::Value::Bool(b) = value else {
        return;
    };
    if 0 < end && end <= out.len() {
        out[end - 1] = u8::from(b);
    }
}

// The bools of n columns from `first` on; answers the cursor past them.
fn fix_columns(body: &[u8], out: &mut [u8], n: usize, first: usize) -> usize
    requires { Columns body.now n first }
    ensures value { result ≡ answer_end (many (column_at body.now) n first) }
    ensures out_after { out.new ≡ fix_all (column_at body.now) column_step n first out.old }
{
    let mut at = first;
    for _ in 0..n {
        let (column, next) = mvcc::decode_column(body, at).unwrap();
        fix_value(out, column.value, next);
        at = next;
    }
    at
}

// The bools of the record at `at`; answers the cursor past it.
fn fix_record(body: &[u8], out: &mut [u8], at: usize) -> usize
    requires { Stands body.now at }
    ensures value { result ≡ answer_end (record_at body.now at) }
    ensures out_after { out.new ≡ fix_record body.now at out.old }
{
    let rest = at + (11 + usize::from(le::read_u16(body, at + 1)));
    if body[at] == 0 {
        return rest;
    }
    let count = usize::from(le::read_u16(body, rest));
    fix_columns(body, out, count, rest + 2)
}

// The bools of all n records.
fn fix_records(body: &[u8], out: &mut [u8], n: usize)
    requires { Walk body.now n heading_size }
    ensures { out.new ≡ fix_all (record_at body.now) (record_step body.now) n heading_size out.old }
{
    let mut at = BATCH_HEADING_SIZE;
    for _ in 0..n {
        at = fix_record(body, out, at);
    }
}

// No less than any byte of the first `end` that stands behind a bool's tag, or behind what looks like one. Every byte is looked at:
// with no way out in between the compiler takes sixteen at once.
fn top_bool(body: &[u8], end: usize) -> u8
    requires { end ≤ length body.now }
    ensures { BoolsTo body.now end result }
{
    let mut top = 0;
    for i in 1..end {
        top = u8::max(top, body[i] * u8::from(body[i - 1] == 4));
    }
    top
}

// Writes the canonical form of a decodable body into `out`, which has 4,096 bytes. Where no bool is above 1 the copy is that form already.
// Refused as Area, `out` has not 4,096 bytes, or the body has more; refused as anything else, the body does not decode.
pub fn canonicalize(body: &[u8], out: &mut [u8]) -> Result<(), Refusal>
    ensures value { result ≡ canonicalized body.now out.old }
    ensures out_after { out.new ≡ canonical_bytes body.now out.old }
{
    if out.len() != BATCH_BODY_SIZE || BATCH_BODY_SIZE < body.len() {
        return Err(Refusal::Area);
    }
    let batch = mvcc::MvccCommitBatch::decode(body).answer?;
    let end = batch.end;
    let _ = le::write_bytes(out, 0, le::part(body, 0, end));
    let _ = le::write_zeros(out, end, BATCH_BODY_SIZE - end);
    if top_bool(body, end) <= 1 {
        return Ok(());
    }
    fix_records(body, out, batch.records);
    Ok(())
}
