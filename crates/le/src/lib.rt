// Little-endian fields of byte slices, parts of them and stores into them.
// Every public function is total: a field that is not wholly there reads as 0, a part is what is there
// of it, and a store that does not fit is refused and changes nothing.
#![tactic(auto)]

ghost use Rattle.std.specs.Prelude.{◌≡◌, ◌+◌, leb, length, take, drop, replicate};
ghost use Rattle.le.specs.Le.{le_of, le_bytes, whole_field, store, same_bytes};
ghost use Rattle.le.specs.Answers.{stored_of};

use refusal::Refusal;

// Whether n bytes from `at` on lie within a length.
pub fn fits_in(len: usize, at: usize, n: usize) -> bool
    ensures { result ≡ leb (at + n) len }
{
    n <= len && at <= len - n
}

// The N bytes from `at` on, or zeros where they are not all there.
fn bytes_at<const N: usize>(buf: &[u8], at: usize) -> [u8; N]
    ensures { le_of result ≡ whole_field N at buf.now }
{
    if !fits_in(buf.len(), at, N) {
        return [0; N];
    }
    let end = at + N;
    match buf[at..end].as_array() {
        Some(bytes) => *bytes,
        None => [0; N],
    }
}

// The field at `at`, or 0 where it is not wholly there. One function over the three types would need a trait with a ghost width, which
// says more than these lines do.
pub fn read_u16(buf: &[u8], at: usize) -> u16
    ensures { result ≡ whole_field 2 at buf.now }
{
    u16::from_le_bytes(bytes_at(buf, at))
}

pub fn read_u32(buf: &[u8], at: usize) -> u32
    ensures { result ≡ whole_field 4 at buf.now }
{
    u32::from_le_bytes(bytes_at(buf, at))
}

pub fn read_u64(buf: &[u8], at: usize) -> u64
    ensures { result ≡ whole_field 8 at buf.now }
{
    u64::from_le_bytes(bytes_at(buf, at))
}

// The n bytes from `at` on, or as many of them as there are.
pub fn part(buf: &[u8], at: usize, n: usize) -> &[u8]
    ensures { result.now ≡ take n (drop at buf.now) }
{
    if buf.len() <= at {
        return &buf[..0];
    }
    if fits_in(buf.len(), at, n) {
        let end = at + n;
        return &buf[at..end];
    }
    &buf[at..]
}

// Whether two slices hold the same bytes.
pub fn same(a: &[u8], b: &[u8]) -> bool
    ensures { result ≡ same_bytes a.now b.now }
{
    a == b
}

// Stores the field at `at`. A function for each type, as for reading.
pub fn write_u16(buf: &mut [u8], at: usize, v: u16) -> Result<(), Refusal>
    ensures { (result ≡ stored_of buf.old at 2) × (buf.new ≡ store buf.old at (le_bytes 2 v)) }
{
    write_bytes(buf, at, &u16::to_le_bytes(v))
}

pub fn write_u32(buf: &mut [u8], at: usize, v: u32) -> Result<(), Refusal>
    ensures { (result ≡ stored_of buf.old at 4) × (buf.new ≡ store buf.old at (le_bytes 4 v)) }
{
    write_bytes(buf, at, &u32::to_le_bytes(v))
}

pub fn write_u64(buf: &mut [u8], at: usize, v: u64) -> Result<(), Refusal>
    ensures { (result ≡ stored_of buf.old at 8) × (buf.new ≡ store buf.old at (le_bytes 8 v)) }
{
    write_bytes(buf, at, &u64::to_le_bytes(v))
}

// Stores all of `src` from `at` on, byte by byte: of the library's copy the compiler makes a call of `memmove`, and a host without a C
// library lends `memcpy` and `memset` alone.
pub fn write_bytes(buf: &mut [u8], at: usize, src: &[u8]) -> Result<(), Refusal>
    ensures { (result ≡ stored_of buf.old at (length src.now)) × (buf.new ≡ store buf.old at src.now) }
{
    if fits_in(buf.len(), at, src.len()) {
        for i in 0..src.len() {
            buf[at + i] = src[i];
        }
        return Ok(());
    }
    Err(Refusal::Area)
}

// Stores n zeros from `at` on.
pub fn write_zeros(buf: &mut [u8], at: usize, n: usize) -> Result<(), Refusal>
    ensures { (result ≡ stored_of buf.old at n) × (buf.new ≡ store buf.old at (replicate n 0)) }
{
    if fits_in(buf.len(), at, n) {
        let end = at + n;
        buf[at..end].fill(0);
        return Ok(());
    }
    Err(Refusal::Area)
}
