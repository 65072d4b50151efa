// The rolling sum of bytes that a frame carries: byte by byte, and in blocks of sixteen bytes.
// proofs/Blocks.antt has the law of a block, and says why it holds.
#![tactic(auto)]

ghost use Rattle.std.specs.Prelude.{◌≡◌, ◌+◌, ◌^◌, ◌<◌, ◌≤◌, length, bit_and, nat_le};
ghost use Rattle.le.specs.Le.{le_bytes};
ghost use Rattle.checksum.specs.Checksum.{sum_step, sum_from};
ghost use Rattle.checksum.specs.Blocks.{weight};

// The sum after one byte more.
fn sum_step(sum: u32, b: u8) -> u32
    ensures { result ≡ sum_step sum b }
{
    sum.rotate_left(1).wrapping_add(u32::from(b))
}

// The sum carried from `start` over all of a slice, byte by byte.
pub fn sum_serial(bytes: &[u8], start: u32) -> u32
    ensures { result ≡ sum_from start bytes.now }
{
    bytes.iter().fold(start, |sum, b| sum_step(sum, *b))
}

// The low byte of each 16 bits of a word.
fn low_bytes(w: u64) -> u64
    ensures { (result ≡ bit_and w 71777214294589695) × (result ≤ 71777214294589695) }
{
    w & 0x00ff00ff00ff00ff
}

// The weight of a word's eight bytes: first of its pairs, in 16 bits each, then, in the highest 16 bits, of its last four and of
// all eight. The compiler makes one multiplication of the shifts.
fn weight_8(w: u64) -> u32
    ensures { (result ≡ weight (le_bytes 8 w)) × (result < 65536) }
{
    let twos = 2 * low_bytes(w) + low_bytes(w >> 8);
    let fours = twos + (twos << 18);
    let eights = fours + (fours << 36);
    (eights >> 48) as u32
}

// The weight of sixteen bytes.
fn weight_16(bytes: &[u8; 16]) -> u32
    ensures { result ≡ weight bytes.now }
{
    256 * weight_8(le::read_u64(bytes, 0)) + weight_8(le::read_u64(bytes, 8))
}

// Whether the sum of two numbers carries out of the 32 bits.
fn carries(a: u32, b: u32) -> bool
    ensures { result ≡ nat_le (2 ^ 32) (a + b) }
{
    a.checked_add(b).is_none()
}

// The sum carried over eight bytes: at once, or byte by byte where that would carry out.
fn sum_8(bytes: &[u8; 8], sum: u32) -> u32
    ensures { result ≡ sum_from sum bytes.now }
{
    let weight = weight_8(le::read_u64(bytes, 0));
    if carries(sum.rotate_left(8), weight) {
        return sum_serial(bytes, sum);
    }
    sum.rotate_left(8).wrapping_add(weight)
}

// The sum carried from `start` over all of a slice: eight bytes at a time, and what is left byte by byte. A call of its own, so that
// the loop over sixteens has nothing else to keep.
#[inline(never)]
fn sum_eights(bytes: &[u8], start: u32) -> u32
    ensures { result ≡ sum_from start bytes.now }
{
    let (blocks, rest) = bytes.as_chunks();
    let sum = blocks.iter().fold(start, |sum, block| sum_8(block, sum));
    sum_serial(rest, sum)
}

// The sum carried over sixteen bytes: at once, or by eights where that would carry out.
fn sum_16(bytes: &[u8; 16], sum: u32) -> u32
    ensures { result ≡ sum_from sum bytes.now }
{
    let weight = weight_16(bytes);
    if carries(sum.rotate_left(16), weight) {
        return sum_eights(bytes, sum);
    }
    sum.rotate_left(16).wrapping_add(weight)
}

// The sum carried from `start` over all of a slice: sixteen bytes at a time, and what is left by eights.
pub fn sum_over(bytes: &[u8], start: u32) -> u32
    ensures { result ≡ sum_from start bytes.now }
{
    let (blocks, rest) = bytes.as_chunks();
    let sum = blocks.iter().fold(start, |sum, block| sum_16(block, sum));
    sum_eights(rest, sum)
}
