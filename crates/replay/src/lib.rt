// Test support: what the programs share that replay a list of cases.
// A list has one case a line, its bytes in hexadecimal digits; an answer is a line of text.
// Every public function is total: a case or a text that finds no room is cut or left out.
#![tactic(auto)]

ghost use Rattle.std.specs.Prelude.{◌≡◌, ◌==◌, not, [], ◌∷◌, ◌+◌, ◌<◌, min, max, length, drop, replicate};
ghost use Rattle.std.specs.List.{prefix_len};
ghost use Rattle.le.specs.Le.{store};
ghost use Rattle.replay.specs.Cases.{line_of, digit_of, hex_bytes, case_at, Copied, Next};
ghost use Rattle.replay.specs.Line.{line_end, Spelt};
ghost use Rattle.replay.specs.Drawn.{next_number, shape_of, drawn, drawn_body};

// Room for the longest list of cases.
pub const LIST_SIZE: usize = 524_288;

// That room, all zeros. The contract gives the length alone, which lending the array as a slice needs.
pub fn list_room() -> [u8; LIST_SIZE]
    ensures { 524288 ≡ length result }
{
    [0; LIST_SIZE]
}

// How many bytes stand before the first line's end.
fn line_len(list: &[u8]) -> usize
    ensures { result ≡ prefix_len (λ b. not (b == 10)) list.now }
{
    list.iter().take_while(|b| **b != b'\n').count()
}

// The line that starts at `at`, without its end.
fn line_at(list: &[u8], at: usize) -> &[u8]
    ensures { result.now ≡ line_of (drop at list.now) }
{
    let rest = le::part(list, at, list.len());
    &rest[..line_len(rest)]
}

// The place of the case behind the one at `at`.
pub fn next_case(list: &[u8], at: usize) -> usize
    ensures { Next list.now at result }
{
    if list.len() <= at {
        return list.len();
    }
    let end = at + line_at(list, at).len();
    (end + 1).min(list.len())
}

// The value of a hexadecimal digit.
#[tactic(auto, unfolding(crate::specs::Cases::digit_of))]
fn digit_of(b: u8) -> u8
    ensures { (result ≡ digit_of b) × (result < 16) }
{
    match b {
        b'0'..=b'9' => b - b'0',
        b'a'..=b'f' => b - b'a' + 10,
        _ => 0,
    }
}

// Lays the bytes that a line stands for at the front of `out`.
fn decode(line: &[u8], out: &mut [u8]) -> usize
    ensures { Copied (hex_bytes line.now) out.old out.new result }
{
    let n = (line.len() / 2).min(out.len());
    for i in 0..n {
        out[i] = 16 * digit_of(line[2 * i]) + digit_of(line[2 * i + 1]);
    }
    n
}

// Lays the bytes of the case at `at` at the front of `out`, and answers how many there are.
pub fn read_case(list: &[u8], at: usize, out: &mut [u8]) -> usize
    ensures { Copied (case_at at list.now) out.old out.new result }
{
    decode(line_at(list, at), out)
}

// Makes every byte `b`.
pub fn fill(out: &mut [u8], b: u8)
    ensures { out.new ≡ replicate (length out.old) b }
{
    out.fill(b);
}

// Makes the body of a kind and a seed out of a page's zeros (compare/README.md, checksum_replay).
#[tactic(auto, unfolding(crate::specs::Drawn::drawn_body))]
pub fn draw_body(body: &mut [u8], kind: u8, seed: u32)
    ensures { body.new ≡ drawn_body kind seed body.old }
{
    match kind {
        0 => fill(body, (seed % 256) as u8),
        4 => {
            let byte = [(seed / 4096 % 256) as u8];
            let _ = le::write_bytes(body, (seed % 4096) as usize, &byte);
        }
        5 => {
            draw(body, kind, seed);
            let n = (seed % 4097) as usize;
            let _ = le::write_zeros(body, n, 4096 - n);
        }
        _ => draw(body, kind, seed),
    }
}

// Draws every byte from the numbers behind the seed.
fn draw(body: &mut [u8], kind: u8, seed: u32)
    ensures { body.new ≡ drawn kind seed (length body.old) }
{
    let mut x = seed;
    for byte in body.iter_mut() {
        x = next(x);
        *byte = shape(kind, (x / 16777216) as u8);
    }
}

// The number behind x.
fn next(x: u32) -> u32
    ensures { result ≡ next_number x }
{
    x.wrapping_mul(1664525).wrapping_add(1013904223)
}

// The body's byte for a number's top byte.
#[tactic(auto, unfolding(crate::specs::Drawn::shape_of))]
fn shape(kind: u8, top: u8) -> u8
    ensures { result ≡ shape_of kind top }
{
    match kind {
        2 => { if top < 16 { top } else { 255 } }
        3 => { if top < 128 { 0 } else { 255 } }
        5 => 97 + top % 26,
        _ => top,
    }
}

// Adds a text to a line at `at`, and answers where the next one goes.
// (Line and place stay two parameters, here and below: docs/CONTRACTS.md names these functions and their clauses.)
#[tactic(auto, unfolding(le::specs::Le::store))]
pub fn add_text(line: &mut [u8], at: usize, text: &[u8]) -> usize
    ensures value { result ≡ line_end line.old at (length text.now) }
    ensures line_after { line.new ≡ store line.old at text.now }
{
    if le::fits_in(line.len(), at, text.len()) {
        let _ = le::write_bytes(line, at, text);
        return at + text.len();
    }
    at
}

// Adds a number in decimal digits.
#[tactic(auto, using(crate::proofs::Lines::spelt))]
pub fn add_decimal(line: &mut [u8], at: usize, n: u64) -> usize
    ensures { Spelt 10 1 n line.old at line.new result }
{
    let mut digits = [0u8; 20];
    let k = io::decimal(n, &mut digits);
    add_text(line, at, &digits[..k])
}

// Adds a number in hexadecimal digits, `width` of them or more.
#[tactic(auto, using(crate::proofs::Lines::spelt))]
pub fn add_hex(line: &mut [u8], at: usize, n: u64, width: usize) -> usize
    ensures { Spelt 16 (min (max width 1) 16) n line.old at line.new result }
{
    let mut digits = [0u8; 16];
    let k = io::hex(n, width, &mut digits);
    add_text(line, at, &digits[..k])
}

// Adds the line's end.
pub fn end_line(line: &mut [u8], at: usize) -> usize
    ensures { (result ≡ line_end line.old at 1) × (line.new ≡ store line.old at (10 ∷ [])) }
{
    add_text(line, at, b"\n")
}
