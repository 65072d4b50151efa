// Whether bytes are well-formed UTF-8, and how many scalar values they are: past the ASCII at the front by blocks and words; then sequence by
// sequence or, where more is left, by windows in which each byte is judged by the three before it.
#![tactic(auto)]

ghost use Rattle.std.specs.Prelude.{◌≡◌, true, false, ◌+◌, ◌-◌, ◌≤◌, ◌<◌, length, drop, MatchOption};
ghost use Rattle.le.specs.Choice.{pick};
ghost use Rattle.text.specs.Utf8.{continues, pair, two, three, four, size, well_formed, chars, utf8_of};
ghost use Rattle.text.specs.Walk.{Ascii, utf8_behind};
ghost use Rattle.text.specs.Windows.{is_open, lowest, highest, fits, opens_at, fits_from, AllFit, Begun, Judges};

// A way through a text: its bytes, and the scalar values that they are.
// `Judges` stands in the contracts and not in a ghost field: it names the place that judging began at, and a ghost field holds no data.
#[derive(Clone, Copy)]
struct Way {
    len: usize,
    chars: usize,
}

// Whether a byte is one that continues a sequence.
fn continues(b: u8) -> bool
    ensures { result ≡ continues b }
{
    (0x80 <= b) & (b <= 0xbf)
}

// The first two bytes of a sequence as one number, in the order of the pairs.
fn pair(a: u8, b: u8) -> u32
    ensures { result ≡ pair a b }
{
    64 * u32::from(a) + u32::from(b)
}

// Whether the bytes are a sequence of two, the first being from 0x80 to 0xdf.
fn two(a: u8, b: u8) -> bool
    ensures { result ≡ two a b }
{
    (0xc2 <= a) & continues(b)
}

// Whether the bytes are a sequence of three, the first being from 0xe0 to 0xef.
fn three(a: u8, b: u8, c: u8) -> bool
    ensures { result ≡ three a b c }
{
    let p = pair(a, b);
    let shortest = pair(0xe0, 0xa0) <= p;
    let scalar = (p < pair(0xed, 0xa0)) | (pair(0xed, 0xbf) < p);
    continues(b) & continues(c) & shortest & scalar
}

// Whether the bytes are a sequence of four, the first being from 0xf0 on.
fn four(a: u8, b: u8, c: u8, d: u8) -> bool
    ensures { result ≡ four a b c d }
{
    let p = pair(a, b);
    let shortest = pair(0xf0, 0x90) <= p;
    let scalar = p <= pair(0xf4, 0x8f);
    continues(b) & continues(c) & continues(d) & shortest & scalar
}

// The length of the well-formed sequence at `at`, if one is there.
fn sequence(s: &[u8], at: usize) -> Option<usize>
    requires { at < length s.now }
    ensures { MatchOption result (0 ≡ size (drop at s.now)) (λ n. (0 < n) × (n ≡ size (drop at s.now))) }
{
    let a = s[at];
    let left = s.len() - at;
    if a < 0x80 {
        return Some(1);
    }
    if a < 0xe0 {
        if left < 2 {
            return None;
        }
        return two(a, s[at + 1]).then_some(2);
    }
    if a < 0xf0 {
        if left < 3 {
            return None;
        }
        return three(a, s[at + 1], s[at + 2]).then_some(3);
    }
    if left < 4 {
        return None;
    }
    four(a, s[at + 1], s[at + 2], s[at + 3]).then_some(4)
}

// How many of the eight bytes at `at` stand before the first that is not ASCII.
fn ascii_front(s: &[u8], at: usize) -> usize
    requires { at + 8 ≤ length s.now }
    ensures { (result ≤ 8) × Ascii s.now at (at + result) }
{
    let tops = le::read_u64(s, at) & 0x8080_8080_8080_8080;
    (u64::trailing_zeros(tops) / 8) as usize
}

// Whether all bytes are ASCII. The loop has no way out before its end, so that LLVM looks at sixteen bytes at a time.
fn is_ascii(block: &[u8]) -> bool
    ensures { result ≡ true → Ascii block.now 0 (length block.now) }
{
    if block.len() == 8 {
        return 8 <= ascii_front(block, 0);
    }
    let mut high: u8 = 0;
    for b in block {
        high |= *b / 128;
    }
    high == 0
}

// Past the blocks of n bytes from `start` on that are ASCII.
fn skip(s: &[u8], start: usize, n: usize) -> usize
    requires { (0 < n) × (start ≤ length s.now) }
    ensures { (start ≤ result) × ((result ≤ length s.now) × Ascii s.now start result) }
{
    let mut at = start;
    for block in s[start..].chunks_exact(n) {
        if !is_ascii(block) {
            return at;
        }
        at += n;
    }
    at
}

// Past the ASCII that s begins with, up to the last word of eight bytes before another byte; 0 for fewer than eight.
fn front(s: &[u8]) -> usize
    ensures { (result ≤ length s.now) × Ascii s.now 0 result }
{
    if s.len() < 8 {
        return 0;
    }
    skip(s, skip(s, skip(s, 0, 128), 32), 8)
}

// The number of a text of which `passed` sequences stand before `start`.
fn tail(s: &[u8], start: usize, passed: usize) -> Option<usize>
    requires { (passed ≤ start) × (start ≤ length s.now) }
    ensures { result ≡ utf8_behind passed (drop start s.now) }
{
    let mut at = start;
    let mut chars = passed;
    // a `while`: each step is as long as the sequence there
    while at < s.len() {
        at += sequence(s, at)?;
        chars += 1;
    }
    Some(chars)
}

// ---- windows, in which each byte is judged by the three before it

// Whether a sequence that one of the three began is not over.
fn is_open(a: u8, b: u8, c: u8) -> bool
    ensures { result ≡ is_open a b c }
{
    (0xf0 <= a) | (0xe0 <= b) | (0xc0 <= c)
}

// The lowest byte that can follow c, where not every byte that continues a sequence can.
fn lowest(c: u8) -> u8
    ensures { result ≡ lowest c }
{
    if c == 0xe0 {
        return 0xa0;
    }
    if c == 0xf0 { 0x90 } else { 0 }
}

// The highest, and behind any other byte the highest of all.
fn highest(c: u8) -> u8
    ensures { result ≡ highest c }
{
    if c == 0xed {
        return 0x9f;
    }
    if c == 0xf4 { 0x8f } else { 0xf4 }
}

// Whether d can stand behind a, b and c.
fn fits(a: u8, b: u8, c: u8, d: u8) -> bool
    ensures { result ≡ fits a b c d }
{
    (is_open(a, b, c) == continues(d))
        & (d != 0xc0)
        & (d != 0xc1)
        & (lowest(c) <= d)
        & (d <= highest(c))
}

// How many of the 128 bytes from `from` + 3 on begin a sequence, if all can stand where they do.
// As in `is_ascii`, the loop has no way out before its end.
fn judge_block(s: &[u8], from: usize) -> Option<u8>
    requires { from + 131 ≤ length s.now }
    ensures { MatchOption result (fits_from s.now from ≡ false) (λ n. AllFit s.now from 128 × Begun s.now (from + 3) (from + 131) n) }
{
    let mut all = true;
    let mut begun: u8 = 0;
    for j in 0..128 {
        let i = from + j;
        let d = s[i + 3];
        all &= fits(s[i], s[i + 1], s[i + 2], d);
        begun += u8::from(!continues(d));
    }
    all.then_some(begun)
}

// The same of the 16 bytes from `from` + 3 on, the first `skip` of which are not counted. A place is looked up, and counted by twos, because of what
// LLVM makes of it: BENCHMARKS, "Why it is built so".
fn judge_window(s: &[u8], from: usize, skip: u8) -> Option<u8>
    requires { (from + 19 ≤ length s.now) × (skip ≤ 16) }
    ensures { MatchOption result (fits_from s.now from ≡ false) (λ n. AllFit s.now from 16 × Begun s.now (from + 3 + skip) (from + 19) n) }
{
    let place: [u8; 16] = [0, 1, 2, 3, 4, 5, 6, 7, 8, 9, 10, 11, 12, 13, 14, 15];
    let mut all = true;
    let mut twice: u8 = 0;
    for j in 0..16 {
        let i = from + j;
        let d = s[i + 3];
        all &= fits(s[i], s[i + 1], s[i + 2], d);
        twice += 2 * u8::from(!(continues(d) | (place[j] < skip)));
    }
    all.then_some(twice / 2)
}

// Whether the 128 bytes from `at` on are ASCII, and no sequence is open before them.
fn is_plain(s: &[u8], at: usize) -> bool
    requires { (3 ≤ at) × (at + 128 ≤ length s.now) }
    ensures { result ≡ true → (opens_at s.now (at - 3) ≡ false) × Ascii s.now at (at + 128) }
{
    if is_open(s[at - 3], s[at - 2], s[at - 1]) {
        return false;
    }
    is_ascii(&s[at..at + 128])
}

// The same of the 128 bytes from `at` on; where they are plain, they all fit.
fn judge(s: &[u8], at: usize) -> Option<u8>
    requires { (3 ≤ at) × (at + 128 ≤ length s.now) }
    ensures { MatchOption result (fits_from s.now (at - 3) ≡ false) (λ n. AllFit s.now (at - 3) 128 × Begun s.now at (at + 128) n) }
{
    if is_plain(s, at) {
        return Some(128);
    }
    judge_block(s, at - 3)
}

// Past the first three bytes, sequence by sequence.
fn first(s: &[u8]) -> Option<Way>
    requires { 22 ≤ length s.now }
    ensures { MatchOption result (well_formed s.now ≡ false) (λ way. Judges s.now way.len way.chars) }
{
    let mut at: usize = 0;
    let mut passed: usize = 0;
    // a `while`: each step is as long as the sequence there
    while at < 3 {
        at += sequence(s, at)?;
        passed += 1;
    }
    Some(Way {
        len: at,
        chars: passed,
    })
}

// Where windows can begin: behind the ASCII at the front or, where there is none, the first three bytes.
fn start(s: &[u8], front: usize) -> Option<Way>
    requires { (front + 22 ≤ length s.now) × Ascii s.now 0 front }
    ensures { MatchOption result (well_formed s.now ≡ false) (λ way. Judges s.now way.len way.chars) }
{
    if 3 <= front {
        return Some(Way {
            len: front,
            chars: front,
        });
    }
    first(s)
}

// From there on by blocks of 128 bytes.
fn blocks(s: &[u8], way: Way) -> Option<Way>
    requires { Judges s.now way.len way.chars }
    ensures { MatchOption result (well_formed s.now ≡ false) (λ way. Judges s.now way.len way.chars) }
{
    let mut at = way.len;
    let mut chars = way.chars;
    // a `while`: a block is judged with the three bytes before it, which a chunk does not have
    while 128 <= s.len() - at {
        let begun = judge(s, at)?;
        at += 128;
        chars += usize::from(begun);
    }
    Some(Way { len: at, chars })
}

// Whether s ends inside a sequence.
fn ends_open(s: &[u8]) -> bool
    requires { 3 ≤ length s.now }
    ensures { result ≡ opens_at s.now (length s.now - 3) }
{
    let n = s.len();
    is_open(s[n - 3], s[n - 2], s[n - 1])
}

// The number of a text by windows of 16 bytes, from `way` on; the last one reaches back.
fn windows(s: &[u8], way: Way) -> Option<usize>
    requires { Judges s.now way.len way.chars }
    ensures { result ≡ utf8_of s.now }
{
    let mut at = way.len;
    let mut chars = way.chars;
    // a `while`: the last window does not begin where the one before it ends
    while at < s.len() {
        let w = at.min(s.len() - 16);
        let begun = judge_window(s, w - 3, (at - w) as u8)?;
        at = w + 16;
        chars += usize::from(begun);
    }
    if ends_open(s) { None } else { Some(chars) }
}

// The number of a text that has more than ASCII and 22 bytes behind `front`.
fn by_windows(s: &[u8], front: usize) -> Option<usize>
    requires { (front + 22 ≤ length s.now) × Ascii s.now 0 front }
    ensures { result ≡ utf8_of s.now }
{
    let begin = start(s, front)?;
    let far = blocks(s, begin)?;
    windows(s, far)
}

// Whether s has fewer than eight bytes, all ASCII, as most names of tables and columns are.
fn is_short_ascii(s: &[u8]) -> bool
    ensures { result ≡ true → Ascii s.now 0 (length s.now) }
{
    if 8 <= s.len() {
        return false;
    }
    for b in s {
        if 0x80 <= *b {
            return false;
        }
    }
    true
}

// Whether all from `at` on is ASCII, where that is less than eight bytes: the last eight are looked at.
fn ends_ascii(s: &[u8], at: usize) -> bool
    requires { at ≤ length s.now }
    ensures { result ≡ true → Ascii s.now at (length s.now) }
{
    let n = s.len();
    if n < 8 {
        return false;
    }
    if 8 <= n - at {
        return false;
    }
    is_ascii(&s[n - 8..])
}

// The number of scalar values of s, if it is well-formed UTF-8.
fn number(s: &[u8]) -> Option<usize>
    ensures { result ≡ utf8_of s.now }
{
    if is_short_ascii(s) {
        return Some(s.len());
    }
    let at = front(s);
    if 22 <= s.len() - at {
        return by_windows(s, at);
    }
    if ends_ascii(s, at) {
        return Some(s.len());
    }
    tail(s, at, at)
}

// The number of scalar values of s; 0 where it is ill-formed, and of the empty text. No `Option`, for it comes back through
// memory: with `from_utf8` as `number`, an empty text took 1.4 times as long, longer than the Rust. Never inlined: a program's one caller
// would make ready for the check before it knows whether there is a text.
#[inline(never)]
pub fn count(s: &[u8]) -> usize
    ensures { result ≡ pick (well_formed s.now) (chars s.now) 0 }
{
    number(s).unwrap_or(0)
}

// The number of scalar values of s, if it is well-formed UTF-8.
pub fn from_utf8(s: &[u8]) -> Option<usize>
    ensures { result ≡ utf8_of s.now }
{
    if s.len() == 0 {
        return Some(0);
    }
    let n = count(s);
    if n == 0 {
        return None;
    }
    Some(n)
}

// Whether s is well-formed UTF-8.
pub fn is_utf8(s: &[u8]) -> bool
    ensures { result ≡ well_formed s.now }
{
    if s.len() == 0 {
        return true;
    }
    0 < count(s)
}
