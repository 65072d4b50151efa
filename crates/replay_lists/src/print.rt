// Answers on standard output. What cannot be written is lost: the list's other answers still follow.

pub fn text(rt: &impl Print, bytes: &[u8]) {
    let _ = rt.write_all(bytes);
}

// Prints the line that ends at `at`, with its end.
pub fn line(rt: &impl Print, line: &mut [u8], at: usize) {
    let end = replay::end_line(line, at);
    text(rt, le::part(line, 0, end));
}

// Prints a sum in 8 hexadecimal digits.
pub fn sum(rt: &impl Print, sum: u32) {
    let _ = println!(rt; "{sum:08x}");
}

// Prints the answer that no list has.
pub fn wrong(rt: &impl Print) {
    text(rt, b"wrong\n");
}
