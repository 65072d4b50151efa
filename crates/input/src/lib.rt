// Reading an input to its end, where a read that fails is told apart from the end.
#![tactic(auto)]

ghost use Rattle.std.specs.Prelude.{Some, codes};
ghost use Rattle.input.specs.Input.{Within};

use std::error::Error;
use std::fmt;
use std::io::Read;

// A read failed.
#[derive(Clone, Copy, Debug)]
pub struct ReadFailed;

impl fmt::Display for ReadFailed {
    ghost output = { λ _. Some (codes "reading standard input failed") };

    fn fmt<W: fmt::Write>(&self, f: &mut fmt::Formatter<W>) -> fmt::Result {
        f.write_str("reading standard input failed")
    }
}

impl Error for ReadFailed {}

// Reads until the buffer is full, the input ends or a read fails; answers how many bytes stand at the buffer's front.
pub fn read_full(reader: &mut impl Read, buf: &mut [u8]) -> Result<usize, ReadFailed>
    ensures { Within buf.new result }
{
    let mut done = 0;
    // no `for`: each turn goes on by what the read brought
    while done < buf.len() {
        match reader.read(&mut buf[done..]).map_err(|_| ReadFailed)? {
            0 => break,
            more => done += more,
        }
    }
    Ok(done)
}
