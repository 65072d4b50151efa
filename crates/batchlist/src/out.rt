// Text on its way to the standard output: pieces are gathered, and written where a line ends or the space is full.
// What cannot be written is lost: the text goes on behind it.
use std::fmt;

// As many digits as a body of 4,096 bytes has, so that most lines are written at once.
const SPACE: usize = 8_192;

#[derive(Drop)]
pub struct Out<'a, P> {
    rt: &'a P,
    space: [u8; SPACE],
    len: usize,
}

impl<'a, P: Print> Out<'a, P> {
    pub fn new(rt: &'a P) -> Out<'a, P> {
        Out {
            rt,
            space: [0; SPACE],
            len: 0,
        }
    }

    // Writes what was gathered.
    pub fn flush(&mut self) {
        let _ = self.rt.write_all(le::part(&self.space, 0, self.len));
        self.len = 0;
    }

    // Gathers a piece; one that the space has no room for is written by itself.
    pub fn add(&mut self, piece: &[u8]) {
        if !le::fits_in(SPACE, self.len, piece.len()) {
            self.flush();
        }
        if le::write_bytes(&mut self.space, self.len, piece).is_err() {
            let _ = self.rt.write_all(piece);
            return;
        }
        self.len += piece.len();
    }
}

impl<P: Print> fmt::Write for Out<'_, P> {
    fn write_str(&mut self, s: &str) -> fmt::Result {
        self.add(s.as_bytes());
        Ok(())
    }
}
