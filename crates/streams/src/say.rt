// Why a stream failed, in one line on standard error.
ghost use Rattle.std.specs.Prelude.{◌<◌};

use crate::errors::Errno;
use crate::write_whole;
use std::fmt::Write;
use std::rt::Clock;
use std::{fmt, io};

// So many bytes a line has at most, its end included.
const SIZE: usize = 128;

// A line without its end. What has no room in it is left out.
#[derive(Drop)]
struct Line {
    bytes: [u8; SIZE],
    len: usize,
    ghost room: { len < 128 },
}

impl Line {
    fn put(&mut self, bytes: &[u8]) {
        let at = self.len;
        let n = bytes.len().min(SIZE - 1 - at);
        self.bytes[at..at + n].copy_from_slice(&bytes[..n]);
        self.len = at + n;
    }
}

impl Write for Line {
    fn write_str(&mut self, s: &str) -> fmt::Result {
        self.put(s.as_bytes());
        Ok(())
    }
}

// Writes `WHAT: WHY` as one line to standard error, which is lent, whatever becomes of it. A line of over 128 bytes loses its last words.
pub fn complain(clock: &impl Clock, to: &mut impl io::Write, what: &[u8], error: Errno) {
    let mut line = Line {
        bytes: [0; SIZE],
        len: 0,
    };
    line.put(what);
    let _ = write!(line, ": {error}");
    let end = line.len;
    line.bytes[end] = b'\n';
    let _ = write_whole(clock, to, &line.bytes[..=end]);
}
