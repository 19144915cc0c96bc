// Why a call of the system failed.
ghost use Rattle.std.specs.Prelude.{◌≡◌};
ghost use Rattle.streams.specs.Streams.{errno_of};

use std::fmt;
use std::io::{Error, ErrorKind};

// An error's number on Linux, as a call that failed leaves it.
#[derive(Clone, Copy, Debug, PartialEq, Eq)]
pub struct Errno(pub i32);

impl Errno {
    pub const EINTR: Errno = Errno(4);

    pub const EIO: Errno = Errno(5);

    pub const EBADF: Errno = Errno(9);

    pub const EAGAIN: Errno = Errno(11);

    pub const EISDIR: Errno = Errno(21);

    pub const EINVAL: Errno = Errno(22);

    pub const EFBIG: Errno = Errno(27);

    pub const ENOSPC: Errno = Errno(28);

    pub const EPIPE: Errno = Errno(32);
}

// One that no system gave has no number: its kind says whether the call is to be made again, and any other counts as one of input or output.
impl From<Error> for Errno {
    ghost from_gives = { λ error r. r ≡ errno_of error };

    fn from(error: Error) -> Errno {
        match error.raw_os_error() {
            Some(number) => Errno(number),
            None => match error.kind() {
                ErrorKind::Interrupted => Errno::EINTR,
                ErrorKind::WouldBlock => Errno::EAGAIN,
                _ => Errno::EIO,
            },
        }
    }
}

// The error in words, where it is one that a read or a write usually fails with, else its number.
impl fmt::Display for Errno {
    fn fmt<W: fmt::Write>(&self, f: &mut fmt::Formatter<W>) -> fmt::Result {
        match *self {
            Errno::EIO => f.write_str("input/output error"),
            Errno::EBADF => f.write_str("not open"),
            Errno::EISDIR => f.write_str("is a directory"),
            Errno::EINVAL => f.write_str("invalid argument"),
            Errno::EFBIG => f.write_str("file too large"),
            Errno::ENOSPC => f.write_str("no space left on device"),
            Errno::EPIPE => f.write_str("broken pipe"),
            Errno(number) => write!(f, "error {}", number.max(0)),
        }
    }
}
