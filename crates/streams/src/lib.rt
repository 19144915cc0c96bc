// Reading and writing that tells apart, by errno, why a call failed: a call that a signal interrupted is made again, one that
// would block is made again after a pause, and any other error is handed to the caller.
//
// No contract of std says what a standard stream reads or writes. What is promised here is what is left: counts lie within the
// buffer, an interrupted call or one that would block is never taken for an error, nor for the end of the input, and a write
// goes on where the one before it stopped.
#![tactic(auto)]

ghost use Rattle.std.specs.Prelude.{◌≡◌, false, length, IfOk, IfErr, IfSome};
ghost use Rattle.streams.specs.Streams.{passing, tried, Reads, Writes, WritesSome};

mod errors;
mod say;
mod sleep;

pub use errors::Errno;
pub use say::complain;
pub use sleep::pause;
use std::io;
use std::rt::Clock;

// A proved loop has to end, and nothing says that a signal or a full pipe does. So a loop makes at most 2^47 calls that move
// nothing: at a pause of a millisecond each, that is over four thousand years.
const CALLS: u64 = 0x8000_0000_0000;

// What is said of a stream where none of them got on: of an input, and of an output.
const UNREAD: Errno = Errno::EIO;

const UNWRITTEN: Errno = Errno::EIO;

// What a call came to: how many bytes it moved, or none where it is to be made again, for which a pause comes first where it would have
// blocked.
fn told(clock: &impl Clock, got: io::Result<usize>) -> Result<Option<usize>, Errno>
    ensures value { result ≡ tried got }
    ensures moved { IfOk result (λ o. IfSome o (λ n. got ≡ Ok n)) }
    ensures failed { IfErr result (λ error. passing error ≡ false) }
{
    let error = match got {
        Ok(n) => return Ok(Some(n)),
        Err(e) => Errno::from(e),
    };
    if error == Errno::EINTR {
        return Ok(None);
    }
    if error == Errno::EAGAIN {
        pause(clock);
        return Ok(None);
    }
    Err(error)
}

// Reads once, as soon as there is something to read: how many bytes stand at the start of the buffer, at least one, or none where the
// input has ended.
pub fn read_some(
    clock: &impl Clock,
    from: &mut impl io::Read,
    buf: &mut [u8],
) -> Result<Option<usize>, Errno>
    ensures { Reads buf.new result }
{
    for _ in 0..CALLS {
        match told(clock, from.read(buf))? {
            Some(0) => return Ok(None),
            Some(n) => return Ok(Some(n)),
            None => {}
        }
    }
    Err(UNREAD)
}

// Writes once, as soon as a byte is taken. A write that takes no byte and says no error counts as one that would block.
fn write_some(clock: &impl Clock, to: &mut impl io::Write, buf: &[u8]) -> Result<usize, Errno>
    ensures { WritesSome (length buf.now) result }
{
    for _ in 0..CALLS {
        match told(clock, to.write(buf))? {
            Some(0) => pause(clock),
            Some(n) => return Ok(n),
            None => {}
        }
    }
    Err(UNWRITTEN)
}

// Writes all of buf.
pub fn write_whole(clock: &impl Clock, to: &mut impl io::Write, buf: &[u8]) -> Result<(), Errno>
    ensures { Writes (length buf.now) result }
{
    let mut rest = buf;
    while !rest.is_empty() {
        let n = write_some(clock, to, rest)?;
        rest = &rest[n..];
    }
    Ok(())
}
