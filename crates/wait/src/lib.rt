// Bytes that wait for the end of their line. CR and 1AH are dropped, and of a line only as much is kept as its refusal needs.
#![tactic(auto)]

ghost use Rattle.std.specs.Prelude.{◌≡◌};
ghost use Rattle.wait.specs.Waiting.{WaitingIn, ComesIn, Gathered, line_by, fault_of};

use command::Refusal;

// So many bytes of a line are looked at: one more than the longest has.
pub const SEEN: usize = 257;

// The byte that ended a file, which is dropped as CR is.
const EOF: u8 = 0x1a;

// More bytes of a line behind those that wait, of which there is room for so many; how many wait then.
pub fn put_kept<const ROOM: usize>(waiting: &mut [u8], len: usize, s: &[u8]) -> usize
    requires { WaitingIn ROOM waiting.old len }
    ensures { ComesIn ROOM waiting.old len s.now waiting.new result }
{
    let mut n = len;
    for &b in s {
        if b == b'\r' {
            continue;
        }
        if b == EOF {
            continue;
        }
        if n < ROOM {
            waiting[n] = b;
            n += 1;
        }
    }
    n
}

// The rest of a line behind the bytes that wait of it; of a line that lies elsewhere whole none wait.
#[tactic(auto, using(crate::proofs::Kept::gathers_none, crate::proofs::Kept::gathers_more))]
pub fn gather<const ROOM: usize>(waiting: &mut [u8], len: usize, rest: &[u8], whole: bool) -> usize
    requires { WaitingIn ROOM waiting.old len }
    ensures { Gathered ROOM waiting.old len rest.now whole waiting.new result }
{
    if whole {
        return 0;
    }
    put_kept::<ROOM>(waiting, len, rest)
}

// A line where it lies: elsewhere, or gathered.
#[tactic(auto, unfolding(crate::specs::Waiting::line_by))]
pub fn line_of<'a>(rest: &'a [u8], gathered: &'a [u8], whole: bool) -> &'a [u8]
    ensures { result.now ≡ line_by whole rest.now gathered.now }
{
    if whole { rest } else { gathered }
}

// Why a line is refused of which so many bytes are kept, and a control byte is among them.
#[tactic(auto, using(crate::proofs::Kept::fault_long, crate::proofs::Kept::fault_control))]
pub fn fault_of(n: usize) -> Refusal
    ensures { result ≡ fault_of n }
{
    if n == SEEN {
        return Refusal::TooLong;
    }
    Refusal::ControlByte
}
