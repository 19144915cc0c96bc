// What an input line of a class asks. CR and 1AH are gone from it before.
ghost use Rattle.std.specs.Prelude.{◌≡◌};
ghost use Rattle.paper.specs.Line.{byte};
ghost use Rattle.paper.specs.ClassProgram.{tablet_line, room_of};
ghost use Rattle.text.specs.Place.{from, Says};
ghost use Rattle.talk.specs.Asked.{valued, Asks, AsksLine};

use text::read::{byte_at, number_at};

// The room of a take that names none: the paper's `enough`.
pub const TAKE_ROOM: usize = 10291;

// A line of a tablet, from a place on, or a take with so much room.
#[derive(Clone, Copy, Debug, PartialEq, Eq)]
pub enum Asked {
    Line { tablet: usize, at: usize },
    Take { room: usize },
}

// The place behind a space.
fn space_at(s: &[u8], at: usize) -> Option<usize>
    ensures { Says s.now (byte 32 (from s.now at)) (valued 32 result) }
{
    if byte_at(s, at) != b' ' {
        return None;
    }
    Some(at + 1)
}

// The room behind the word that a take starts with.
fn room_at(s: &[u8], at: usize) -> Option<Asked>
    ensures { Asks s.now (room_of (from s.now at)) result }
{
    if s.len() <= at {
        return Some(Asked::Take { room: TAKE_ROOM });
    }
    let room = number_at(s, space_at(s, at)?)?;
    if room.next < s.len() {
        return None;
    }
    Some(Asked::Take { room: room.value })
}

// A tablet's number, one space, and where its line starts.
fn tablet_line(s: &[u8]) -> Option<Asked>
    ensures { Asks s.now (tablet_line (from s.now 0)) result }
{
    let tablet = number_at(s, 0)?;
    let at = space_at(s, tablet.next)?;
    Some(Asked::Line {
        tablet: tablet.value,
        at,
    })
}

// What a line asks, whatever bytes it has.
pub fn asked_in(s: &[u8]) -> Option<Asked>
    ensures { AsksLine s.now result }
{
    if s.starts_with(b"take") {
        return room_at(s, b"take".len());
    }
    tablet_line(s)
}
