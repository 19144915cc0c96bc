// A form's name, taken out of the line that gave it.
ghost use Rattle.std.specs.Prelude.{◌≤◌, ◌≡◌, length};
ghost use Rattle.command.specs.View.{text_in, Holds};
ghost use Rattle.session.specs.Memory.{named};

use text::read::Span;
use text::write::literal_at;

// A name in sixteen bytes, 0 behind it.
// Kept: bytes with their number beside them, since no memory is allocated here.
#[derive(Clone, Copy)]
pub struct Name {
    pub bytes: [u8; 16],
    pub len: usize,
}

// The name that stands in a line, unescaped.
pub fn name_of(s: &[u8], string: Span) -> Name
    requires holds { Holds s.now string }
    requires string_len_bound { length (text_in s.now string) ≤ 16 }
    ensures { result ≡ named (text_in s.now string) }
{
    let end = string.end;
    let mut bytes = [0u8; 16];
    let mut len = 0;
    let mut i = string.start;
    // Kept: a turn goes over one byte or, at a backslash, over two, so no range or iterator gives the places.
    while i < end {
        let literal = literal_at(s, i);
        bytes[len] = s[literal];
        len += 1;
        i = literal + 1;
    }
    Name { bytes, len }
}
