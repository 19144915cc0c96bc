// Control bytes: a line has none.
#![tactic(auto, using(crate::proofs::Control::clear_turns, crate::proofs::Control::clear_here, crate::proofs::Control::clear_none))]

ghost use Rattle.std.specs.Prelude.{◌+◌, ◌≤◌, ◌<◌, ◌≡◌, true, false, length, get_or};
ghost use Rattle.paper.specs.Byte.{every};
ghost use Rattle.paper.specs.Line.{control};
ghost use Rattle.paper.specs.Command.{is_shown};
ghost use Rattle.text.specs.Place.{from};
ghost use Rattle.line.specs.Shown.{clear_part};

// The place of the first byte below 20H from a place on, or the end of the text.
fn clear_bytes(text: &[u8], at: usize) -> usize
    requires { at ≤ length text.now }
    ensures value { result ≡ at + length (clear_part (from text.now at)) }
    ensures result_bound { result < length text.now → get_or text.now result 0 < 32 }
{
    for i in at..text.len() {
        if text[i] < b' ' {
            return i;
        }
    }
    text.len()
}

// The same, four bytes a turn as long as there are four.
// Kept: a loop or an iterator of one byte a turn is slower, and each byte of each line passes here (docs/PERFORMANCE.md).
pub fn clear_end(text: &[u8], at: usize) -> usize
    requires { at ≤ length text.now }
    ensures value { result ≡ at + length (clear_part (from text.now at)) }
    ensures result_bound { result < length text.now → get_or text.now result 0 < 32 }
{
    let mut i = at;
    while 4 <= text.len() - i {
        if text[i] < b' ' {
            return i;
        }
        i += 1;
        if text[i] < b' ' {
            return i;
        }
        i += 1;
        if text[i] < b' ' {
            return i;
        }
        i += 1;
        if text[i] < b' ' {
            return i;
        }
        i += 1;
    }
    clear_bytes(text, i)
}

// No byte is below 20H.
#[tactic(auto, using(std::proofs::lemmas::Bool::Decides::nat_tests, crate::proofs::Control::clear_whole, crate::proofs::Control::clear_short))]
pub fn is_clear(s: &[u8]) -> bool
    ensures { (result ≡ true → every is_shown s.now ≡ true) × (result ≡ false → control s.now ≡ true) }
{
    clear_end(s, 0) == s.len()
}
