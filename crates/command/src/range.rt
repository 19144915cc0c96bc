// The ranges of the profile's table.
#![tactic(auto, using(std::proofs::lemmas::Bool::Decides::nat_tests), unfolding(paper::specs::Command::in_range, paper::specs::Command::ranges, paper::specs::Command::draw_ranges, paper::specs::Command::define_ranges, paper::specs::Command::setting_ranges, paper::specs::Command::step_range, paper::specs::Command::texts, paper::specs::Command::is_name_byte, paper::specs::Line::is_digit, paper::specs::Command::all, paper::specs::Command::all_of, paper::specs::Byte::bytes, paper::specs::Byte::any, paper::specs::Byte::among, paper::specs::Byte::between, crate::specs::View::setting_of, crate::specs::View::step_of, crate::specs::View::bar_of))]

ghost use Rattle.std.specs.Prelude.{◌≡◌, true, List, ltb, ℕ, ◌+◌, length};
ghost use Rattle.paper.specs.Byte.{every, same};
ghost use Rattle.paper.specs.Command.{size, direction, frame, black, counting, varying, draw, define, keep, print, is_shown, is_name_byte, is_name, star, content_ranges, setting_ranges, step_range, all, all_of, in_range};
ghost use Rattle.command.specs.View.{width, text_in, step_of, content_of, setting_of, bar_of, Holds, ContentShown};

use crate::{Bar, Content, Setting, Step};
use text::read::{Span, byte_at};
use text::write::literal_at;

// The dots across the label, and those down it.
const WIDTH: usize = 812;

const HEIGHT: usize = 8729;

// A sum that is more than a bound.
pub fn beyond(a: usize, b: usize, most: usize) -> bool
    ensures { result ≡ ltb most (a + b) }
{
    most < a || most - a < b
}

// The two lengths of a size.
pub fn size_in(p1: usize, p2: usize) -> bool
    ensures { result ≡ in_range width (keep (draw (size p1 p2))) }
{
    p1 < HEIGHT && p2 < HEIGHT
}

// A direction's letter.
pub fn direction_in(d: usize) -> bool
    ensures { result ≡ in_range width (keep (draw (direction d))) }
{
    d == b'T' as usize || d == b'B' as usize
}

// The seven parameters of a text before its content.
pub fn setting_in(s: Setting) -> bool
    ensures { result ≡ all_of (setting_ranges width (setting_of s)) }
{
    s.x < WIDTH
        && s.y < HEIGHT
        && s.r <= 3
        && 1 <= s.f
        && s.f <= 5
        && 1 <= s.h
        && s.h <= 24
        && 1 <= s.v
        && s.v <= 24
        && (s.m == b'N' as usize || s.m == b'R' as usize)
}

// The content of a text.
#[tactic(auto, using(std::proofs::lemmas::Bool::Decides::nat_tests, crate::proofs::Judge::content_judged), unfolding(crate::proofs::Judge::content_in))]
pub fn content_in(c: Content) -> bool
    ensures { (s : List ℕ) → ContentShown s c → result ≡ all_of (content_ranges (content_of s c)) }
{
    match c {
        Content::Text { string } => string.len <= 100,
        Content::Counter { n } => n <= 9,
        Content::Variable { n } => n <= 15,
        Content::TextCounter { string, n } => string.len <= 100 && n <= 9,
        Content::TextVariable { string, n } => string.len <= 100 && n <= 15,
    }
}

// A bar on the label.
pub fn bar_in(b: Bar) -> bool
    ensures { result ≡ in_range width (bar_of black b) }
{
    1 <= b.w && !beyond(b.x, b.w, WIDTH) && 1 <= b.t && !beyond(b.y, b.t, HEIGHT)
}

// A frame on the label.
pub fn frame_in(x1: usize, y1: usize, t: usize, x2: usize, y2: usize) -> bool
    ensures { result ≡ in_range width (keep (draw (frame x1 y1 t x2 y2))) }
{
    1 <= t && x1 < x2 && x2 < WIDTH && t <= x2 - x1 && y1 < y2 && y2 < HEIGHT && t <= y2 - y1
}

// A counter's step.
pub fn step_in(step: Step) -> bool
    ensures { result ≡ all (step_range (step_of step)) }
{
    match step {
        Step::Up { n } => n <= 9999,
        Step::Down { n } => 1 <= n && n <= 9999,
    }
}

// A counter's definition.
pub fn counting_in(n: usize, len: usize, letter: usize, step: Step, prompt: Span) -> bool
    ensures { (p : List ℕ) → prompt.len ≡ length p → every is_shown p ≡ true → result ≡ in_range width (keep (define (counting n len letter (step_of step) p))) }
{
    n <= 9 && 1 <= len && len <= 9 && letter == b'N' as usize && step_in(step) && prompt.len <= 32
}

// A variable's definition.
pub fn varying_in(n: usize, len: usize, letter: usize, prompt: Span) -> bool
    ensures { (p : List ℕ) → prompt.len ≡ length p → every is_shown p ≡ true → result ≡ in_range width (keep (define (varying n len letter p))) }
{
    n <= 15 && 1 <= len && len <= 99 && letter == b'N' as usize && prompt.len <= 32
}

// Sets and copies.
pub fn print_in(sets: usize, copies: usize) -> bool
    ensures { result ≡ in_range width (print sets copies) }
{
    1 <= sets && sets <= 65535 && 1 <= copies && copies <= 65535
}

// A byte of a name.
fn name_byte(b: u8) -> bool
    ensures { result ≡ is_name_byte b }
{
    matches!(b, b'A'..=b'Z' | b'a'..=b'z' | b'0'..=b'9' | b'-' | b'_')
}

// A name: 1 to 16 such bytes.
#[tactic(auto, using(std::proofs::lemmas::Bool::Decides::nat_tests, crate::proofs::Name::name_empty, crate::proofs::Name::name_long, crate::proofs::Name::name_judged, crate::proofs::Held::walk_turns, crate::proofs::Held::walk_stops, crate::proofs::Held::walk_ends, text::proofs::Content::closes_steps))]
pub fn name_in(s: &[u8], name: Span) -> bool
    requires { Holds s.now name }
    ensures { result ≡ is_name (text_in s.now name) }
{
    if name.len < 1 || 16 < name.len {
        return false;
    }
    // Kept: the place steps over escapes, which no iterator does.
    let mut i = name.start;
    while i < name.end {
        let literal = literal_at(s, i);
        if !name_byte(s[literal]) {
            return false;
        }
        i = literal + 1;
    }
    true
}

// The star that stands for every form.
#[tactic(auto, using(std::proofs::lemmas::Bool::Decides::nat_tests, crate::proofs::Name::star_not, crate::proofs::Name::star_starts, crate::proofs::Name::star_judged))]
pub fn is_star(s: &[u8], name: Span) -> bool
    requires { Holds s.now name }
    ensures { result ≡ same (text_in s.now name) star }
{
    name.len == 1 && byte_at(s, literal_at(s, name.start)) == b'*'
}
