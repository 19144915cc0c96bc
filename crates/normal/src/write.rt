// The normal form of a command record.
ghost use Rattle.std.specs.Prelude.{[], ◌∷◌, ◌≡◌, true, ◌&&◌, ◌<◌, ◌≤◌, length};
ghost use Rattle.paper.specs.Byte.{decimal, every};
ghost use Rattle.paper.specs.Line.{quoted};
ghost use Rattle.paper.specs.Command.{counter, variable, joined, size, direction, frame, counting, varying, draw, define, keep, start, delete, file, print, is_shown, content_ranges, all_of, in_range};
ghost use Rattle.paper.specs.Write.{commaed, two, value_text, content_text, step_text, setting_text, normal};
ghost use Rattle.text.specs.Place.{text_at, Closes};
ghost use Rattle.text.specs.Write.{Writes};
ghost use Rattle.command.specs.View.{width, text_in, step_of, content_of, setting_of, put_of, view_of};
ghost use Rattle.normal.specs.Normal.{Room, bar_text, name_text, held_at, shown_at, content_held, content_shown, record_held, readable, reading_text, WritesLine};

use command::range::{
    bar_in, content_in, counting_in, direction_in, frame_in, is_star, name_in, print_in,
    setting_in, size_in, varying_in,
};
use command::{Answer, Bar, Command, Content, Put, Refusal, Setting, Step};
use text::read::{Closing, Span, plain_at};
use text::write::{literal_at, put, put_all, put_content, put_decimal, put_two};

// The first byte that a label shows.
const SHOWN: u8 = 0x20;

// A number and a comma.
fn put_part(out: &mut [u8], at: usize, n: usize) -> usize
    requires { Room out.old at (commaed (decimal n ∷ [])) }
    ensures { Writes out.old at (commaed (decimal n ∷ [])) out.new result }
{
    let comma = put_decimal(out, at, n);
    put(out, comma, b',')
}

// A letter of a record.
fn put_letter(out: &mut [u8], at: usize, letter: usize) -> usize
    requires room { Room out.old at (letter ∷ []) }
    requires letter_bound { letter < 256 }
    ensures { Writes out.old at (letter ∷ []) out.new result }
{
    put(out, at, letter as u8)
}

// A letter and a comma.
fn put_letter_part(out: &mut [u8], at: usize, letter: usize) -> usize
    requires room { Room out.old at (commaed ((letter ∷ []) ∷ [])) }
    requires letter_bound { letter < 256 }
    ensures { Writes out.old at (commaed ((letter ∷ []) ∷ [])) out.new result }
{
    let next = put_letter(out, at, letter);
    put(out, next, b',')
}

// Two digits and a comma.
fn put_two_part(out: &mut [u8], at: usize, n: usize) -> usize
    requires room { Room out.old at (commaed (two n ∷ [])) }
    requires n_bound { n < 100 }
    ensures { Writes out.old at (commaed (two n ∷ [])) out.new result }
{
    let next = put_two(out, at, n);
    put(out, next, b',')
}

// A string between its quotes.
fn put_string(out: &mut [u8], at: usize, s: &[u8], string: Span) -> usize
    requires room { Room out.old at (quoted (text_in s.now string)) }
    requires closes { Closes s.now string.start string.end }
    ensures { Writes out.old at (quoted (text_in s.now string)) out.new result }
{
    let a = put(out, at, b'"');
    let b = put_content(out, a, s, string.start, string.end);
    put(out, b, b'"')
}

// A sign or a letter, and a number.
fn put_marked(out: &mut [u8], at: usize, mark: u8, n: usize) -> usize
    requires { Room out.old at (mark ∷ decimal n) }
    ensures { Writes out.old at (mark ∷ decimal n) out.new result }
{
    let next = put(out, at, mark);
    put_decimal(out, next, n)
}

// A variable by its number.
fn put_variable(out: &mut [u8], at: usize, n: usize) -> usize
    requires room { Room out.old at (value_text (variable n)) }
    requires n_bound { n < 100 }
    ensures { Writes out.old at (value_text (variable n)) out.new result }
{
    let next = put(out, at, b'V');
    put_two(out, next, n)
}

// Three numbers, a comma behind each.
fn put_three(out: &mut [u8], at: usize, p1: usize, p2: usize, p3: usize) -> usize
    requires { Room out.old at (commaed (decimal p1 ∷ decimal p2 ∷ decimal p3 ∷ [])) }
    ensures { Writes out.old at (commaed (decimal p1 ∷ decimal p2 ∷ decimal p3 ∷ [])) out.new result }
{
    let a = put_part(out, at, p1);
    let b = put_part(out, a, p2);
    put_part(out, b, p3)
}

// The look of a text: its font, its scales and its mood.
fn put_look(out: &mut [u8], at: usize, f: usize, h: usize, v: usize, m: usize) -> usize
    requires room { Room out.old at (commaed (decimal f ∷ decimal h ∷ decimal v ∷ (m ∷ []) ∷ [])) }
    requires m_bound { m < 256 }
    ensures { Writes out.old at (commaed (decimal f ∷ decimal h ∷ decimal v ∷ (m ∷ []) ∷ [])) out.new result }
{
    let a = put_part(out, at, f);
    let b = put_part(out, a, h);
    let c = put_part(out, b, v);
    put_letter_part(out, c, m)
}

// The seven parameters of a text before its content, a comma behind each.
fn put_setting(out: &mut [u8], at: usize, s: Setting) -> usize
    requires room { Room out.old at (setting_text (setting_of s)) }
    requires m_bound { s.m < 256 }
    ensures { Writes out.old at (setting_text (setting_of s)) out.new result }
{
    let a = put_three(out, at, s.x, s.y, s.r);
    put_look(out, a, s.f, s.h, s.v, s.m)
}

// A string and a counter behind it.
fn put_string_counter(out: &mut [u8], at: usize, s: &[u8], string: Span, n: usize) -> usize
    requires room { Room out.old at (content_text (joined (text_in s.now string) (counter n))) }
    requires closes { Closes s.now string.start string.end }
    ensures { Writes out.old at (content_text (joined (text_in s.now string) (counter n))) out.new result }
{
    let a = put_string(out, at, s, string);
    put_marked(out, a, b'C', n)
}

// A string and a variable behind it.
fn put_string_variable(out: &mut [u8], at: usize, s: &[u8], string: Span, n: usize) -> usize
    requires room { Room out.old at (content_text (joined (text_in s.now string) (variable n))) }
    requires closes { Closes s.now string.start string.end }
    requires n_bound { n < 100 }
    ensures { Writes out.old at (content_text (joined (text_in s.now string) (variable n))) out.new result }
{
    let a = put_string(out, at, s, string);
    put_variable(out, a, n)
}

// A content.
fn put_of(out: &mut [u8], at: usize, s: &[u8], content: Content) -> usize
    requires room { Room out.old at (content_text (content_of s.now content)) }
    requires content_value { content_held s.now content ≡ true }
    requires content_value_2 { all_of (content_ranges (content_of s.now content)) ≡ true }
    ensures { Writes out.old at (content_text (content_of s.now content)) out.new result }
{
    match content {
        Content::Text { string } => put_string(out, at, s, string),
        Content::Counter { n } => put_marked(out, at, b'C', n),
        Content::Variable { n } => put_variable(out, at, n),
        Content::TextCounter { string, n } => put_string_counter(out, at, s, string, n),
        Content::TextVariable { string, n } => put_string_variable(out, at, s, string, n),
    }
}

// An `A` line.
fn put_text(out: &mut [u8], s: &[u8], p: Put) -> usize
    requires room { Room out.old 0 (normal (put_of s.now p)) }
    requires content_value { content_held s.now p.content ≡ true }
    requires p_value { in_range width (put_of s.now p) ≡ true }
    ensures { Writes out.old 0 (normal (put_of s.now p)) out.new result }
{
    let a = put(out, 0, b'A');
    let b = put_setting(out, a, p.setting);
    put_of(out, b, s, p.content)
}

// A `Q` line.
fn put_size(out: &mut [u8], p1: usize, p2: usize) -> usize
    requires { Room out.old 0 (normal (keep (draw (size p1 p2)))) }
    ensures { Writes out.old 0 (normal (keep (draw (size p1 p2)))) out.new result }
{
    let a = put(out, 0, b'Q');
    let b = put_part(out, a, p1);
    put_decimal(out, b, p2)
}

// A `Z` line.
fn put_direction(out: &mut [u8], d: usize) -> usize
    requires room { Room out.old 0 (normal (keep (draw (direction d)))) }
    requires d_bound { d < 256 }
    ensures { Writes out.old 0 (normal (keep (draw (direction d)))) out.new result }
{
    let a = put(out, 0, b'Z');
    put_letter(out, a, d)
}

// Two letters.
fn put_pair(out: &mut [u8], first: u8, second: u8) -> usize
    requires { Room out.old 0 (first ∷ second ∷ []) }
    ensures { Writes out.old 0 (first ∷ second ∷ []) out.new result }
{
    let a = put(out, 0, first);
    put(out, a, second)
}

// An `L` line by its second letter.
fn put_bar(out: &mut [u8], second: u8, bar: Bar) -> usize
    requires { Room out.old 0 (bar_text second bar) }
    ensures { Writes out.old 0 (bar_text second bar) out.new result }
{
    let a = put_pair(out, b'L', second);
    let b = put_three(out, a, bar.x, bar.y, bar.w);
    put_decimal(out, b, bar.t)
}

// An `X` line.
fn put_frame(out: &mut [u8], x1: usize, y1: usize, t: usize, x2: usize, y2: usize) -> usize
    requires { Room out.old 0 (normal (keep (draw (frame x1 y1 t x2 y2)))) }
    ensures { Writes out.old 0 (normal (keep (draw (frame x1 y1 t x2 y2)))) out.new result }
{
    let a = put(out, 0, b'X');
    let b = put_three(out, a, x1, y1, t);
    let c = put_part(out, b, x2);
    put_decimal(out, c, y2)
}

// A sign and a number.
fn put_step(out: &mut [u8], at: usize, step: Step) -> usize
    requires { Room out.old at (step_text (step_of step)) }
    ensures { Writes out.old at (step_text (step_of step)) out.new result }
{
    match step {
        Step::Up { n } => put_marked(out, at, b'+', n),
        Step::Down { n } => put_marked(out, at, b'-', n),
    }
}

// A step and a comma.
fn put_step_part(out: &mut [u8], at: usize, step: Step) -> usize
    requires { Room out.old at (commaed (step_text (step_of step) ∷ [])) }
    ensures { Writes out.old at (commaed (step_text (step_of step) ∷ [])) out.new result }
{
    let next = put_step(out, at, step);
    put(out, next, b',')
}

// A length and the letter `N`, a comma behind each.
fn put_len(out: &mut [u8], at: usize, len: usize) -> usize
    requires { Room out.old at (commaed (decimal len ∷ (78 ∷ []) ∷ [])) }
    ensures { Writes out.old at (commaed (decimal len ∷ (78 ∷ []) ∷ [])) out.new result }
{
    let a = put_part(out, at, len);
    put_letter_part(out, a, b'N' as usize)
}

// A `C` line up to its step.
fn put_counter(out: &mut [u8], n: usize, len: usize) -> usize
    requires { Room out.old 0 (67 ∷ commaed (decimal n ∷ decimal len ∷ (78 ∷ []) ∷ [])) }
    ensures { Writes out.old 0 (67 ∷ commaed (decimal n ∷ decimal len ∷ (78 ∷ []) ∷ [])) out.new result }
{
    let a = put(out, 0, b'C');
    let b = put_part(out, a, n);
    put_len(out, b, len)
}

// A `C` line.
fn put_counting(out: &mut [u8], s: &[u8], n: usize, len: usize, step: Step, prompt: Span) -> usize
    requires room { Room out.old 0 (normal (keep (define (counting n len 78 (step_of step) (text_in s.now prompt))))) }
    requires closes { Closes s.now prompt.start prompt.end }
    ensures { Writes out.old 0 (normal (keep (define (counting n len 78 (step_of step) (text_in s.now prompt))))) out.new result }
{
    let a = put_counter(out, n, len);
    let b = put_step_part(out, a, step);
    put_string(out, b, s, prompt)
}

// A `V` line up to its prompt.
fn put_asked(out: &mut [u8], n: usize, len: usize) -> usize
    requires room { Room out.old 0 (86 ∷ commaed (two n ∷ decimal len ∷ (78 ∷ []) ∷ [])) }
    requires n_bound { n < 100 }
    ensures { Writes out.old 0 (86 ∷ commaed (two n ∷ decimal len ∷ (78 ∷ []) ∷ [])) out.new result }
{
    let a = put(out, 0, b'V');
    let b = put_two_part(out, a, n);
    put_len(out, b, len)
}

// A `V` line.
fn put_varying(out: &mut [u8], s: &[u8], n: usize, len: usize, prompt: Span) -> usize
    requires room { Room out.old 0 (normal (keep (define (varying n len 78 (text_in s.now prompt))))) }
    requires closes { Closes s.now prompt.start prompt.end }
    requires n_bound { n < 100 }
    ensures { Writes out.old 0 (normal (keep (define (varying n len 78 (text_in s.now prompt))))) out.new result }
{
    let a = put_asked(out, n, len);
    put_string(out, a, s, prompt)
}

// An `F` line with a name, by its second letter.
fn put_name(out: &mut [u8], second: u8, s: &[u8], name: Span) -> usize
    requires room { Room out.old 0 (name_text second (text_in s.now name)) }
    requires closes { Closes s.now name.start name.end }
    ensures { Writes out.old 0 (name_text second (text_in s.now name)) out.new result }
{
    let a = put_pair(out, b'F', second);
    put_string(out, a, s, name)
}

// A `P` line.
fn put_print(out: &mut [u8], sets: usize, copies: usize) -> usize
    requires { Room out.old 0 (normal (print sets copies)) }
    ensures { Writes out.old 0 (normal (print sets copies)) out.new result }
{
    let a = put(out, 0, b'P');
    let b = put_part(out, a, sets);
    put_decimal(out, b, copies)
}

// The normal form of a record of a line, at the front of a buffer with room for the longest; its length.
pub fn put_normal(out: &mut [u8], s: &[u8], c: Command) -> usize
    requires in_bounds { 256 ≤ length out.old }
    requires c_value { record_held s.now c ≡ true }
    requires c_value_2 { readable (view_of s.now c) ≡ true }
    ensures { Writes out.old 0 (reading_text (view_of s.now c)) out.new result }
{
    match c {
        Command::Empty => 0,
        Command::New => put(out, 0, b'N'),
        Command::Finish => put_pair(out, b'F', b'E'),
        Command::Inform => put_pair(out, b'F', b'I'),
        Command::Ask => put(out, 0, b'?'),
        Command::Size { p1, p2 } => put_size(out, p1, p2),
        Command::Direction { d } => put_direction(out, d),
        Command::Text { put } => put_text(out, s, put),
        Command::Black { bar } => put_bar(out, b'O', bar),
        Command::Flip { bar } => put_bar(out, b'E', bar),
        Command::White { bar } => put_bar(out, b'W', bar),
        Command::Frame { x1, y1, t, x2, y2 } => put_frame(out, x1, y1, t, x2, y2),
        Command::Counting {
            n,
            len,
            step,
            prompt,
        } => put_counting(out, s, n, len, step, prompt),
        Command::Varying { n, len, prompt } => put_varying(out, s, n, len, prompt),
        Command::Start { name } => put_name(out, b'S', s, name),
        Command::Recall { name } => put_name(out, b'R', s, name),
        Command::Delete { name } => put_name(out, b'K', s, name),
        Command::Print { sets, copies } => put_print(out, sets, copies),
        Command::Refused { .. } => 0,
    }
}

// A string's place in a source: it closes where the record says, and has the length that it says.
fn is_held(s: &[u8], string: Span) -> bool
    ensures { result ≡ held_at s.now string }
{
    let held = Closing {
        end: string.end,
        len: string.len,
    };
    plain_at(s, string.start, 0) == Some(held)
}

// No byte of a string is below 20H.
fn all_shown(s: &[u8], start: usize, end: usize) -> bool
    requires { Closes s.now start end }
    ensures { result ≡ every is_shown (text_at s.now start) }
{
    // Kept: the bytes of a string are not those of a part of the source, as a backslash takes the next one along.
    let mut i = start;
    while i < end {
        let literal = literal_at(s, i);
        if s[literal] < SHOWN {
            return false;
        }
        i = literal + 1;
    }
    true
}

// A string that a text or a prompt may be.
fn is_shown(s: &[u8], string: Span) -> bool
    ensures { result ≡ shown_at s.now string }
{
    is_held(s, string) && all_shown(s, string.start, string.end)
}

// The string of a content, if it has one.
fn is_content(s: &[u8], c: Content) -> bool
    ensures { result ≡ content_shown s.now c }
{
    match c {
        Content::Counter { .. } | Content::Variable { .. } => true,
        Content::Text { string }
        | Content::TextCounter { string, .. }
        | Content::TextVariable { string, .. } => is_shown(s, string),
    }
}

// A text that some line reads as.
fn is_text(s: &[u8], p: Put) -> bool
    ensures { result ≡ (content_held s.now p.content && in_range width (put_of s.now p)) }
{
    is_content(s, p.content) && setting_in(p.setting) && content_in(p.content)
}

// A counter's definition that some line reads as.
fn is_counting(s: &[u8], n: usize, len: usize, step: Step, prompt: Span) -> bool
    ensures { result ≡ (held_at s.now prompt && in_range width (keep (define (counting n len 78 (step_of step) (text_in s.now prompt))))) }
{
    is_shown(s, prompt) && counting_in(n, len, b'N' as usize, step, prompt)
}

// A variable's definition that some line reads as.
fn is_varying(s: &[u8], n: usize, len: usize, prompt: Span) -> bool
    ensures { result ≡ (held_at s.now prompt && in_range width (keep (define (varying n len 78 (text_in s.now prompt))))) }
{
    is_shown(s, prompt) && varying_in(n, len, b'N' as usize, prompt)
}

// A name that stands in the source.
fn is_name(s: &[u8], name: Span) -> bool
    ensures { result ≡ (held_at s.now name && in_range width (file (start (text_in s.now name)))) }
{
    is_held(s, name) && name_in(s, name)
}

// A name or the star, standing in the source.
fn is_names(s: &[u8], name: Span) -> bool
    ensures { result ≡ (held_at s.now name && in_range width (file (delete (text_in s.now name)))) }
{
    is_held(s, name) && (name_in(s, name) || is_star(s, name))
}

// A record that some line reads as.
fn is_readable(s: &[u8], c: Command) -> bool
    ensures { result ≡ (record_held s.now c && readable (view_of s.now c)) }
{
    match c {
        Command::Empty | Command::New | Command::Finish | Command::Inform | Command::Ask => true,
        Command::Size { p1, p2 } => size_in(p1, p2),
        Command::Direction { d } => direction_in(d),
        Command::Text { put } => is_text(s, put),
        Command::Black { bar } | Command::Flip { bar } | Command::White { bar } => bar_in(bar),
        Command::Frame { x1, y1, t, x2, y2 } => frame_in(x1, y1, t, x2, y2),
        Command::Counting {
            n,
            len,
            step,
            prompt,
        } => is_counting(s, n, len, step, prompt),
        Command::Varying { n, len, prompt } => is_varying(s, n, len, prompt),
        Command::Start { name } | Command::Recall { name } => is_name(s, name),
        Command::Delete { name } => is_names(s, name),
        Command::Print { sets, copies } => print_in(sets, copies),
        Command::Refused { .. } => false,
    }
}

// Writes a record of a line in normal form: 6 for one that no line reads as, 15 for a short buffer, and then nothing written.
pub fn write_line(s: &[u8], c: Command, buf: &mut [u8]) -> Answer
    ensures { WritesLine s.now c buf.old buf.new result }
{
    if !is_readable(s, c) {
        return Err(Refusal::OutOfRange);
    }
    let mut out = [0u8; 256];
    let len = put_normal(&mut out, s, c);
    if buf.len() < len {
        return Err(Refusal::TooShort);
    }
    put_all(buf, 0, &out[..len]);
    Ok(len)
}
