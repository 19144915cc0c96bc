// Reading a line.
#![tactic(auto, using(crate::proofs::Given::lines), unfolding(paper::specs::Read::size_line, paper::specs::Read::direction_line, paper::specs::Read::text_line, paper::specs::Read::bar_line, paper::specs::Read::frame_line, paper::specs::Read::counter_line, paper::specs::Read::variable_line, paper::specs::Read::name_line, paper::specs::Read::print_line, paper::specs::Read::body_shape, paper::specs::Read::judged, paper::specs::Line::followed, text::specs::Place::said, text::specs::Place::said_by, command::specs::View::view_of, command::specs::View::put_of, command::specs::View::bar_of, command::specs::View::refusal_of, command::specs::View::Stand, crate::specs::Given::as_record, crate::specs::Family::under, crate::specs::Family::drawn))]

ghost use Rattle.std.specs.Prelude.{◌≤◌, ◌<◌, ◌≡◌, true, length, MatchResult, Ok, Err, if◌then◌else◌};
ghost use Rattle.paper.specs.Byte.{every};
ghost use Rattle.paper.specs.Line.{ended};
ghost use Rattle.paper.specs.Command as P;
ghost use Rattle.paper.specs.Command.{is_shown, in_range};
ghost use Rattle.paper.specs.Read.{command, size_line, direction_line, text_line, bar_line, frame_line, counter_line, variable_line, name_line, print_line, judged, shaped};
ghost use Rattle.text.specs.Place.{from};
ghost use Rattle.command.specs.View.{width, text_in, view_of, Standing, Stand};
ghost use Rattle.command.specs.declared.Refusal.TheVariants.{Malformed, OutOfRange};
ghost use Rattle.line.specs.Given.{as_record, Gives, Judges, IsRead};
ghost use Rattle.line.specs.Kind.{shape_by};
ghost use Rattle.line.specs.Family.{under, filing};

use crate::clear::is_clear;
use crate::kind::{Kind, kind_of};
use crate::parts::{
    content_at, digit_part, last_string, letter_part, number_part, setting_at, step_part,
    two_digits_part,
};
use command::range::{
    bar_in, content_in, counting_in, direction_in, frame_in, is_star, name_in, print_in,
    setting_in, size_in, varying_in,
};
use command::{Bar, Command, Put, Refusal};
use text::read::{Parsed, Span, byte_at, letter_at, number_at};

// The longest line.
pub const LINE: usize = 256;

// Nothing may follow the last part of a line.
fn ended(s: &[u8], at: usize) -> Result<(), Refusal>
    ensures { MatchResult result (λ _. length s.now ≤ at) (λ why. (why ≡ Malformed) × (at < length s.now)) }
{
    if at < s.len() {
        return Err(Refusal::Malformed);
    }
    Ok(())
}

// What fits, by whether it is in its ranges.
fn ranged<T: Copy>(ok: bool, value: T) -> Result<T, Refusal>
    ensures { result ≡ (if ok then Ok value else Err OutOfRange) }
{
    if ok {
        Ok(value)
    } else {
        Err(Refusal::OutOfRange)
    }
}

// The record of a line: the command that its parts give, or why there is none.
fn record(parts: Result<Command, Refusal>) -> Command
    ensures { result ≡ as_record parts }
{
    parts.unwrap_or_else(|why| Command::Refused { why })
}

// A command that is all letters: nothing may follow them.
fn bare(s: &[u8], at: usize, c: Command) -> Result<Command, Refusal>
    ensures { (p : P.Command) → view_of s.now c ≡ command p → in_range width p ≡ true → Stand s.now c → Gives s.now (ended p (from s.now at)) (as_record result) }
{
    ended(s, at)?;
    Ok(c)
}

// A label's two lengths.
fn size_line(s: &[u8]) -> Result<Command, Refusal>
    ensures { Gives s.now (size_line (from s.now 1)) (as_record result) }
{
    let Parsed { value: p1, next } = number_part(s, 1).ok_or(Refusal::Malformed)?;
    let Parsed { value: p2, next } = number_at(s, next).ok_or(Refusal::Malformed)?;
    ended(s, next)?;
    ranged(size_in(p1, p2), Command::Size { p1, p2 })
}

// A label's direction.
fn direction_line(s: &[u8]) -> Result<Command, Refusal>
    ensures { Gives s.now (direction_line (from s.now 1)) (as_record result) }
{
    let Parsed { value: d, next } = letter_at(s, 1).ok_or(Refusal::Malformed)?;
    ended(s, next)?;
    ranged(direction_in(d), Command::Direction { d })
}

// A text: its setting and its content.
fn text_line(s: &[u8]) -> Result<Command, Refusal>
    requires { every is_shown s.now ≡ true }
    ensures { Gives s.now (text_line (from s.now 1)) (as_record result) }
{
    let Parsed {
        value: setting,
        next,
    } = setting_at(s, 1).ok_or(Refusal::Malformed)?;
    let Parsed {
        value: content,
        next,
    } = content_at(s, next).ok_or(Refusal::Malformed)?;
    ended(s, next)?;
    let put = Put { setting, content };
    ranged(
        setting_in(setting) && content_in(content),
        Command::Text { put },
    )
}

// A bar: its place and its size.
fn bar_line(s: &[u8]) -> Result<Bar, Refusal>
    ensures { (pen : P.Pen) → Gives s.now (bar_line pen (from s.now 2)) (as_record (under pen result)) }
{
    let Parsed { value: x, next } = number_part(s, 2).ok_or(Refusal::Malformed)?;
    let Parsed { value: y, next } = number_part(s, next).ok_or(Refusal::Malformed)?;
    let Parsed { value: w, next } = number_part(s, next).ok_or(Refusal::Malformed)?;
    let Parsed { value: t, next } = number_at(s, next).ok_or(Refusal::Malformed)?;
    ended(s, next)?;
    let bar = Bar { x, y, w, t };
    ranged(bar_in(bar), bar)
}

// A frame: two corners and a thickness between.
fn frame_line(s: &[u8]) -> Result<Command, Refusal>
    ensures { Gives s.now (frame_line (from s.now 1)) (as_record result) }
{
    let Parsed { value: x1, next } = number_part(s, 1).ok_or(Refusal::Malformed)?;
    let Parsed { value: y1, next } = number_part(s, next).ok_or(Refusal::Malformed)?;
    let Parsed { value: t, next } = number_part(s, next).ok_or(Refusal::Malformed)?;
    let Parsed { value: x2, next } = number_part(s, next).ok_or(Refusal::Malformed)?;
    let Parsed { value: y2, next } = number_at(s, next).ok_or(Refusal::Malformed)?;
    ended(s, next)?;
    ranged(
        frame_in(x1, y1, t, x2, y2),
        Command::Frame { x1, y1, t, x2, y2 },
    )
}

// A counter to be asked for.
fn counter_line(s: &[u8]) -> Result<Command, Refusal>
    requires { every is_shown s.now ≡ true }
    ensures { Gives s.now (counter_line (from s.now 1)) (as_record result) }
{
    let Parsed { value: n, next } = digit_part(s, 1).ok_or(Refusal::Malformed)?;
    let Parsed { value: len, next } = number_part(s, next).ok_or(Refusal::Malformed)?;
    let Parsed {
        value: letter,
        next,
    } = letter_part(s, next).ok_or(Refusal::Malformed)?;
    let Parsed { value: step, next } = step_part(s, next).ok_or(Refusal::Malformed)?;
    let prompt = last_string(s, next).ok_or(Refusal::Malformed)?;
    ranged(
        counting_in(n, len, letter, step, prompt),
        Command::Counting {
            n,
            len,
            step,
            prompt,
        },
    )
}

// A variable to be asked for.
fn variable_line(s: &[u8]) -> Result<Command, Refusal>
    requires { every is_shown s.now ≡ true }
    ensures { Gives s.now (variable_line (from s.now 1)) (as_record result) }
{
    let Parsed { value: n, next } = two_digits_part(s, 1).ok_or(Refusal::Malformed)?;
    let Parsed { value: len, next } = number_part(s, next).ok_or(Refusal::Malformed)?;
    let Parsed {
        value: letter,
        next,
    } = letter_part(s, next).ok_or(Refusal::Malformed)?;
    let prompt = last_string(s, next).ok_or(Refusal::Malformed)?;
    ranged(
        varying_in(n, len, letter, prompt),
        Command::Varying { n, len, prompt },
    )
}

// What a line does with its name.
// Kept: the promise of `name_line`, which is public, is about an errand.
#[derive(Clone, Copy, Debug, PartialEq, Eq)]
pub enum Errand {
    Start,
    Recall,
    Delete,
}

// A name that ends the line, or the star.
fn named_line(s: &[u8], errand: Errand) -> Result<Command, Refusal>
    ensures { Gives s.now (name_line (filing errand) (from s.now 2)) (as_record result) }
{
    let name = last_string(s, 2).ok_or(Refusal::Malformed)?;
    send(s, errand, name)
}

// The record of a line with a name.
pub fn name_line(s: &[u8], errand: Errand) -> Command
    ensures { Gives s.now (name_line (filing errand) (from s.now 2)) result }
{
    record(named_line(s, errand))
}

// A name under its errand. Only deleting takes the star.
#[tactic(auto, using(paper::proofs::Law::if_true, paper::proofs::Law::if_false), unfolding(paper::specs::Command::in_range, paper::specs::Command::ranges, paper::specs::Command::filing_ranges, paper::specs::Command::all, paper::specs::Command::all_of, paper::specs::Read::body_shape, paper::specs::Read::judged, command::specs::View::view_of, command::specs::View::refusal_of, command::specs::View::Stand, crate::specs::Given::as_record, crate::specs::Family::filing))]
fn send(s: &[u8], errand: Errand, name: Span) -> Result<Command, Refusal>
    requires { Standing s.now name }
    ensures view { view_of s.now (as_record result) ≡ judged width (shaped (P.file (filing errand (text_in s.now name)))) }
    ensures stand { Stand s.now (as_record result) }
{
    match errand {
        Errand::Start => ranged(name_in(s, name), Command::Start { name }),
        Errand::Recall => ranged(name_in(s, name), Command::Recall { name }),
        Errand::Delete => ranged(
            name_in(s, name) || is_star(s, name),
            Command::Delete { name },
        ),
    }
}

// A print: its sets, and its copies if they are given.
fn print_line(s: &[u8]) -> Result<Command, Refusal>
    ensures { Gives s.now (print_line (from s.now 1)) (as_record result) }
{
    let Parsed { value: sets, next } = number_at(s, 1).ok_or(Refusal::Malformed)?;
    if s.len() <= next {
        return ranged(print_in(sets, 1), Command::Print { sets, copies: 1 });
    }
    if byte_at(s, next) != b',' {
        return Err(Refusal::Malformed);
    }
    let Parsed {
        value: copies,
        next,
    } = number_at(s, next + 1).ok_or(Refusal::Malformed)?;
    ended(s, next)?;
    ranged(print_in(sets, copies), Command::Print { sets, copies })
}

// What follows the leading letters.
#[tactic(auto, unfolding(paper::specs::Command::in_range, paper::specs::Command::ranges, paper::specs::Command::filing_ranges, paper::specs::Command::all_of, paper::specs::Read::judged, command::specs::View::view_of, command::specs::View::refusal_of, command::specs::View::Stand, crate::specs::Given::as_record, crate::specs::Family::under, crate::specs::Family::drawn, crate::specs::Family::filing, crate::specs::Kind::shape_by))]
fn read_kind(s: &[u8], kind: Kind) -> Result<Command, Refusal>
    requires { every is_shown s.now ≡ true }
    ensures { Judges s.now (shape_by s.now kind) (as_record result) }
{
    match kind {
        Kind::New => bare(s, 1, Command::New),
        Kind::Finish => bare(s, 2, Command::Finish),
        Kind::Inform => bare(s, 2, Command::Inform),
        Kind::Ask => bare(s, 1, Command::Ask),
        Kind::Size => size_line(s),
        Kind::Direction => direction_line(s),
        Kind::Text => text_line(s),
        Kind::Black => bar_line(s).map(|bar| Command::Black { bar }),
        Kind::Flip => bar_line(s).map(|bar| Command::Flip { bar }),
        Kind::White => bar_line(s).map(|bar| Command::White { bar }),
        Kind::Frame => frame_line(s),
        Kind::Counting => counter_line(s),
        Kind::Varying => variable_line(s),
        Kind::Start => named_line(s, Errand::Start),
        Kind::Recall => named_line(s, Errand::Recall),
        Kind::Delete => named_line(s, Errand::Delete),
        Kind::Print => print_line(s),
        Kind::Unknown => Err(Refusal::Unknown),
    }
}

// Reads a line that is not too long and has no control byte.
#[tactic(auto, using(crate::proofs::Whole::read_empty, crate::proofs::Whole::read_shape), unfolding(command::specs::View::view_of, command::specs::View::Stand, crate::specs::Given::as_record))]
pub fn read_clear(s: &[u8]) -> Command
    requires s_value { every is_shown s.now ≡ true }
    requires s_len_bound { length s.now ≤ 256 }
    ensures { IsRead s.now result }
{
    if s.is_empty() {
        return Command::Empty;
    }
    let kind = kind_of(byte_at(s, 0), byte_at(s, 1));
    record(read_kind(s, kind))
}

// Reads a line: one command record, or one refusal of 1, 2, 4, 5 and 6.
#[tactic(auto, using(crate::proofs::Whole::read_long, crate::proofs::Whole::read_control), unfolding(command::specs::View::view_of, command::specs::View::refusal_of, command::specs::View::Stand))]
pub fn read_line(s: &[u8]) -> Command
    ensures { IsRead s.now result }
{
    if LINE < s.len() {
        return Command::Refused {
            why: Refusal::TooLong,
        };
    }
    if !is_clear(s) {
        return Command::Refused {
            why: Refusal::ControlByte,
        };
    }
    read_clear(s)
}
