// The parts of a line that only some commands have: settings, steps, values, contents and strings that end the line.
#![tactic(auto, using(crate::proofs::Item::parts), unfolding(paper::specs::Read::setting, paper::specs::Line::part, paper::specs::Line::followed, paper::specs::Line::give, text::specs::Place::said, text::specs::Place::said_by, text::specs::Place::with_comma, command::specs::View::setting_of, command::specs::View::step_of, crate::specs::Part::value_of, crate::specs::Part::Found, crate::specs::Part::LastAt))]

ghost use Rattle.std.specs.Prelude.{◌≡◌, ℕ, List};
ghost use Rattle.paper.specs.Line.{number, letter, digit, two_digits, part};
ghost use Rattle.paper.specs.Command as P;
ghost use Rattle.paper.specs.Read as Read;
ghost use Rattle.paper.specs.Read.{font, setting, step, value, content};
ghost use Rattle.text.specs.Place.{from, said_by, Says};
ghost use Rattle.command.specs.View.{setting_of, step_of, text_in, content_of, Standing, ContentStands};
ghost use Rattle.line.specs.Part.{value_of, ReadsContent, LastAt};

use command::{Content, Setting, Step};
use text::read::{
    Parsed, Span, byte_at, comma_after, digit_at, font_at, letter_at, number_at, string_at,
    two_digits_at,
};

// A number with the comma behind it.
pub fn number_part(s: &[u8], at: usize) -> Option<Parsed<usize>>
    ensures { Says s.now (part number (from s.now at)) result }
{
    comma_after(s, number_at(s, at))
}

// A letter with the comma behind it.
pub fn letter_part(s: &[u8], at: usize) -> Option<Parsed<usize>>
    ensures { Says s.now (part letter (from s.now at)) result }
{
    comma_after(s, letter_at(s, at))
}

// A font with the comma behind it.
pub fn font_part(s: &[u8], at: usize) -> Option<Parsed<usize>>
    ensures { Says s.now (part font (from s.now at)) result }
{
    comma_after(s, font_at(s, at))
}

// A digit with the comma behind it.
pub fn digit_part(s: &[u8], at: usize) -> Option<Parsed<usize>>
    ensures { Says s.now (part digit (from s.now at)) result }
{
    comma_after(s, digit_at(s, at))
}

// Two digits with the comma behind them.
pub fn two_digits_part(s: &[u8], at: usize) -> Option<Parsed<usize>>
    ensures { Says s.now (part two_digits (from s.now at)) result }
{
    comma_after(s, two_digits_at(s, at))
}

// The seven parameters of a text before its content.
pub fn setting_at(s: &[u8], at: usize) -> Option<Parsed<Setting>>
    ensures { said_by setting_of s.now result ≡ setting (from s.now at) }
{
    let x = number_part(s, at)?;
    let y = number_part(s, x.next)?;
    let r = number_part(s, y.next)?;
    let f = font_part(s, r.next)?;
    let h = number_part(s, f.next)?;
    let v = number_part(s, h.next)?;
    let m = letter_part(s, v.next)?;
    Some(Parsed {
        value: Setting {
            x: x.value,
            y: y.value,
            r: r.value,
            f: f.value,
            h: h.value,
            v: v.value,
            m: m.value,
        },
        next: m.next,
    })
}

// A step by its sign and its number; `-0` is `+0`.
fn signed(sign: u8, n: usize) -> Step
    ensures { step_of result ≡ Read.step_of sign n }
{
    if n == 0 || sign == b'+' {
        Step::Up { n }
    } else {
        Step::Down { n }
    }
}

// A step, with the comma behind it.
pub fn step_part(s: &[u8], at: usize) -> Option<Parsed<Step>>
    ensures { said_by step_of s.now result ≡ part step (from s.now at) }
{
    let sign = byte_at(s, at);
    if !matches!(sign, b'+' | b'-') {
        return None;
    }
    let number = number_part(s, at + 1)?;
    Some(Parsed {
        value: signed(sign, number.value),
        next: number.next,
    })
}

// What a label shows in the place of a value: a counter or a variable.
#[derive(Clone, Copy, Debug, PartialEq, Eq)]
pub enum Value {
    Counter { n: usize },
    Variable { n: usize },
}

// A value by its number.
pub fn value_at(s: &[u8], at: usize) -> Option<Parsed<Value>>
    ensures { said_by value_of s.now result ≡ value (from s.now at) }
{
    match byte_at(s, at) {
        b'C' => {
            let Parsed { value: n, next } = digit_at(s, at + 1)?;
            Some(Parsed {
                value: Value::Counter { n },
                next,
            })
        }
        b'V' => {
            let Parsed { value: n, next } = two_digits_at(s, at + 1)?;
            Some(Parsed {
                value: Value::Variable { n },
                next,
            })
        }
        _ => None,
    }
}

// A value as the whole content of a text.
#[tactic(auto, unfolding(command::specs::View::content_of, command::specs::View::ContentStands, crate::specs::Part::value_of))]
fn shown(value: Value) -> Content
    ensures content { (s : List ℕ) → content_of s result ≡ P.shown (value_of value) }
    ensures stands { (s : List ℕ) → ContentStands s result }
{
    match value {
        Value::Counter { n } => Content::Counter { n },
        Value::Variable { n } => Content::Variable { n },
    }
}

// A string and a value as a content.
#[tactic(auto, unfolding(command::specs::View::content_of, command::specs::View::ContentStands, crate::specs::Part::value_of))]
fn joined(string: Span, value: Value) -> Content
    ensures content { (s : List ℕ) → content_of s result ≡ P.joined (text_in s string) (value_of value) }
    ensures stands { (s : List ℕ) → Standing s string → ContentStands s result }
{
    match value {
        Value::Counter { n } => Content::TextCounter { string, n },
        Value::Variable { n } => Content::TextVariable { string, n },
    }
}

// The content of a text.
pub fn content_at(s: &[u8], at: usize) -> Option<Parsed<Content>>
    ensures { ReadsContent s.now (content (from s.now at)) result }
{
    let Some(string) = string_at(s, at) else {
        let Parsed { value, next } = value_at(s, at)?;
        return Some(Parsed {
            value: shown(value),
            next,
        });
    };
    let next = string.end + 1;
    if s.len() <= next {
        return Some(Parsed {
            value: Content::Text { string },
            next,
        });
    }
    let Parsed { value, next } = value_at(s, next)?;
    Some(Parsed {
        value: joined(string, value),
        next,
    })
}

// A string that ends the line.
pub fn last_string(s: &[u8], at: usize) -> Option<Span>
    ensures { LastAt s.now at result }
{
    let span = string_at(s, at)?;
    (s.len() <= span.end + 1).then_some(span)
}
