// Bytes, digits, numbers, letters and strings at a place of a line. 0 and the end of the line look alike here: a line with
// a byte below 20H is refused before any of this reads it.
ghost use Rattle.std.specs.Prelude.{◌≡◌, ◌+◌, ◌<◌, ◌≤◌, length};
ghost use Rattle.paper.specs.Line.{digit, two_digits, more_digits, number, letter, plain, escaped, string};
ghost use Rattle.paper.specs.Read.{font};
ghost use Rattle.text.specs.Place.{byte_at, from, said, Says, with_comma, run_end, closing, quoted_at};

// The byte at a place, or 0 past the end.
pub fn byte_at(s: &[u8], at: usize) -> u8
    ensures { result ≡ byte_at s.now at }
{
    if at < s.len() {
        return s[at];
    }
    0
}

// What was read, and the place behind it.
#[derive(Clone, Copy, Debug, PartialEq, Eq)]
pub struct Parsed<T> {
    pub value: T,
    pub next: usize,
}

// One digit.
pub fn digit_at(s: &[u8], at: usize) -> Option<Parsed<usize>>
    ensures { Says s.now (digit (from s.now at)) result }
{
    let b = byte_at(s, at);
    if !b.is_ascii_digit() {
        return None;
    }
    Some(Parsed {
        value: (b - b'0') as usize,
        next: at + 1,
    })
}

// Two digits.
pub fn two_digits_at(s: &[u8], at: usize) -> Option<Parsed<usize>>
    ensures { Says s.now (two_digits (from s.now at)) result }
{
    let tens = digit_at(s, at)?;
    let ones = digit_at(s, tens.next)?;
    Some(Parsed {
        value: tens.value * 10 + ones.value,
        next: ones.next,
    })
}

// At most `more` digits behind the first.
fn more_digits(s: &[u8], first: Parsed<usize>, more: usize) -> Parsed<usize>
    requires { (first.value < 10) × (more < 5) × (first.next ≤ length s.now) }
    ensures { Says s.now (more_digits more first.value (from s.now first.next)) (Some result) }
{
    let mut number = first;
    for _ in 0..more {
        let Some(digit) = digit_at(s, number.next) else {
            return number;
        };
        number = Parsed {
            value: number.value * 10 + digit.value,
            next: digit.next,
        };
    }
    number
}

// A number: 1 to 5 digits.
pub fn number_at(s: &[u8], at: usize) -> Option<Parsed<usize>>
    ensures { Says s.now (number (from s.now at)) result }
{
    let digit = digit_at(s, at)?;
    Some(more_digits(s, digit, 4))
}

// A letter parameter: one byte A to Z.
pub fn letter_at(s: &[u8], at: usize) -> Option<Parsed<usize>>
    ensures { Says s.now (letter (from s.now at)) result }
{
    let b = byte_at(s, at);
    if !b.is_ascii_uppercase() {
        return None;
    }
    Some(Parsed {
        value: b as usize,
        next: at + 1,
    })
}

// A font: a number, or a letter, which reads as no font at all.
pub fn font_at(s: &[u8], at: usize) -> Option<Parsed<usize>>
    ensures { Says s.now (font (from s.now at)) result }
{
    if let Some(number) = number_at(s, at) {
        return Some(number);
    }
    let letter = letter_at(s, at)?;
    Some(Parsed { value: 0, ..letter })
}

// A part that was read, with the comma behind it.
pub fn comma_after(s: &[u8], part: Option<Parsed<usize>>) -> Option<Parsed<usize>>
    ensures { Says s.now (with_comma (said s.now part)) result }
{
    let part = part?;
    if byte_at(s, part.next) != b',' {
        return None;
    }
    Some(Parsed {
        next: part.next + 1,
        ..part
    })
}

// Where a string closes: its closing quote and the bytes it holds.
#[derive(Clone, Copy, Debug, PartialEq, Eq)]
pub struct Closing {
    pub end: usize,
    pub len: usize,
}

// The place of the first quote or backslash from a place on, or else the end; past the end the place itself.
fn run_end(s: &[u8], at: usize) -> usize
    ensures { result ≡ run_end s.now at }
{
    for i in at..s.len() {
        if matches!(s[i], b'"' | b'\\') {
            return i;
        }
    }
    at.max(s.len())
}

// The rest of a string in the plain mood, with `len` bytes of it read before, or that it stays open.
#[cycle(escaped_at_plain_at)]
pub fn plain_at(s: &[u8], at: usize, len: usize) -> Option<Closing>
    requires { len ≤ at }
    ensures { result ≡ closing s.now len (plain (from s.now at)) }
{
    let end = run_end(s, at);
    if s.len() <= end {
        return None;
    }
    let more = len + (end - at);
    if s[end] == b'"' {
        return Some(Closing { end, len: more });
    }
    escaped_at(s, end + 1, more)
}

// The rest of a string just after a backslash, where the next byte is taken as it is.
#[cycle(escaped_at_plain_at)]
fn escaped_at(s: &[u8], at: usize, len: usize) -> Option<Closing>
    requires { len ≤ at }
    ensures { result ≡ closing s.now len (escaped (from s.now at)) }
{
    if s.len() <= at {
        return None;
    }
    plain_at(s, at + 1, len + 1)
}

// Where a string's content lies, from its first byte up to its closing quote, and its length after unescaping.
#[derive(Clone, Copy, Debug, PartialEq, Eq)]
pub struct Span {
    pub start: usize,
    pub end: usize,
    pub len: usize,
}

// A string between quotes, by its span.
pub fn string_at(s: &[u8], at: usize) -> Option<Span>
    ensures { result ≡ quoted_at s.now at (string (from s.now at)) }
{
    if byte_at(s, at) != b'"' {
        return None;
    }
    let start = at + 1;
    let Closing { end, len } = plain_at(s, start, 0)?;
    Some(Span { start, end, len })
}
