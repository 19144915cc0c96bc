// Bytes, numbers and strings into a lent buffer at a place. Each function asks for its room and answers the next place.
ghost use Rattle.std.specs.Prelude.{◌≡◌, [], ◌∷◌, ◌+◌, ◌<◌, ◌≤◌, length};
ghost use Rattle.paper.specs.Byte.{decimal};
ghost use Rattle.paper.specs.Line.{escape};
ghost use Rattle.paper.specs.Write.{two};
ghost use Rattle.text.specs.Write.{Writes, mark_of};
ghost use Rattle.text.specs.Place.{text_at, Closes, literal};

// One byte.
pub fn put(buf: &mut [u8], at: usize, b: u8) -> usize
    requires { at < length buf.old }
    ensures { Writes buf.old at (b ∷ []) buf.new result }
{
    buf[at] = b;
    at + 1
}

// How many digits a number has in decimal, without leading zeros.
pub fn decimal_len(n: usize) -> usize
    ensures { result ≡ length (decimal n) }
{
    if n < 10 {
        return 1;
    }
    decimal_len(n / 10) + 1
}

// A number's digits in decimal, without leading zeros.
pub fn put_decimal(buf: &mut [u8], at: usize, n: usize) -> usize
    requires { at + length (decimal n) ≤ length buf.old }
    ensures { Writes buf.old at (decimal n) buf.new result }
{
    if n < 10 {
        return put(buf, at, b'0' + (n % 10) as u8);
    }
    put_tens(buf, at, n)
}

// The digits of a number from 10 on.
fn put_tens(buf: &mut [u8], at: usize, n: usize) -> usize
    requires { (10 ≤ n) × (at + length (decimal n) ≤ length buf.old) }
    ensures { Writes buf.old at (decimal n) buf.new result }
{
    if n < 100 {
        return put_two(buf, at, n);
    }
    let next = put_tens(buf, at, n / 10);
    put(buf, next, b'0' + (n % 10) as u8)
}

// A number of two digits.
pub fn put_two(buf: &mut [u8], at: usize, n: usize) -> usize
    requires { (n < 100) × (at + 2 ≤ length buf.old) }
    ensures { Writes buf.old at (two n) buf.new result }
{
    let next = put(buf, at, b'0' + (n / 10 % 10) as u8);
    put(buf, next, b'0' + (n % 10) as u8)
}

// Bytes as they are.
pub fn put_all(buf: &mut [u8], at: usize, s: &[u8]) -> usize
    requires { at + length s.now ≤ length buf.old }
    ensures { Writes buf.old at s.now buf.new result }
{
    let end = at + s.len();
    buf[at..end].copy_from_slice(s);
    end
}

// What goes before a byte of a string in normal form: a backslash where it is a quote or a backslash.
fn put_mark(buf: &mut [u8], at: usize, b: u8) -> usize
    requires { at + length (mark_of b) ≤ length buf.old }
    ensures { Writes buf.old at (mark_of b) buf.new result }
{
    match b {
        b'\\' | b'"' => put(buf, at, b'\\'),
        _ => at,
    }
}

// One byte of a string in normal form.
pub fn put_escaped_byte(buf: &mut [u8], at: usize, b: u8) -> usize
    requires { at + length (escape (b ∷ [])) ≤ length buf.old }
    ensures { Writes buf.old at (escape (b ∷ [])) buf.new result }
{
    let next = put_mark(buf, at, b);
    put(buf, next, b)
}

// A text as the inside of a string in normal form.
pub fn put_escaped(buf: &mut [u8], at: usize, s: &[u8]) -> usize
    requires { at + length (escape s.now) ≤ length buf.old }
    ensures { Writes buf.old at (escape s.now) buf.new result }
{
    let mut next = at;
    for &b in s {
        next = put_escaped_byte(buf, next, b);
    }
    next
}

// The place of the byte that a string's byte stands for: behind a backslash the next.
pub fn literal_at(s: &[u8], at: usize) -> usize
    requires { at < length s.now }
    ensures { result ≡ literal s.now at }
{
    if s[at] == b'\\' {
        return at + 1;
    }
    at
}

// The content of a string that stands in a line from `start` up to its closing quote at `end`, in normal form: escapes that
// are not needed go.
pub fn put_content(buf: &mut [u8], at: usize, s: &[u8], start: usize, end: usize) -> usize
    requires closes { Closes s.now start end }
    requires start_in_bounds { at + length (escape (text_at s.now start)) ≤ length buf.old }
    ensures { Writes buf.old at (escape (text_at s.now start)) buf.new result }
{
    let mut next = at;
    // Kept: a step goes over one byte or two, which no iterator over the bytes does, so the place is counted by hand.
    let mut i = start;
    while i < end {
        let literal = literal_at(s, i);
        next = put_escaped_byte(buf, next, s[literal]);
        i = literal + 1;
    }
    next
}
