// The lines of a text, each ended by LF.
ghost use Rattle.std.specs.Prelude.{◌≡◌, ◌+◌, ◌-◌, length};
ghost use Rattle.std.specs.Iterator.{at_most};
ghost use Rattle.text.specs.Place.{from};
ghost use Rattle.form.specs.Walk.{first_line, lines_steps};

// The place of the LF that ends the line from a place on, or the end of the text.
pub fn line_end(text: &[u8], at: usize) -> usize
    ensures { result ≡ at + length (first_line (from text.now at)) }
{
    for i in at..text.len() {
        if text[i] == b'\n' {
            return i;
        }
    }
    at.max(text.len())
}

// A line of a text: where it begins there, and its bytes without its LF.
#[derive(Clone, Copy, Debug, PartialEq, Eq)]
pub struct Line<'a> {
    pub at: usize,
    pub bytes: &'a [u8],
}

// The lines of a text from a place on, one after the other.
#[derive(Clone, Copy, Debug, PartialEq, Eq)]
pub struct Lines<'a> {
    pub text: &'a [u8],
    pub at: usize,
}

impl<'a> Iterator for Lines<'a> {
    type Item = Line<'a>;

    ghost next_gives = { lines_steps };

    ghost remaining = { λ s. at_most (length s.text.now - s.at) };

    fn next(&mut self) -> Option<Line<'a>> {
        let at = self.at;
        if self.text.len() <= at {
            return None;
        }
        let end = line_end(self.text, at);
        self.at = end + 1;
        Some(Line {
            at,
            bytes: &self.text[at..end],
        })
    }
}
