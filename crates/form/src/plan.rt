// The plan of a form, made once when it is stored: what it asks for, in its order, and the pieces of its text that a set shows, each
// with the value that goes behind it. A plan is numbers: how many definitions, how many pieces, four numbers a definition and three a
// piece, and 0 behind them.
ghost use Rattle.std.specs.Prelude.{◌+◌, ◌<◌, ◌≡◌, length, set};
ghost use Rattle.paper.specs.Command as P;
ghost use Rattle.form.specs.Plan.{number_of, four_at, value, behind_in};
ghost use Rattle.form.specs.Noting.{PieceRoom, DefineRoom, NoteRoom, DrawnRoom, GapRoom, PieceNoted, OpenNoted, DefineNoted, Noted, DrawnNoted, GapNoted, Walking, Walked, Plannable, Plans};

use crate::asked::{Define, line_in};
use crate::ending::{Ending, ending_of};
use crate::walk::{Line, Lines};
use command::Step;

// How many numbers a plan has, and where its definitions and its pieces begin.
pub const PLAN: usize = 232;

pub const DEFINES: usize = 2;

pub const PIECES: usize = 106;

// The kinds of a definition.
// Kept: a plan is a row of numbers in memory that is lent for good, and `packed_shelf` says what each of them is.
pub const UP: usize = 0;

pub const DOWN: usize = 1;

pub const VARIABLE: usize = 2;

// Four numbers from a place on, in a plan or in what is kept of answers.
pub fn put_four(to: &mut [usize], at: usize, a: usize, b: usize, c: usize, d: usize)
    requires { at + 3 < length to.old }
    ensures to_after { to.new ≡ four_at to.old at a b c d }
    ensures to_len_unchanged { length to.new ≡ length to.old }
{
    to[at] = a;
    to[at + 1] = b;
    to[at + 2] = c;
    to[at + 3] = d;
}

// A piece of the text from a place up to another, and what goes behind it: 0 for nothing.
fn note_piece(plan: &mut [usize], start: usize, end: usize, behind: usize)
    requires { PieceRoom plan.old }
    ensures { PieceNoted plan.old start end behind plan.new }
{
    let k = plan[1];
    let at = PIECES + k * 3;
    plan[at] = start;
    plan[at + 1] = end;
    plan[at + 2] = behind;
    plan[1] = k + 1;
}

// The piece that is open, with nothing behind it. One without bytes is none.
fn note_open(plan: &mut [usize], start: usize, end: usize)
    requires { PieceRoom plan.old }
    ensures { OpenNoted plan.old start end plan.new }
{
    if start != end {
        note_piece(plan, start, end, 0);
    }
}

// A definition: its kind, its len, its step and the number of its value.
fn note_define(plan: &mut [usize], kind: usize, len: usize, step: usize, value: usize)
    requires { DefineRoom plan.old }
    ensures { DefineNoted plan.old kind len step value plan.new }
{
    let k = plan[0];
    put_four(plan, DEFINES + k * 4, kind, len, step, value);
    plan[0] = k + 1;
}

// A definition by its numbers.
fn note(plan: &mut [usize], define: Define)
    requires { NoteRoom plan.old define }
    ensures { Noted plan.old define plan.new }
{
    match define {
        Define::Counter { n, len, step } => match step {
            Step::Up { n: by } => note_define(plan, UP, len, by, n),
            Step::Down { n: by } => note_define(plan, DOWN, len, by, n),
        },
        Define::Variable { n, len } => note_define(plan, VARIABLE, len, 0, 10 + n),
    }
}

// What goes behind a piece: a value, with an opening quote before it or not.
fn behind(n: usize, opens: bool) -> usize
    requires { n < 10000 }
    ensures { (v : P.Value) → n ≡ number_of v → result ≡ behind_in (value opens v) }
{
    if opens { 2 + n * 2 } else { 1 + n * 2 }
}

// A line that draws, up to its LF; the open piece began at `start`. Answers where the open piece begins then.
fn note_drawn(plan: &mut [usize], ending: Option<Ending>, start: usize, end: usize) -> usize
    requires { DrawnRoom plan.old ending end }
    ensures { DrawnNoted plan.old ending start end plan.new result }
{
    let Some(Ending { tail, value, opens }) = ending else {
        return start;
    };
    note_piece(plan, start, end - tail, behind(value, opens));
    end
}

// A definition: the open piece ends before its line.
fn note_gap(plan: &mut [usize], define: Define, start: usize, at: usize)
    requires { GapRoom plan.old define }
    ensures { GapNoted plan.old define start at plan.new }
{
    note_open(plan, start, at);
    note(plan, define);
}

// A line, where a piece is open from `start` on: behind a definition a new piece begins. Answers where the open piece begins then.
fn note_line(plan: &mut [usize], line: Line, start: usize) -> usize
    requires { Walking plan.old start line.at line.bytes.now }
    ensures { Walked plan.old start line.entry.at line.entry.bytes.now plan.new result }
{
    let end = line.at + line.bytes.len();
    let Some(define) = line_in(line.bytes) else {
        return note_drawn(plan, ending_of(line.bytes), start, end);
    };
    note_gap(plan, define, start, line.at);
    end + 1
}

// The plan of a form's text, into numbers that are 0.
pub fn make_plan(text: &[u8], plan: &mut [usize])
    requires { Plannable text.now plan.old }
    ensures { Plans text.now plan.new }
{
    let mut start = 0;
    for line in (Lines { text, at: 0 }) {
        start = note_line(plan, line, start);
    }
    note_open(plan, start, text.len());
}
