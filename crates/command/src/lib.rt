// What a line says, and the answer to a call. Strings are places in the line that was read.
#![tactic(auto)]

pub mod range;
mod refusals;

use text::read::Span;

// The refusals of the bench, in the order of their numbers.
#[derive(Clone, Copy, Debug, PartialEq, Eq)]
pub enum Refusal {
    TooLong,
    ControlByte,
    NotNow,
    Unknown,
    Malformed,
    OutOfRange,
    Overfull,
    IsSpoiled,
    Unsound { line: usize },
    NameTaken,
    NoRoom,
    Absent,
    Unfit,
    Overrun,
    TooShort,
    NotPrinting,
    OthersCollect,
    NoTablet,
    HeldOpen,
}

// The five kinds of content of a text.
#[derive(Clone, Copy, Debug, PartialEq, Eq)]
pub enum Content {
    Text { string: Span },
    Counter { n: usize },
    Variable { n: usize },
    TextCounter { string: Span, n: usize },
    TextVariable { string: Span, n: usize },
}

// The seven parameters of a text before its content, each under its letter in the profile's table.
#[derive(Clone, Copy, Debug, PartialEq, Eq)]
pub struct Setting {
    pub x: usize,
    pub y: usize,
    pub r: usize,
    pub f: usize,
    pub h: usize,
    pub v: usize,
    pub m: usize,
}

// A text command.
#[derive(Clone, Copy, Debug, PartialEq, Eq)]
pub struct Put {
    pub setting: Setting,
    pub content: Content,
}

// The place and size of a bar.
#[derive(Clone, Copy, Debug, PartialEq, Eq)]
pub struct Bar {
    pub x: usize,
    pub y: usize,
    pub w: usize,
    pub t: usize,
}

// A counter's step. A step down is at least 1.
#[derive(Clone, Copy, Debug, PartialEq, Eq)]
pub enum Step {
    Up { n: usize },
    Down { n: usize },
}

// A command record, or the refusal of a line.
// Kept: the list of forms by place names one enum with a case a command and a refusal case.
#[derive(Clone, Copy, Debug, PartialEq, Eq)]
pub enum Command {
    Empty,
    New,
    Finish,
    Inform,
    Ask,
    Size {
        p1: usize,
        p2: usize,
    },
    Direction {
        d: usize,
    },
    Text {
        put: Put,
    },
    Black {
        bar: Bar,
    },
    Flip {
        bar: Bar,
    },
    White {
        bar: Bar,
    },
    Frame {
        x1: usize,
        y1: usize,
        t: usize,
        x2: usize,
        y2: usize,
    },
    Counting {
        n: usize,
        len: usize,
        step: Step,
        prompt: Span,
    },
    Varying {
        n: usize,
        len: usize,
        prompt: Span,
    },
    Start {
        name: Span,
    },
    Recall {
        name: Span,
    },
    Delete {
        name: Span,
    },
    Print {
        sets: usize,
        copies: usize,
    },
    Refused {
        why: Refusal,
    },
}

// The answer to a call that writes into a lent buffer: how many bytes it wrote, or why it is refused.
pub type Answer = Result<usize, Refusal>;
