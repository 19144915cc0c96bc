// Records made by hand, written into a buffer.
use crate::show::{say, show, show_answer};
use command::{Bar, Command, Content, Put, Refusal, Setting, Step};
use line::read::read_line;
use normal::write::write_line;
use text::read::Span;

// A record written, under its name.
fn wrote(rt: &impl Print, name: &[u8], s: &[u8], c: Command) {
    let mut marks = [46u8; 40];
    let buf: &mut [u8] = &mut marks;
    let answer = write_line(s, c, buf);
    say(rt, b"  ");
    say(rt, name);
    say(rt, b": ");
    show_answer(rt, answer);
    say(rt, b"    after ");
    show(rt, buf);
}

// A text at a place across the label, with a string of a source.
fn text_with(x: usize, start: usize, end: usize, len: usize) -> Command {
    let setting = Setting {
        x,
        y: 30,
        r: 0,
        f: 3,
        h: 1,
        v: 1,
        m: 78,
    };
    let content = Content::Text {
        string: Span { start, end, len },
    };
    let put = Put { setting, content };
    Command::Text { put }
}

// A counter with a step, and an empty prompt that ends its source.
fn counter(step: Step) -> Command {
    let prompt = Span {
        start: 11,
        end: 11,
        len: 0,
    };
    Command::Counting {
        n: 0,
        len: 3,
        step,
        prompt,
    }
}

// A bar of 400 dots at a place across the label.
fn bar(x: usize) -> Command {
    let bar = Bar {
        x,
        y: 0,
        w: 400,
        t: 1,
    };
    Command::Black { bar }
}

// A print.
fn print(sets: usize, copies: usize) -> Command {
    Command::Print { sets, copies }
}

// A direction.
fn direction(d: usize) -> Command {
    Command::Direction { d }
}

// The name in `FK"*"`.
fn star() -> Span {
    Span {
        start: 3,
        end: 4,
        len: 1,
    }
}

// Numbers, letters and names out of range.
pub fn false_values(rt: &impl Print) {
    let s = b"A50,30,0,3,1,1,N,\"Mia \\\"M\\\"\"";
    let t = b"C0,3,N,+0,\"\"";
    let u = b"FK\"*\"";
    let name = star();
    wrote(rt, b"A with x 812", s, text_with(812, 18, 27, 7));
    wrote(rt, b"P with no set", b"", print(0, 1));
    wrote(rt, b"P with 65536 copies", b"", print(1, 65536));
    wrote(rt, b"Z with N", b"", direction(78));
    wrote(rt, b"Z with 340, T and 256 more", b"", direction(340));
    wrote(rt, b"LO with x 413 and width 400", b"", bar(413));
    wrote(rt, b"C with step +10000", t, counter(Step::Up { n: 10000 }));
    wrote(rt, b"C with step -0", t, counter(Step::Down { n: 0 }));
    wrote(rt, b"FS with the star", u, Command::Start { name });
}

// Strings that do not stand so in the source, a byte that no string has, and refusals.
pub fn false_strings(rt: &impl Print) {
    let s = b"A50,30,0,3,1,1,N,\"Mia \\\"M\\\"\"";
    let t = b"A50,30,0,3,1,1,N,\"a\x07b\"";
    wrote(rt, b"A with a reversed string", s, text_with(50, 27, 18, 7));
    wrote(
        rt,
        b"A with a string at the end",
        s,
        text_with(50, 28, 28, 0),
    );
    wrote(
        rt,
        b"A with a string far behind",
        s,
        text_with(50, 99, 99, 0),
    );
    wrote(rt, b"A to an escaped quote", s, text_with(50, 18, 23, 5));
    wrote(rt, b"A with length 9 for 7", s, text_with(50, 18, 27, 9));
    wrote(rt, b"A with a byte 07H", t, text_with(50, 18, 21, 3));
    wrote(rt, b"that line as it is read", t, read_line(t));
    let why = Refusal::NotNow;
    wrote(rt, b"a refusal", s, Command::Refused { why });
}

// Records beside those that some line reads as.
pub fn true_records(rt: &impl Print) {
    let s = b"A50,30,0,3,1,1,N,\"Mia \\\"M\\\"\"";
    let t = b"C0,3,N,+0,\"\"";
    let u = b"FK\"*\"";
    let name = star();
    wrote(rt, b"a line as it is read", s, read_line(s));
    wrote(rt, b"A with x 811", s, text_with(811, 18, 27, 7));
    wrote(rt, b"P with one set", b"", print(1, 1));
    wrote(rt, b"P with 65535 copies", b"", print(1, 65535));
    wrote(rt, b"Z with T", b"", direction(84));
    wrote(rt, b"LO with x 412 and width 400", b"", bar(412));
    wrote(rt, b"C with step +9999", t, counter(Step::Up { n: 9999 }));
    wrote(rt, b"C with step -1", t, counter(Step::Down { n: 1 }));
    wrote(rt, b"FK with the star", u, Command::Delete { name });
    wrote(rt, b"the empty line", b"", Command::Empty);
}
