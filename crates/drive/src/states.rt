// A script, line by line: the way of forms through the states, with a take in each.
ghost use Rattle.std.specs.Prelude.{◌≤◌};
ghost use Rattle.call.specs.Call.{memory_of};
ghost use Rattle.tablets.specs.Calls.{Reached};

use crate::lent::{Call, lent};
use crate::show::say;
use form::walk::line_end;

// A decimal digit; any other byte counts nothing.
fn digit(b: u8) -> usize
    ensures { result ≤ 9 }
{
    match b {
        b'1' => 1,
        b'2' => 2,
        b'3' => 3,
        b'4' => 4,
        b'5' => 5,
        b'6' => 6,
        b'7' => 7,
        b'8' => 8,
        b'9' => 9,
        _ => 0,
    }
}

// What a line asks for, by its first byte: `<` a line to the bench, `>` a take in a state, and `i`, `t` or `w` a reply to `FI`, a set or a
// written line; any other is a remark.
fn call_of(line: &[u8]) -> Call {
    if line.len() == 0 {
        return Call::Remark;
    }
    match line[0] {
        b'<' => Call::Hear,
        b'>' => Call::Take,
        b'i' => Call::Inform,
        b't' => Call::Take,
        b'w' => Call::Write,
        _ => Call::Remark,
    }
}

// A line behind its first byte.
fn rest_of<'a>(line: &'a [u8]) -> &'a [u8] {
    if line.len() == 0 {
        return line;
    }
    &line[1..]
}

// The bytes that are lent: as many as two digits say, and else fewer than a set or a reply has.
fn room_of(line: &[u8]) -> usize
    ensures { result ≤ 128 }
{
    if line.len() != 3 {
        return 10;
    }
    if line[0] == b'<' {
        return 10;
    }
    digit(line[1]) * 10 + digit(line[2])
}

// A remark, or the state that a take comes in.
fn head(rt: &impl Print, line: &[u8]) {
    if line.len() == 0 {
        return;
    }
    if line[0] == b'#' {
        say(rt, &line[1..]);
        say(rt, b"\n");
    }
    if line[0] == b'>' {
        say(rt, b"  a take in ");
        say(rt, &line[1..]);
        say(rt, b"\n");
    }
}

// A line of the script.
fn act(
    rt: &impl Print,
    all: &mut [u8],
    names: &mut [u8],
    texts: &mut [usize],
    lens: &mut [usize],
    plans: &mut [usize],
    filed: &mut [usize],
    name: &mut [u8],
    text: &mut [u8],
    answers: &mut [u8],
    values: &mut [usize],
    held: &mut [usize],
    line: &[u8],
)
    requires { Reached (memory_of all.old names.old texts.old lens.old plans.old filed.old name.old text.old answers.old values.old held.old) }
    ensures { Reached (memory_of all.new names.new texts.new lens.new plans.new filed.new name.new text.new answers.new values.new held.new) }
{
    head(rt, line);
    lent(
        rt,
        all,
        names,
        texts,
        lens,
        plans,
        filed,
        name,
        text,
        answers,
        values,
        held,
        call_of(line),
        rest_of(line),
        room_of(line),
    );
}

// A script, line by line.
pub fn play(
    rt: &impl Print,
    all: &mut [u8],
    names: &mut [u8],
    texts: &mut [usize],
    lens: &mut [usize],
    plans: &mut [usize],
    filed: &mut [usize],
    name: &mut [u8],
    text: &mut [u8],
    answers: &mut [u8],
    values: &mut [usize],
    held: &mut [usize],
    script: &[u8],
)
    requires { Reached (memory_of all.old names.old texts.old lens.old plans.old filed.old name.old text.old answers.old values.old held.old) }
    ensures { Reached (memory_of all.new names.new texts.new lens.new plans.new filed.new name.new text.new answers.new values.new held.new) }
{
    let mut at = 0;
    while at < script.len() {
        let end = line_end(script, at);
        act(
            rt,
            all,
            names,
            texts,
            lens,
            plans,
            filed,
            name,
            text,
            answers,
            values,
            held,
            &script[at..end],
        );
        at = end + 1;
    }
}
