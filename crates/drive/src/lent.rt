// Calls with a buffer lent: the buffer before, the answer, and the buffer after.
ghost use Rattle.std.specs.Prelude.{◌≤◌};
ghost use Rattle.call.specs.Call.{memory_of};
ghost use Rattle.tablets.specs.Calls.{Reached, Counts};

use crate::show::{say, say_number, show, show_answer};
use command::Answer;
use desk::hear;
use line::read::read_line;
use normal::write::write_line;
use tablets::counts::sets_left;
use tablets::sets::take;

// The tablet that plays the script, with the bench to itself.
const PLAYER: usize = 0;

// What a line of the script asks for.
#[derive(Clone, Copy, Debug, PartialEq, Eq)]
pub enum Call {
    Hear,
    Inform,
    Take,
    Write,
    Remark,
}

// A line with zeros and a backslash that the normal form leaves out, read and written.
fn written(buf: &mut [u8]) -> Answer {
    let source = b"A050,030,0,3,01,1,N,\"\\Mia \\\"M\\\"\"C0";
    write_line(source, read_line(source), buf)
}

// A call. A remark calls nothing of the bench: the line is written for it too, and is not shown.
fn called(
    all: &mut [u8],
    names: &mut [u8],
    texts: &mut [usize],
    lens: &mut [usize],
    plans: &mut [usize],
    filed: &mut [usize],
    name: &mut [u8],
    text: &mut [u8],
    answers: &mut [u8],
    values: &mut [usize],
    held: &mut [usize],
    call: Call,
    line: &[u8],
    buf: &mut [u8],
) -> Answer
    requires { Reached (memory_of all.old names.old texts.old lens.old plans.old filed.old name.old text.old answers.old values.old held.old) }
    ensures { Reached (memory_of all.new names.new texts.new lens.new plans.new filed.new name.new text.new answers.new values.new held.new) }
{
    match call {
        Call::Hear => hear(
            all, names, texts, lens, plans, filed, name, text, answers, values, held, PLAYER, line,
            buf,
        ),
        Call::Inform => hear(
            all, names, texts, lens, plans, filed, name, text, answers, values, held, PLAYER,
            b"FI", buf,
        ),
        Call::Take => {
            let served = take(
                all, names, texts, lens, plans, filed, name, text, answers, values, held, buf,
            );
            served.answer
        }
        _ => written(buf),
    }
}

// The sets that a take leaves.
fn show_left(rt: &impl Print, held: &[usize], call: Call)
    requires { Counts held.now }
{
    let Call::Take = call else {
        return;
    };
    say(rt, b"    sets left: ");
    say_number(rt, sets_left(held, PLAYER));
    say(rt, b"\n");
}

// What is shown before a call: the line, or the buffer.
fn show_before(rt: &impl Print, call: Call, line: &[u8], buf: &[u8]) {
    match call {
        Call::Remark => {}
        Call::Hear => {
            say(rt, b"  ");
            say(rt, line);
            say(rt, b"  ");
        }
        _ => {
            say(rt, b"  lent ");
            say_number(rt, buf.len());
            say(rt, b"\n    before ");
            show(rt, buf);
        }
    }
}

// What is shown after it: the answer, and the buffer.
fn show_after(rt: &impl Print, call: Call, answer: Answer, buf: &[u8]) {
    match call {
        Call::Remark => {}
        Call::Hear => show_answer(rt, answer),
        _ => {
            say(rt, b"    ");
            show_answer(rt, answer);
            say(rt, b"    after  ");
            show(rt, buf);
        }
    }
}

// A call, shown with its buffer before and after.
fn shown(
    rt: &impl Print,
    all: &mut [u8],
    names: &mut [u8],
    texts: &mut [usize],
    lens: &mut [usize],
    plans: &mut [usize],
    filed: &mut [usize],
    name: &mut [u8],
    text: &mut [u8],
    answers: &mut [u8],
    values: &mut [usize],
    held: &mut [usize],
    call: Call,
    line: &[u8],
    buf: &mut [u8],
)
    requires { Reached (memory_of all.old names.old texts.old lens.old plans.old filed.old name.old text.old answers.old values.old held.old) }
    ensures { Reached (memory_of all.new names.new texts.new lens.new plans.new filed.new name.new text.new answers.new values.new held.new) }
{
    show_before(rt, call, line, buf);
    let answer = called(
        all, names, texts, lens, plans, filed, name, text, answers, values, held, call, line, buf,
    );
    show_after(rt, call, answer, buf);
    show_left(rt, held, call);
}

// A call with so many marks for a buffer.
pub fn lent(
    rt: &impl Print,
    all: &mut [u8],
    names: &mut [u8],
    texts: &mut [usize],
    lens: &mut [usize],
    plans: &mut [usize],
    filed: &mut [usize],
    name: &mut [u8],
    text: &mut [u8],
    answers: &mut [u8],
    values: &mut [usize],
    held: &mut [usize],
    call: Call,
    line: &[u8],
    room: usize,
)
    requires reached { Reached (memory_of all.old names.old texts.old lens.old plans.old filed.old name.old text.old answers.old values.old held.old) }
    requires room_bound { room ≤ 128 }
    ensures { Reached (memory_of all.new names.new texts.new lens.new plans.new filed.new name.new text.new answers.new values.new held.new) }
{
    let mut marks = [46u8; 128];
    shown(
        rt,
        all,
        names,
        texts,
        lens,
        plans,
        filed,
        name,
        text,
        answers,
        values,
        held,
        call,
        line,
        &mut marks[..room],
    );
}
