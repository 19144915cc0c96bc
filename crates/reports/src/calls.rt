// The calls of the bench, each with its bytes behind those that wait in the program's buffers.
ghost use Rattle.std.specs.Prelude.{◌+◌, ◌≤◌, ◌≡◌, true, length};
ghost use Rattle.paper.specs.Byte.{every};
ghost use Rattle.paper.specs.Command.{is_shown};
ghost use Rattle.paper.specs.Refusal as R;
ghost use Rattle.paper.specs.Program.{out_of};
ghost use Rattle.command.specs.Answer as C;
ghost use Rattle.call.specs.Call.{memory_of};
ghost use Rattle.reports.specs.Said.{Sole, HearsAt, TakesAt};

use crate::refusals::put_refusal;
use command::Answer;
use desk::hear_from;
use tablets::sets::take;

// The tablet that the program is: it has the bench to itself.
pub const PROGRAM: usize = 0;

// Room for any reply or set: the paper's `enough`.
pub const REPLY_ROOM: usize = 10291;

// Room for any refusal: at most three numbers of 20 digits, each with a byte behind it.
pub const REFUSAL_ROOM: usize = 64;

// Where the bytes that wait for each stream end.
#[derive(Clone, Copy)]
pub struct Called {
    pub out: usize,
    pub err: usize,
}

// The bytes that an answer says it wrote.
fn bytes_of(answer: Answer) -> usize
    ensures { (p : R.Answer) → C.Reports answer p → result ≡ length (out_of p) }
{
    answer.unwrap_or(0)
}

// The input line of a number is heard, which may be known to be free of bytes below 20H: its reply goes to one buffer, its refusal to
// the other.
pub fn hear_line(
    all: &mut [u8],
    names: &mut [u8],
    texts: &mut [usize],
    lens: &mut [usize],
    plans: &mut [usize],
    filed: &mut [usize],
    name: &mut [u8],
    text: &mut [u8],
    answers: &mut [u8],
    values: &mut [usize],
    held: &mut [usize],
    s: &[u8],
    k: usize,
    out: &mut [u8],
    at: usize,
    err: &mut [u8],
    place: usize,
    shown: bool,
) -> Called
    requires sole { Sole (memory_of all.old names.old texts.old lens.old plans.old filed.old name.old text.old answers.old values.old held.old) }
    requires at_in_bounds { (at + 10291 ≤ length out.old) × (place + 64 ≤ length err.old) }
    requires s_value { shown ≡ true → every is_shown s.now ≡ true }
    ensures { HearsAt (memory_of all.old names.old texts.old lens.old plans.old filed.old name.old text.old answers.old values.old held.old) s.now k out.old at err.old place (memory_of all.new names.new texts.new lens.new plans.new filed.new name.new text.new answers.new values.new held.new) out.new result.out err.new result.err }
{
    let end = at + REPLY_ROOM;
    let answer = hear_from(
        all,
        names,
        texts,
        lens,
        plans,
        filed,
        name,
        text,
        answers,
        values,
        held,
        PROGRAM,
        s,
        &mut out[at..end],
        shown,
    );
    Called {
        out: at + bytes_of(answer),
        err: put_refusal(err, place, k, answer),
    }
}

// A set is taken; where its bytes end.
pub fn take_set(
    all: &[u8],
    names: &[u8],
    texts: &[usize],
    lens: &[usize],
    plans: &[usize],
    filed: &[usize],
    name: &mut [u8],
    text: &mut [u8],
    answers: &mut [u8],
    values: &mut [usize],
    held: &mut [usize],
    out: &mut [u8],
    at: usize,
) -> usize
    requires sole { Sole (memory_of all.now names.now texts.now lens.now plans.now filed.now name.old text.old answers.old values.old held.old) }
    requires at_in_bounds { at + 10291 ≤ length out.old }
    ensures { TakesAt (memory_of all.now names.now texts.now lens.now plans.now filed.now name.old text.old answers.old values.old held.old) out.old at (memory_of all.now names.now texts.now lens.now plans.now filed.now name.new text.new answers.new values.new held.new) out.new result }
{
    let end = at + REPLY_ROOM;
    let served = take(
        all,
        names,
        texts,
        lens,
        plans,
        filed,
        name,
        text,
        answers,
        values,
        held,
        &mut out[at..end],
    );
    at + bytes_of(served.answer)
}
