// Input to output, with no call of C: sets are taken and lines are heard until the input is used up or a buffer is full.
ghost use Rattle.std.specs.Prelude.{◌+◌, ◌-◌, ◌^◌, ◌<◌, ◌≤◌, ◌≡◌, length};
ghost use Rattle.call.specs.Call.{memory_of};
ghost use Rattle.flow.specs.Fill.{desk_of, place_of, Stands, Inside, Room, Ending, Clear, Steps, Fills};

use crate::cut::{Cut, cut_at};
use reports::calls::{PROGRAM, REFUSAL_ROOM, REPLY_ROOM, hear_line, take_set};
use tablets::counts::sets_left;
use wait::{SEEN, gather, line_of, put_kept};

// Where a run stands beside its bench: the bytes that wait for the end of their line, the lines that have come, and the sets that are
// still to be taken.
#[derive(Clone, Copy, Debug, PartialEq, Eq)]
pub struct Run {
    pub len: usize,
    pub lines: usize,
    pub left: usize,
}

// How far a run came: the place in the input, and where the bytes that wait for each stream end.
#[derive(Clone, Copy, Debug, PartialEq, Eq)]
pub struct Reach {
    pub run: Run,
    pub next: usize,
    pub out: usize,
    pub err: usize,
}

// The same, and whether the input is used up.
// Kept: Steps and Fills tell of both outcomes where the run stands, so that an enum of two variants, each with a Reach, is no plainer.
#[derive(Clone, Copy, Debug, PartialEq, Eq)]
pub struct Filled {
    pub reach: Reach,
    pub used: bool,
}

// A set that is left is taken.
fn step_take(
    reach: Reach,
    all: &[u8],
    names: &[u8],
    texts: &[usize],
    lens: &[usize],
    plans: &[usize],
    filed: &[usize],
    name: &mut [u8],
    text: &mut [u8],
    answers: &mut [u8],
    values: &mut [usize],
    held: &mut [usize],
    waiting: &[u8],
    input: &[u8],
    out: &mut [u8],
    err: &[u8],
) -> Filled
    requires stands { Stands (desk_of reach.run (memory_of all.now names.now texts.now lens.now plans.now filed.now name.old text.old answers.old values.old held.old) waiting.now) }
    requires room { Room reach input.now out.old err.now }
    requires left_nonzero { 0 < reach.run.left }
    ensures { Steps input.now (place_of reach (memory_of all.now names.now texts.now lens.now plans.now filed.now name.old text.old answers.old values.old held.old) waiting.now) out.old err.now (place_of result.reach (memory_of all.now names.now texts.now lens.now plans.now filed.now name.new text.new answers.new values.new held.new) waiting.now) result.used out.new err.now }
{
    let end = take_set(
        all, names, texts, lens, plans, filed, name, text, answers, values, held, out, reach.out,
    );
    let run = Run {
        left: reach.run.left - 1,
        ..reach.run
    };
    let reach = Reach {
        run,
        out: end,
        ..reach
    };
    Filled { reach, used: false }
}

// The input is used up, and waits for the end of its line.
fn step_wait(
    reach: Reach,
    all: &[u8],
    names: &[u8],
    texts: &[usize],
    lens: &[usize],
    plans: &[usize],
    filed: &[usize],
    name: &[u8],
    text: &[u8],
    answers: &[u8],
    values: &[usize],
    held: &[usize],
    waiting: &mut [u8],
    input: &[u8],
    out: &[u8],
    err: &[u8],
) -> Filled
    requires stands { Stands (desk_of reach.run (memory_of all.now names.now texts.now lens.now plans.now filed.now name.now text.now answers.now values.now held.now) waiting.old) }
    requires room { Room reach input.now out.now err.now }
    requires left_value { reach.run.left ≡ 0 }
    requires ending { Ending input.now reach.next (length input.now) }
    ensures { Steps input.now (place_of reach (memory_of all.now names.now texts.now lens.now plans.now filed.now name.now text.now answers.now values.now held.now) waiting.old) out.now err.now (place_of result.reach (memory_of all.now names.now texts.now lens.now plans.now filed.now name.now text.now answers.now values.now held.now) waiting.new) result.used out.now err.now }
{
    let len = put_kept::<SEEN>(waiting, reach.run.len, &input[reach.next..]);
    let run = Run { len, ..reach.run };
    let reach = Reach {
        run,
        next: input.len(),
        ..reach
    };
    Filled { reach, used: true }
}

// A line that ends at a place is heard.
fn step_hear(
    reach: Reach,
    all: &mut [u8],
    names: &mut [u8],
    texts: &mut [usize],
    lens: &mut [usize],
    plans: &mut [usize],
    filed: &mut [usize],
    name: &mut [u8],
    text: &mut [u8],
    answers: &mut [u8],
    values: &mut [usize],
    held: &mut [usize],
    waiting: &mut [u8],
    input: &[u8],
    end: usize,
    out: &mut [u8],
    err: &mut [u8],
    shown: bool,
) -> Filled
    requires stands { Stands (desk_of reach.run (memory_of all.old names.old texts.old lens.old plans.old filed.old name.old text.old answers.old values.old held.old) waiting.old) }
    requires room { Room reach input.now out.old err.old }
    requires left_value { reach.run.left ≡ 0 }
    requires ending { (Ending input.now reach.next end) × (end < length input.now) }
    requires clear { Clear input.now reach.next reach.run.len end shown }
    ensures { Steps input.now (place_of reach (memory_of all.old names.old texts.old lens.old plans.old filed.old name.old text.old answers.old values.old held.old) waiting.old) out.old err.old (place_of result.reach (memory_of all.new names.new texts.new lens.new plans.new filed.new name.new text.new answers.new values.new held.new) waiting.new) result.used out.new err.new }
{
    let run = reach.run;
    let rest = &input[reach.next..end];
    let whole = run.len == 0;
    let n = gather::<SEEN>(waiting, run.len, rest, whole);
    let s = line_of(rest, &waiting[..n], whole);
    let lines = run.lines + 1;
    let called = hear_line(
        all, names, texts, lens, plans, filed, name, text, answers, values, held, s, lines, out,
        reach.out, err, reach.err, shown,
    );
    let left = sets_left(held, PROGRAM);
    let run = Run {
        len: 0,
        lines,
        left,
    };
    let reach = Reach {
        run,
        next: end + 1,
        out: called.out,
        err: called.err,
    };
    Filled { reach, used: false }
}

// A step: a set that is left is taken; or the next line is heard; or the input is used up, and waits for the end of its line.
fn step(
    reach: Reach,
    all: &mut [u8],
    names: &mut [u8],
    texts: &mut [usize],
    lens: &mut [usize],
    plans: &mut [usize],
    filed: &mut [usize],
    name: &mut [u8],
    text: &mut [u8],
    answers: &mut [u8],
    values: &mut [usize],
    held: &mut [usize],
    waiting: &mut [u8],
    input: &[u8],
    out: &mut [u8],
    err: &mut [u8],
) -> Filled
    requires stands { Stands (desk_of reach.run (memory_of all.old names.old texts.old lens.old plans.old filed.old name.old text.old answers.old values.old held.old) waiting.old) }
    requires room { Room reach input.now out.old err.old }
    ensures { Steps input.now (place_of reach (memory_of all.old names.old texts.old lens.old plans.old filed.old name.old text.old answers.old values.old held.old) waiting.old) out.old err.old (place_of result.reach (memory_of all.new names.new texts.new lens.new plans.new filed.new name.new text.new answers.new values.new held.new) waiting.new) result.used out.new err.new }
{
    let run = reach.run;
    if 0 < run.left {
        return step_take(
            reach, all, names, texts, lens, plans, filed, name, text, answers, values, held,
            waiting, input, out, err,
        );
    }
    let Cut { end, shown } = cut_at(input, reach.next, run.len);
    if end == input.len() {
        return step_wait(
            reach, all, names, texts, lens, plans, filed, name, text, answers, values, held,
            waiting, input, out, err,
        );
    }
    step_hear(
        reach, all, names, texts, lens, plans, filed, name, text, answers, values, held, waiting,
        input, end, out, err, shown,
    )
}

// Fills the buffers behind the bytes that wait, until the input is used up or a buffer lacks room for what a step can say.
pub fn fill(
    reach: Reach,
    all: &mut [u8],
    names: &mut [u8],
    texts: &mut [usize],
    lens: &mut [usize],
    plans: &mut [usize],
    filed: &mut [usize],
    name: &mut [u8],
    text: &mut [u8],
    answers: &mut [u8],
    values: &mut [usize],
    held: &mut [usize],
    waiting: &mut [u8],
    input: &[u8],
    out: &mut [u8],
    err: &mut [u8],
) -> Filled
    requires stands { Stands (desk_of reach.run (memory_of all.old names.old texts.old lens.old plans.old filed.old name.old text.old answers.old values.old held.old) waiting.old) }
    requires inside { Inside reach input.now out.old err.old }
    ensures { Fills input.now (place_of reach (memory_of all.old names.old texts.old lens.old plans.old filed.old name.old text.old answers.old values.old held.old) waiting.old) out.old err.old (place_of result.reach (memory_of all.new names.new texts.new lens.new plans.new filed.new name.new text.new answers.new values.new held.new) waiting.new) result.used out.new err.new }
{
    let mut reach = reach;
    loop {
        if out.len() - reach.out < REPLY_ROOM || err.len() - reach.err < REFUSAL_ROOM {
            return Filled { reach, used: false };
        }
        let filled = step(
            reach, all, names, texts, lens, plans, filed, name, text, answers, values, held,
            waiting, input, out, err,
        );
        if filled.used {
            return filled;
        }
        reach = filled.reach;
    }
}
