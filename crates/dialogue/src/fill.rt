// Input to output, with no call of C: lines are answered until the input is used up or the buffer is full.
ghost use Rattle.std.specs.Prelude.{◌<◌, ◌≡◌, length};
ghost use Rattle.call.specs.Call.{memory_of};
ghost use Rattle.flow.specs.Fill.{Ending, Clear};
ghost use Rattle.dialogue.specs.Fill.{desk_of, place_of, Stands, Inside, Room, Steps, Fills};

use crate::records::{RECORD_ROOM, talk_line};
use flow::cut::{Cut, cut_at};
use wait::{gather, line_of, put_kept};

// So many bytes of an input line are looked at: the longest number of a tablet with its space, and one more than its longest line has.
const SEEN: usize = 263;

// How far a run came: the bytes that wait for the end of their line, the place in the input, and where the bytes that wait for
// standard output end.
#[derive(Clone, Copy, Debug, PartialEq, Eq)]
pub struct Reach {
    pub len: usize,
    pub next: usize,
    pub out: usize,
}

// The same, and whether the input is used up.
// Kept: Steps and Fills tell of both outcomes where the run stands, so that an enum of two variants, each with a Reach, is no plainer.
#[derive(Clone, Copy, Debug, PartialEq, Eq)]
pub struct Filled {
    pub reach: Reach,
    pub used: bool,
}

// A line that ends at a place is answered.
fn step_line(
    reach: Reach,
    all: &mut [u8],
    names: &mut [u8],
    texts: &mut [usize],
    lens: &mut [usize],
    plans: &mut [usize],
    filed: &mut [usize],
    name: &mut [u8],
    text: &mut [u8],
    answers: &mut [u8],
    values: &mut [usize],
    held: &mut [usize],
    waiting: &mut [u8],
    input: &[u8],
    end: usize,
    reply: &mut [u8],
    out: &mut [u8],
    shown: bool,
) -> Filled
    requires stands { Stands (desk_of reach.len (memory_of all.old names.old texts.old lens.old plans.old filed.old name.old text.old answers.old values.old held.old) waiting.old) }
    requires room { Room reach input.now reply.old out.old }
    requires ending { (Ending input.now reach.next end) × (end < length input.now) }
    requires clear { Clear input.now reach.next reach.len end shown }
    ensures { Steps input.now (place_of reach (memory_of all.old names.old texts.old lens.old plans.old filed.old name.old text.old answers.old values.old held.old) waiting.old) out.old (place_of result.reach (memory_of all.new names.new texts.new lens.new plans.new filed.new name.new text.new answers.new values.new held.new) waiting.new) result.used out.new }
{
    let rest = &input[reach.next..end];
    let n = gather::<SEEN>(waiting, reach.len, rest, shown);
    let s = line_of(rest, &waiting[..n], shown);
    let at = talk_line(
        all, names, texts, lens, plans, filed, name, text, answers, values, held, s, reply, out,
        reach.out, shown,
    );
    let reach = Reach {
        len: 0,
        next: end + 1,
        out: at,
    };
    Filled { reach, used: false }
}

// A step: the next line is answered, or the input is used up and waits for the end of its line.
fn step(
    reach: Reach,
    all: &mut [u8],
    names: &mut [u8],
    texts: &mut [usize],
    lens: &mut [usize],
    plans: &mut [usize],
    filed: &mut [usize],
    name: &mut [u8],
    text: &mut [u8],
    answers: &mut [u8],
    values: &mut [usize],
    held: &mut [usize],
    waiting: &mut [u8],
    input: &[u8],
    reply: &mut [u8],
    out: &mut [u8],
) -> Filled
    requires stands { Stands (desk_of reach.len (memory_of all.old names.old texts.old lens.old plans.old filed.old name.old text.old answers.old values.old held.old) waiting.old) }
    requires room { Room reach input.now reply.old out.old }
    ensures { Steps input.now (place_of reach (memory_of all.old names.old texts.old lens.old plans.old filed.old name.old text.old answers.old values.old held.old) waiting.old) out.old (place_of result.reach (memory_of all.new names.new texts.new lens.new plans.new filed.new name.new text.new answers.new values.new held.new) waiting.new) result.used out.new }
{
    let next = reach.next;
    let Cut { end, shown } = cut_at(input, next, reach.len);
    if end == input.len() {
        let len = put_kept::<SEEN>(waiting, reach.len, &input[next..]);
        let reach = Reach {
            len,
            next: input.len(),
            ..reach
        };
        return Filled { reach, used: true };
    }
    step_line(
        reach, all, names, texts, lens, plans, filed, name, text, answers, values, held, waiting,
        input, end, reply, out, shown,
    )
}

// Fills the buffer behind the bytes that wait, until the input is used up or the buffer lacks room for a record.
pub fn fill(
    reach: Reach,
    all: &mut [u8],
    names: &mut [u8],
    texts: &mut [usize],
    lens: &mut [usize],
    plans: &mut [usize],
    filed: &mut [usize],
    name: &mut [u8],
    text: &mut [u8],
    answers: &mut [u8],
    values: &mut [usize],
    held: &mut [usize],
    waiting: &mut [u8],
    input: &[u8],
    reply: &mut [u8],
    out: &mut [u8],
) -> Filled
    requires stands { Stands (desk_of reach.len (memory_of all.old names.old texts.old lens.old plans.old filed.old name.old text.old answers.old values.old held.old) waiting.old) }
    requires inside { Inside reach input.now reply.old out.old }
    ensures { Fills input.now (place_of reach (memory_of all.old names.old texts.old lens.old plans.old filed.old name.old text.old answers.old values.old held.old) waiting.old) out.old (place_of result.reach (memory_of all.new names.new texts.new lens.new plans.new filed.new name.new text.new answers.new values.new held.new) waiting.new) result.used out.new }
{
    let mut reach = reach;
    loop {
        if out.len() - reach.out < RECORD_ROOM {
            return Filled { reach, used: false };
        }
        let filled = step(
            reach, all, names, texts, lens, plans, filed, name, text, answers, values, held,
            waiting, input, reply, out,
        );
        if filled.used {
            return filled;
        }
        reach = filled.reach;
    }
}
