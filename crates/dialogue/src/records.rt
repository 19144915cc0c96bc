// An input line of a class and its record, behind the bytes that wait in the program's buffer.
ghost use Rattle.std.specs.Prelude.{◌+◌, ◌≤◌, ◌≡◌, true, length};
ghost use Rattle.paper.specs.Byte.{every};
ghost use Rattle.paper.specs.Command.{is_shown};
ghost use Rattle.paper.specs.Program.{enough};
ghost use Rattle.paper.specs.Class.{hear_from, take_next};
ghost use Rattle.command.specs.View.{width};
ghost use Rattle.call.specs.Call.{memory_of};
ghost use Rattle.tablets.specs.Calls.{Reached};
ghost use Rattle.dialogue.specs.Emit.{line_reply};
ghost use Rattle.dialogue.specs.Tell.{size_of, PutsRecord, Tells};

use command::{Answer, Refusal};
use desk::hear_from;
use tablets::counts::sets_left;
use tablets::sets::{Served, take};
use talk::asked::{Asked, asked_in};
use talk::heads::{HEAD_ROOM, put_no, put_ok};
use text::write::put_all;

// Room for any reply: the paper's `enough`. No set is longer, whatever room a take names.
const REPLY_ROOM: usize = 10291;

// Room for any record: its first line, and a reply or a set.
pub const RECORD_ROOM: usize = HEAD_ROOM + REPLY_ROOM;

// The record of an answer to a tablet that has so many sets left; the bytes of an accepted one stand at the front of a buffer.
fn put_record(
    out: &mut [u8],
    at: usize,
    tablet: usize,
    left: usize,
    answer: Answer,
    reply: &[u8],
) -> usize
    requires at_in_bounds { at + 10357 ≤ length out.old }
    requires answer_bound { (size_of answer ≤ 10291) × (10291 ≤ length reply.now) }
    ensures { PutsRecord tablet left answer reply.now out.old at out.new result }
{
    match answer {
        Ok(len) => {
            let next = put_ok(out, at, tablet, left, len);
            put_all(out, next, &reply[..len])
        }
        Err(why) => put_no(out, at, why),
    }
}

// A line of a tablet, with its record.
fn talk_hear(
    all: &mut [u8],
    names: &mut [u8],
    texts: &mut [usize],
    lens: &mut [usize],
    plans: &mut [usize],
    filed: &mut [usize],
    name: &mut [u8],
    text: &mut [u8],
    answers: &mut [u8],
    values: &mut [usize],
    held: &mut [usize],
    t: usize,
    s: &[u8],
    reply: &mut [u8],
    out: &mut [u8],
    at: usize,
    shown: bool,
) -> usize
    requires reached { Reached (memory_of all.old names.old texts.old lens.old plans.old filed.old name.old text.old answers.old values.old held.old) }
    requires in_bounds { (99999 ≤ length reply.old) × (at + 10357 ≤ length out.old) }
    requires s_value { shown ≡ true → every is_shown s.now ≡ true }
    ensures { Tells (memory_of all.old names.old texts.old lens.old plans.old filed.old name.old text.old answers.old values.old held.old) (λ c. hear_from width enough c t s.now) out.old at (memory_of all.new names.new texts.new lens.new plans.new filed.new name.new text.new answers.new values.new held.new) out.new result }
{
    let answer = hear_from(
        all,
        names,
        texts,
        lens,
        plans,
        filed,
        name,
        text,
        answers,
        values,
        held,
        t,
        s,
        &mut reply[..REPLY_ROOM],
        shown,
    );
    let left = sets_left(held, t);
    put_record(out, at, t, left, answer, reply)
}

// A take with so much room, and its record.
fn talk_take(
    all: &[u8],
    names: &[u8],
    texts: &[usize],
    lens: &[usize],
    plans: &[usize],
    filed: &[usize],
    name: &mut [u8],
    text: &mut [u8],
    answers: &mut [u8],
    values: &mut [usize],
    held: &mut [usize],
    room: usize,
    reply: &mut [u8],
    out: &mut [u8],
    at: usize,
) -> usize
    requires reached { Reached (memory_of all.now names.now texts.now lens.now plans.now filed.now name.old text.old answers.old values.old held.old) }
    requires in_bounds { (99999 ≤ length reply.old) × (at + 10357 ≤ length out.old) }
    requires room_bound { room ≤ 99999 }
    ensures { Tells (memory_of all.now names.now texts.now lens.now plans.now filed.now name.old text.old answers.old values.old held.old) (λ c. take_next room c) out.old at (memory_of all.now names.now texts.now lens.now plans.now filed.now name.new text.new answers.new values.new held.new) out.new result }
{
    let served = take(
        all,
        names,
        texts,
        lens,
        plans,
        filed,
        name,
        text,
        answers,
        values,
        held,
        &mut reply[..room],
    );
    let Served { tablet, answer } = served;
    let left = sets_left(held, tablet);
    put_record(out, at, tablet, left, answer, reply)
}

// An input line, which may be known to be free of bytes below 20H, and its record.
pub fn talk_line(
    all: &mut [u8],
    names: &mut [u8],
    texts: &mut [usize],
    lens: &mut [usize],
    plans: &mut [usize],
    filed: &mut [usize],
    name: &mut [u8],
    text: &mut [u8],
    answers: &mut [u8],
    values: &mut [usize],
    held: &mut [usize],
    s: &[u8],
    reply: &mut [u8],
    out: &mut [u8],
    at: usize,
    shown: bool,
) -> usize
    requires reached { Reached (memory_of all.old names.old texts.old lens.old plans.old filed.old name.old text.old answers.old values.old held.old) }
    requires in_bounds { (99999 ≤ length reply.old) × (at + 10357 ≤ length out.old) }
    requires s_value { shown ≡ true → every is_shown s.now ≡ true }
    ensures { Tells (memory_of all.old names.old texts.old lens.old plans.old filed.old name.old text.old answers.old values.old held.old) (λ c. line_reply c s.now) out.old at (memory_of all.new names.new texts.new lens.new plans.new filed.new name.new text.new answers.new values.new held.new) out.new result }
{
    let Some(asked) = asked_in(s) else {
        return put_no(out, at, Refusal::NoTablet);
    };
    match asked {
        Asked::Line { tablet, at: start } => talk_hear(
            all,
            names,
            texts,
            lens,
            plans,
            filed,
            name,
            text,
            answers,
            values,
            held,
            tablet,
            &s[start..],
            reply,
            out,
            at,
            shown,
        ),
        Asked::Take { room } => talk_take(
            all, names, texts, lens, plans, filed, name, text, answers, values, held, room, reply,
            out, at,
        ),
    }
}
