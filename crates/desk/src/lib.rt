// Lines with the number of their tablet: what the other tablets forbid, whose session hears the line, and how many print behind it.
#![tactic(auto)]

ghost use Rattle.std.specs.Prelude.{ℕ, ◌*◌, ◌<◌, ◌≡◌, true, ◌&&◌, length, get_or, eqb};
ghost use Rattle.paper.specs.Byte.{every};
ghost use Rattle.paper.specs.Command.{is_shown};
ghost use Rattle.text.specs.Place.{byte_at};
ghost use Rattle.call.specs.Call.{memory_of};
ghost use Rattle.session.specs.Memory.{Session};
ghost use Rattle.seats.specs.Seats.{lowered, with_held};
ghost use Rattle.lend.specs.Laid.{numbered};
ghost use Rattle.tablets.specs.Calls.{Reached, Warns, HearsLine};

use command::{Answer, Refusal};
use guard::{Guard, Leaving, guarded};
use lend::{seat_answer, seat_command, seat_fault};
use line::clear::is_clear;
use seats::lower::lower;
use seats::numbers::{TABLETS, WIDTH, filed_of};
use tablets::counts::{NUMBERS, recount};
use text::read::byte_at;
use wait::{SEEN, put_kept};

// The tags of a session that is Idle, and of one of which an answer is asked.
const IDLE: usize = 0;

const ANSWERING: usize = 4;

// A line of a tablet in a state of this tag may be one to the store, which the others may forbid.
fn files(tag: usize, s: &[u8]) -> bool
    ensures { result ≡ (eqb tag 0 && eqb (byte_at s.now 0) 70) }
{
    if tag != IDLE {
        return false;
    }
    byte_at(s, 0) == b'F'
}

// What the others make of a line of tablet t, which is Idle.
fn warned(
    all: &[u8],
    names: &[u8],
    texts: &[usize],
    lens: &[usize],
    plans: &[usize],
    filed: &[usize],
    name: &[u8],
    text: &[u8],
    answers: &[u8],
    values: &[usize],
    held: &[usize],
    t: usize,
    s: &[u8],
) -> Guard
    requires reached { Reached (memory_of all.now names.now texts.now lens.now plans.now filed.now name.now text.now answers.now values.now held.now) }
    requires t_bound { t < 30 }
    requires s_value { every is_shown s.now ≡ true }
    requires t_value { get_or held.now (t * 10) 0 ≡ 0 }
    ensures { Warns (memory_of all.now names.now texts.now lens.now plans.now filed.now name.now text.now answers.now values.now held.now) t s.now result }
{
    guarded(
        filed_of(filed),
        all,
        names,
        texts,
        lens,
        &held[..NUMBERS],
        t,
        s,
    )
}

// Form n, of so many bytes, has left the store: the sessions that hold a form behind it follow.
fn follow(held: &mut [usize], n: usize, size: usize)
    requires { length held.old ≡ 302 }
    ensures by_index { (f : ℕ → Session) (last printing : ℕ) → held.old ≡ numbered f last printing → held.new ≡ numbered (λ k. with_held (lowered n size (f k).held) (f k)) last printing }
    ensures held_len { length held.new ≡ 302 }
{
    lower(&mut held[..NUMBERS], n, size)
}

// A line of a tablet that is Idle: what the others forbid is refused, and where a form leaves they follow.
fn hear_filing(
    all: &mut [u8],
    names: &mut [u8],
    texts: &mut [usize],
    lens: &mut [usize],
    plans: &mut [usize],
    filed: &mut [usize],
    name: &mut [u8],
    text: &mut [u8],
    answers: &mut [u8],
    values: &mut [usize],
    held: &mut [usize],
    t: usize,
    s: &[u8],
    reply: &mut [u8],
) -> Answer
    requires reached { Reached (memory_of all.old names.old texts.old lens.old plans.old filed.old name.old text.old answers.old values.old held.old) }
    requires t_bound { t < 30 }
    requires s_value { every is_shown s.now ≡ true }
    requires t_value { get_or held.old (t * 10) 0 ≡ 0 }
    ensures { HearsLine (memory_of all.old names.old texts.old lens.old plans.old filed.old name.old text.old answers.old values.old held.old) t s.now reply.old (memory_of all.new names.new texts.new lens.new plans.new filed.new name.new text.new answers.new values.new held.new) reply.new result }
{
    let leaving = warned(
        all, names, texts, lens, plans, filed, name, text, answers, values, held, t, s,
    )?;
    let answer = seat_command(
        all, names, texts, lens, plans, filed, name, text, answers, values, held, t, s, reply,
    );
    let Some(Leaving { n, size }) = leaving else {
        return answer;
    };
    follow(held, n, size);
    answer
}

// A line without control bytes.
fn hear_shown(
    all: &mut [u8],
    names: &mut [u8],
    texts: &mut [usize],
    lens: &mut [usize],
    plans: &mut [usize],
    filed: &mut [usize],
    name: &mut [u8],
    text: &mut [u8],
    answers: &mut [u8],
    values: &mut [usize],
    held: &mut [usize],
    t: usize,
    s: &[u8],
    reply: &mut [u8],
) -> Answer
    requires reached { Reached (memory_of all.old names.old texts.old lens.old plans.old filed.old name.old text.old answers.old values.old held.old) }
    requires t_bound { t < 30 }
    requires s_value { every is_shown s.now ≡ true }
    ensures { HearsLine (memory_of all.old names.old texts.old lens.old plans.old filed.old name.old text.old answers.old values.old held.old) t s.now reply.old (memory_of all.new names.new texts.new lens.new plans.new filed.new name.new text.new answers.new values.new held.new) reply.new result }
{
    let was = held[t * WIDTH];
    if was == ANSWERING {
        return seat_answer(
            all, names, texts, lens, plans, filed, name, text, answers, values, held, t, s, reply,
        );
    }
    if files(was, s) {
        return hear_filing(
            all, names, texts, lens, plans, filed, name, text, answers, values, held, t, s, reply,
        );
    }
    let answer = seat_command(
        all, names, texts, lens, plans, filed, name, text, answers, values, held, t, s, reply,
    );
    recount(held, was, t);
    answer
}

// A line with bytes below 20H: what is left without CR and 1AH is heard if it has no more of them, and else refused.
fn hear_dropped(
    all: &mut [u8],
    names: &mut [u8],
    texts: &mut [usize],
    lens: &mut [usize],
    plans: &mut [usize],
    filed: &mut [usize],
    name: &mut [u8],
    text: &mut [u8],
    answers: &mut [u8],
    values: &mut [usize],
    held: &mut [usize],
    t: usize,
    s: &[u8],
    reply: &mut [u8],
) -> Answer
    requires reached { Reached (memory_of all.old names.old texts.old lens.old plans.old filed.old name.old text.old answers.old values.old held.old) }
    requires t_bound { t < 30 }
    ensures { HearsLine (memory_of all.old names.old texts.old lens.old plans.old filed.old name.old text.old answers.old values.old held.old) t s.now reply.old (memory_of all.new names.new texts.new lens.new plans.new filed.new name.new text.new answers.new values.new held.new) reply.new result }
{
    let mut line = [0u8; SEEN];
    let n = put_kept::<SEEN>(&mut line, 0, s);
    if is_clear(&line[..n]) {
        return hear_shown(
            all,
            names,
            texts,
            lens,
            plans,
            filed,
            name,
            text,
            answers,
            values,
            held,
            t,
            &line[..n],
            reply,
        );
    }
    seat_fault(
        all, names, texts, lens, plans, filed, name, text, answers, values, held, t, n,
    )
}

// A line of which it is known whether it is free of bytes below 20H.
pub fn hear_from(
    all: &mut [u8],
    names: &mut [u8],
    texts: &mut [usize],
    lens: &mut [usize],
    plans: &mut [usize],
    filed: &mut [usize],
    name: &mut [u8],
    text: &mut [u8],
    answers: &mut [u8],
    values: &mut [usize],
    held: &mut [usize],
    t: usize,
    s: &[u8],
    reply: &mut [u8],
    shown: bool,
) -> Answer
    requires reached { Reached (memory_of all.old names.old texts.old lens.old plans.old filed.old name.old text.old answers.old values.old held.old) }
    requires s_value { shown ≡ true → every is_shown s.now ≡ true }
    ensures { HearsLine (memory_of all.old names.old texts.old lens.old plans.old filed.old name.old text.old answers.old values.old held.old) t s.now reply.old (memory_of all.new names.new texts.new lens.new plans.new filed.new name.new text.new answers.new values.new held.new) reply.new result }
{
    if TABLETS <= t {
        return Err(Refusal::NoTablet);
    }
    if !shown {
        return hear_dropped(
            all, names, texts, lens, plans, filed, name, text, answers, values, held, t, s, reply,
        );
    }
    let was = held[t * WIDTH];
    if was == ANSWERING {
        return seat_answer(
            all, names, texts, lens, plans, filed, name, text, answers, values, held, t, s, reply,
        );
    }
    if files(was, s) {
        return hear_filing(
            all, names, texts, lens, plans, filed, name, text, answers, values, held, t, s, reply,
        );
    }
    let answer = seat_command(
        all, names, texts, lens, plans, filed, name, text, answers, values, held, t, s, reply,
    );
    recount(held, was, t);
    answer
}

// A line that a tablet sends, without its LF, with a buffer for the reply.
pub fn hear(
    all: &mut [u8],
    names: &mut [u8],
    texts: &mut [usize],
    lens: &mut [usize],
    plans: &mut [usize],
    filed: &mut [usize],
    name: &mut [u8],
    text: &mut [u8],
    answers: &mut [u8],
    values: &mut [usize],
    held: &mut [usize],
    t: usize,
    s: &[u8],
    reply: &mut [u8],
) -> Answer
    requires { Reached (memory_of all.old names.old texts.old lens.old plans.old filed.old name.old text.old answers.old values.old held.old) }
    ensures { HearsLine (memory_of all.old names.old texts.old lens.old plans.old filed.old name.old text.old answers.old values.old held.old) t s.now reply.old (memory_of all.new names.new texts.new lens.new plans.new filed.new name.new text.new answers.new values.new held.new) reply.new result }
{
    let shown = is_clear(s);
    hear_from(
        all, names, texts, lens, plans, filed, name, text, answers, values, held, t, s, reply,
        shown,
    )
}
