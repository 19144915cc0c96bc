// A tablet's call at its seat: its parts of the five slices of the sessions are lent to the call of one session.
#![tactic(auto)]

ghost use Rattle.std.specs.Prelude.{ℕ, ◌*◌, ◌≡◌, true, List, get_or, take};
ghost use Rattle.paper.specs.Byte.{every};
ghost use Rattle.paper.specs.Command.{is_shown};
ghost use Rattle.paper.specs.Line.{kept, control};
ghost use Rattle.wait.specs.Waiting.{Waits};
ghost use Rattle.call.specs.Call.{memory_of};
ghost use Rattle.lend.specs.Laid.{Sits, SeatHears, SeatTakes};

use call::{hear_answer, hear_command, hear_fault, take};
use command::Answer;
use seats::numbers::WIDTH;
use session::state::VALUES;

// How wide a tablet's part is of the drafts' names, of their texts and of the answers.
const NAME: usize = 16;

const TEXT: usize = 1024;

const ANSWERS: usize = 1700;

// A line without control bytes of tablet t, of which an answer is asked.
pub fn seat_answer(
    all: &[u8],
    names: &[u8],
    texts: &[usize],
    lens: &[usize],
    plans: &[usize],
    filed: &[usize],
    name: &mut [u8],
    text: &mut [u8],
    answers: &mut [u8],
    values: &mut [usize],
    held: &mut [usize],
    t: usize,
    s: &[u8],
    reply: &[u8],
) -> Answer
    requires sits { Sits (memory_of all.now names.now texts.now lens.now plans.now filed.now name.old text.old answers.old values.old held.old) t }
    requires t_value { get_or held.old (t * 10) 0 ≡ 4 }
    requires s_value { every is_shown s.now ≡ true }
    ensures { SeatHears (memory_of all.now names.now texts.now lens.now plans.now filed.now name.old text.old answers.old values.old held.old) t s.now reply.now (memory_of all.now names.now texts.now lens.now plans.now filed.now name.new text.new answers.new values.new held.new) reply.now result }
{
    hear_answer(
        all,
        names,
        texts,
        lens,
        plans,
        filed,
        &mut name[t * NAME..t * NAME + NAME],
        &mut text[t * TEXT..t * TEXT + TEXT],
        &mut answers[t * ANSWERS..t * ANSWERS + ANSWERS],
        &mut values[t * VALUES..t * VALUES + VALUES],
        &mut held[t * WIDTH..t * WIDTH + WIDTH],
        s,
        reply,
    )
}

// A line without control bytes of tablet t, of which none is.
pub fn seat_command(
    all: &mut [u8],
    names: &mut [u8],
    texts: &mut [usize],
    lens: &mut [usize],
    plans: &mut [usize],
    filed: &mut [usize],
    name: &mut [u8],
    text: &mut [u8],
    answers: &mut [u8],
    values: &mut [usize],
    held: &mut [usize],
    t: usize,
    s: &[u8],
    reply: &mut [u8],
) -> Answer
    requires sits { Sits (memory_of all.old names.old texts.old lens.old plans.old filed.old name.old text.old answers.old values.old held.old) t }
    requires fact { get_or held.old (t * 10) 0 ≡ 4 → ⊥ }
    requires s_value { every is_shown s.now ≡ true }
    ensures { SeatHears (memory_of all.old names.old texts.old lens.old plans.old filed.old name.old text.old answers.old values.old held.old) t s.now reply.old (memory_of all.new names.new texts.new lens.new plans.new filed.new name.new text.new answers.new values.new held.new) reply.new result }
{
    hear_command(
        all,
        names,
        texts,
        lens,
        plans,
        filed,
        &mut name[t * NAME..t * NAME + NAME],
        &mut text[t * TEXT..t * TEXT + TEXT],
        &mut answers[t * ANSWERS..t * ANSWERS + ANSWERS],
        &mut values[t * VALUES..t * VALUES + VALUES],
        &mut held[t * WIDTH..t * WIDTH + WIDTH],
        s,
        reply,
    )
}

// A line of tablet t with a control byte among the bytes that are kept of it, so many, is refused.
pub fn seat_fault(
    all: &[u8],
    names: &[u8],
    texts: &[usize],
    lens: &[usize],
    plans: &[usize],
    filed: &[usize],
    name: &mut [u8],
    text: &mut [u8],
    answers: &mut [u8],
    values: &mut [usize],
    held: &mut [usize],
    t: usize,
    n: usize,
) -> Answer
    requires { Sits (memory_of all.now names.now texts.now lens.now plans.now filed.now name.old text.old answers.old values.old held.old) t }
    ensures { (s line b : List ℕ) → Waits (kept s) line n → control (take n line) ≡ true → SeatHears (memory_of all.now names.now texts.now lens.now plans.now filed.now name.old text.old answers.old values.old held.old) t s b (memory_of all.now names.now texts.now lens.now plans.now filed.now name.new text.new answers.new values.new held.new) b result }
{
    hear_fault(
        all,
        names,
        texts,
        lens,
        plans,
        filed,
        &mut name[t * NAME..t * NAME + NAME],
        &mut text[t * TEXT..t * TEXT + TEXT],
        &mut answers[t * ANSWERS..t * ANSWERS + ANSWERS],
        &mut values[t * VALUES..t * VALUES + VALUES],
        &mut held[t * WIDTH..t * WIDTH + WIDTH],
        n,
    )
}

// A set of tablet t.
pub fn take_seat(
    all: &[u8],
    names: &[u8],
    texts: &[usize],
    lens: &[usize],
    plans: &[usize],
    filed: &[usize],
    name: &mut [u8],
    text: &mut [u8],
    answers: &mut [u8],
    values: &mut [usize],
    held: &mut [usize],
    t: usize,
    set: &mut [u8],
) -> Answer
    requires { Sits (memory_of all.now names.now texts.now lens.now plans.now filed.now name.old text.old answers.old values.old held.old) t }
    ensures { SeatTakes (memory_of all.now names.now texts.now lens.now plans.now filed.now name.old text.old answers.old values.old held.old) t set.old (memory_of all.now names.now texts.now lens.now plans.now filed.now name.new text.new answers.new values.new held.new) set.new result }
{
    take(
        all,
        names,
        texts,
        lens,
        plans,
        filed,
        &mut name[t * NAME..t * NAME + NAME],
        &mut text[t * TEXT..t * TEXT + TEXT],
        &mut answers[t * ANSWERS..t * ANSWERS + ANSWERS],
        &mut values[t * VALUES..t * VALUES + VALUES],
        &mut held[t * WIDTH..t * WIDTH + WIDTH],
        set,
    )
}
