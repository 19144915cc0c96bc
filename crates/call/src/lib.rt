// The calls of one session beside its store: a line, by whether an answer is asked for, a line that is refused, and a take.
// Kept: slices one by one, since `lend` hands parts of arrays over, and of a struct of such parts its maker knows the lengths alone.
#![tactic(auto)]

ghost use Rattle.std.specs.Prelude.{◌≡◌, true, List, get_or, take, ℕ};
ghost use Rattle.paper.specs.Line.{kept, control};
ghost use Rattle.wait.specs.Waiting.{Waits};
ghost use Rattle.paper.specs.Byte.{every};
ghost use Rattle.paper.specs.Command.{is_shown};
ghost use Rattle.call.specs.Call.{memory_of, Reached, HearsLine, TakesSet};

use command::Answer;
use listen::obey::listen;
use printing::answer::answer;
use printing::print::take_next;
use seats::numbers::{filed_of, held_of, put_filed, put_held};
use session::state::Session;
use wait::fault_of;

// A line without control bytes where an answer is asked for.
pub fn hear_answer(
    all: &[u8],
    names: &[u8],
    texts: &[usize],
    lens: &[usize],
    plans: &[usize],
    filed: &[usize],
    name: &mut [u8],
    text: &mut [u8],
    answers: &mut [u8],
    values: &mut [usize],
    held: &mut [usize],
    s: &[u8],
    reply: &[u8],
) -> Answer
    requires reached { Reached (memory_of all.now names.now texts.now lens.now plans.now filed.now name.old text.old answers.old values.old held.old) }
    requires held_value { get_or held.old 0 0 ≡ 4 }
    requires s_value { every is_shown s.now ≡ true }
    ensures { HearsLine (memory_of all.now names.now texts.now lens.now plans.now filed.now name.old text.old answers.old values.old held.old) s.now reply.now (memory_of all.now names.now texts.now lens.now plans.now filed.now name.new text.new answers.new values.new held.new) reply.now result }
{
    let k = held[1];
    let mut session = Session {
        held: held_of(held),
        name,
        text,
        answers,
        values,
    };
    let given = answer(&mut session, plans, s, k);
    put_held(held, session.held);
    given
}

// A line without control bytes where none is.
pub fn hear_command(
    all: &mut [u8],
    names: &mut [u8],
    texts: &mut [usize],
    lens: &mut [usize],
    plans: &mut [usize],
    filed: &mut [usize],
    name: &mut [u8],
    text: &mut [u8],
    answers: &mut [u8],
    values: &mut [usize],
    held: &mut [usize],
    s: &[u8],
    reply: &mut [u8],
) -> Answer
    requires reached { Reached (memory_of all.old names.old texts.old lens.old plans.old filed.old name.old text.old answers.old values.old held.old) }
    requires fact { get_or held.old 0 0 ≡ 4 → ⊥ }
    requires s_value { every is_shown s.now ≡ true }
    ensures { HearsLine (memory_of all.old names.old texts.old lens.old plans.old filed.old name.old text.old answers.old values.old held.old) s.now reply.old (memory_of all.new names.new texts.new lens.new plans.new filed.new name.new text.new answers.new values.new held.new) reply.new result }
{
    let mut session = Session {
        held: held_of(held),
        name,
        text,
        answers,
        values,
    };
    let mut store = filed_of(filed);
    let answer = listen(
        &mut session,
        &mut store,
        all,
        names,
        texts,
        lens,
        plans,
        s,
        reply,
    );
    put_held(held, session.held);
    put_filed(filed, store);
    answer
}

// A line with a control byte among the bytes that are kept of it, so many, is refused.
pub fn hear_fault(
    all: &[u8],
    names: &[u8],
    texts: &[usize],
    lens: &[usize],
    plans: &[usize],
    filed: &[usize],
    name: &mut [u8],
    text: &mut [u8],
    answers: &mut [u8],
    values: &mut [usize],
    held: &mut [usize],
    n: usize,
) -> Answer
    requires { Reached (memory_of all.now names.now texts.now lens.now plans.now filed.now name.old text.old answers.old values.old held.old) }
    ensures { (s line b : List ℕ) → Waits (kept s) line n → control (take n line) ≡ true → HearsLine (memory_of all.now names.now texts.now lens.now plans.now filed.now name.old text.old answers.old values.old held.old) s b (memory_of all.now names.now texts.now lens.now plans.now filed.now name.new text.new answers.new values.new held.new) b result }
{
    let mut session = Session {
        held: held_of(held),
        name,
        text,
        answers,
        values,
    };
    let answer = session.refuse(fault_of(n));
    put_held(held, session.held);
    answer
}

// One set, with a buffer for it.
pub fn take(
    all: &[u8],
    names: &[u8],
    texts: &[usize],
    lens: &[usize],
    plans: &[usize],
    filed: &[usize],
    name: &mut [u8],
    text: &mut [u8],
    answers: &mut [u8],
    values: &mut [usize],
    held: &mut [usize],
    set: &mut [u8],
) -> Answer
    requires { Reached (memory_of all.now names.now texts.now lens.now plans.now filed.now name.old text.old answers.old values.old held.old) }
    ensures { TakesSet (memory_of all.now names.now texts.now lens.now plans.now filed.now name.old text.old answers.old values.old held.old) set.old (memory_of all.now names.now texts.now lens.now plans.now filed.now name.new text.new answers.new values.new held.new) set.new result }
{
    let mut session = Session {
        held: held_of(held),
        name,
        text,
        answers,
        values,
    };
    let answer = take_next(&mut session, all, plans, set);
    put_held(held, session.held);
    answer
}
