// Sets for the printer, which names no tablet.
ghost use Rattle.std.specs.Prelude.{◌≡◌};
ghost use Rattle.paper.specs.Class.{turn};
ghost use Rattle.seats.specs.Seats.{option_of};
ghost use Rattle.call.specs.Call.{memory_of};
ghost use Rattle.tablets.specs.Calls.{Reached, Counts, TakesSet};

use crate::counts::{LAST, NUMBERS, PRINTERS, recount};
use command::{Answer, Refusal};
use lend::take_seat;
use seats::numbers::{PRINTING, TABLETS, WIDTH};
use seats::turns::turn_after;

// The tablet whose set was asked for, 30 where nobody prints, and the answer.
// Kept: a pair and no Result, since the tablet is told where the set is refused too (`TakesSet`).
#[derive(Clone, Copy)]
pub struct Served {
    pub tablet: usize,
    pub answer: Answer,
}

// Whose turn it is, if one prints. The only one that prints is served again at once.
fn turn_of(held: &[usize]) -> Option<usize>
    requires { Counts held.now }
    ensures { (k : Counts held.now) → result ≡ option_of (turn k.class) }
{
    let last = held[LAST];
    match held[PRINTERS] {
        0 => None,
        1 if held[last * WIDTH] == PRINTING => Some(last),
        _ => turn_after(&held[..NUMBERS], last),
    }
}

// A set of the tablet whose turn it is, with a buffer for it. Only an accepted take moves the turn.
pub fn take(
    all: &[u8],
    names: &[u8],
    texts: &[usize],
    lens: &[usize],
    plans: &[usize],
    filed: &[usize],
    name: &mut [u8],
    text: &mut [u8],
    answers: &mut [u8],
    values: &mut [usize],
    held: &mut [usize],
    set: &mut [u8],
) -> Served
    requires { Reached (memory_of all.now names.now texts.now lens.now plans.now filed.now name.old text.old answers.old values.old held.old) }
    ensures { TakesSet (memory_of all.now names.now texts.now lens.now plans.now filed.now name.old text.old answers.old values.old held.old) set.old (memory_of all.now names.now texts.now lens.now plans.now filed.now name.new text.new answers.new values.new held.new) set.new result.tablet result.answer }
{
    let Some(t) = turn_of(held) else {
        return Served {
            tablet: TABLETS,
            answer: Err(Refusal::NotPrinting),
        };
    };
    let answer = take_seat(
        all, names, texts, lens, plans, filed, name, text, answers, values, held, t, set,
    );
    let Ok(_) = answer else {
        return Served { tablet: t, answer };
    };
    held[LAST] = t;
    recount(held, PRINTING, t);
    Served { tablet: t, answer }
}
