// Printing: `P`, and the taking of a set.
ghost use Rattle.std.specs.Prelude.{◌≤◌, ◌≡◌};
ghost use Rattle.paper.specs.Command as C;
ghost use Rattle.set.specs.Taking.{Taking};
ghost use Rattle.session.specs.Memory.{lent, SameLoan};
ghost use Rattle.session.specs.Outcome.{Planned, Showing, Follows, Gives, Onward, Advances, Takes};
ghost use Rattle.session.specs.declared.state.Mode.TheVariants as M;

use command::{Answer, Refusal};
use form::plan::PLAN;
use session::reply::hand;
use session::state::{Mode, Session};
use set::take::{all_hold, put_set};

// Room for the longest set.
pub const SET: usize = 10291;

// `P` asks for so many sets, with so many copies of each, of a form whose counters hold in all of them.
pub fn print(session: &mut Session<'_>, plans: &[usize], sets: usize, copies: usize) -> Answer
    requires planned { Planned (lent session.old) plans.now }
    requires le_sets { (1 ≤ sets) × (sets ≤ 65535) }
    ensures same { SameLoan session.old session.new }
    ensures value { Follows (lent session.old) plans.now (C.print sets copies) result (lent session.new) }
{
    let Mode::Ready = session.held.mode else {
        return session.refuse(Refusal::NotNow);
    };
    let at = session.held.form * PLAN;
    let end = at + PLAN;
    if !all_hold(&plans[at..end], session.worth(), sets - 1) {
        return session.refuse(Refusal::Overrun);
    }
    session.held.mode = Mode::Printing {
        sets,
        copies,
        out: 0,
    };
    Ok(0)
}

// A set for a lent buffer, if it has room: straight into one in which every set has, and else by way of one.
fn give<'a>(
    buf: &mut [u8],
    text: &'a [u8],
    answers: &'a [u8],
    plan: &[usize],
    values: &[usize],
    copies: usize,
    i: usize,
) -> Answer
    requires { Taking text.now answers.now plan.now values.now copies i }
    ensures { Gives text.now answers.now plan.now values.now copies i buf.old buf.new result }
{
    if SET <= buf.len() {
        return Ok(put_set(buf, text, answers, plan, values, copies, i));
    }
    let mut out = [0u8; 10291];
    let n = put_set(&mut out, text, answers, plan, values, copies, i);
    hand(buf, &out[..n])
}

// The session after a set: Idle after the last, else with one set more out.
fn onward(session: &mut Session<'_>, sets: usize, copies: usize, out: usize)
    requires { Onward (lent session.old) sets copies out }
    ensures same { SameLoan session.old session.new }
    ensures value { Advances (lent session.old) sets copies out (lent session.new) }
{
    let next = out + 1;
    if next == sets {
        return session.fresh(Mode::Idle);
    }
    session.held.mode = Mode::Printing {
        sets,
        copies,
        out: next,
    };
}

// The next set, if it has room.
fn next_set(
    session: &mut Session<'_>,
    all: &[u8],
    plans: &[usize],
    buf: &mut [u8],
    sets: usize,
    copies: usize,
    out: usize,
) -> Answer
    requires showing { Showing (lent session.old) all.now plans.now }
    requires mode_value { session.old.held.mode ≡ M.Printing sets copies out }
    ensures same { SameLoan session.old session.new }
    ensures value { Takes (lent session.old) all.now plans.now buf.old buf.new result (lent session.new) }
{
    let from = session.held.start;
    let to = from + session.held.size;
    let at = session.held.form * PLAN;
    let end = at + PLAN;
    let len = give(
        buf,
        &all[from..to],
        session.given(),
        &plans[at..end],
        session.worth(),
        copies,
        out,
    )?;
    onward(session, sets, copies, out);
    Ok(len)
}

// A set is taken while Printing.
pub fn take_next(session: &mut Session<'_>, all: &[u8], plans: &[usize], buf: &mut [u8]) -> Answer
    requires { Showing (lent session.old) all.now plans.now }
    ensures same { SameLoan session.old session.new }
    ensures value { Takes (lent session.old) all.now plans.now buf.old buf.new result (lent session.new) }
{
    let Mode::Printing { sets, copies, out } = session.held.mode else {
        return Err(Refusal::NotPrinting);
    };
    next_set(session, all, plans, buf, sets, copies, out)
}
