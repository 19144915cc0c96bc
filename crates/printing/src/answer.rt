// Asking for answers: `?`, and each line that is an answer.
ghost use Rattle.std.specs.Prelude.{◌≡◌, true};
ghost use Rattle.paper.specs.Byte.{every};
ghost use Rattle.paper.specs.Command as C;
ghost use Rattle.paper.specs.Command.{is_shown};
ghost use Rattle.session.specs.Memory.{lent, SameLoan};
ghost use Rattle.session.specs.Outcome.{Kept, Planned, Minds, Answers, waits_by, unfit_of};
ghost use Rattle.session.specs.declared.state.Mode.TheVariants as M;

use command::{Answer, Refusal};
use form::plan::PLAN;
use line::read::LINE;
use session::state::{Mode, Session};
use set::answer::{judged, note_value};
use text::write::put_all;

// `?` asks for the first answer of an opened form.
pub fn ask(session: &mut Session<'_>) -> Answer
    requires { Kept (lent session.old) }
    ensures same { SameLoan session.old session.new }
    ensures value { Minds (lent session.old) C.ask result (lent session.new) }
{
    let Mode::Opened = session.held.mode else {
        return session.refuse(Refusal::NotNow);
    };
    session.held.mode = Mode::Answering { k: 0 };
    Ok(0)
}

// The state behind k answers of so many.
fn waiting(k: usize, asked: usize) -> Mode
    ensures { result ≡ waits_by k asked }
{
    if k == asked {
        return Mode::Ready;
    }
    Mode::Answering { k }
}

// Why an answer of so many bytes is refused that does not fit.
fn unfit_of(n: usize) -> Refusal
    ensures { result ≡ unfit_of n }
{
    if LINE < n {
        return Refusal::TooLong;
    }
    Refusal::Unfit
}

// A line without control bytes is answer k: kept where it fits, with what it is worth. One that is too long fits nothing.
pub fn answer(session: &mut Session<'_>, plans: &[usize], s: &[u8], k: usize) -> Answer
    requires planned { Planned (lent session.old) plans.now }
    requires mode_value { session.old.held.mode ≡ M.Answering k }
    requires s_value { every is_shown s.now ≡ true }
    ensures same { SameLoan session.old session.new }
    ensures value { Answers (lent session.old) plans.now s.now result (lent session.new) }
{
    let at = session.held.form * PLAN;
    let end = at + PLAN;
    let plan = &plans[at..end];
    let Some(kept) = judged(plan, k, s, session.held.given) else {
        return session.refuse(unfit_of(s.len()));
    };
    session.held.given = put_all(session.answers, session.held.given, s);
    note_value(session.values, plan, k, kept);
    session.held.mode = waiting(k + 1, plan[0]);
    Ok(0)
}
