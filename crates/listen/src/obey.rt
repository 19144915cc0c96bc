// A line in every state.
ghost use Rattle.std.specs.Prelude.{◌≤◌, ◌≡◌, true, length};
ghost use Rattle.paper.specs.Byte.{every};
ghost use Rattle.paper.specs.Command as C;
ghost use Rattle.paper.specs.Command.{is_shown};
ghost use Rattle.line.specs.Given.{IsRead};
ghost use Rattle.session.specs.Memory.{lent, SameLoan, shelf_of};
ghost use Rattle.session.specs.Outcome.{At, Kept, Minds, NotAnswering, Hears};

use command::{Answer, Command, Refusal};
use filing::collect::{finish, keep};
use filing::file::{delete, inform, recall, start};
use line::read::{LINE, read_clear};
use printing::answer::ask;
use printing::print::print;
use session::state::{Mode, Session};
use store::Filed;

// `N` goes to Idle, but not while a form is collected.
fn reset(session: &mut Session<'_>) -> Answer
    requires { Kept (lent session.old) }
    ensures same { SameLoan session.old session.new }
    ensures value { Minds (lent session.old) C.new result (lent session.new) }
{
    match session.held.mode {
        Mode::Collecting { lines: _ } => session.refuse(Refusal::NotNow),
        Mode::Spoiled => session.refuse(Refusal::NotNow),
        _ => {
            session.fresh(Mode::Idle);
            Ok(0)
        }
    }
}

// A line that was read is obeyed, or refused.
fn obey(
    session: &mut Session<'_>,
    filed: &mut Filed,
    all: &mut [u8],
    names: &mut [u8],
    texts: &mut [usize],
    lens: &mut [usize],
    plans: &mut [usize],
    s: &[u8],
    c: Command,
    reply: &mut [u8],
) -> Answer
    requires at { At (lent session.old) (shelf_of filed.old all.old names.old texts.old lens.old plans.old) }
    requires not_answering { NotAnswering session.old.held.mode }
    requires read { IsRead s.now c }
    ensures same { SameLoan session.old session.new }
    ensures value { Hears (lent session.old) (shelf_of filed.old all.old names.old texts.old lens.old plans.old) s.now reply.old reply.new result (lent session.new) (shelf_of filed.new all.new names.new texts.new lens.new plans.new) }
{
    match c {
        Command::Empty => Ok(0),
        Command::New => reset(session),
        Command::Start { name } => start(session, *filed, all, names, texts, lens, s, name),
        Command::Finish => finish(session, filed, all, names, texts, lens, plans),
        Command::Inform => inform(session, *filed, all, names, texts, lens, reply),
        Command::Recall { name } => {
            recall(session, *filed, all, names, texts, lens, plans, s, name)
        }
        Command::Delete { name } => delete(session, filed, all, names, texts, lens, plans, s, name),
        Command::Ask => ask(session),
        Command::Print { sets, copies } => print(session, plans, sets, copies),
        Command::Refused { why } => session.refuse(why),
        _ => keep(session, s, c),
    }
}

// A line without control bytes where no answer is asked for: a command or a refusal.
pub fn listen(
    session: &mut Session<'_>,
    filed: &mut Filed,
    all: &mut [u8],
    names: &mut [u8],
    texts: &mut [usize],
    lens: &mut [usize],
    plans: &mut [usize],
    s: &[u8],
    reply: &mut [u8],
) -> Answer
    requires at { At (lent session.old) (shelf_of filed.old all.old names.old texts.old lens.old plans.old) }
    requires not_answering { NotAnswering session.old.held.mode }
    requires s_value { every is_shown s.now ≡ true }
    ensures same { SameLoan session.old session.new }
    ensures value { Hears (lent session.old) (shelf_of filed.old all.old names.old texts.old lens.old plans.old) s.now reply.old reply.new result (lent session.new) (shelf_of filed.new all.new names.new texts.new lens.new plans.new) }
{
    if LINE < s.len() {
        return session.refuse(Refusal::TooLong);
    }
    let c = read_clear(s);
    obey(session, filed, all, names, texts, lens, plans, s, c, reply)
}
