// Collecting a form: its lines, and `FE`.
ghost use Rattle.std.specs.Prelude.{◌≡◌};
ghost use Rattle.paper.specs.Command as C;
ghost use Rattle.line.specs.Given.{IsRead};
ghost use Rattle.session.specs.Memory.{lent, SameLoan, shelf_of};
ghost use Rattle.session.specs.Outcome.{At, Kept, Keeps, Minds, Drafted, Shelves, Files};
ghost use Rattle.session.specs.declared.state.Mode.TheVariants as M;

use command::{Answer, Command, Refusal};
use form::check::unsound_at;
use form::plan::{PLAN, make_plan};
use normal::write::put_normal;
use session::state::{Mode, Session};
use store::{Filed, has_room, join};
use text::write::{put, put_all};

// The longest text of a form less the LF of its last line, and the most lines but one.
const TEXT: usize = 1023;

const LINES: usize = 39;

// A line that is kept in normal form, unless the form would exceed its limits.
fn collect(session: &mut Session<'_>, s: &[u8], c: Command, lines: usize) -> Answer
    requires kept { Kept (lent session.old) }
    requires mode_value { session.old.held.mode ≡ M.Collecting lines }
    requires read { IsRead s.now c }
    requires keeps { Keeps s.now c }
    ensures same { SameLoan session.old session.new }
    ensures value { (k : Keeps s.now c) → Minds (lent session.old) (C.keep k.line) result (lent session.new) }
{
    let mut out = [0u8; 256];
    let n = put_normal(&mut out, s, c);
    let at = session.held.drafted;
    if TEXT < at + n {
        return session.refuse(Refusal::Overfull);
    }
    if LINES < lines {
        return session.refuse(Refusal::Overfull);
    }
    let end = put_all(session.text, at, &out[..n]);
    session.held.drafted = put(session.text, end, b'\n');
    session.held.mode = Mode::Collecting { lines: lines + 1 };
    Ok(0)
}

// A line for a form: kept, or dropped where the form is spoiled.
pub fn keep(session: &mut Session<'_>, s: &[u8], c: Command) -> Answer
    requires kept { Kept (lent session.old) }
    requires read { IsRead s.now c }
    requires keeps { Keeps s.now c }
    ensures same { SameLoan session.old session.new }
    ensures value { (k : Keeps s.now c) → Minds (lent session.old) (C.keep k.line) result (lent session.new) }
{
    match session.held.mode {
        Mode::Collecting { lines } => collect(session, s, c, lines),
        Mode::Spoiled => Ok(0),
        _ => session.refuse(Refusal::NotNow),
    }
}

// `FE` of a draft: checked, and stored with its plan.
fn shelve(
    session: &Session<'_>,
    filed: &mut Filed,
    all: &mut [u8],
    names: &mut [u8],
    texts: &mut [usize],
    lens: &mut [usize],
    plans: &mut [usize],
) -> Answer
    requires { Drafted (lent session.now) (shelf_of filed.old all.old names.old texts.old lens.old plans.old) }
    ensures { Shelves (lent session.now) (shelf_of filed.old all.old names.old texts.old lens.old plans.old) result (shelf_of filed.new all.new names.new texts.new lens.new plans.new) }
{
    let name = &session.name[..session.held.len];
    let size = session.held.drafted;
    let text = &session.text[..size];
    if let Some(line) = unsound_at(text) {
        return Err(Refusal::Unsound { line });
    }
    if !has_room(*filed, size) {
        return Err(Refusal::NoRoom);
    }
    let at = filed.count * PLAN;
    let end = at + PLAN;
    make_plan(text, &mut plans[at..end]);
    *filed = join(*filed, all, names, texts, lens, name, text);
    Ok(0)
}

// `FE` ends a form.
pub fn finish(
    session: &mut Session<'_>,
    filed: &mut Filed,
    all: &mut [u8],
    names: &mut [u8],
    texts: &mut [usize],
    lens: &mut [usize],
    plans: &mut [usize],
) -> Answer
    requires { At (lent session.old) (shelf_of filed.old all.old names.old texts.old lens.old plans.old) }
    ensures same { SameLoan session.old session.new }
    ensures value { Files (lent session.old) (shelf_of filed.old all.old names.old texts.old lens.old plans.old) (C.file C.finish) result (lent session.new) (shelf_of filed.new all.new names.new texts.new lens.new plans.new) }
{
    match session.held.mode {
        Mode::Collecting { lines: _ } => {
            let answer = shelve(session, filed, all, names, texts, lens, plans);
            session.fresh(Mode::Idle);
            answer
        }
        Mode::Spoiled => {
            session.held.mode = Mode::Idle;
            Err(Refusal::IsSpoiled)
        }
        _ => session.refuse(Refusal::NotNow),
    }
}
