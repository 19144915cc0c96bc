// The lines to the store in Idle: `FS`, `FI`, `FR` and `FK`.
ghost use Rattle.std.specs.Prelude.{◌≡◌};
ghost use Rattle.paper.specs.Command as C;
ghost use Rattle.command.specs.View.{text_in};
ghost use Rattle.session.specs.Memory.{lent, SameLoan, shelf_of};
ghost use Rattle.store.specs.Lent.{store_of, Stocked, Finds};
ghost use Rattle.session.specs.Outcome.{At, Beside, Named, Starred, Consults, Informs, Heeds, Files, opens_by};

use crate::shelf::delete_named;
use command::{Answer, Refusal};
use form::plan::PLAN;
use session::name::name_of;
use session::reply::hand;
use session::state::{Held, Mode, Session};
use store::{Filed, Found, find, put_listing};
use text::read::Span;
use text::write::put_all;

// `FS` starts collecting a form under a name that is free.
pub fn start(
    session: &mut Session<'_>,
    filed: Filed,
    all: &[u8],
    names: &[u8],
    texts: &[usize],
    lens: &[usize],
    s: &[u8],
    string: Span,
) -> Answer
    requires beside { Beside (lent session.old) (store_of filed all.now names.now texts.now lens.now) }
    requires named { Named s.now string }
    ensures same { SameLoan session.old session.new }
    ensures value { Consults (lent session.old) (store_of filed all.now names.now texts.now lens.now) (C.file (C.start (text_in s.now string))) result (lent session.new) }
{
    let Mode::Idle = session.held.mode else {
        return session.refuse(Refusal::NotNow);
    };
    let n = name_of(s, string);
    let len = n.len;
    let bytes = n.bytes;
    match find(filed, all, names, texts, lens, &bytes[..len]) {
        Some(_) => Err(Refusal::NameTaken),
        None => {
            put_all(session.name, 0, &bytes[..len]);
            session.held.len = len;
            session.held.mode = Mode::Collecting { lines: 0 };
            Ok(0)
        }
    }
}

// `FI` replies with the names.
pub fn inform(
    session: &mut Session<'_>,
    filed: Filed,
    all: &[u8],
    names: &[u8],
    texts: &[usize],
    lens: &[usize],
    reply: &mut [u8],
) -> Answer
    requires { Beside (lent session.old) (store_of filed all.now names.now texts.now lens.now) }
    ensures same { SameLoan session.old session.new }
    ensures value { Informs (lent session.old) (store_of filed all.now names.now texts.now lens.now) reply.old reply.new result (lent session.new) }
{
    let Mode::Idle = session.held.mode else {
        return session.refuse(Refusal::NotNow);
    };
    let mut out = [0u8; 256];
    let n = put_listing(filed, all, names, texts, lens, &mut out);
    hand(reply, &out[..n])
}

// `FR` opens the form of a name: it is Ready at once where its plan asks for nothing.
pub fn recall(
    session: &mut Session<'_>,
    filed: Filed,
    all: &[u8],
    names: &[u8],
    texts: &[usize],
    lens: &[usize],
    plans: &[usize],
    s: &[u8],
    string: Span,
) -> Answer
    requires at { At (lent session.old) (shelf_of filed all.now names.now texts.now lens.now plans.now) }
    requires named { Named s.now string }
    ensures same { SameLoan session.old session.new }
    ensures value { Heeds (lent session.old) (shelf_of filed all.now names.now texts.now lens.now plans.now) (C.file (C.recall (text_in s.now string))) result (lent session.new) }
{
    let Mode::Idle = session.held.mode else {
        return session.refuse(Refusal::NotNow);
    };
    let Some(found) = find_string(filed, all, names, texts, lens, s, string) else {
        return Err(Refusal::Absent);
    };
    session.held = Held {
        mode: opening(plans[found.index * PLAN]),
        form: found.index,
        start: found.start,
        size: found.len,
        ..session.held
    };
    Ok(0)
}

// The form whose name stands in a line: looked for where it lies if it has no escape, and else unescaped.
fn find_string(
    filed: Filed,
    all: &[u8],
    names: &[u8],
    texts: &[usize],
    lens: &[usize],
    s: &[u8],
    string: Span,
) -> Option<Found>
    requires stocked { Stocked (store_of filed all.now names.now texts.now lens.now) }
    requires named { Named s.now string }
    ensures { Finds (store_of filed all.now names.now texts.now lens.now) (text_in s.now string) result }
{
    let start = string.start;
    let end = string.end;
    if end - start == string.len {
        return find(filed, all, names, texts, lens, &s[start..end]);
    }
    let n = name_of(s, string);
    let len = n.len;
    let bytes = n.bytes;
    find(filed, all, names, texts, lens, &bytes[..len])
}

// The state of a form that was found, by the definitions in its plan.
fn opening(asked: usize) -> Mode
    ensures { result ≡ opens_by asked }
{
    if asked == 0 {
        return Mode::Ready;
    }
    Mode::Opened
}

// `FK` deletes.
pub fn delete(
    session: &mut Session<'_>,
    filed: &mut Filed,
    all: &mut [u8],
    names: &mut [u8],
    texts: &mut [usize],
    lens: &mut [usize],
    plans: &mut [usize],
    s: &[u8],
    string: Span,
) -> Answer
    requires at { At (lent session.old) (shelf_of filed.old all.old names.old texts.old lens.old plans.old) }
    requires starred { Starred s.now string }
    ensures same { SameLoan session.old session.new }
    ensures value { Files (lent session.old) (shelf_of filed.old all.old names.old texts.old lens.old plans.old) (C.file (C.delete (text_in s.now string))) result (lent session.new) (shelf_of filed.new all.new names.new texts.new lens.new plans.new) }
{
    let Mode::Idle = session.held.mode else {
        return session.refuse(Refusal::NotNow);
    };
    let n = name_of(s, string);
    *filed = delete_named(*filed, all, names, texts, lens, plans, n);
    Ok(0)
}
