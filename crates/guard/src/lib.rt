// What the other tablets make of a line that an idle tablet sends.
#![tactic(auto)]

ghost use Rattle.std.specs.Prelude.{◌≡◌, true};
ghost use Rattle.std.proofs.Math.Option.{some};
ghost use Rattle.paper.specs.Byte.{code, every};
ghost use Rattle.paper.specs.Command as C;
ghost use Rattle.paper.specs.Command.{is_shown};
ghost use Rattle.command.specs.View.{text_in};
ghost use Rattle.store.specs.Lent.{store_of, Stocked, Finds};
ghost use Rattle.session.specs.Outcome.{Named};
ghost use Rattle.guard.specs.Guarded.{Watching, Led, Bars, Guards};

use command::range::is_star;
use command::{Command, Refusal};
use line::read::{Errand, LINE, name_line};
use seats::beside::is_beside;
use seats::numbers::PRINTING;
use session::name::name_of;
use store::{Filed, Found, find};
use text::read::{Span, byte_at};

// The tags of a session that collects a form, from the first to the last.
const COLLECTING: usize = 1;

const SPOILED: usize = 2;
// The first tag of a session that holds a form open; the last is that of Printing.
const OPENED: usize = 3;
// The numbers of the forms, from the first to the last; a session that holds none open has the first.
const FIRST: usize = 0;

const LAST: usize = 7;

// A stored form that leaves, by its number, and the bytes of its text.
#[derive(Clone, Copy, Debug, PartialEq, Eq)]
pub struct Leaving {
    pub n: usize,
    pub size: usize,
}

// Nothing, or a stored form leaves, and the others follow it; or refusal 17 or 19.
pub type Guard = Result<Option<Leaving>, Refusal>;

// The form whose name stands in a line, looked for by a copy of the name.
fn find_copied(
    filed: Filed,
    all: &[u8],
    names: &[u8],
    texts: &[usize],
    lens: &[usize],
    s: &[u8],
    string: Span,
) -> Option<Found>
    requires stocked { Stocked (store_of filed all.now names.now texts.now lens.now) }
    requires named { Named s.now string }
    ensures { Finds (store_of filed all.now names.now texts.now lens.now) (text_in s.now string) result }
{
    let n = name_of(s, string);
    let len = n.len;
    let bytes = n.bytes;
    find(filed, all, names, texts, lens, &bytes[..len])
}

// `FS`: refusal 17 while another collects, but a name that is taken is refused as such. The others are asked first: mostly
// none collects, and the line need not be read.
fn guard_start(
    filed: Filed,
    all: &[u8],
    names: &[u8],
    texts: &[usize],
    lens: &[usize],
    held: &[usize],
    t: usize,
    s: &[u8],
) -> Guard
    requires watching { Watching (store_of filed all.now names.now texts.now lens.now) held.now t }
    requires led { Led s.now (code "S") }
    ensures { Guards (store_of filed all.now names.now texts.now lens.now) held.now t s.now result }
{
    if is_beside(held, t, COLLECTING, SPOILED, FIRST, FIRST) {
        let Command::Start { name } = name_line(s, Errand::Start) else {
            return Ok(None);
        };
        return match find_copied(filed, all, names, texts, lens, s, name) {
            Some(_) => Ok(None),
            None => Err(Refusal::OthersCollect),
        };
    }
    Ok(None)
}

// `FK` of a name: refusal 19 while another holds its form open.
fn guard_named(
    filed: Filed,
    all: &[u8],
    names: &[u8],
    texts: &[usize],
    lens: &[usize],
    held: &[usize],
    t: usize,
    s: &[u8],
    string: Span,
) -> Guard
    requires watching { Watching (store_of filed all.now names.now texts.now lens.now) held.now t }
    requires named { Named s.now string }
    ensures { Bars (store_of filed all.now names.now texts.now lens.now) held.now t (some (C.delete (text_in s.now string))) result }
{
    let Some(found) = find_copied(filed, all, names, texts, lens, s, string) else {
        return Ok(None);
    };
    if is_beside(held, t, OPENED, PRINTING, found.index, found.index) {
        return Err(Refusal::HeldOpen);
    }
    Ok(Some(Leaving {
        n: found.index,
        size: found.len,
    }))
}

// `FK`: refusal 19 while another holds open what it means. The others are asked first: where none of them holds a form open,
// none has to follow what leaves, and the line need not be read.
fn guard_delete(
    filed: Filed,
    all: &[u8],
    names: &[u8],
    texts: &[usize],
    lens: &[usize],
    held: &[usize],
    t: usize,
    s: &[u8],
) -> Guard
    requires watching { Watching (store_of filed all.now names.now texts.now lens.now) held.now t }
    requires led { Led s.now (code "K") }
    ensures { Guards (store_of filed all.now names.now texts.now lens.now) held.now t s.now result }
{
    if is_beside(held, t, OPENED, PRINTING, FIRST, LAST) {
        let Command::Delete { name } = name_line(s, Errand::Delete) else {
            return Ok(None);
        };
        if is_star(s, name) {
            return Err(Refusal::HeldOpen);
        }
        return guard_named(filed, all, names, texts, lens, held, t, s, name);
    }
    Ok(None)
}

// What the other tablets make of a line without control bytes that an idle tablet sends: only `FS` and `FK` matter to them, and
// its first two bytes tell those.
pub fn guarded(
    filed: Filed,
    all: &[u8],
    names: &[u8],
    texts: &[usize],
    lens: &[usize],
    held: &[usize],
    t: usize,
    s: &[u8],
) -> Guard
    requires watching { Watching (store_of filed all.now names.now texts.now lens.now) held.now t }
    requires s_value { every is_shown s.now ≡ true }
    ensures { Guards (store_of filed all.now names.now texts.now lens.now) held.now t s.now result }
{
    if byte_at(s, 0) != b'F' {
        return Ok(None);
    }
    if LINE < s.len() {
        return Ok(None);
    }
    let second = byte_at(s, 1);
    if second == b'S' {
        return guard_start(filed, all, names, texts, lens, held, t, s);
    }
    if second == b'K' {
        return guard_delete(filed, all, names, texts, lens, held, t, s);
    }
    Ok(None)
}
