// Names and texts of up to 8 forms in 4,096 bytes, in memory that is lent. What stands there is fixed by the forms: behind them all
// is 0.
#![tactic(auto)]

ghost use Rattle.std.specs.Prelude.{◌+◌, ◌-◌, ◌*◌, ◌<◌, ◌≤◌, ◌≡◌, ◌&&◌, [], ◌∷◌, ◌++◌, length, leb, ltb};
ghost use Rattle.paper.specs.Byte.{same};
ghost use Rattle.text.specs.Write.{Writes};
ghost use Rattle.store.specs.Packed.{name_in};
ghost use Rattle.store.specs.Lent.{store_of, Stocked, Finds, Spare, Joins, Stands, Leaves, Clears, Names, Lists};

pub mod gap;

use crate::gap::close;
use text::write::{put, put_all};

const NAME: usize = 16;

const FORMS: usize = 8;

const BYTES: usize = 4096;

// The numbers of a store: the bytes of text that are used, and the forms.
// Kept: the lengths of texts and of names lie in two slices beside the names, as store_of and packed_shelf lay out the memory that is lent, which freed_memory is about.
#[derive(Clone, Copy, Debug, PartialEq, Eq)]
pub struct Filed {
    pub used: usize,
    pub count: usize,
}

// Where a form stands: its number, and its text's place and length.
#[derive(Clone, Copy, Debug, PartialEq, Eq)]
pub struct Found {
    pub index: usize,
    pub start: usize,
    pub len: usize,
}

// The name of so many bytes in a slot is this one.
fn is_named(names: &[u8], i: usize, len: usize, name: &[u8]) -> bool
    requires { (i < 8) × (len ≤ 16) × (length names.now ≡ 128) }
    ensures { result ≡ same name.now (name_in names.now i len) }
{
    let from = i * NAME;
    name == &names[from..from + len]
}

// The form of a name, if there is one.
pub fn find(
    filed: Filed,
    all: &[u8],
    names: &[u8],
    texts: &[usize],
    lens: &[usize],
    name: &[u8],
) -> Option<Found>
    requires { Stocked (store_of filed all.now names.now texts.now lens.now) }
    ensures { Finds (store_of filed all.now names.now texts.now lens.now) name.now result }
{
    let mut start = 0;
    for index in 0..filed.count {
        let len = texts[index];
        if is_named(names, index, lens[index], name) {
            return Some(Found { index, start, len });
        }
        start += len;
    }
    None
}

// There is room for one form more, of so many bytes.
pub fn has_room(filed: Filed, len: usize) -> bool
    requires { filed.used ≤ 4096 }
    ensures { result ≡ (ltb filed.count 8 && leb len (4096 - filed.used)) }
{
    filed.count < FORMS && len <= BYTES - filed.used
}

// One form more behind the others, for which there is room.
pub fn join(
    filed: Filed,
    all: &mut [u8],
    names: &mut [u8],
    texts: &mut [usize],
    lens: &mut [usize],
    name: &[u8],
    text: &[u8],
) -> Filed
    requires { Spare (store_of filed all.old names.old texts.old lens.old) name.now text.now }
    ensures { Joins (store_of filed all.old names.old texts.old lens.old) name.now text.now (store_of result all.new names.new texts.new lens.new) }
{
    let i = filed.count;
    let used = put_all(all, filed.used, text);
    put_all(names, i * NAME, name);
    texts[i] = text.len();
    lens[i] = name.len();
    Filed { used, count: i + 1 }
}

// A form that was found leaves: those behind it move up in the order, and down in memory.
pub fn remove(
    filed: Filed,
    all: &mut [u8],
    names: &mut [u8],
    texts: &mut [usize],
    lens: &mut [usize],
    found: Found,
) -> Filed
    requires { Stands (store_of filed all.old names.old texts.old lens.old) found.index found.start found.len }
    ensures { Leaves (store_of filed all.old names.old texts.old lens.old) found.index found.start found.len (store_of result all.new names.new texts.new lens.new) }
{
    let Found { index, start, len } = found;
    let used = filed.used - len;
    let count = filed.count - 1;
    close(all, start, len, used - start, 0);
    close(names, index * NAME, NAME, (count - index) * NAME, 0);
    close(texts, index, 1, count - index, 0);
    close(lens, index, 1, count - index, 0);
    Filed { used, count }
}

// Every form leaves.
pub fn clear(
    filed: Filed,
    all: &mut [u8],
    names: &mut [u8],
    texts: &mut [usize],
    lens: &mut [usize],
) -> Filed
    requires { Stocked (store_of filed all.old names.old texts.old lens.old) }
    ensures { Clears (store_of result all.new names.new texts.new lens.new) }
{
    let count = filed.count;
    all[..filed.used].fill(0);
    names[..count * NAME].fill(0);
    texts[..count].fill(0);
    lens[..count].fill(0);
    Filed { used: 0, count: 0 }
}

// The name of so many bytes in a slot, on a line.
fn put_name(out: &mut [u8], at: usize, names: &[u8], i: usize, len: usize) -> usize
    requires { (i < 8) × (len ≤ 16) × (length names.now ≡ 128) × (at + len < length out.old) }
    ensures { Writes out.old at (name_in names.now i len ++ (10 ∷ [])) out.new result }
{
    let from = i * NAME;
    let next = put_all(out, at, &names[from..from + len]);
    put(out, next, b'\n')
}

// The names, each on a line, at a place of a buffer with room for eight of them.
fn put_names(
    filed: Filed,
    all: &[u8],
    names: &[u8],
    texts: &[usize],
    lens: &[usize],
    out: &mut [u8],
    at: usize,
) -> usize
    requires stocked { Stocked (store_of filed all.now names.now texts.now lens.now) }
    requires at_in_bounds { at + 136 ≤ length out.old }
    ensures { Names (store_of filed all.now names.now texts.now lens.now) out.old at out.new result }
{
    let mut next = at;
    for i in 0..filed.count {
        next = put_name(out, next, names, i, lens[i]);
    }
    next
}

// The reply to `FI` at the front of a buffer of 256 bytes or more; its length.
pub fn put_listing(
    filed: Filed,
    all: &[u8],
    names: &[u8],
    texts: &[usize],
    lens: &[usize],
    out: &mut [u8],
) -> usize
    requires stocked { Stocked (store_of filed all.now names.now texts.now lens.now) }
    requires in_bounds { 256 ≤ length out.old }
    ensures { Lists (store_of filed all.now names.now texts.now lens.now) out.old out.new result }
{
    let at = put_all(out, 0, b"Form Information:\n");
    if filed.count == 0 {
        return put_all(out, at, b"No Form Stored\n");
    }
    put_names(filed, all, names, texts, lens, out, at)
}
