// Stored forms leave, and their plans with them.
ghost use Rattle.std.specs.Prelude.{◌≡◌, []};
ghost use Rattle.session.specs.Memory.{shelf_of, packed_shelf};
ghost use Rattle.session.specs.Outcome.{Stocks, Deletes, Removes};
ghost use Rattle.filing.specs.Leaving.{Leaving, Left};

use form::plan::PLAN;
use session::name::Name;
use store::gap::close;
use store::{Filed, Found, clear, find, remove};

// A form that was found leaves: the plans behind its own move up.
fn take_out(
    filed: Filed,
    all: &mut [u8],
    names: &mut [u8],
    texts: &mut [usize],
    lens: &mut [usize],
    plans: &mut [usize],
    found: Found,
) -> Filed
    requires { Leaving (shelf_of filed all.old names.old texts.old lens.old plans.old) found.index found.start found.len }
    ensures { Left (shelf_of filed all.old names.old texts.old lens.old plans.old) found.index found.start found.len (shelf_of result all.new names.new texts.new lens.new plans.new) }
{
    let index = found.index;
    let less = remove(filed, all, names, texts, lens, found);
    close(plans, index * PLAN, PLAN, (less.count - index) * PLAN, 0);
    less
}

// Every form leaves.
fn empty_out(
    filed: Filed,
    all: &mut [u8],
    names: &mut [u8],
    texts: &mut [usize],
    lens: &mut [usize],
    plans: &mut [usize],
) -> Filed
    requires { Stocks (shelf_of filed all.old names.old texts.old lens.old plans.old) }
    ensures { shelf_of result all.new names.new texts.new lens.new plans.new ≡ packed_shelf [] }
{
    plans[..filed.count * PLAN].fill(0);
    clear(filed, all, names, texts, lens)
}

// The form of a name leaves, or with the star every form.
pub fn delete_named(
    filed: Filed,
    all: &mut [u8],
    names: &mut [u8],
    texts: &mut [usize],
    lens: &mut [usize],
    plans: &mut [usize],
    name: Name,
) -> Filed
    requires stocks { Stocks (shelf_of filed all.old names.old texts.old lens.old plans.old) }
    requires deletes { Deletes name }
    ensures { Removes (shelf_of filed all.old names.old texts.old lens.old plans.old) name (shelf_of result all.new names.new texts.new lens.new plans.new) }
{
    let len = name.len;
    let bytes = name.bytes;
    if bytes[0] == b'*' {
        return empty_out(filed, all, names, texts, lens, plans);
    }
    match find(filed, all, names, texts, lens, &bytes[..len]) {
        Some(found) => take_out(filed, all, names, texts, lens, plans, found),
        None => filed,
    }
}
