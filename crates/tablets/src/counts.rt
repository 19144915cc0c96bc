// Numbers of thirty sessions: how many print, and how many sets are left to be taken.
ghost use Rattle.std.specs.Prelude.{◌*◌, ◌≤◌, ◌<◌, ◌≡◌, length, get_or, set};
ghost use Rattle.tablets.specs.Calls.{Counts, recounted, SetsLeft, AllLeft};

use seats::numbers::{PRINTING, TABLETS, WIDTH};

// So many numbers have thirty sessions; behind them stand the tablet last served, and how many print.
pub const NUMBERS: usize = 300;

pub const LAST: usize = 300;

pub const PRINTERS: usize = 301;
// Of the numbers of a session that prints, the sets that were asked for, and those that are out.
const SETS: usize = 1;

const OUT: usize = 3;

// Tablet t had a state of this tag, and has the one that stands there now.
pub fn recount(held: &mut [usize], was: usize, t: usize)
    requires held_len { (length held.old ≡ 302) × (t < 30) }
    requires held_bound { get_or held.old 301 0 ≤ 30 }
    ensures held_after { held.new ≡ set held.old 301 (recounted (get_or held.old 301 0) was (get_or held.old (t * 10) 0)) }
    ensures held_len_2 { length held.new ≡ 302 }
{
    let is = held[t * WIDTH];
    let n = held[PRINTERS];
    if was == is {
        return;
    }
    if was == PRINTING {
        held[PRINTERS] = n.saturating_sub(1);
        return;
    }
    if is == PRINTING {
        held[PRINTERS] = n + 1;
    }
}

// The sets that tablet t has left to be taken.
pub fn sets_left(held: &[usize], t: usize) -> usize
    requires { Counts held.now }
    ensures { SetsLeft held.now t result }
{
    if TABLETS <= t {
        return 0;
    }
    let at = t * WIDTH;
    if held[at] != PRINTING {
        return 0;
    }
    held[at + SETS] - held[at + OUT]
}

// Those that all tablets have.
pub fn all_left(held: &[usize]) -> usize
    requires { Counts held.now }
    ensures { AllLeft held.now result }
{
    let mut n = 0;
    for t in 0..TABLETS {
        n += sets_left(held, t);
    }
    n
}
