// An answer to a definition of a plan: whether it fits, and what is kept of it. Of each value four numbers are kept at its own place,
// counters from 0 on and variables from 10 on: a counter's amount and how many digits it was given with, a variable's place in the
// answers, from and to; the definition's kind and its step.
ghost use Rattle.std.specs.Prelude.{◌≤◌, ◌≡◌, true, length};
ghost use Rattle.paper.specs.Byte.{every};
ghost use Rattle.paper.specs.Command.{is_shown};
ghost use Rattle.set.specs.Taking.{Asking, Notes};
ghost use Rattle.set.specs.Judge.{amount_in, Judges};

use form::plan::{DEFINES, VARIABLE, put_four};

// The number that an answer writes, if it is digits.
fn amount_of(a: &[u8]) -> Option<usize>
    requires { length a.now ≤ 9 }
    ensures { result ≡ amount_in a.now }
{
    let mut n = 0;
    for &b in a {
        if !b.is_ascii_digit() {
            return None;
        }
        n = n * 10 + (b - b'0') as usize;
    }
    Some(n)
}

// What is kept of an answer that fits.
#[derive(Clone, Copy, Debug, PartialEq, Eq)]
pub struct Kept {
    pub first: usize,
    pub second: usize,
}

// The answer to definition k of a plan, if it fits; a variable's goes to a place of the answers.
pub fn judged(plan: &[usize], k: usize, a: &[u8], given: usize) -> Option<Kept>
    requires asking { Asking plan.now k }
    requires a_value { every is_shown a.now ≡ true }
    requires given_bound { given ≤ 65535 }
    ensures { Judges plan.now k a.now given result }
{
    let at = DEFINES + k * 4;
    let kind = plan[at];
    let len = plan[at + 1];
    if len < a.len() {
        return None;
    }
    if kind == VARIABLE {
        return Some(Kept {
            first: given,
            second: given + a.len(),
        });
    }
    if a.is_empty() {
        return None;
    }
    let first = amount_of(a)?;
    Some(Kept {
        first,
        second: a.len(),
    })
}

// What is kept of the answer to definition k, at the place of its value.
pub fn note_value(values: &mut [usize], plan: &[usize], k: usize, kept: Kept)
    requires asking { Asking plan.now k }
    requires values_len { length values.old ≡ 104 }
    ensures { Notes values.old plan.now k kept.first kept.second values.new }
{
    let from = DEFINES + k * 4;
    let at = plan[from + 3] * 4;
    let kind = plan[from];
    let step = plan[from + 2];
    put_four(values, at, kept.first, kept.second, kind, step);
}
