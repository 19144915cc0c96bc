// The first line of a record: `ok` with three numbers, or `no` with those of a refusal. Each function asks for its room.
ghost use Rattle.std.specs.Prelude.{◌+◌, ◌≤◌, [], ◌∷◌, length};
ghost use Rattle.paper.specs.Refusal.{figures};
ghost use Rattle.paper.specs.ClassProgram.{listed, ok_head, no_head};
ghost use Rattle.command.specs.View.{refusal_of};
ghost use Rattle.text.specs.Write.{Writes};

use command::Refusal;
use text::write::{put, put_decimal};

// The byte that ends a line.
const LF: u8 = b'\n';

// Room for any first line: two letters, three numbers of at most 20 digits with a space before each, and LF.
pub const HEAD_ROOM: usize = 66;

// A space and a number.
fn put_spaced(out: &mut [u8], at: usize, n: usize) -> usize
    requires { at + 21 ≤ length out.old }
    ensures writes { Writes out.old at (listed (n ∷ [])) out.new result }
    ensures upper_bound { result ≤ at + 21 }
{
    let next = put(out, at, b' ');
    put_decimal(out, next, n)
}

// Three numbers, a space before each.
fn put_three(out: &mut [u8], at: usize, first: usize, second: usize, third: usize) -> usize
    requires { at + 63 ≤ length out.old }
    ensures writes { Writes out.old at (listed (first ∷ second ∷ third ∷ [])) out.new result }
    ensures upper_bound { result ≤ at + 63 }
{
    let a = put_spaced(out, at, first);
    let b = put_spaced(out, a, second);
    put_spaced(out, b, third)
}

// The first line of an accepted call's record: the tablet, the sets that it has left, and the bytes that follow.
pub fn put_ok(out: &mut [u8], at: usize, tablet: usize, left: usize, len: usize) -> usize
    requires { at + 66 ≤ length out.old }
    ensures writes { Writes out.old at (ok_head tablet left len) out.new result }
    ensures upper_bound { result ≤ at + 66 }
{
    let o = put(out, at, b'o');
    let k = put(out, o, b'k');
    let end = put_three(out, k, tablet, left, len);
    put(out, end, LF)
}

// The numbers of a refusal, a space before each.
fn put_figures(out: &mut [u8], at: usize, why: Refusal) -> usize
    requires { at + 42 ≤ length out.old }
    ensures writes { Writes out.old at (listed (figures (refusal_of why))) out.new result }
    ensures upper_bound { result ≤ at + 42 }
{
    let next = put_spaced(out, at, usize::from(why));
    match why {
        Refusal::Unsound { line } => put_spaced(out, next, line),
        _ => next,
    }
}

// The first line of a refused call's record, which is all of it.
pub fn put_no(out: &mut [u8], at: usize, why: Refusal) -> usize
    requires { at + 66 ≤ length out.old }
    ensures writes { Writes out.old at (no_head (refusal_of why)) out.new result }
    ensures upper_bound { result ≤ at + 66 }
{
    let n = put(out, at, b'n');
    let o = put(out, n, b'o');
    let end = put_figures(out, o, why);
    put(out, end, LF)
}
