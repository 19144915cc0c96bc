// One print set into a buffer, and whether every set keeps the counters within their bounds.
ghost use Rattle.std.specs.Prelude.{◌+◌, ◌-◌, ◌/◌, ◌≤◌, ◌<◌, ◌≡◌, length, get_or};
ghost use Rattle.text.specs.Write.{Writes};
ghost use Rattle.set.specs.Fill.{shown_part, Within};
ghost use Rattle.set.specs.Values.{Told, count_at, value_show, opening_in, behind_show};
ghost use Rattle.set.specs.Piece.{PieceTold, PiecesTold, DefineTold, piece_show, pieces_show, holds_at};
ghost use Rattle.set.specs.Taking.{Filled, Taking, Holds, Puts};

use crate::count::put_count;
use form::plan::{DEFINES, DOWN, PIECES, UP, VARIABLE};
use text::write::{put, put_all, put_decimal, put_escaped};

// Definition k stays within its bounds in a last set, as it does in the first.
// Kept: a kind is one of form's numbers, since plan_of and values_in fix it as a number of the memory that is lent.
fn define_holds(plan: &[usize], values: &[usize], k: usize, last: usize) -> bool
    requires define_told { DefineTold plan.now values.now k }
    requires last_bound { last ≤ 65535 }
    ensures { result ≡ holds_at plan.now values.now k last }
{
    let at = DEFINES + k * 4;
    let kind = plan[at];
    if kind == VARIABLE {
        return true;
    }
    let by = last * plan[at + 2];
    let first = values[plan[at + 3] * 4];
    if kind == DOWN {
        return by <= first;
    }
    first + by < 10usize.pow(plan[at + 1] as u32)
}

// Every counter stays within its bounds up to a last set.
pub fn all_hold(plan: &[usize], values: &[usize], last: usize) -> bool
    requires filled { Filled plan.now values.now }
    requires last_bound { last ≤ 65535 }
    ensures { Holds plan.now values.now last result }
{
    (0..plan[0]).all(|k| define_holds(plan, values, k, last))
}

// The part that is shown: of the form's text, or of the answers.
pub fn shown<'a>(
    text: &'a [u8],
    answers: &'a [u8],
    answered: bool,
    start: usize,
    end: usize,
) -> &'a [u8]
    requires { Within answered (length text.now) (length answers.now) start end }
    ensures { result.now ≡ shown_part answered text.now answers.now start end }
{
    if answered {
        return &answers[start..end];
    }
    &text[start..end]
}

// A counter's value in set i, in which it holds.
fn value_at(kind: usize, first: usize, step: usize, i: usize) -> usize
    requires { (first < 1000000000) × (step ≤ 9999) × (i ≤ 65535) }
    ensures { result ≡ count_at kind first step i }
{
    if kind == UP {
        first + i * step
    } else {
        first.saturating_sub(i * step)
    }
}

// A value in set i.
fn put_value<'a>(
    out: &mut [u8],
    at: usize,
    text: &'a [u8],
    answers: &'a [u8],
    values: &[usize],
    value: usize,
    i: usize,
) -> usize
    requires told { Told answers.now values.now value i }
    requires i_in_bounds { at + length (value_show answers.now values.now value i) ≤ length out.old }
    ensures { Writes out.old at (value_show answers.now values.now value i) out.new result }
{
    let place = value * 4;
    let first = values[place];
    let second = values[place + 1];
    let kind = values[place + 2];
    if kind == VARIABLE {
        return put_escaped(out, at, shown(text, answers, true, first, second));
    }
    put_count(out, at, value_at(kind, first, values[place + 3], i), second)
}

// The quote that a value opens where it stands alone.
fn put_opening(out: &mut [u8], at: usize, behind: usize) -> usize
    requires { at + length (opening_in behind) ≤ length out.old }
    ensures { Writes out.old at (opening_in behind) out.new result }
{
    if behind % 2 == 0 {
        return put(out, at, b'"');
    }
    at
}

// Behind a piece: a value with the quote that closes it, and the one that opens it where it stands alone; or no byte.
fn put_behind<'a>(
    out: &mut [u8],
    at: usize,
    text: &'a [u8],
    answers: &'a [u8],
    values: &[usize],
    behind: usize,
    i: usize,
) -> usize
    requires told { (behind ≡ 0 → ⊥) → Told answers.now values.now ((behind - 1) / 2) i }
    requires i_in_bounds { at + length (behind_show answers.now values.now behind i) ≤ length out.old }
    ensures { Writes out.old at (behind_show answers.now values.now behind i) out.new result }
{
    if behind == 0 {
        return at;
    }
    let value = (behind - 1) / 2;
    let next = put_opening(out, at, behind);
    let end = put_value(out, next, text, answers, values, value, i);
    put(out, end, b'"')
}

// Piece k of a plan, with what goes behind it.
fn put_piece<'a>(
    out: &mut [u8],
    at: usize,
    text: &'a [u8],
    answers: &'a [u8],
    plan: &[usize],
    values: &[usize],
    k: usize,
    i: usize,
) -> usize
    requires piece_told { PieceTold text.now answers.now plan.now values.now k i }
    requires i_in_bounds { at + length (piece_show text.now answers.now plan.now values.now k i) ≤ length out.old }
    ensures { Writes out.old at (piece_show text.now answers.now plan.now values.now k i) out.new result }
{
    let place = PIECES + k * 3;
    let start = plan[place];
    let end = plan[place + 1];
    let piece = shown(text, answers, false, start, end);
    let next = put_all(out, at, piece);
    put_behind(out, next, text, answers, values, plan[place + 2], i)
}

// All pieces of a plan.
fn put_pieces<'a>(
    out: &mut [u8],
    at: usize,
    text: &'a [u8],
    answers: &'a [u8],
    plan: &[usize],
    values: &[usize],
    i: usize,
) -> usize
    requires pieces_told { PiecesTold text.now answers.now plan.now values.now i }
    requires plan_in_bounds { at + length (pieces_show text.now answers.now plan.now values.now i 0 (get_or plan.now 1 0)) ≤ length out.old }
    ensures { Writes out.old at (pieces_show text.now answers.now plan.now values.now i 0 (get_or plan.now 1 0)) out.new result }
{
    let mut next = at;
    for k in 0..plan[1] {
        next = put_piece(out, next, text, answers, plan, values, k, i);
    }
    next
}

// Set i at the front of a buffer with room for the longest; its length.
pub fn put_set<'a>(
    out: &mut [u8],
    text: &'a [u8],
    answers: &'a [u8],
    plan: &[usize],
    values: &[usize],
    copies: usize,
    i: usize,
) -> usize
    requires taking { Taking text.now answers.now plan.now values.now copies i }
    requires in_bounds { 10291 ≤ length out.old }
    ensures { Puts text.now answers.now plan.now values.now copies i out.old out.new result }
{
    let next = put_all(out, 0, b"N\n");
    let end = put_pieces(out, next, text, answers, plan, values, i);
    let a = put_all(out, end, b"P1,");
    let b = put_decimal(out, a, copies);
    put(out, b, b'\n')
}
