// Whether a form is sound: line by line, with the definitions above.
ghost use Rattle.std.specs.Prelude.{◌≡◌, true, List, ℕ, ◌+◌, ◌<◌, length, get_or, set, IsSome};
ghost use Rattle.paper.specs.Command as P;
ghost use Rattle.paper.specs.Command.{draw_ranges, all, all_of, in_range};
ghost use Rattle.paper.specs.Form.{text_of, value_of, len_of, draw_sound, rules, unsound_at};
ghost use Rattle.paper.specs.Write.{line_text};
ghost use Rattle.paper.specs.State.{all_in};
ghost use Rattle.command.specs.View.{width};
ghost use Rattle.form.specs.Asked.{define_of};
ghost use Rattle.form.specs.Sound.{place_in, slot_of, Agrees, Judges, line_number};

use crate::asked::{Define, line_in};
use crate::ending::ending_of;
use crate::walk::Lines;
use command::range::beyond;
use line::parts::setting_at;
use text::read::{byte_at, string_at};

// How many values a form may define: 10 counters and 16 variables.
const VALUES: usize = 26;

// The place of a value's len: those of its kind stand from `first` on, with numbers up to `last`; any other has none.
fn slot_of(first: usize, last: usize, n: usize) -> Option<usize>
    requires { first + last < 26 }
    ensures { result ≡ place_in first last n }
{
    if last < n {
        return None;
    }
    Some(first + n)
}

// The len that is noted at a place, if one is.
fn len_at(lens: &[Option<usize>], slot: usize) -> Option<usize>
    ensures { result ≡ get_or lens.now slot None }
{
    *lens.get(slot)?
}

// Notes a len at a place; past the last nothing is noted.
fn note_len(lens: &mut [Option<usize>], slot: usize, len: usize)
    ensures { lens.new ≡ set lens.old slot (Some len) }
{
    if slot < lens.len() {
        lens[slot] = Some(len);
    }
}

// The length of the string that a text joins to a value, if it joins one.
fn string_len(line: &[u8]) -> Option<usize>
    ensures { (s : P.Setting) (t : List ℕ) (v : P.Value) → line.now ≡ line_text (P.draw (P.put s (P.joined t v))) → all_of (draw_ranges width (P.put s (P.joined t v))) ≡ true → result ≡ Some (length t) }
{
    let setting = setting_at(line, 1)?;
    let string = string_at(line, setting.next)?;
    Some(string.len)
}

// A line that draws shows only a value that is defined above, and its string is not too long with it.
fn draw_sound(lens: &[Option<usize>], line: &[u8]) -> bool
    ensures { (d : P.Draw) (above : List P.Define) → line.now ≡ line_text (P.draw d) → all_of (draw_ranges width d) ≡ true → Agrees lens.now above → result ≡ all (draw_sound above d) }
{
    let Some(ending) = ending_of(line) else {
        return true;
    };
    let Some(len) = len_at(lens, ending.value) else {
        return false;
    };
    ending.opens || string_len(line).is_some_and(|string| !beyond(string, len, 100))
}

// A line that draws, with k lines above it: a `Q` is the first, a `Z` the second, and any other stands below them.
fn draw_rules(k: usize, lens: &[Option<usize>], line: &[u8]) -> bool
    ensures { (d : P.Draw) (above : List P.Define) → line.now ≡ line_text (P.draw d) → all_of (draw_ranges width d) ≡ true → Agrees lens.now above → result ≡ all (rules k above (P.draw d)) }
{
    match byte_at(line, 0) {
        b'Q' => k == 0,
        b'Z' => k == 1,
        _ => 2 <= k && draw_sound(lens, line),
    }
}

// A definition with k lines above it: not one of the first two, and of no value that is defined above. Its len is noted.
fn check_define(k: usize, lens: &mut [Option<usize>], slot: Option<usize>, len: usize) -> bool
    ensures judges { (d : P.Define) (above : List P.Define) → slot ≡ slot_of (value_of d) → len ≡ len_of d → IsSome slot → Agrees lens.old above → Judges k above (P.define d) result lens.new }
    ensures lens_len_unchanged { length lens.new ≡ length lens.old }
{
    let Some(slot) = slot else {
        return false;
    };
    if k < 2 || len_at(lens, slot).is_some() {
        return false;
    }
    note_len(lens, slot, len);
    true
}

// A definition that was read, with k lines above it.
fn check_defined(k: usize, lens: &mut [Option<usize>], define: Define) -> bool
    ensures judges { (d : P.Define) (above : List P.Define) → define ≡ define_of d → in_range width (P.keep (P.define d)) ≡ true → Agrees lens.old above → Judges k above (P.define d) result lens.new }
    ensures lens_len_unchanged { length lens.new ≡ length lens.old }
{
    match define {
        Define::Counter { n, len, step: _ } => check_define(k, lens, slot_of(0, 9, n), len),
        Define::Variable { n, len } => check_define(k, lens, slot_of(10, 15, n), len),
    }
}

// Whether a line with k lines above it keeps the rules. The lens are those of the definitions above, each counter's and then each
// variable's; that of a definition is noted.
fn check_line(k: usize, lens: &mut [Option<usize>], line: &[u8]) -> bool
    ensures judges { (l : P.FormLine) (above : List P.Define) → line.now ≡ line_text l → in_range width (P.keep l) ≡ true → Agrees lens.old above → Judges k above l result lens.new }
    ensures lens_len_unchanged { length lens.new ≡ length lens.old }
{
    match line_in(line) {
        Some(define) => check_defined(k, lens, define),
        None => draw_rules(k, lens, line),
    }
}

// The first line that breaks a rule, counted from 1, if one does.
pub fn unsound_at(text: &[u8]) -> Option<usize>
    ensures { (ls : List P.FormLine) → text.now ≡ text_of ls → all_in width ls ≡ true → result ≡ line_number (unsound_at ls) }
{
    let mut lens = [None; VALUES];
    let mut k = 0;
    for line in (Lines { text, at: 0 }) {
        if !check_line(k, &mut lens, line.bytes) {
            return Some(k + 1);
        }
        k += 1;
    }
    if k < 2 { Some(k + 1) } else { None }
}
