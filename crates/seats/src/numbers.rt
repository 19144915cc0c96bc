// The numbers of a session and of the store as they lie in memory.
ghost use Rattle.std.specs.Prelude.{◌≡◌, [], ◌∷◌, length};
ghost use Rattle.store.specs.Packed.{Store};
ghost use Rattle.seats.specs.Numbers.{mode_of, code_of, held_in, filed_in};
ghost use Rattle.session.specs.declared.state.Held.{Held};

use session::state::{Held, Mode};
use store::Filed;

// So many tablets are there.
pub const TABLETS: usize = 30;
// A session has so many numbers.
pub const WIDTH: usize = 10;
// Among them the number of the form held open, and where its text begins.
pub const FORM: usize = 4;

pub const START: usize = 5;
// The tag of Printing.
pub const PRINTING: usize = 6;

// A state by its four numbers.
#[tactic(auto, using(crate::proofs::Laid::tags))]
fn mode_of(tag: usize, a: usize, b: usize, c: usize) -> Mode
    ensures { result ≡ mode_of tag a b c }
{
    match tag {
        1 => Mode::Collecting { lines: a },
        2 => Mode::Spoiled,
        3 => Mode::Opened,
        4 => Mode::Answering { k: a },
        5 => Mode::Ready,
        6 => Mode::Printing {
            sets: a,
            copies: b,
            out: c,
        },
        _ => Mode::Idle,
    }
}

#[tactic(auto, using(crate::proofs::Laid::reads_held))]
pub fn held_of(numbers: &[usize]) -> Held
    requires { length numbers.now ≡ 10 }
    ensures { (h : Held) → numbers.now ≡ held_in h → result ≡ h }
{
    Held {
        mode: mode_of(numbers[0], numbers[1], numbers[2], numbers[3]),
        form: numbers[4],
        start: numbers[5],
        size: numbers[6],
        len: numbers[7],
        drafted: numbers[8],
        given: numbers[9],
    }
}

#[tactic(auto, using(crate::proofs::Laid::reads_filed))]
pub fn filed_of(numbers: &[usize]) -> Filed
    requires { length numbers.now ≡ 2 }
    ensures { (s : Store) → numbers.now ≡ filed_in s → result ≡ record { used = s.used; count = s.count } }
{
    Filed {
        used: numbers[0],
        count: numbers[1],
    }
}

// The four numbers of a state.
// Kept: so they lie in memory, by the definitions code_of, held_in and packed_class and the theorem freed_memory.
#[derive(Clone, Copy, Debug, PartialEq, Eq)]
pub struct Code {
    pub tag: usize,
    pub a: usize,
    pub b: usize,
    pub c: usize,
}

// Those of Idle.
const ZERO: Code = Code {
    tag: 0,
    a: 0,
    b: 0,
    c: 0,
};

#[tactic(auto, unfolding(crate::specs::Numbers::code_of))]
fn code_of(mode: Mode) -> Code
    ensures { result ≡ code_of mode }
{
    match mode {
        Mode::Idle => ZERO,
        Mode::Collecting { lines } => Code {
            tag: 1,
            a: lines,
            ..ZERO
        },
        Mode::Spoiled => Code { tag: 2, ..ZERO },
        Mode::Opened => Code { tag: 3, ..ZERO },
        Mode::Answering { k } => Code {
            tag: 4,
            a: k,
            ..ZERO
        },
        Mode::Ready => Code { tag: 5, ..ZERO },
        Mode::Printing { sets, copies, out } => Code {
            tag: 6,
            a: sets,
            b: copies,
            c: out,
        },
    }
}

#[tactic(auto, unfolding(crate::specs::Numbers::held_in))]
pub fn put_held(numbers: &mut [usize], held: Held)
    requires { length numbers.old ≡ 10 }
    ensures { numbers.new ≡ held_in held }
{
    let Code { tag, a, b, c } = code_of(held.mode);
    numbers.copy_from_slice(&[
        tag,
        a,
        b,
        c,
        held.form,
        held.start,
        held.size,
        held.len,
        held.drafted,
        held.given,
    ]);
}

pub fn put_filed(numbers: &mut [usize], filed: Filed)
    requires { length numbers.old ≡ 2 }
    ensures { numbers.new ≡ filed.used ∷ filed.count ∷ [] }
{
    numbers.copy_from_slice(&[filed.used, filed.count]);
}
