// A line of a form as a definition, by the numbers that the check and the plan need of it.
ghost use Rattle.std.specs.Prelude.{◌≡◌, true, List, ℕ};
ghost use Rattle.paper.specs.Command as P;
ghost use Rattle.paper.specs.Command.{in_range};
ghost use Rattle.paper.specs.Write.{line_text};
ghost use Rattle.command.specs.View.{width};
ghost use Rattle.form.specs.Asked.{line_of};

use command::Step;
use line::parts::{digit_part, letter_part, number_part, step_part, two_digits_part};
use text::read::byte_at;

// A definition of a value to be asked for.
#[derive(Clone, Copy, Debug, PartialEq, Eq)]
pub enum Define {
    Counter { n: usize, len: usize, step: Step },
    Variable { n: usize, len: usize },
}

// The definition of a variable; its prompt is passed over.
fn variable_in(s: &[u8]) -> Option<Define>
    ensures { (n len letter : ℕ) (prompt : List ℕ) → s.now ≡ line_text (P.define (P.varying n len letter prompt)) → in_range width (P.keep (P.define (P.varying n len letter prompt))) ≡ true → result ≡ line_of (P.define (P.varying n len letter prompt)) }
{
    let n = two_digits_part(s, 1)?;
    let len = number_part(s, n.next)?;
    Some(Define::Variable {
        n: n.value,
        len: len.value,
    })
}

// The definition of a counter; its prompt is passed over.
fn counter_in(s: &[u8]) -> Option<Define>
    ensures { (n len letter : ℕ) (by : P.Step) (prompt : List ℕ) → s.now ≡ line_text (P.define (P.counting n len letter by prompt)) → in_range width (P.keep (P.define (P.counting n len letter by prompt))) ≡ true → result ≡ line_of (P.define (P.counting n len letter by prompt)) }
{
    let n = digit_part(s, 1)?;
    let len = number_part(s, n.next)?;
    let letter = letter_part(s, len.next)?;
    let step = step_part(s, letter.next)?;
    Some(Define::Counter {
        n: n.value,
        len: len.value,
        step: step.value,
    })
}

// The definition that a line of a form is, if it is one: its first byte tells which.
pub fn line_in(s: &[u8]) -> Option<Define>
    ensures { (l : P.FormLine) → s.now ≡ line_text l → in_range width (P.keep l) ≡ true → result ≡ line_of l }
{
    match byte_at(s, 0) {
        b'C' => counter_in(s),
        b'V' => variable_in(s),
        _ => None,
    }
}
