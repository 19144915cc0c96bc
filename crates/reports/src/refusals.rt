// A refusal as a line of the report: the input line's number, the refusal's, and for 9 the form's line.
ghost use Rattle.std.specs.Prelude.{◌+◌, ◌≤◌, [], ◌∷◌, ◌++◌, length};
ghost use Rattle.paper.specs.Byte.{decimal};
ghost use Rattle.paper.specs.Refusal as R;
ghost use Rattle.paper.specs.Program.{err_of};
ghost use Rattle.command.specs.View.{refusal_of};
ghost use Rattle.command.specs.Answer.{Reports};
ghost use Rattle.text.specs.Write.{Writes};

use command::{Answer, Refusal};
use text::write::{put, put_decimal};

// A number and the byte behind it.
fn put_number(err: &mut [u8], at: usize, n: usize, b: u8) -> usize
    requires { at + 21 ≤ length err.old }
    ensures writes { Writes err.old at (decimal n ++ (b ∷ [])) err.new result }
    ensures upper_bound { result ≤ at + 21 }
{
    let next = put_decimal(err, at, n);
    put(err, next, b)
}

// A refusal of the input line of a number.
fn put_report(err: &mut [u8], at: usize, k: usize, why: Refusal) -> usize
    requires { at + 64 ≤ length err.old }
    ensures { Writes err.old at (err_of k (R.refused (refusal_of why))) err.new result }
{
    let a = put_number(err, at, k, b' ');
    let Refusal::Unsound { line } = why else {
        return put_number(err, a, usize::from(why), b'\n');
    };
    let b = put_number(err, a, 9, b' ');
    put_number(err, b, line, b'\n')
}

// What an answer adds to the report: nothing where it is no refusal.
pub fn put_refusal(err: &mut [u8], at: usize, k: usize, answer: Answer) -> usize
    requires { at + 64 ≤ length err.old }
    ensures { (p : R.Answer) → Reports answer p → Writes err.old at (err_of k p) err.new result }
{
    let Err(why) = answer else {
        return at;
    };
    put_report(err, at, k, why)
}
