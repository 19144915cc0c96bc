// The digits of a counter in a set.
ghost use Rattle.std.specs.Prelude.{◌+◌, ◌≤◌, length};
ghost use Rattle.paper.specs.Byte.{decimal};
ghost use Rattle.paper.specs.Set as P;
ghost use Rattle.text.specs.Write.{Writes};

use text::write::{decimal_len, put_decimal};

// A counter's digits: as many as its answer had, zeros in front, or more.
pub fn put_count(out: &mut [u8], at: usize, value: usize, digits: usize) -> usize
    requires { at + length (P.padded digits (decimal value)) ≤ length out.old }
    ensures { Writes out.old at (P.padded digits (decimal value)) out.new result }
{
    let zeros = digits.saturating_sub(decimal_len(value));
    let next = at + zeros;
    out[at..next].fill(b'0');
    put_decimal(out, next, value)
}
