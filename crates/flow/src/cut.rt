// Where a line ends, and what is seen of it on the way there.
ghost use Rattle.std.specs.Prelude.{◌≤◌, length};
ghost use Rattle.flow.specs.Fill.{Ending, Clear};

use form::walk::line_end;
use line::clear::clear_end;

// Where the line from a place on ends, and whether all of it lies there, with no byte below 20H.
#[derive(Clone, Copy, Debug, PartialEq, Eq)]
pub struct Cut {
    pub end: usize,
    pub shown: bool,
}

// The line from a place on, of which so many bytes wait: one look for a byte below 20H finds its LF too, where it has no other.
#[tactic(auto, using(crate::proofs::Gathering::clear_ends, crate::proofs::Gathering::clear_cut))]
pub fn cut_at(input: &[u8], next: usize, len: usize) -> Cut
    requires { next ≤ length input.now }
    ensures ending { Ending input.now next result.end }
    ensures clear { Clear input.now next len result.end result.shown }
{
    let stop = clear_end(input, next);
    let end = line_end(input, stop);
    Cut {
        end,
        shown: len == 0 && stop == end,
    }
}
