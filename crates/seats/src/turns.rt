// Whose turn it is to have a set taken.
ghost use Rattle.std.specs.Prelude.{ℕ, ◌<◌, ◌≡◌, length, eqb};
ghost use Rattle.paper.specs.Class.{onward, first_after};
ghost use Rattle.session.specs.declared.state.Held.{Held};
ghost use Rattle.seats.specs.Numbers.{code_of};
ghost use Rattle.seats.specs.Seats.{numbers_of, option_of};

use crate::numbers::{PRINTING, TABLETS, WIDTH};

// The tablet after another, from 29 on to 0.
#[tactic(auto, using(crate::proofs::Turning::onward_up, crate::proofs::Turning::onward_round))]
fn next_after(k: usize) -> usize
    ensures value { result ≡ onward k }
    ensures bound { result < 30 }
{
    if TABLETS - 1 <= k {
        return 0;
    }
    k + 1
}

// The first tablet in Printing after the one last served, if one prints.
pub fn turn_after(held: &[usize], last: usize) -> Option<usize>
    requires { (length held.now ≡ 300) × (last < 30) }
    ensures { (h : ℕ → Held) → held.now ≡ numbers_of h → result ≡ option_of (first_after (λ k. eqb (code_of (h k).mode).tag 6) 30 last) }
{
    let mut k = last;
    for _ in 0..TABLETS {
        k = next_after(k);
        if held[k * WIDTH] == PRINTING {
            return Some(k);
        }
    }
    None
}
