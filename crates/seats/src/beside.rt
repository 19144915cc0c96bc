// What the other tablets do: whether one of them is in some state, at some form.
ghost use Rattle.std.specs.Prelude.{ℕ, ◌+◌, ◌≤◌, ◌&&◌, ◌≡◌, length, get_or};
ghost use Rattle.paper.specs.Byte.{between};
ghost use Rattle.session.specs.declared.state.Held.{Held};
ghost use Rattle.seats.specs.Seats.{numbers_of, is_at, beside_below};

use crate::numbers::{FORM, TABLETS, WIDTH};

// The session whose numbers begin at a place is in a state from one tag up to another and at a form's number from one up to another.
#[tactic(auto, using(std::proofs::lemmas::Bool::Decides::nat_tests), unfolding(paper::specs::Byte::between))]
fn is_at(held: &[usize], at: usize, low: usize, high: usize, first: usize, last: usize) -> bool
    requires { at + 10 ≤ length held.now }
    ensures { result ≡ (between low high (get_or held.now at 0) && between first last (get_or held.now (at + 4) 0)) }
{
    low <= held[at] && held[at] <= high && first <= held[at + FORM] && held[at + FORM] <= last
}

// Another tablet's session is in a state from one tag up to another and at a form's number from one up to another.
pub fn is_beside(
    held: &[usize],
    t: usize,
    low: usize,
    high: usize,
    first: usize,
    last: usize,
) -> bool
    requires { length held.now ≡ 300 }
    ensures { (h : ℕ → Held) → held.now ≡ numbers_of h → result ≡ beside_below 30 t (λ k. is_at low high first last (h k)) }
{
    for k in 0..TABLETS {
        if k != t && is_at(held, k * WIDTH, low, high, first, last) {
            return true;
        }
    }
    false
}
