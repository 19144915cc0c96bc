// A form leaves the store, and the sessions that hold a form behind it follow.
ghost use Rattle.std.specs.Prelude.{ℕ, ◌+◌, ◌-◌, ◌≤◌, ◌≡◌, length};
ghost use Rattle.session.specs.declared.state.Held.{Held};
ghost use Rattle.seats.specs.Seats.{numbers_of, lowered, lowered_at};

use crate::numbers::{FORM, START, TABLETS, WIDTH};

// The session whose numbers begin at a place follows.
#[tactic(auto, using(crate::proofs::Lowering::one_stays, crate::proofs::Lowering::one_follows))]
fn lower_one(held: &mut [usize], at: usize, n: usize, size: usize)
    requires { at + 10 ≤ length held.old }
    ensures held_after { held.new ≡ lowered_at n size held.old at }
    ensures held_len_unchanged { length held.new ≡ length held.old }
{
    let form = held[at + FORM];
    if form <= n {
        return;
    }
    let start = held[at + START].saturating_sub(size);
    held[at + FORM] = form - 1;
    held[at + START] = start;
}

// Form n, of so many bytes, has left the store: the sessions that hold a form behind it follow.
pub fn lower(held: &mut [usize], n: usize, size: usize)
    requires { length held.old ≡ 300 }
    ensures by_index { (h : ℕ → Held) → held.old ≡ numbers_of h → held.new ≡ numbers_of (λ k. lowered n size (h k)) }
    ensures held_len { length held.new ≡ 300 }
{
    for k in 0..TABLETS {
        lower_one(held, k * WIDTH, n, size);
    }
}
