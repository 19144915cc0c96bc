// Memory from which a part leaves: what stands behind it moves down over it, and zeros follow.
ghost use Rattle.std.specs.Prelude.{◌+◌, ◌≤◌, ◌≡◌, length};
ghost use Rattle.store.specs.Gap.{closed};

// A gap is closed by so many elements behind it, and the part that they leave is set to zero.
pub fn close<T: Copy>(buf: &mut [T], at: usize, gap: usize, n: usize, zero: T)
    requires { at + gap + n ≤ length buf.old }
    ensures { buf.new ≡ closed buf.old at gap n zero }
{
    let from = at + gap;
    buf.copy_within(from..from + n, at);
    for x in buf[at + n..from + n].iter_mut() {
        *x = zero;
    }
}
