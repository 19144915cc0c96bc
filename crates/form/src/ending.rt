// How a line that draws ends, told by its last bytes.
ghost use Rattle.std.specs.Prelude.{◌-◌, ◌<◌, ◌≡◌, true};
ghost use Rattle.paper.specs.Command as P;
ghost use Rattle.paper.specs.Command.{draw_ranges, all_of};
ghost use Rattle.paper.specs.Write.{line_text};
ghost use Rattle.command.specs.View.{width};
ghost use Rattle.form.specs.Plan.{shows_of};
ghost use Rattle.form.specs.Ending.{value_ending, ending_of};

// The value of a digit; 0 below the digits.
fn digit_of(b: u8) -> usize
    ensures value { result ≡ b - 48 }
    ensures upper_bound { result < 256 }
{
    b.saturating_sub(b'0') as usize
}

// A value at the end of a line that draws: the bytes that give way to it, its number, and whether it stands alone.
#[derive(Clone, Copy, Debug, PartialEq, Eq)]
pub struct Ending {
    pub tail: usize,
    pub value: usize,
    pub opens: bool,
}

// A line that ends in a counter.
fn counter_ending(n: usize, opens: bool) -> Ending
    ensures { result ≡ value_ending (P.counter n) opens }
{
    Ending {
        tail: if opens { 2 } else { 3 },
        value: n,
        opens,
    }
}

// A line that ends in a variable.
fn variable_ending(n: usize, opens: bool) -> Ending
    requires { n < 10000 }
    ensures { result ≡ value_ending (P.variable n) opens }
{
    let value = 10 + n;
    Ending {
        tail: if opens { 3 } else { 4 },
        value,
        opens,
    }
}

// The value that ends a line that draws, if one does: a text in normal form ends in its string's quote, in `Cn` or in `Vnn`, and
// a value that stands alone is behind a comma.
pub fn ending_of(line: &[u8]) -> Option<Ending>
    ensures { (d : P.Draw) → line.now ≡ line_text (P.draw d) → all_of (draw_ranges width d) ≡ true → result ≡ ending_of (shows_of d) }
{
    let [b'A', .., third, second, last] = line else {
        return None;
    };
    if *last == b'"' {
        return None;
    }
    let ones = digit_of(*last);
    if *second == b'C' {
        return Some(counter_ending(ones, *third == b','));
    }
    let n = digit_of(*second) * 10 + ones;
    Some(variable_ending(n, line[line.len() - 4] == b','))
}
