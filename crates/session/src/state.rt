// A session in memory that is lent, and what becomes of it where a line is refused.
ghost use Rattle.std.specs.Prelude.{◌≡◌, ◌≤◌, ◌++◌, [], length, take, drop, replicate};
ghost use Rattle.session.specs.Memory.{lent, SameLoan, drafting};
ghost use Rattle.session.specs.Outcome.{Kept, Used, Refuses};

use command::{Answer, Refusal};

// The numbers that the values take: four for each of ten counters and sixteen variables.
pub const VALUES: usize = 104;

// The states, with the numbers that each needs: the lines kept so far, the answers given, the sets and copies asked for and the sets
// that are out.
#[derive(Clone, Copy, Debug, PartialEq, Eq)]
pub enum Mode {
    Idle,
    Collecting {
        lines: usize,
    },
    Spoiled,
    Opened,
    Answering {
        k: usize,
    },
    Ready,
    Printing {
        sets: usize,
        copies: usize,
        out: usize,
    },
}

// The numbers of a session: its state; the form that it holds open, by its number and its text's place and size; the bytes of the
// draft's name and of its text, and those of the answers.
#[derive(Clone, Copy)]
pub struct Held {
    pub mode: Mode,
    pub form: usize,
    pub start: usize,
    pub size: usize,
    pub len: usize,
    pub drafted: usize,
    pub given: usize,
}

// A session in memory that is lent: its numbers, the draft's name and text, and the answers with what they are worth.
#[derive(Drop)]
pub struct Session<'a> {
    pub held: Held,
    pub name: &'a mut [u8],
    pub text: &'a mut [u8],
    pub answers: &'a mut [u8],
    pub values: &'a mut [usize],
}

impl Session<'_> {
    // The answers that were given.
    pub fn given(&self) -> &[u8]
        requires { self.now.held.given ≤ length self.now.answers.now }
        ensures { result.now ≡ take self.now.held.given self.now.answers.now }
    {
        &self.answers[..self.held.given]
    }

    // What they are worth.
    pub fn worth(&self) -> &[usize]
        ensures { result.now ≡ self.now.values.now }
    {
        &self.values[..]
    }

    // It holds nothing.
    pub fn fresh(&mut self, mode: Mode)
        requires { Used (lent self.old) }
        ensures same { SameLoan self.old self.new }
        ensures value { lent self.new ≡ drafting mode [] [] }
    {
        wipe(self.name, self.held.len);
        wipe(self.text, self.held.drafted);
        wipe(self.answers, self.held.given);
        self.values.fill(0);
        self.held = Held {
            mode,
            form: 0,
            start: 0,
            size: 0,
            len: 0,
            drafted: 0,
            given: 0,
        };
    }

    // A refused line.
    pub fn refuse(&mut self, why: Refusal) -> Answer
        requires { Kept (lent self.old) }
        ensures same { SameLoan self.old self.new }
        ensures value { Refuses why (lent self.old) result (lent self.new) }
    {
        match self.held.mode {
            Mode::Collecting { lines: _ } => self.fresh(Mode::Spoiled),
            Mode::Answering { k: _ } => self.fresh(Mode::Idle),
            _ => {}
        }
        Err(why)
    }
}

// The used bytes at the front of memory are 0 again.
fn wipe(memory: &mut [u8], used: usize)
    requires { used ≤ length memory.old }
    ensures { memory.new ≡ replicate used 0 ++ drop used memory.old }
{
    memory[..used].fill(0);
}
