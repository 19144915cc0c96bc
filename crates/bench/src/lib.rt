// The bench: it hears the lines of thirty tablets and gives sets. Its arrays are its own and never move; each call lends them.
#![tactic(auto)]

ghost use Rattle.tablets.specs.Calls.{Reached, Begins, HearsLine, TakesSet, SetsLeft, AllLeft};
ghost use Rattle.program.specs.Pass.{Starting};
ghost use Rattle.bench.specs.Whole.{memory};

use command::Answer;
use desk::hear;
use program::run;
use std::io;
use std::rt::Clock;
use tablets::counts::{LAST, all_left, sets_left};
use tablets::sets::{Served, take};

// A class begins as if the last tablet had been served, so that the turn goes on to the first.
pub const LAST_TABLET: usize = 29;

// The forms' texts and names, the lengths of both, the forms' plans and the store's numbers; then of each of thirty sessions the draft's
// name and text, the answers, what they are worth, and the session's numbers, behind which stand the tablet last served and how many print.
#[derive(Drop)]
pub struct Bench {
    forms: [u8; 4096],
    names: [u8; 128],
    texts: [usize; 8],
    lens: [usize; 8],
    plans: [usize; 1856],
    filed: [usize; 2],
    name: [u8; 480],
    text: [u8; 30720],
    answers: [u8; 51000],
    values: [usize; 3120],
    held: [usize; 302],
}

impl Bench {
    // Every tablet Idle, with an empty store.
    pub fn new() -> Self
        ensures { Begins (memory result) }
    {
        let mut held = [0usize; 302];
        held[LAST] = LAST_TABLET;
        Bench {
            forms: [0u8; 4096],
            names: [0u8; 128],
            texts: [0usize; 8],
            lens: [0usize; 8],
            plans: [0usize; 1856],
            filed: [0usize; 2],
            name: [0u8; 480],
            text: [0u8; 30720],
            answers: [0u8; 51000],
            values: [0usize; 3120],
            held,
        }
    }

    // A line that a tablet sends, without its LF, with a buffer for the reply.
    pub fn hear(&mut self, t: usize, s: &[u8], reply: &mut [u8]) -> Answer
        requires { Reached (memory self.old) }
        ensures { HearsLine (memory self.old) t s.now reply.old (memory self.new) reply.new result }
    {
        hear(
            &mut self.forms,
            &mut self.names,
            &mut self.texts,
            &mut self.lens,
            &mut self.plans,
            &mut self.filed,
            &mut self.name,
            &mut self.text,
            &mut self.answers,
            &mut self.values,
            &mut self.held,
            t,
            s,
            reply,
        )
    }

    // A set of the tablet whose turn it is, with a buffer for it.
    pub fn take(&mut self, set: &mut [u8]) -> Served
        requires { Reached (memory self.old) }
        ensures { TakesSet (memory self.old) set.old (memory self.new) set.new result.tablet result.answer }
    {
        take(
            &self.forms,
            &self.names,
            &self.texts,
            &self.lens,
            &self.plans,
            &self.filed,
            &mut self.name,
            &mut self.text,
            &mut self.answers,
            &mut self.values,
            &mut self.held,
            set,
        )
    }

    // The sets that tablet t has left to be taken.
    pub fn sets_left(&self, t: usize) -> usize
        requires { Reached (memory self.now) }
        ensures { SetsLeft (memory self.now).held t result }
    {
        sets_left(&self.held, t)
    }

    // Those that all tablets have.
    pub fn all_left(&self) -> usize
        requires { Reached (memory self.now) }
        ensures { AllLeft (memory self.now).held result }
    {
        all_left(&self.held)
    }

    // Standard input to standard output and standard error, with a buffer for each, as tablet 0.
    pub fn run(
        &mut self,
        clock: &impl Clock,
        from: &mut impl io::Read,
        to: &mut impl io::Write,
        errors: &mut impl io::Write,
        input: &mut [u8],
        out: &mut [u8],
        err: &mut [u8],
    )
        requires { Starting (memory self.old) input.old out.old err.old }
        ensures { Reached (memory self.new) }
    {
        run(
            clock,
            from,
            to,
            errors,
            &mut self.forms,
            &mut self.names,
            &mut self.texts,
            &mut self.lens,
            &mut self.plans,
            &mut self.filed,
            &mut self.name,
            &mut self.text,
            &mut self.answers,
            &mut self.values,
            &mut self.held,
            input,
            out,
            err,
        )
    }
}
