// Reading and writing: the loops around crate streams, which calls the system.
#![tactic(auto)]

ghost use Rattle.std.specs.Prelude.{◌+◌, ◌*◌, ◌^◌, ◌<◌, ◌≤◌, ◌≡◌, false, length};
ghost use Rattle.call.specs.Call.{memory_of};
ghost use Rattle.tablets.specs.Calls.{Begins, Reached};
ghost use Rattle.streams.specs.Streams.{Reads};
ghost use Rattle.flow.specs.Emit.{start};
ghost use Rattle.flow.specs.Fill.{desk_of, At};
ghost use Rattle.program.specs.Pass.{StandsAt, Passes, Obeys, Starting};

use flow::fill::{Reach, Run, fill};
use std::io;
use std::rt::Clock;
use streams::{Errno, complain, read_some, write_whole};

// Writes out what waits for each stream, and answers whether standard output took it all. Where it did not, a last line on
// standard error says so. A standard error that fails does not stop the labels.
fn write_both(
    clock: &impl Clock,
    to: &mut impl io::Write,
    errors: &mut impl io::Write,
    out: &[u8],
    err: &[u8],
) -> bool
    ensures { result ≡ false → 0 < length out.now }
{
    let written = write_whole(clock, to, out);
    let _ = write_whole(clock, errors, err);
    match written {
        Ok(()) => true,
        Err(error) => {
            complain(clock, errors, b"bench: standard output", error);
            false
        }
    }
}

// Where a piece of input led, up to which place, and whether the run goes on: not where standard output or standard input failed, nor where
// the input has ended.
// Kept: Passes and Obeys tell of both outcomes where the run stands, so that an enum of two variants with the same fields is no plainer.
#[derive(Clone, Copy, Debug, PartialEq, Eq)]
pub struct Passed {
    pub run: Run,
    pub next: usize,
    pub going: bool,
}

// Obeys a whole piece of input, and empties both buffers into their streams whenever one of them is full, and at the end.
fn pass(
    clock: &impl Clock,
    to: &mut impl io::Write,
    errors: &mut impl io::Write,
    run: Run,
    all: &mut [u8],
    names: &mut [u8],
    texts: &mut [usize],
    lens: &mut [usize],
    plans: &mut [usize],
    filed: &mut [usize],
    name: &mut [u8],
    text: &mut [u8],
    answers: &mut [u8],
    values: &mut [usize],
    held: &mut [usize],
    waiting: &mut [u8],
    input: &[u8],
    out: &mut [u8],
    err: &mut [u8],
) -> Passed
    requires stands_at { StandsAt (desk_of run (memory_of all.old names.old texts.old lens.old plans.old filed.old name.old text.old answers.old values.old held.old) waiting.old) (length input.now) }
    requires in_bounds { (10291 ≤ length out.old) × (64 ≤ length err.old) }
    ensures { Passes (desk_of run (memory_of all.old names.old texts.old lens.old plans.old filed.old name.old text.old answers.old values.old held.old) waiting.old) input.now (desk_of result.run (memory_of all.new names.new texts.new lens.new plans.new filed.new name.new text.new answers.new values.new held.new) waiting.new) result.next result.going }
{
    let mut run = run;
    let mut next = 0;
    loop {
        let start = Reach {
            run,
            next,
            out: 0,
            err: 0,
        };
        let filled = fill(
            start, all, names, texts, lens, plans, filed, name, text, answers, values, held,
            waiting, input, out, err,
        );
        let reach = filled.reach;
        run = reach.run;
        next = reach.next;
        let going = write_both(clock, to, errors, &out[..reach.out], &err[..reach.err]);
        if !going || filled.used {
            return Passed { run, next, going };
        }
    }
}

// A run that ends.
fn ended(run: Run) -> Passed
    ensures { result ≡ record { run = run; next = 0; going = false } }
{
    Passed {
        run,
        next: 0,
        going: false,
    }
}

// What a read came to, and the buffer that it read into: its bytes are passed on. Where the input has ended the run ends, and where it
// fails too, which a line says.
fn obey(
    clock: &impl Clock,
    to: &mut impl io::Write,
    errors: &mut impl io::Write,
    run: Run,
    read: Result<Option<usize>, Errno>,
    all: &mut [u8],
    names: &mut [u8],
    texts: &mut [usize],
    lens: &mut [usize],
    plans: &mut [usize],
    filed: &mut [usize],
    name: &mut [u8],
    text: &mut [u8],
    answers: &mut [u8],
    values: &mut [usize],
    held: &mut [usize],
    waiting: &mut [u8],
    input: &[u8],
    out: &mut [u8],
    err: &mut [u8],
) -> Passed
    requires stands_at { StandsAt (desk_of run (memory_of all.old names.old texts.old lens.old plans.old filed.old name.old text.old answers.old values.old held.old) waiting.old) (length input.now) }
    requires reads { Reads input.now read }
    requires in_bounds { (10291 ≤ length out.old) × (64 ≤ length err.old) }
    ensures { Obeys (desk_of run (memory_of all.old names.old texts.old lens.old plans.old filed.old name.old text.old answers.old values.old held.old) waiting.old) read input.now (desk_of result.run (memory_of all.new names.new texts.new lens.new plans.new filed.new name.new text.new answers.new values.new held.new) waiting.new) result.next result.going }
{
    match read {
        Ok(None) => ended(run),
        Ok(Some(n)) => pass(
            clock,
            to,
            errors,
            run,
            all,
            names,
            texts,
            lens,
            plans,
            filed,
            name,
            text,
            answers,
            values,
            held,
            waiting,
            &input[..n],
            out,
            err,
        ),
        Err(error) => {
            complain(clock, errors, b"bench: standard input", error);
            ended(run)
        }
    }
}

// A run at the start: no byte waits, no line has come, and no set is left.
fn begun(
    all: &[u8],
    names: &[u8],
    texts: &[usize],
    lens: &[usize],
    plans: &[usize],
    filed: &[usize],
    name: &[u8],
    text: &[u8],
    answers: &[u8],
    values: &[usize],
    held: &[usize],
    waiting: &[u8],
) -> Run
    requires begins { Begins (memory_of all.now names.now texts.now lens.now plans.now filed.now name.now text.now answers.now values.now held.now) }
    requires waiting_len { length waiting.now ≡ 257 }
    ensures { At (desk_of result (memory_of all.now names.now texts.now lens.now plans.now filed.now name.now text.now answers.now values.now held.now) waiting.now) start }
{
    Run {
        len: 0,
        lines: 0,
        left: 0,
    }
}

// A proved loop has to end: that of the reads ends after so many, which are 2^47.
const TURNS: u64 = 0x8000_0000_0000;

// Reads and obeys until the input ends.
pub fn run(
    clock: &impl Clock,
    from: &mut impl io::Read,
    to: &mut impl io::Write,
    errors: &mut impl io::Write,
    all: &mut [u8],
    names: &mut [u8],
    texts: &mut [usize],
    lens: &mut [usize],
    plans: &mut [usize],
    filed: &mut [usize],
    name: &mut [u8],
    text: &mut [u8],
    answers: &mut [u8],
    values: &mut [usize],
    held: &mut [usize],
    input: &mut [u8],
    out: &mut [u8],
    err: &mut [u8],
)
    requires { Starting (memory_of all.old names.old texts.old lens.old plans.old filed.old name.old text.old answers.old values.old held.old) input.old out.old err.old }
    ensures { Reached (memory_of all.new names.new texts.new lens.new plans.new filed.new name.new text.new answers.new values.new held.new) }
{
    let mut waiting = [0u8; 257];
    let mut run = begun(
        all, names, texts, lens, plans, filed, name, text, answers, values, held, &waiting,
    );
    for _ in 0..TURNS {
        let read = read_some(clock, from, input);
        let passed = obey(
            clock,
            to,
            errors,
            run,
            read,
            all,
            names,
            texts,
            lens,
            plans,
            filed,
            name,
            text,
            answers,
            values,
            held,
            &mut waiting,
            input,
            out,
            err,
        );
        if !passed.going {
            return;
        }
        run = passed.run;
    }
}
