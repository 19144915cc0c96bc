// Reading and writing for a class: the loops around crate streams, which calls the system.
#![tactic(auto)]

ghost use Rattle.std.specs.Prelude.{◌<◌, ◌≡◌, false, length};
ghost use Rattle.streams.specs.Streams.{Reads};
ghost use Rattle.call.specs.Call.{memory_of};
ghost use Rattle.tablets.specs.Calls.{Begins, Reached};
ghost use Rattle.dialogue.specs.Emit.{start};
ghost use Rattle.dialogue.specs.Fill.{desk_of, At, Stands};
ghost use Rattle.class_program.specs.Pass.{Roomy, Passes, Obeys, Starting};

use dialogue::fill::{Reach, fill};
use std::io;
use std::rt::Clock;
use streams::{Errno, complain, read_some, write_whole};

// Writes out the records that wait, and answers whether standard output took them all. Where it did not, a last line on standard
// error says so.
fn write_out(
    clock: &impl Clock,
    to: &mut impl io::Write,
    errors: &mut impl io::Write,
    out: &[u8],
) -> bool
    ensures { result ≡ false → 0 < length out.now }
{
    match write_whole(clock, to, out) {
        Ok(()) => true,
        Err(error) => {
            complain(clock, errors, b"bench: standard output", error);
            false
        }
    }
}

// Where a piece of input led: how many bytes of a line wait, up to which place the input was used, and whether the run goes on. It does
// not where standard output or standard input failed, nor where the input has ended.
// Kept: Passes and Obeys tell of both outcomes where the run stands, so that an enum of two variants with the same fields is no plainer.
#[derive(Clone, Copy, Debug, PartialEq, Eq)]
pub struct Passed {
    pub len: usize,
    pub next: usize,
    pub going: bool,
}

// Answers a whole piece of input, and empties the buffer into standard output whenever it is full, and at the end.
fn pass(
    clock: &impl Clock,
    to: &mut impl io::Write,
    errors: &mut impl io::Write,
    len: usize,
    all: &mut [u8],
    names: &mut [u8],
    texts: &mut [usize],
    lens: &mut [usize],
    plans: &mut [usize],
    filed: &mut [usize],
    name: &mut [u8],
    text: &mut [u8],
    answers: &mut [u8],
    values: &mut [usize],
    held: &mut [usize],
    waiting: &mut [u8],
    input: &[u8],
    reply: &mut [u8],
    out: &mut [u8],
) -> Passed
    requires stands { Stands (desk_of len (memory_of all.old names.old texts.old lens.old plans.old filed.old name.old text.old answers.old values.old held.old) waiting.old) }
    requires roomy { Roomy reply.old out.old }
    ensures { Passes (desk_of len (memory_of all.old names.old texts.old lens.old plans.old filed.old name.old text.old answers.old values.old held.old) waiting.old) input.now (desk_of result.len (memory_of all.new names.new texts.new lens.new plans.new filed.new name.new text.new answers.new values.new held.new) waiting.new) result.next result.going }
{
    let mut len = len;
    let mut next = 0;
    loop {
        let start = Reach { len, next, out: 0 };
        let filled = fill(
            start, all, names, texts, lens, plans, filed, name, text, answers, values, held,
            waiting, input, reply, out,
        );
        let reach = filled.reach;
        len = reach.len;
        next = reach.next;
        let going = write_out(clock, to, errors, &out[..reach.out]);
        if !going || filled.used {
            return Passed { len, next, going };
        }
    }
}

// A run that ends.
fn ended(len: usize) -> Passed
    ensures { result ≡ record { len = len; next = 0; going = false } }
{
    Passed {
        len,
        next: 0,
        going: false,
    }
}

// What a read came to, and the buffer that it read into: its bytes are passed on. Where the input has ended the run ends, and where it
// fails too, which a line says.
fn obey(
    clock: &impl Clock,
    to: &mut impl io::Write,
    errors: &mut impl io::Write,
    len: usize,
    read: Result<Option<usize>, Errno>,
    all: &mut [u8],
    names: &mut [u8],
    texts: &mut [usize],
    lens: &mut [usize],
    plans: &mut [usize],
    filed: &mut [usize],
    name: &mut [u8],
    text: &mut [u8],
    answers: &mut [u8],
    values: &mut [usize],
    held: &mut [usize],
    waiting: &mut [u8],
    input: &[u8],
    reply: &mut [u8],
    out: &mut [u8],
) -> Passed
    requires stands { Stands (desk_of len (memory_of all.old names.old texts.old lens.old plans.old filed.old name.old text.old answers.old values.old held.old) waiting.old) }
    requires reads { Reads input.now read }
    requires roomy { Roomy reply.old out.old }
    ensures { Obeys (desk_of len (memory_of all.old names.old texts.old lens.old plans.old filed.old name.old text.old answers.old values.old held.old) waiting.old) read input.now (desk_of result.len (memory_of all.new names.new texts.new lens.new plans.new filed.new name.new text.new answers.new values.new held.new) waiting.new) result.next result.going }
{
    match read {
        Ok(None) => ended(len),
        Ok(Some(n)) => pass(
            clock,
            to,
            errors,
            len,
            all,
            names,
            texts,
            lens,
            plans,
            filed,
            name,
            text,
            answers,
            values,
            held,
            waiting,
            &input[..n],
            reply,
            out,
        ),
        Err(error) => {
            complain(clock, errors, b"bench: standard input", error);
            ended(len)
        }
    }
}

// A run at the start: no byte waits.
fn begun(
    all: &[u8],
    names: &[u8],
    texts: &[usize],
    lens: &[usize],
    plans: &[usize],
    filed: &[usize],
    name: &[u8],
    text: &[u8],
    answers: &[u8],
    values: &[usize],
    held: &[usize],
    waiting: &[u8],
) -> usize
    requires begins { Begins (memory_of all.now names.now texts.now lens.now plans.now filed.now name.now text.now answers.now values.now held.now) }
    requires waiting_len { length waiting.now ≡ 263 }
    ensures { At (desk_of result (memory_of all.now names.now texts.now lens.now plans.now filed.now name.now text.now answers.now values.now held.now) waiting.now) start }
{
    0usize
}

// A proved loop has to end: that of the reads ends after so many, which are 2^47.
const TURNS: u64 = 0x8000_0000_0000;

// Reads and answers until the input ends.
pub fn run(
    clock: &impl Clock,
    from: &mut impl io::Read,
    to: &mut impl io::Write,
    errors: &mut impl io::Write,
    all: &mut [u8],
    names: &mut [u8],
    texts: &mut [usize],
    lens: &mut [usize],
    plans: &mut [usize],
    filed: &mut [usize],
    name: &mut [u8],
    text: &mut [u8],
    answers: &mut [u8],
    values: &mut [usize],
    held: &mut [usize],
    input: &mut [u8],
    reply: &mut [u8],
    out: &mut [u8],
)
    requires { Starting (memory_of all.old names.old texts.old lens.old plans.old filed.old name.old text.old answers.old values.old held.old) input.old reply.old out.old }
    ensures { Reached (memory_of all.new names.new texts.new lens.new plans.new filed.new name.new text.new answers.new values.new held.new) }
{
    let mut waiting = [0u8; 263];
    let mut len = begun(
        all, names, texts, lens, plans, filed, name, text, answers, values, held, &waiting,
    );
    for _ in 0..TURNS {
        let read = read_some(clock, from, input);
        let passed = obey(
            clock,
            to,
            errors,
            len,
            read,
            all,
            names,
            texts,
            lens,
            plans,
            filed,
            name,
            text,
            answers,
            values,
            held,
            &mut waiting,
            input,
            reply,
            out,
        );
        if !passed.going {
            return;
        }
        len = passed.len;
    }
}
