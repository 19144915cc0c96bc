// The label bench of a class as a program: standard input to standard output, a record for each input line. It reads and writes in
// buffers of 64 KiB, and has written out all it has to say before it waits for more input.
#![tactic(auto)]

use class_program::run;
use tablets::counts::LAST;

// A class begins as if its last tablet had been served, so that the turn goes on to the first.
const LAST_TABLET: usize = 29;

fn main(rt: HostRuntime) {
    let mut all = [0u8; 4096];
    let mut names = [0u8; 128];
    let mut texts = [0usize; 8];
    let mut lens = [0usize; 8];
    let mut plans = [0usize; 1856];
    let mut filed = [0usize; 2];
    let mut name = [0u8; 480];
    let mut text = [0u8; 30720];
    let mut answers = [0u8; 51000];
    let mut values = [0usize; 3120];
    let mut held = [0usize; 302];
    held[LAST] = LAST_TABLET;
    let mut input = [0u8; 65536];
    let mut reply = [0u8; 99999];
    let mut out = [0u8; 65536];
    run(
        &rt,
        &mut rt.stdin(),
        &mut rt.stdout(),
        &mut rt.stderr(),
        &mut all,
        &mut names,
        &mut texts,
        &mut lens,
        &mut plans,
        &mut filed,
        &mut name,
        &mut text,
        &mut answers,
        &mut values,
        &mut held,
        &mut input,
        &mut reply,
        &mut out,
    );
}
