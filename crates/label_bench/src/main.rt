// The label bench as a program: standard input to standard output, and refusals to standard error. It reads and writes in
// buffers of 64 KiB, and has written out all it has to say before it waits for more input.
#![tactic(auto)]

ghost use Rattle.label_bench.specs.Serves.{Buffers};

use bench::Bench;
use std::io;
use std::rt::Clock;

// Makes the bench, and lends it.
fn serve(
    clock: &impl Clock,
    from: &mut impl io::Read,
    to: &mut impl io::Write,
    errors: &mut impl io::Write,
    input: &mut [u8],
    out: &mut [u8],
    err: &mut [u8],
)
    requires { Buffers input.old out.old err.old }
{
    let mut bench = Bench::new();
    bench.run(clock, from, to, errors, input, out, err)
}

fn main(rt: HostRuntime) {
    let mut input = [0u8; 65536];
    let mut out = [0u8; 65536];
    let mut err = [0u8; 65536];
    serve(
        &rt,
        &mut rt.stdin(),
        &mut rt.stdout(),
        &mut rt.stderr(),
        &mut input,
        &mut out,
        &mut err,
    );
}
