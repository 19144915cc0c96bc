// Drives the library where the program cannot: buffers that are too short, takes in every state, lines while sets are printed, and records
// that no line reads as. Its output is to be read beside 01: buffers are full of marks before a call, and a byte that does not print
// stands there in hex.
#![tactic(auto)]

mod lent;
mod records;
mod show;
mod states;

use crate::records::{false_strings, false_values, true_records};
use crate::show::say;
use crate::states::play;
use bench::LAST_TABLET;
use tablets::counts::LAST;

fn main(rt: HostRuntime) {
    let mut all = [0u8; 4096];
    let mut names = [0u8; 128];
    let mut texts = [0usize; 8];
    let mut lens = [0usize; 8];
    let mut plans = [0usize; 1856];
    let mut filed = [0usize; 2];
    let mut name = [0u8; 480];
    let mut text = [0u8; 30720];
    let mut answers = [0u8; 51000];
    let mut values = [0usize; 3120];
    let mut held = [0usize; 302];
    held[LAST] = LAST_TABLET;
    play(
        &rt,
        &mut all,
        &mut names,
        &mut texts,
        &mut lens,
        &mut plans,
        &mut filed,
        &mut name,
        &mut text,
        &mut answers,
        &mut values,
        &mut held,
        b"#FI with no form stored, a reply of 33 bytes\ni00\ni01\ni30\ni31\ni32\ni33\ni34\ni35\n#A take in each state but Printing\n>Idle\n<FS\"SHELF\"\n>Collecting\n<ZN\n>Collecting, the form spoiled\n<FE\n<FS\"SHELF\"\n<Q160,24\n<ZT\n<V00,20,N,\"Pupil:\"\n<C0,3,N,+1,\"First:\"\n<A50,30,0,3,1,1,N,\"Name: \"V00\n<A050,70,0,3,1,1,N,C0\n<LO50,110,400,3\n<FE\n<FR\"SHELF\"\n>Open\n<?\n>Answering\n<Mia \"M\"\n>Answering, one answer given\n<09\n>Ready\n#Three takes of sets of 90 bytes, and one too many\n<P3\nt00\nt01\nt87\nt88\nt89\nt90\nt91\nt92\n>Idle after the last set\n<FS\"B\"\n<Q1,0\n<ZB\n<FE\n#FI with two forms stored, a reply of 26 bytes\ni00\ni01\ni23\ni24\ni25\ni26\ni27\ni28\n#A line read and written, 30 bytes in normal form\nw00\nw01\nw27\nw28\nw29\nw30\nw31\nw32\n#Lines while a set is printed\n<FR\"SHELF\"\n<?\n<Mia\n<1\n<P2\n<FI\n<?\n<P1\n<Q1,0\n<N\n>Idle\n",
    );
    say(
        &rt,
        b"Records that no line reads as, written into 40 bytes\n",
    );
    false_values(&rt);
    false_strings(&rt);
    say(&rt, b"Records beside them that some line reads as\n");
    true_records(&rt);
}
