// Reads a job file from standard input and prints its listing; a read or a write that fails is one line on standard error.

#![tactic(auto)]

use stream::Program;

struct Listing;

impl Program<196608> for Listing {
    fn text(file: &[u8], out: &mut [u8; 196608]) -> usize {
        report::listing(file, out)
    }
}

fn main(rt: HostRuntime) {
    stream::run::<196608, Listing>(&rt, &mut [0u8; 196608]);
}
