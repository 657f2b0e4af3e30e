// Reads a job file from standard input and prints its verdict; a read or a write that fails is one line on standard error.

#![tactic(auto)]

use stream::Program;

struct Late;

impl Program<80> for Late {
    fn text(file: &[u8], out: &mut [u8; 80]) -> usize {
        verdict::verdict(file, out)
    }
}

fn main(rt: HostRuntime) {
    stream::run::<80, Late>(&rt, &mut [0u8; 80]);
}
