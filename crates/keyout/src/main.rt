// Reads a job file from standard input and writes its records as lines; what stops it is one line on standard error, and nothing is written.

#![tactic(auto)]

fn main(rt: HostRuntime) {
    // one byte more than the longest file, to tell a longer one
    let mut bytes = [0u8; 24577];
    let mut text = [0u8; 61440];
    let Some(file) = stream::read_whole(&rt, &mut bytes) else {
        return;
    };
    match keying::lines(file, &mut text) {
        Ok(size) => stream::write_whole(&rt, &text[..size]),
        Err(refusal) => {
            let _ = eprintln!(&rt; "refused {} at {}", refusal.reason.number(), refusal.value);
        }
    }
}
