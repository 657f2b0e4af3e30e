// Reads keyed text from standard input and writes its job file; a mistake is one line on standard error, and nothing is written.

#![tactic(auto)]

use keying::Mistake;

// One byte more than the longest text, to tell a longer one.
const TEXT: usize = 262145;

fn main(rt: HostRuntime) {
    let mut bytes = [0u8; TEXT];
    let mut file = [0u8; 24576];
    let Some(text) = stream::read_whole(&rt, &mut bytes) else {
        return;
    };
    if text.len() == TEXT {
        let _ = eprintln!(&rt; "text over 262144 bytes");
        return;
    }
    match keying::key(text, &mut file) {
        Ok(size) => stream::write_whole(&rt, &file[..size]),
        Err(mistake) => tell(&rt, text, mistake),
    }
}

fn tell(rt: &HostRuntime, text: &[u8], mistake: Mistake) {
    let _ = eprint!(rt;
        "line {}, entry {}: {}",
        mistake.line, mistake.entry, mistake.slip
    );
    if mistake.size > 0 {
        quote(rt, text, mistake.start, mistake.size);
    }
    say(rt, b"\n");
}

// The word in quotes, cut after 32 bytes, with `?` for a byte that is not printed.
fn quote(rt: &HostRuntime, text: &[u8], start: usize, size: usize) {
    let mut shown = [b'?'; 32];
    for (place, &byte) in shown.iter_mut().zip(text.iter().skip(start)) {
        if matches!(byte, b' '..=b'~') {
            *place = byte;
        }
    }
    say(rt, b" '");
    match shown.get(..size) {
        Some(word) => {
            say(rt, word);
            say(rt, b"'");
        }
        None => {
            say(rt, &shown);
            say(rt, b"..'");
        }
    }
}

// Whether they came through is not asked: there is nowhere else to say it.
fn say(rt: &HostRuntime, bytes: &[u8]) {
    let _ = rt.stderr().write_all(bytes);
}
