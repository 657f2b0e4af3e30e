// Standard input and output of the programs: what fails is told on standard error.

#![tactic(auto)]

ghost use Rattle.std.specs.Prelude.{◌≤◌, IfSome, length};

use std::io;
use std::io::{ErrorKind, Read, Write};

// The error of a read or a write that would have to wait.
const EAGAIN: i32 = 11;

// A program that makes a text of a job file, in at most N bytes.
pub trait Program<const N: usize> {
    // The text at the front of the bytes lent; the answer is its length.
    fn text(file: &[u8], out: &mut [u8; N]) -> usize
        ensures { result ≤ N };
}

// A job file on standard input, and on standard output the text that a program makes of it, in the bytes lent.
pub fn run<const N: usize, P: Program<N>>(rt: &HostRuntime, text: &mut [u8; N]) {
    // one byte more than a job file may have, so that a longer one is seen
    let mut bytes = [0u8; 24577];
    let Some(file) = read_whole(rt, &mut bytes) else {
        return;
    };
    let size = P::text(file, text);
    write_whole(rt, &text[..size]);
}

// Standard input, at the front of a buffer: none where it cannot be read to its end, which is told. What a full buffer has no room for is not read.
pub fn read_whole<'a>(rt: &HostRuntime, buf: &'a mut [u8]) -> Option<&'a [u8]>
    ensures { IfSome result (λ bytes. length bytes.now ≤ length buf.old) }
{
    let (size, came) = read_full(rt, buf);
    if size < buf.len() && !ended(rt, came) {
        return None;
    }
    Some(&buf[..size])
}

// Reads until the buffer is full, the input has ended or a read fails: how many bytes came, which the loop counts, and that failure.
pub fn read_full(rt: &HostRuntime, buf: &mut [u8]) -> (usize, io::Result<()>)
    ensures { result.0 ≤ length buf.new }
{
    let mut input = rt.stdin();
    let mut done: usize = 0;
    while done < buf.len() {
        match input.read(&mut buf[done..]) {
            Ok(0) => break,
            Ok(got) => done += got,
            Err(error) => return (done, Err(error)),
        }
    }
    (done, Ok(()))
}

// Whether the input has ended, asked after a read came back short, with how that read ended: a read that fails is told, and so is one that brings more, since the one before it failed.
pub fn ended(rt: &HostRuntime, came: io::Result<()>) -> bool {
    let mut one = [0u8; 1];
    let error = match rt.stdin().read(&mut one) {
        Ok(0) => return true,
        Ok(_) => came.err().unwrap_or(io::Error::from_raw_os_error(EAGAIN)),
        Err(error) => error,
    };
    fail(rt, "standard input", error);
    false
}

// Writes all of the bytes to standard output. A write that would block or comes back short is tried again; one that fails is told.
pub fn write_whole(rt: &HostRuntime, buf: &[u8]) {
    let mut output = rt.stdout();
    let mut rest = buf;
    let mut tries: usize = 1000000000;
    while !rest.is_empty() {
        match output.write(rest) {
            Ok(0) => {
                return fail(rt, "standard output", io::Error::from(ErrorKind::WriteZero));
            }
            Ok(put) => rest = &rest[put..],
            Err(error) if tries > 0 && waits(error) => tries -= 1,
            Err(error) => return fail(rt, "standard output", error),
        }
    }
}

// Whether the call that took nothing may take something later.
fn waits(error: io::Error) -> bool {
    matches!(error.kind(), ErrorKind::WouldBlock | ErrorKind::Interrupted)
}

// One line on standard error: where, and the system's words for what failed.
fn fail(rt: &HostRuntime, place: &str, error: io::Error) {
    let _ = match format!(in rt.alloc(); "{error}") {
        Ok(text) => tell(rt, place, words_of(text.as_str())),
        // no memory for the words alone: the library's own text, with the number
        Err(_) => eprintln!(rt; "{place}: {error}"),
    };
}

fn tell(rt: &HostRuntime, place: &str, words: &str) -> io::Result<()> {
    eprintln!(rt; "{place}: {words}")
}

// What the system says of an error, without its number.
fn words_of(text: &str) -> &str {
    text.split_once(" (os error ")
        .map_or(text, |(words, _)| words)
}
