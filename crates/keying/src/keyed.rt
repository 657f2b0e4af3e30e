// A keyed text becomes a job file: one walk to check it, and one to write.
ghost use Rattle.std.specs.Prelude.{◌≡◌, ◌≤◌, length, get_or};
ghost use Rattle.keying.specs.Text.{begin as begin_of};
ghost use Rattle.keying.specs.Keys.{Keys};
ghost use Rattle.keying.specs.Inner.Walk.{Walks, mistake_at};

use crate::entry::Slip;
use crate::reader::Reader;
use records::Record;

const FILE_LENGTH: usize = 24576;

#[derive(Clone, Copy, Debug, PartialEq, Eq)]
pub struct Mistake {
    // counted from 1
    pub line: usize,
    // of the line, counted from 1
    pub entry: usize,
    pub slip: Slip,
    // where the word that is wrong stands in the text, and its size: 0 where no word is, which `Says` (specs/Keys) promises as a number
    pub start: usize,
    pub size: usize,
}

impl Mistake {
    // The word that is wrong ends where the walk stands.
    fn at(reader: Reader, slip: Slip, i: usize, size: usize) -> Mistake
        requires { size ≤ i }
        ensures { result ≡ mistake_at reader slip i size }
    {
        Mistake {
            line: reader.line,
            entry: reader.entry,
            slip,
            start: i - size,
            size,
        }
    }
}

// The job file of a keyed text, from the first of the bytes lent, which are enough for any file: how many bytes it takes, or the first mistake.
pub fn key(text: &[u8], out: &mut [u8; 24576]) -> Result<usize, Mistake>
    ensures { Keys text.now out.old result out.new }
{
    walk(text, &mut |_, _| {})?;
    walk(
        text,
        &mut |at, told| {
            records::store(out, at, told);
        },
    )
}

// Up to the end of the text or its first mistake: each record is put at its place in the file.
fn walk<F: FnMut(usize, Record)>(text: &[u8], put: &mut F) -> Result<usize, Mistake>
    requires { F.IsAlwaysCallable put.old }
    ensures { Walks text.now (λ before at told after. F.step before at told tt after) put.old result put.new }
{
    let mut reader = Reader::fresh(1, 1);
    let mut at = 0;
    // i runs one past the text, where its last line ends
    for i in begin(text)..=text.len() {
        let (next, told) = match reader.take(byte_at(text, i)) {
            Ok(turn) => turn,
            Err((slip, size)) => return Err(Mistake::at(reader, slip, i, size)),
        };
        if let Some(told) = told {
            if records::length_of(told) > FILE_LENGTH - at {
                return Err(Mistake::at(reader, Slip::TooMany, i, 0));
            }
            put(at, told);
            at += records::length_of(told);
        }
        reader = next;
    }
    Ok(at)
}

// Past a byte order mark.
fn begin(text: &[u8]) -> usize
    ensures { (result ≡ begin_of text.now) × (result ≤ length text.now) }
{
    if text.starts_with(b"\xEF\xBB\xBF") {
        3
    } else {
        0
    }
}

// The byte at a place; a newline past the end, where the last line ends.
fn byte_at(text: &[u8], i: usize) -> u8
    ensures { result ≡ get_or text.now i 10 }
{
    text.get(i).copied().unwrap_or(b'\n')
}
