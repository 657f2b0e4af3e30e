// Where a walk over a keyed text stands, and what a byte does there.
ghost use Rattle.std.specs.Prelude.{◌≡◌};
ghost use Rattle.keying.specs.Text.{inner};
ghost use Rattle.keying.specs.Inner.Machine.{Counts, blank_reader, reader_grown, reader_ended, reader_finished, reader_turn};

use crate::entry::{Entry, Slip};
use crate::word::Word;
use records::Record;

const NEWLINE: u8 = b'\n';

const COMMA: u8 = b',';

const HASH: u8 = b'#';

#[derive(Clone, Copy)]
pub struct Reader {
    // counted from 1
    pub line: usize,
    // of the line, counted from 1
    pub entry: usize,
    // within a remark
    pub remark: bool,
    // the entry so far
    pub partial: Entry,
    pub word: Word,
}

// Where the reader stands after a byte, and the record of an entry that ended; or what is wrong, with the size of the word that is wrong, and 0 where none is.
pub type Turn = Result<(Reader, Option<Record>), (Slip, usize)>;

impl Reader {
    // At the start of an entry.
    pub fn fresh(line: usize, entry: usize) -> Reader
        ensures { result ≡ blank_reader line entry }
    {
        Reader {
            line,
            entry,
            remark: false,
            partial: Entry::Empty,
            word: Word::NONE,
        }
    }

    // What the byte does: it belongs to a word or a remark, or a word ends before it. Inlined, so that the walk keeps the reader in registers.
    #[inline(always)]
    pub fn take(self, byte: u8) -> Turn
        requires { Counts self }
        ensures { result ≡ reader_turn self byte }
    {
        if is_inner(self.remark, byte) {
            return Ok((self.grown(byte), None));
        }
        let partial = self
            .partial
            .with(self.entry, self.word)
            .map_err(|slip| (slip, self.word.size))?;
        self.ended(partial, byte)
    }

    fn grown(self, byte: u8) -> Reader
        requires { Counts self }
        ensures { result ≡ reader_grown self byte }
    {
        if self.remark {
            return self;
        }
        Reader {
            word: self.word.with(byte),
            ..self
        }
    }

    // After the word: a newline and a comma end the entry.
    fn ended(self, partial: Entry, byte: u8) -> Turn
        requires { Counts self }
        ensures { result ≡ reader_ended self partial byte }
    {
        match byte {
            NEWLINE => finished(partial, Reader::fresh(self.line + 1, 1)),
            COMMA => finished(partial, Reader::fresh(self.line, self.entry + 1)),
            _ => Ok((
                Reader {
                    remark: byte == HASH,
                    partial,
                    word: Word::NONE,
                    ..self
                },
                None,
            )),
        }
    }
}

fn finished(partial: Entry, next: Reader) -> Turn
    ensures { result ≡ reader_finished partial next }
{
    match partial {
        Entry::Empty => Ok((next, None)),
        Entry::Whole(told) => Ok((next, Some(told))),
        Entry::Marked(_) | Entry::Begun(_) => Err((Slip::MissingField, 0)),
    }
}

// Part of a word or of a remark.
fn is_inner(remark: bool, byte: u8) -> bool
    ensures { result ≡ inner remark byte }
{
    match byte {
        NEWLINE => false,
        COMMA | HASH | b' ' | b'\t' | b'\r' => remark,
        _ => true,
    }
}
