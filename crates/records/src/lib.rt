// Records of a job file: the one at an offset found, one stored at an offset.

#![tactic(auto)]

mod word;

ghost use Rattle.std.specs.Prelude.{◌≡◌, ◌+◌, ◌≤◌, length};
ghost use Rattle.std.proofs.lemmas.List.Edits.{sets};
ghost use Rattle.records.specs.Record.{record_of, length_of, word_at};
ghost use Rattle.records.specs.Find.{Finds, record_named};
ghost use Rattle.records.specs.Store.{Stores};

use refusal::{Reason, Refusal};
use word::{put_word, word_at};

// `JB`, `OR` and `TG`, as 16-bit numbers.
const JB: u16 = 0x4a42;

const OR: u16 = 0x4f52;

const TG: u16 = 0x5447;

// The bytes of every record, and of the longest file.
const RECORD_LENGTH: usize = 6;

const FILE_LENGTH: usize = 24576;

#[derive(Clone, Copy, Debug, PartialEq, Eq)]
pub enum Record {
    // start, deadline
    Job(u16, u16),
    // first, second
    Order(u16, u16),
    // job, deadline
    Deadline(u16, u16),
}

// The bytes that a record takes.
pub fn length_of(told: Record) -> usize
    ensures { result ≡ length_of told }
{
    match told {
        Record::Job(..) | Record::Order(..) | Record::Deadline(..) => RECORD_LENGTH,
    }
}

// The record at an offset, for any file and any offset; none at the end. A walk is `while let Some(told) = record_at(file, at)?`: an iterator of results would have to promise its end by an error too.
pub fn record_at(file: &[u8], at: usize) -> Result<Option<Record>, Refusal>
    ensures { Finds file.now at result }
{
    let length = file.len();
    if length > FILE_LENGTH {
        return Err(Reason::FileTooLong.into());
    }
    if at == length {
        return Ok(None);
    }
    if at > length || length - at < RECORD_LENGTH {
        return Err(Refusal {
            reason: Reason::CutShort,
            value: at,
        });
    }
    Ok(Some(marked_at(file, at)?))
}

// By its mark, once six bytes are left.
fn marked_at(file: &[u8], at: usize) -> Result<Record, Refusal>
    requires { at + 6 ≤ length file.now }
    ensures { result ≡ record_named (word_at file.now at) (word_at file.now (at + 2)) (word_at file.now (at + 4)) at }
{
    named(
        word_at(file, at),
        word_at(file, at + 2),
        word_at(file, at + 4),
        at,
    )
}

// The record of a mark and two fields; where the mark is unknown, that with the value given.
pub fn named(mark: u16, first: u16, second: u16, value: usize) -> Result<Record, Refusal>
    ensures { result ≡ record_named mark first second value }
{
    match mark {
        JB => Ok(Record::Job(first, second)),
        OR => Ok(Record::Order(first, second)),
        TG => Ok(Record::Deadline(first, second)),
        _ => Err(Refusal {
            reason: Reason::UnknownMark,
            value,
        }),
    }
}

// The bytes of a record from an offset on; where they do not fit, nothing changes and the answer is false. `Stores` is asked at any offset, so bytes and offset are no struct.
pub fn store(out: &mut [u8], at: usize, told: Record) -> bool
    ensures { Stores told at out.old result out.new }
{
    let length = out.len();
    if at > length || length - at < RECORD_LENGTH {
        return false;
    }
    let (mark, first, second) = match told {
        Record::Job(start, deadline) => (JB, start, deadline),
        Record::Order(first, second) => (OR, first, second),
        Record::Deadline(job, deadline) => (TG, job, deadline),
    };
    put_record(out, at, mark, first, second);
    true
}

fn put_record(out: &mut [u8], at: usize, mark: u16, first: u16, second: u16)
    requires { at + 6 ≤ length out.old }
    ensures { out.new ≡ sets out.old at (record_of mark first second) }
{
    // the last word first: a machine then stores its two bytes at once
    put_word(out, at + 4, second);
    put_word(out, at, mark);
    put_word(out, at + 2, first);
}
