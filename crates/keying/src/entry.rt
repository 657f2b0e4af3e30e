// An entry of a keyed text, word by word: each word is judged where it ends.
ghost use Rattle.std.specs.Prelude.{◌≡◌, Some};
ghost use Rattle.keying.specs.Slip.{slip_text};
ghost use Rattle.keying.specs.Text.{set_first, set_second};
ghost use Rattle.keying.specs.Inner.Machine.{first_by, entry_with};

use crate::word::Word;
use records::Record;
use std::fmt;

// What can be wrong with a keyed text.
#[derive(Clone, Copy, Debug, PartialEq, Eq)]
pub enum Slip {
    UnknownWord,
    MissingField,
    ExtraField,
    NotNumber,
    TooLarge,
    TooMany,
    CommaNumber,
}

impl fmt::Display for Slip {
    ghost output = { λ slip. Some (slip_text slip) };

    fn fmt<W: fmt::Write>(&self, f: &mut fmt::Formatter<W>) -> fmt::Result {
        f.write_str(match self {
            Slip::UnknownWord => "unknown word",
            Slip::MissingField => "missing field",
            Slip::ExtraField => "extra field",
            Slip::NotNumber => "not a number",
            Slip::TooLarge => "number too large",
            Slip::TooMany => "too many records",
            Slip::CommaNumber => "number with a comma",
        })
    }
}

// The words so far, as the record that they tell, with 0 for a field to come: `records::named` makes it whole of a mark.
#[derive(Clone, Copy)]
pub enum Entry {
    Empty,
    // a mark
    Marked(Record),
    // and its first field
    Begun(Record),
    // and its second
    Whole(Record),
}

impl Entry {
    // The entry with the word at its end, unless no word was begun. The place of the entry in its line counts from 1.
    pub fn with(self, place: usize, word: Word) -> Result<Entry, Slip>
        ensures { result ≡ entry_with self place word }
    {
        if word.size == 0 {
            return Ok(self);
        }
        match self {
            Entry::Empty => first(place, word),
            Entry::Marked(told) => Ok(Entry::Begun(with_first(told, word.number?))),
            Entry::Begun(told) => Ok(Entry::Whole(with_second(told, word.number?))),
            Entry::Whole(_) => Err(Slip::ExtraField),
        }
    }
}

// A mark. No mark, but digits alone, behind a comma, are a number that was keyed with a comma in it.
fn first(place: usize, word: Word) -> Result<Entry, Slip>
    ensures { result ≡ first_by place word }
{
    match word.record() {
        Some(told) => Ok(Entry::Marked(told)),
        None if place > 1 && word.is_digits() => Err(Slip::CommaNumber),
        None => Err(Slip::UnknownWord),
    }
}

// The two differ in a field's place alone, which has no name that a call could pass.
fn with_first(told: Record, number: u16) -> Record
    ensures { result ≡ set_first told number }
{
    match told {
        Record::Job(_, second) => Record::Job(number, second),
        Record::Order(_, second) => Record::Order(number, second),
        Record::Deadline(_, second) => Record::Deadline(number, second),
    }
}

fn with_second(told: Record, number: u16) -> Record
    ensures { result ≡ set_second told number }
{
    match told {
        Record::Job(first, _) => Record::Job(first, number),
        Record::Order(first, _) => Record::Order(first, number),
        Record::Deadline(first, _) => Record::Deadline(first, number),
    }
}
