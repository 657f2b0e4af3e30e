// A word of a keyed text, byte by byte: its size, its first two bytes, and the number it writes.
ghost use Rattle.std.specs.Prelude.{◌≡◌, ◌+◌, ◌<◌, ◌^◌};
ghost use Rattle.keying.specs.Inner.Machine.{number_with, word_with, word_record, digits_alone};

use crate::entry::Slip;
use records::Record;

#[derive(Clone, Copy)]
pub struct Word {
    pub size: usize,
    // its first two bytes, which count once they are there
    pub high: u8,
    pub low: u8,
    // what its digits write, or why they write none
    pub number: Result<u16, Slip>,
}

impl Word {
    // No word begun.
    pub const NONE: Word = Word {
        size: 0,
        high: 0,
        low: 0,
        number: Ok(0),
    };

    // The word with one byte more.
    pub fn with(self, byte: u8) -> Word
        requires { self.size + 1 < 2 ^ 64 }
        ensures { result ≡ word_with self byte }
    {
        let (high, low) = match self.size {
            0 => (byte, 0),
            1 => (self.high, byte),
            _ => (self.high, self.low),
        };
        Word {
            size: self.size + 1,
            high,
            low,
            number: number_with(self.number, byte),
        }
    }

    // The record that the word is the mark of, with 0 for its fields: of its two bytes, the first is the high one.
    pub fn record(self) -> Option<Record>
        ensures { result ≡ word_record self }
    {
        if self.size != 2 {
            return None;
        }
        records::named(u16::from_be_bytes([self.high, self.low]), 0, 0, 0).ok()
    }

    // Digits alone, whether or not their number is too large.
    pub fn is_digits(self) -> bool
        ensures { result ≡ digits_alone self.number }
    {
        !matches!(self.number, Err(Slip::NotNumber))
    }
}

fn number_with(number: Result<u16, Slip>, byte: u8) -> Result<u16, Slip>
    ensures { result ≡ number_with number byte }
{
    if !byte.is_ascii_digit() {
        return Err(Slip::NotNumber);
    }
    let longer = 10 * u32::from(number?) + u32::from(byte - b'0');
    if longer > 65535 {
        return Err(Slip::TooLarge);
    }
    Ok(longer as u16)
}
