// A whole file read into a book.
ghost use Rattle.book.specs.Told.{Made, book_in};
ghost use Rattle.jobfile.specs.Reader.{Tells, after_read};
ghost use Rattle.jobfile.specs.File.{ReadsFile};

use crate::reader;
use crate::reader::Event;
use book::{Before, Times};

// How many records were read, how far, and why it ended there.
#[derive(Clone, Copy, Debug, PartialEq, Eq)]
pub struct Ended {
    pub records: usize,
    pub at: usize,
    pub event: Event,
}

// Record after record from offset 0; byte i of `answers` gets the number of record i, 0 where it is accepted: bytes, which `ReadsFile` promises. No file has more records than these bytes.
pub fn read_file(
    times: &mut Times,
    before: &mut Before,
    file: &[u8],
    answers: &mut [u8; 4096],
) -> Ended
    requires { Made (book_in times.old before.old) }
    ensures { Tells result.event (λ n v. ReadsFile (book_in times.old before.old) file.now answers.old answers.new result.records (after_read (book_in times.new before.new) result.at n v)) }
{
    let mut at = 0;
    let mut records = 0;
    loop {
        let event = reader::read(times, before, file, &mut at);
        let Ok(Some(answer)) = event else {
            return Ended { records, at, event };
        };
        answers[records] = refusal::number(answer);
        records += 1;
    }
}
