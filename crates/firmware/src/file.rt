// Job files: one record read into a book, and a book written out.
ghost use Rattle.book.specs.Told.{Made, book_in};
ghost use Rattle.jobfile.specs.Reader.{ReadsRecord, after_read};
ghost use Rattle.jobfile.specs.Writer.{WritesBook};

use crate::tell::tell;
use book::{Before, Times};

// The end of a file as C is told it: a number that no refusal has.
const END: u8 = 255;

// 0 where a request is accepted, 255 at the end of the file, else the number of the refusal.
pub fn firmware_read(
    times: &mut Times,
    before: &mut Before,
    file: &[u8],
    at: &mut usize,
    answer: &mut usize,
) -> u8
    requires { Made (book_in times.old before.old) }
    ensures { ReadsRecord (book_in times.old before.old) file.now at.old (after_read (book_in times.new before.new) at.new result answer.new) }
{
    match jobfile::read(times, before, file, at) {
        Ok(Some(told)) => tell(told, answer),
        Ok(None) => {
            *answer = 0;
            END
        }
        Err(refusal) => tell(Err(refusal), answer),
    }
}

pub fn firmware_write(times: &Times, before: &Before, out: &mut [u8], answer: &mut usize) -> u8
    requires { Made (book_in times.now before.now) }
    ensures { WritesBook (book_in times.now before.now) out.old out.new result answer.new }
{
    tell(jobfile::write(times, before, out), answer)
}
