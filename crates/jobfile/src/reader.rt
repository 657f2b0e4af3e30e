// One record read at an offset.
ghost use Rattle.std.specs.Prelude.{◌≡◌};
ghost use Rattle.book.specs.Told.{Made, book_in};
ghost use Rattle.jobfile.specs.Reader.{Tells, ReadsRecord, after_read, asks};

use book::{Before, Times};
use planner::Request;
use records::Record;
use refusal::{Answer, Refusal};
use schedule::JobIndex;

// The answer to a request, none at the end of the file; a refusal where reading stops.
pub type Event = Result<Option<Answer>, Refusal>;

// The request is answered, refused or not, and the offset moves on; at the end and at a stop the book and the offset stay. The parts of a book stay apart in the public calls: the C interface lends them so.
pub fn read(times: &mut Times, before: &mut Before, file: &[u8], at: &mut usize) -> Event
    requires { Made (book_in times.old before.old) }
    ensures { Tells result (λ n v. ReadsRecord (book_in times.old before.old) file.now at.old (after_read (book_in times.new before.new) at.new n v)) }
{
    let found = records::record_at(file, *at)?;
    let Some(told) = found else {
        return Ok(None);
    };
    *at += records::length_of(told);
    Ok(Some(planner::apply(times, before, asked(told))))
}

// The request that a record asks; no From, which would stand in records or in the planner, and neither knows the other.
fn asked(told: Record) -> Request
    ensures { result ≡ asks told }
{
    match told {
        Record::Job(start, deadline) => Request::Job(start, deadline),
        Record::Order(first, second) => {
            Request::Before(JobIndex::from(first), JobIndex::from(second))
        }
        Record::Deadline(job, deadline) => Request::Earlier(JobIndex::from(job), deadline),
    }
}
