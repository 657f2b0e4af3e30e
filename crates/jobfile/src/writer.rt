// A book written out as a job file.
ghost use Rattle.std.specs.Prelude.{◌≡◌, ◌≤◌, ◌<◌, length};
ghost use Rattle.refusal.specs.Says.{Says};
ghost use Rattle.records.specs.Record.{bytes_of};
ghost use Rattle.book.specs.Told.{Made, book_in};
ghost use Rattle.jobfile.specs.Writer.{WritesBook};
ghost use Rattle.jobfile.specs.Inner.Writer.{pairs_in, jobs_bytes, orders_bytes, followers_bytes, HasRoom, Continues};

use book::{Before, Times};
use records::Record;
use refusal::{Answer, Reason, Refusal};
use schedule::JobIndex;

// `JB` for each job, then `OR` for every pair where one precedes the other; nothing where the bytes are too few. 12,480 are always enough.
pub fn write(times: &Times, before: &Before, out: &mut [u8]) -> Answer
    requires { Made (book_in times.now before.now) }
    ensures { Says result (λ n v. WritesBook (book_in times.now before.now) out.old out.new n v) }
{
    let size = usize::from(times[0]);
    let starts = &book::starts(times)[..size];
    let latest = &book::latest(times)[..size];
    let before = &before[..size];
    let needed = 6 * (size + pairs(before));
    if out.len() < needed {
        return Err(Refusal {
            reason: Reason::NoRoom,
            value: needed,
        });
    }
    let mut file = Written { out, at: 0 };
    file.put_jobs(starts, latest);
    file.put_orders(before);
    Ok(needed)
}

// How many pairs there are of a job that precedes another.
fn pairs(before: &[u64]) -> usize
    requires { pairs_in before.now ≤ 4096 }
    ensures { result ≡ pairs_in before.now }
{
    before.iter().map(|&set| sets::size(set)).sum()
}

// Lent bytes, and the offset that the next record is stored at.
#[derive(Drop)]
struct Written<'a> {
    out: &'a mut [u8],
    at: usize,
}

impl Written<'_> {
    // Every job's record.
    fn put_jobs(&mut self, starts: &[u16], latest: &[u16])
        requires { (length starts.now ≡ length latest.now) × HasRoom (jobs_bytes starts.now latest.now) self.old }
        ensures { Continues (jobs_bytes starts.now latest.now) self.old self.new }
    {
        for (&start, &latest) in starts.iter().zip(latest) {
            self.put(Record::Job(start, latest));
        }
    }

    // Every pair's record, by the first job.
    fn put_orders(&mut self, before: &[u64])
        requires { (length before.now ≤ 64) × HasRoom (orders_bytes before.now) self.old }
        ensures { Continues (orders_bytes before.now) self.old self.new }
    {
        // a is a job's number, looked for in every row
        for a in 0..before.len() {
            self.put_followers(before, JobIndex(a));
        }
    }

    // One job's pairs, by the second job.
    fn put_followers(&mut self, before: &[u64], job: JobIndex)
        requires { (length before.now ≤ 64) × (job.0 < length before.now) × HasRoom (followers_bytes before.now job.0) self.old }
        ensures { Continues (followers_bytes before.now job.0) self.old self.new }
    {
        let first = job.0 as u16;
        for (b, &preceding) in before.iter().enumerate() {
            if sets::has(preceding, job) {
                let second = b as u16;
                self.put(Record::Order(first, second));
            }
        }
    }

    // One record.
    fn put(&mut self, told: Record)
        requires { HasRoom (bytes_of told) self.old }
        ensures { Continues (bytes_of told) self.old self.new }
    {
        records::store(self.out, self.at, told);
        self.at += records::length_of(told);
    }
}
