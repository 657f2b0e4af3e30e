// The lines of the jobs.
ghost use Rattle.std.specs.Prelude.{◌≡◌, ◌*◌, ◌≤◌, ◌<◌, length, get_or};
ghost use Rattle.book.specs.Told.{cores};
ghost use Rattle.plan.specs.Plan.{horizon};
ghost use Rattle.text.specs.Text.{each};
ghost use Rattle.text.specs.Put.{Adds};
ghost use Rattle.report.specs.Inner.Ends.{ends_in, row_text, Timed, InTime};

use crate::line;
use book::Times;
use schedule::{JobIndex, SlotTime};
use text::Page;

// How many jobs there are.
pub fn job_count(times: &Times) -> usize
    ensures { result ≡ get_or times.now 0 0 }
{
    usize::from(times[0])
}

pub fn lines(page: &mut Page, times: &Times, plan: &[u8])
    requires { InTime times.now plan.now }
    ensures { Adds (each (get_or times.now 0 0) (row_text times.now (ends_in plan.now))) page.old page.new }
{
    let ends = ends_in(plan);
    // a job is read in three rows at its number
    for i in 0..job_count(times) {
        job(page, times, &ends, JobIndex(i));
    }
}

// The end of every slot, for the bytes that stand in it.
fn ends_in(plan: &[u8]) -> [u16; 256]
    requires { length plan.now ≤ cores * horizon }
    ensures { result ≡ ends_in plan.now }
{
    let mut ends = [0u16; 256];
    for (i, &byte) in plan.iter().enumerate() {
        ends[usize::from(byte)] = (i / 2 + 1) as u16;
    }
    ends
}

fn job(page: &mut Page, times: &Times, ends: &[u16; 256], job: JobIndex)
    requires { Timed times.now ends.now job.0 }
    ensures { Adds (row_text times.now ends.now job.0) page.old page.new }
{
    let start = time_of(book::starts(times), job);
    let latest = time_of(book::latest(times), job);
    let end = time_of(ends, job);
    line::job(page, job, start, latest, end, latest.0 - end.0);
}

// A job's time in a row.
fn time_of(row: &[u16], job: JobIndex) -> SlotTime
    requires { job.0 < length row.now }
    ensures { result.0 ≡ get_or row.now job.0 0 }
{
    SlotTime::from(row[job.0])
}
