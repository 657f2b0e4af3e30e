// Requests on a book.
ghost use Rattle.refusal.specs.Says.{Says};
ghost use Rattle.book.specs.Told.{Made, book_in};
ghost use Rattle.planner.specs.Requests.{Outcomes, Applies, answered};
ghost use Rattle.planner.specs.Inner.Requests.{Settleable, Settles};

use crate::chains::Pending;
use crate::entries::{closes, unheld};
use crate::tighten::posed::Posed;
use crate::times::fault;
use book::{Before, Times};
use refusal::{Answer, Reason};
use schedule::JobIndex;

#[derive(Clone, Copy, Debug, PartialEq, Eq)]
pub enum Request {
    // start, deadline
    Job(u16, u16),
    // first, second
    Before(JobIndex, JobIndex),
    // job, deadline
    Earlier(JobIndex, u16),
}

// The one entry for requests: the book lies in lent memory, and is changed in its place.
// Its two parts are no struct: the C interface lends them apart, and in some calls only to read.
pub fn apply(times: &mut Times, before: &mut Before, request: Request) -> Answer
    requires { Made (book_in times.old before.old) }
    ensures { Says result (λ n v. Applies (book_in times.old before.old) request (answered (book_in times.new before.new) n v)) }
{
    match request {
        Request::Job(start, deadline) => add_job(times, before, start, deadline),
        Request::Before(first, second) => add_order(times, before, first, second),
        Request::Earlier(job, deadline) => draw_in(times, before, job, deadline),
    }
}

fn add_job(times: &mut Times, before: &Before, start: u16, deadline: u16) -> Answer
    requires { Made (book_in times.old before.now) }
    ensures { Says result (λ n v. Outcomes (book_in times.old before.now) (Request.Job start deadline) (answered (book_in times.new before.now) n v)) }
{
    let new = usize::from(times[0]);
    if new >= 64 {
        return Err(Reason::TooManyJobs.into());
    }
    fault(start, deadline)?;
    times[1 + new] = start;
    if let Err(reason) = settle(
        new + 1,
        times,
        before,
        Pending::none(),
        JobIndex(new),
        deadline,
    ) {
        // nothing stands beyond the jobs held
        times[1 + new] = 0;
        return Err(reason.into());
    }
    times[0] += 1;
    Ok(new)
}

fn add_order(times: &mut Times, before: &mut Before, first: JobIndex, second: JobIndex) -> Answer
    requires { Made (book_in times.old before.old) }
    ensures { Says result (λ n v. Outcomes (book_in times.old before.old) (Request.Before first second) (answered (book_in times.new before.new) n v)) }
{
    let size = usize::from(times[0]);
    unheld(size, first, second)?;
    closes(before, first, second)?;
    if sets::has(before[second.0], first) {
        return Ok(0);
    }
    let more = sets::with(before[first.0], first);
    let pending = Pending { job: second, more };
    let due = times[65 + second.0];
    settle(size, times, before, pending, second, due)?;
    pending.link(size, before);
    Ok(0)
}

fn draw_in(times: &mut Times, before: &Before, job: JobIndex, deadline: u16) -> Answer
    requires { Made (book_in times.old before.now) }
    ensures { Says result (λ n v. Outcomes (book_in times.old before.now) (Request.Earlier job deadline) (answered (book_in times.new before.now) n v)) }
{
    let size = usize::from(times[0]);
    if job.0 >= size {
        return Err(Reason::NotHeld.into());
    }
    fault(times[1 + job.0], deadline)?;
    if deadline >= times[65 + job.0] {
        return Ok(0);
    }
    settle(size, times, before, Pending::none(), job, deadline)?;
    Ok(0)
}

// The latest times of so many jobs, one of them due by a deadline, in their place in the book; nothing is changed where no plan meets them.
fn settle(
    size: usize,
    times: &mut Times,
    before: &Before,
    pending: Pending,
    job: JobIndex,
    deadline: u16,
) -> Result<(), Reason>
    requires { Settleable size times.old before.now pending job.0 }
    ensures { Settles size times.old before.now pending job.0 deadline times.new result }
{
    let mut row = [0u16; 64];
    row.copy_from_slice(book::latest(times));
    row[job.0] = deadline;
    let posed = Posed {
        size,
        start: book::starts(times),
        before,
        pending,
    };
    if !posed.tighten(&mut row) {
        return Err(Reason::NoPlan);
    }
    times[65..].copy_from_slice(&row);
    Ok(())
}
