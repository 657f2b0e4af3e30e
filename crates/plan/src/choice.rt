// The choice of the next jobs for a slot.
ghost use Rattle.std.specs.Prelude.{◌≡◌, ◌<◌, IfSome};
ghost use Rattle.book.specs.Told.{row_in, latest_of};
ghost use Rattle.plan.specs.Plan.{horizon};
ghost use Rattle.plan.specs.Inner.Rows.{told_by};
ghost use Rattle.plan.specs.Inner.Choice.{begins, sooner, Held, Chooses, Wakes};

use crate::rows::Rows;
use schedule::{JobIndex, SlotTime};

// No plan has a slot from here on.
const HORIZON: usize = 4096;

// The first job in order, and the first of the others.
#[derive(Clone, Copy)]
pub struct Chosen {
    pub best: Option<JobIndex>,
    pub next: Option<JobIndex>,
}

impl Rows<'_> {
    // Of the jobs left that can begin at t, the first two by latest time, then by number.
    pub fn next_jobs(&self, left: u64, t: SlotTime) -> Chosen
        requires { Held self.now.size left }
        ensures { Chooses (told_by self.now) left t.0 result }
    {
        let mut best = None;
        let mut next = None;
        for job in sets::Jobs(left) {
            if self.ready(job, left, t) {
                if self.sooner(job, best) {
                    next = best;
                    best = Some(job);
                } else if self.sooner(job, next) {
                    next = Some(job);
                }
            }
        }
        Chosen { best, next }
    }

    // Whether a job has its start at most t and no predecessor undone.
    fn ready(&self, job: JobIndex, undone: u64, t: SlotTime) -> bool
        requires { job.0 < 64 }
        ensures { result ≡ begins (told_by self.now) undone t.0 job.0 }
    {
        usize::from(self.start[job.0]) <= t.0 && self.before[job.0] & undone == 0
    }

    // Whether a job's latest time is below another's; any is below none.
    fn sooner(&self, job: JobIndex, other: Option<JobIndex>) -> bool
        requires { (job.0 < 64) × IfSome other (λ other. other.0 < 64) }
        ensures { result ≡ sooner (latest_of (told_by self.now)) job.0 other }
    {
        other.is_none_or(|other| self.latest[job.0] < self.latest[other.0])
    }

    // The first start after t, the horizon if there is none; no Option, since the walk over slots ends at the horizon too.
    pub fn next_start(&self, t: SlotTime) -> SlotTime
        requires { t.0 < horizon }
        ensures { Wakes self.now.size (row_in self.now.start.now) t.0 result.0 }
    {
        let mut next = HORIZON;
        for &start in &self.start[..self.size] {
            let begin = usize::from(start);
            if begin > t.0 {
                next = next.min(begin);
            }
        }
        SlotTime(next)
    }
}
