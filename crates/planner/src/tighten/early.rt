// Earliest times, each job after those that precede it.
ghost use Rattle.std.specs.Prelude.{ℕ, ◌<◌, get_or};
ghost use Rattle.planner.specs.Inner.Tighten.Posed.{rows_of};
ghost use Rattle.planner.specs.Inner.Tighten.Early.{Unblocked, After, Begins};

use crate::tighten::posed::Posed;
use schedule::JobIndex;

impl Posed<'_> {
    // The earliest times, and the order in which jobs are reached: predecessors first.
    pub fn earliest(self, early: &mut [u16; 64], order: &mut [u8; 64])
        ensures { Begins self.entry.size self.entry.start.now (rows_of self.entry) early.new order.new }
    {
        let mut todo = sets::below(self.size);
        for place in order[..self.size].iter_mut() {
            let job = self.unblocked(todo);
            let i = job.0;
            let set = self.row_of(job);
            let time = after(usize::from(self.start[i]), set, early);
            early[i] = time as u16;
            *place = i as u8;
            todo = sets::without(todo, job);
        }
    }

    // The first job to do that waits for none to do.
    fn unblocked(self, todo: u64) -> JobIndex
        requires { (i : ℕ) × Unblocked i (get_or (rows_of self) i 0) todo }
        ensures { (result.0 < 64) × Unblocked result.0 (get_or (rows_of self.entry) result.0 0) todo }
    {
        for job in sets::Jobs(todo) {
            let row = self.before[job.0];
            // an order frees no job
            if row & todo == 0 && self.pending.joined(row, job) & todo == 0 {
                return job;
            }
        }
        unreachable!()
    }
}

// The least time from `start` on that is after every job of the set.
fn after(start: usize, set: u64, early: &[u16; 64]) -> usize
    ensures { After start set early.now result }
{
    let mut time = start;
    for job in sets::Jobs(set) {
        time = time.max(usize::from(early[job.0]) + 1);
    }
    time
}
