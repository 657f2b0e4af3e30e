// The rule for one job and one d.
ghost use Rattle.std.specs.Prelude.{◌≡◌, ℕ, ◌<◌, ◌≤◌, IfSome, MatchOption, get_or};
ghost use Rattle.schedule.specs.Count.{count};
ghost use Rattle.schedule.specs.Jobs.{Jobs};
ghost use Rattle.book.specs.Told.{cores};
ghost use Rattle.planner.specs.Inner.Tighten.Sink.{Eased};
ghost use Rattle.planner.specs.Inner.Tighten.Rule.{pressed, At, Pressure, Ruled};

use crate::tighten::Due;
use crate::tighten::tables::Tables;
use book::CORES;
use schedule::JobIndex;

impl Tables<'_> {
    // The latest time that the rule leaves a job at d.
    pub fn lowered(&self, job: JobIndex, held: u16, due: Due) -> Option<u16>
        requires { (job.0 < self.now.size) × (held ≤ due.d) }
        ensures within { IfSome result (λ time. time ≤ held) }
        ensures ruled { (J : Jobs) (early row : ℕ → ℕ) → At J early row job.0 held due self.now → MatchOption result (Eased cores J early row job.0 0) (Ruled cores J early row job.0 due.d) }
    {
        let begin = self.times[usize::from(self.rank[job.0])];
        if held <= begin {
            return None;
        }
        let slots = self.pressure(job, held, due).div_ceil(CORES);
        let left = due.d.saturating_sub(slots as u16);
        if held <= left {
            return Some(held);
        }
        if left <= begin {
            return None;
        }
        Some(left)
    }

    // N at the first s at which N is at least CORES(d - s); 0 where there is none, a count that lowers nothing.
    fn pressure(&self, job: JobIndex, held: u16, due: Due) -> usize
        requires { (job.0 < self.now.size) × (get_or self.now.times.now (get_or self.now.rank.now job.0 0) 0 < held) × (held ≤ due.d) }
        ensures { (result ≤ 64) × ((J : Jobs) (early row : ℕ → ℕ) → At J early row job.0 held due self.now → Pressure cores J early row job.0 due.d result) }
    {
        let d = usize::from(due.d);
        let held = usize::from(held);
        let least = CORES * (d - held);
        if 64 < least {
            return 0;
        }
        // N is at most 64, and falls as s rises, so a count bounds those after it: no s before `near` speaks
        let mut near = d.saturating_sub(64 / CORES);
        let from = usize::from(self.rank[job.0]);
        let times = self.times;
        let late = self.late;
        for (&time, late) in times[from..].iter().zip(&late[from..]) {
            let s = usize::from(time);
            if near <= s {
                let most = self.pressing(job, due.jobs, *late);
                if most < least {
                    return 0;
                }
                // the last s is the job's own time
                if held <= s || CORES * (d - s) <= most {
                    return most;
                }
                near = d - most / CORES;
            }
        }
        // the last time, 65535, is below no time held
        unreachable!()
    }

    // N with these late starters: how many jobs other than this one are due, and follow it or start late.
    fn pressing(&self, job: JobIndex, due: u64, late: u64) -> usize
        requires { job.0 < self.now.size }
        ensures { result ≡ count 64 (pressed due (get_or self.now.followers.now job.0 0) late job.0) }
    {
        sets::size(sets::without(due & (self.followers[job.0] | late), job))
    }
}
