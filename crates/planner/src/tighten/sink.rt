// Each job one below its least follower.
ghost use Rattle.std.specs.Prelude.{◌≡◌, ℕ, ◌<◌, T, MatchOption};
ghost use Rattle.schedule.specs.Jobs.{Jobs};
ghost use Rattle.schedule.specs.Times.{Raised};
ghost use Rattle.sets.specs.Sets.{has};
ghost use Rattle.book.specs.Told.{cores, row_in};
ghost use Rattle.planner.specs.Inner.Tighten.Known.{Known};
ghost use Rattle.planner.specs.Inner.Tighten.Sink.{Eased, Fits};

use crate::tighten::tables::Tables;
use schedule::JobIndex;

impl Tables<'_> {
    // Last jobs first, so that one walk serves whole chains; false where a job has no time left.
    pub fn sink(&self, changed: u64, row: &mut [u16; 64]) -> bool
        ensures { (J : Jobs) (early : ℕ → ℕ) → Known J early self.now → Fits cores J early row.old row.new result }
    {
        let mut moved = changed;
        let order = self.order;
        for &last in order[..self.size].iter().rev() {
            let i = usize::from(last);
            let held = row[i];
            let Some(time) = capped(held, self.followers[i] & moved, row) else {
                return false;
            };
            if time < held {
                row[i] = time;
                moved = sets::with(moved, JobIndex(i));
            }
        }
        true
    }
}

// The time held, or one below the least of the set's; None where that leaves no time.
fn capped(held: u16, set: u64, row: &[u16; 64]) -> Option<u16>
    ensures { (J : Jobs) (early : ℕ → ℕ) (i : ℕ) → i < J.size → row_in row.now i ≡ held → ((j : ℕ) → T (has set j) → (j < J.size) × T (J.before i j)) → Raised J early → MatchOption result (Eased cores J early (row_in row.now) i 0) (Eased cores J early (row_in row.now) i) }
{
    let mut time = held;
    for job in sets::Jobs(set) {
        time = time.min(row[job.0].saturating_sub(1));
    }
    // no job ends by 0: told at once, before the rule is asked
    if time == 0 {
        return None;
    }
    Some(time)
}
