// Latest times: the rule until nothing moves.
mod early;
pub mod posed;
mod rule;
mod sink;
mod tables;

ghost use Rattle.std.specs.Prelude.{◌≡◌, ℕ, ◌<◌, ◌≤◌, T, MatchOption, get_or, replicate};
ghost use Rattle.schedule.specs.Jobs.{Jobs};
ghost use Rattle.sets.specs.Sets.{has};
ghost use Rattle.book.specs.Told.{cores, row_in};
ghost use Rattle.planner.specs.Inner.Tighten.Posed.{rows_of, Begun};
ghost use Rattle.planner.specs.Inner.Tighten.{Tightens, NoneAmong, DueAmong, AtD, Swept, Moves, Settles};
ghost use Rattle.planner.specs.Inner.Tighten.Known.{Known, SomeKnown};
ghost use Rattle.planner.specs.Inner.Tighten.Rule.{DueBy};

use posed::Posed;
use tables::{Starts, Tables};

impl Posed<'_> {
    // The latest row beneath the row lent, in its place, with the order pending; false where no plan meets it.
    pub fn tighten(self, row: &mut [u16; 64]) -> bool
        ensures { Tightens cores self.entry.size self.entry.start.now (rows_of self.entry) row.old row.new result }
    {
        let mut order = [0u8; 64];
        let mut starts = Starts {
            count: 0,
            times: [65535; 65],
            late: [0; 65],
        };
        let mut rank = [0u8; 64];
        self.begin(&mut order, &mut starts, &mut rank);
        self.beneath(&order, &starts, &rank, row)
    }

    // The tables of earliest times. Apart, so that the row of these leaves the stack before the followers come.
    fn begin(self, order: &mut [u8; 64], starts: &mut Starts, rank: &mut [u8; 64])
        requires { (starts.old.count ≡ 0) × (starts.old.times ≡ replicate 65 65535) × (starts.old.late ≡ replicate 65 0) }
        ensures { Begun self.entry order.new starts.new rank.new }
    {
        let mut early = [0u16; 64];
        self.earliest(&mut early, order);
        starts.fill(self.size, &early, rank);
    }

    // The latest row, by the tables of earliest times and by one of followers.
    fn beneath(
        self,
        order: &[u8; 64],
        starts: &Starts,
        rank: &[u8; 64],
        row: &mut [u16; 64],
    ) -> bool
        requires { Begun self order.now starts.now rank.now }
        ensures { Tightens cores self.entry.size self.entry.start.now (rows_of self.entry) row.old row.new result }
    {
        let mut followers = [0u64; 64];
        self.followers(&mut followers);
        let tables = Tables {
            size: self.size,
            order,
            followers: &followers,
            times: &starts.times,
            late: &starts.late,
            rank,
        };
        tables.sink(sets::below(self.size), row) && tables.settled(row)
    }
}

// The jobs of a set whose time is below a limit, and the greatest such time.
#[derive(Clone, Copy)]
struct Due {
    d: u16,
    jobs: u64,
}

impl Due {
    // None where no time is below the limit.
    fn below(limit: usize, among: u64, row: &[u16; 64]) -> Option<Due>
        ensures { MatchOption result (NoneAmong limit among row.now) (DueAmong limit among row.now) }
    {
        let mut d: u16 = 0;
        let mut jobs: u64 = 0;
        for job in sets::Jobs(among) {
            let time = row[job.0];
            if usize::from(time) < limit {
                jobs = sets::with(jobs, job);
                d = d.max(time);
            }
        }
        if jobs == 0 {
            return None;
        }
        Some(Due { d, jobs })
    }
}

impl Tables<'_> {
    // Passes until one moves nothing.
    fn settled(&self, row: &mut [u16; 64]) -> bool
        requires { SomeKnown self.now }
        ensures { (J : Jobs) (early : ℕ → ℕ) → Known J early self.now → Settles cores J early row.old row.new result }
    {
        while let Some(moved) = self.pass(row) {
            if moved == 0 {
                return true;
            }
        }
        false
    }

    // Every d of the row, from the greatest down: which jobs moved, None where some job has no time left.
    fn pass(&self, row: &mut [u16; 64]) -> Option<u64>
        requires { SomeKnown self.now }
        ensures { (J : Jobs) (early : ℕ → ℕ) → Known J early self.now → Moves cores J early row.old row.new (Swept cores J early (row_in row.old)) result }
    {
        let mut all: u64 = 0;
        let mut limit: usize = 65536;
        let mut among = sets::below(self.size);
        while let Some(due) = Due::below(limit, among, row) {
            let moved = self.lower_at(due, row)?;
            limit = usize::from(due.d);
            // while nothing moves, only jobs due now can be due next
            among = due.jobs;
            if moved != 0 {
                if !self.sink(moved, row) {
                    return None;
                }
                all |= moved;
                among = sets::below(self.size);
            }
        }
        Some(all)
    }

    // The rule at one d, for every job that is due: which moved, None where one has no time left.
    fn lower_at(&self, due: Due, row: &mut [u16; 64]) -> Option<u64>
        requires { (j : ℕ) → T (has due.jobs j) → (j < self.now.size) × (get_or row.old j 0 ≤ due.d) }
        ensures { (J : Jobs) (early : ℕ → ℕ) → Known J early self.now → DueBy J.size (row_in row.old) due.d due.jobs → Moves cores J early row.old row.new (AtD cores J early (row_in row.old) due.d) result }
    {
        let mut moved: u64 = 0;
        for job in sets::Jobs(due.jobs) {
            let held = row[job.0];
            let time = self.lowered(job, held, due)?;
            if time < held {
                row[job.0] = time;
                moved = sets::with(moved, job);
            }
        }
        Some(moved)
    }
}
