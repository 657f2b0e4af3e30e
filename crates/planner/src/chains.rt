// Which job precedes which: row b is the set of jobs that precede job b, and the rows are closed under chains.
ghost use Rattle.std.specs.Prelude.{◌≡◌, ℕ, ◌<◌, ◌≤◌, T, length, get_or};
ghost use Rattle.sets.specs.Sets.{has};
ghost use Rattle.planner.specs.Inner.Chains.{nothing, joined_of, joined_rows};

use schedule::JobIndex;

// An order that the rows do not have yet: a job, and what it and all that follow it are to wait for.
#[derive(Clone, Copy, Debug, PartialEq, Eq)]
pub struct Pending {
    pub job: JobIndex,
    pub more: u64,
}

impl Pending {
    // No order: it changes no row, so that nobody has to ask whether there is one.
    pub fn none() -> Pending
        ensures { result ≡ nothing }
    {
        Pending {
            job: JobIndex(0),
            more: 0,
        }
    }

    // The rows with the order pending; no row from size on has its job.
    pub fn link(self, size: usize, rows: &mut [u64; 64])
        requires { (size ≤ 64) × (self.job.0 < size) × ((y : ℕ) → size ≤ y → T (has (get_or rows.old y 0) self.job.0) → ⊥) }
        ensures { rows.new ≡ joined_rows rows.old self }
    {
        for (y, row) in rows[..size].iter_mut().enumerate() {
            *row = self.joined(*row, JobIndex(y));
        }
    }

    // One such row: it takes in more where it is the job's, or has the job.
    pub fn joined(self, row: u64, y: JobIndex) -> u64
        requires { (y.0 < 64) × (self.job.0 < 64) }
        ensures { result ≡ joined_of row y.0 self }
    {
        if sets::has(sets::with(row, y), self.job) {
            return row | self.more;
        }
        row
    }
}
