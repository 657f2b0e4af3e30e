// Sets of jobs in 64 bits. A set has none of the jobs from 64 on.

#![tactic(auto)]

ghost use Rattle.std.specs.Prelude.{◌≡◌};
ghost use Rattle.schedule.specs.Count.{count};
ghost use Rattle.sets.specs.Sets.{has, With, Without, Below};
ghost use Rattle.std.specs.Iterator.{at_most};

use schedule::JobIndex;

// How many jobs a set can hold.
const JOBS: usize = 64;

// Whether a job is in the set.
pub fn has(set: u64, job: JobIndex) -> bool
    ensures { result ≡ has set job.0 }
{
    job.0 < JOBS && (set >> job.0) % 2 == 1
}

// The set with one job more.
pub fn with(set: u64, job: JobIndex) -> u64
    ensures { With set job.0 result }
{
    if job.0 >= JOBS {
        return set;
    }
    set | (1u64 << job.0)
}

// The set without one job.
pub fn without(set: u64, job: JobIndex) -> u64
    ensures { Without set job.0 result }
{
    if job.0 >= JOBS {
        return set;
    }
    set & !(1u64 << job.0)
}

// How many jobs are in the set.
pub fn size(set: u64) -> usize
    ensures { result ≡ count 64 (has set) }
{
    set.count_ones() as usize
}

// The jobs below n.
pub fn below(n: usize) -> u64
    ensures { Below n result }
{
    if n >= JOBS {
        return !0u64;
    }
    (1u64 << n) - 1
}

// The jobs of a set, by number.
#[derive(Clone, Copy)]
pub struct Jobs(pub u64);

impl Iterator for Jobs {
    ghost use Rattle.sets.specs.Walk.{Walks};

    type Item = JobIndex;

    ghost next_gives = { λ from job to. Walks from.0 job to.0 };

    ghost remaining = { λ jobs. at_most (count 64 (has jobs.0)) };

    fn next(&mut self) -> Option<JobIndex> {
        if self.0 == 0 {
            return None;
        }
        let job = JobIndex(self.0.trailing_zeros() as usize);
        self.0 &= self.0 - 1;
        Some(job)
    }
}
