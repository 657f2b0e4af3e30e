// The jobs and pairs of a whole list, checked one after the other.
ghost use Rattle.std.specs.Prelude.{◌≡◌, ℕ, ◌/◌, ◌≤◌, ◌<◌, T, length, get_or, IsOk};
ghost use Rattle.sets.specs.Sets.{has};
ghost use Rattle.refusal.specs.Table.{places};
ghost use Rattle.planner.specs.List.{Uneven, job_at, pair_at};
ghost use Rattle.planner.specs.Memory.{Whether};
ghost use Rattle.planner.specs.Requests.{held_checks};
ghost use Rattle.planner.specs.Inner.Passes.{Passes, at_place};
ghost use Rattle.planner.specs.Inner.Entries.{Held, Spells, Closes, Loops, TakesIn, Checked};

use crate::chains;
use crate::chains::Pending;
use crate::times::fault;
use refusal::{Reason, Refusal};
use schedule::JobIndex;

// Whether starts and deadlines differ in length, or a pair is not whole.
pub fn uneven(starts: &[u16], deadlines: &[u16], pairs: &[u16]) -> bool
    ensures { Whether (Uneven starts.now deadlines.now pairs.now) result }
{
    starts.len() != deadlines.len() || pairs.len() % 2 == 1
}

// The first fault: more than 64 jobs, then that of a job, of a pair, of the loop that a pair closes; where there is none, the rows say which job precedes which.
pub fn faulty(
    starts: &[u16],
    deadlines: &[u16],
    pairs: &[u16],
    rows: &mut [u64; 64],
) -> Result<(), Refusal>
    requires { (length starts.now ≡ length deadlines.now) × Spells pairs.now 0 rows.old }
    ensures { Checked starts.now deadlines.now pairs.now rows.new result }
{
    let size = starts.len();
    if size > 64 {
        return Err(Reason::TooManyJobs.into());
    }
    unsound_job(starts, deadlines)?;
    unheld_pair(pairs, size)?;
    looping_pair(size, pairs, rows)
}

// The first job with a fault of its own.
fn unsound_job(starts: &[u16], deadlines: &[u16]) -> Result<(), Refusal>
    requires { length starts.now ≡ length deadlines.now }
    ensures { Passes (places (length starts.now) (job_at starts.now deadlines.now)) result }
{
    for (i, (&start, &deadline)) in starts.iter().zip(deadlines).enumerate() {
        fault(start, deadline).map_err(|reason| Refusal { reason, value: i })?;
    }
    Ok(())
}

// The first pair that names a job not held.
fn unheld_pair(pairs: &[u16], size: usize) -> Result<(), Refusal>
    ensures { Passes (places (length pairs.now / 2) (pair_at size pairs.now)) result }
{
    for (p, pair) in pairs.chunks_exact(2).enumerate() {
        let first = JobIndex::from(pair[0]);
        let second = JobIndex::from(pair[1]);
        unheld(size, first, second).map_err(|reason| Refusal { reason, value: p })?;
    }
    Ok(())
}

// The fault of a before b among so many jobs.
pub fn unheld(size: usize, a: JobIndex, b: JobIndex) -> Result<(), Reason>
    ensures { ((place : ℕ) → Passes (held_checks place size a.0 b.0) (at_place place result)) × (IsOk result → (a.0 < size) × (b.0 < size)) }
{
    if a.0 >= size {
        return Err(Reason::NotHeld);
    }
    if b.0 >= size {
        return Err(Reason::SecondNotHeld);
    }
    Ok(())
}

// The first pair that closes a loop with those before it; the rows take in those before it.
fn looping_pair(size: usize, pairs: &[u16], rows: &mut [u64; 64]) -> Result<(), Refusal>
    requires { (size ≤ 64) × Held size pairs.now × Spells pairs.now 0 rows.old }
    ensures { Loops pairs.now rows.new result }
{
    for (p, pair) in pairs.chunks_exact(2).enumerate() {
        let first = JobIndex::from(pair[0]);
        let second = JobIndex::from(pair[1]);
        closes(rows, first, second).map_err(|reason| Refusal { reason, value: p })?;
        follow(size, rows, first, second);
    }
    Ok(())
}

// The fault of a before b by the loop that it would close.
pub fn closes(rows: &[u64; 64], a: JobIndex, b: JobIndex) -> Result<(), Reason>
    requires { (a.0 < 64) × (b.0 < 64) }
    ensures { Closes rows.now a.0 b.0 result }
{
    if a == b {
        return Err(Reason::BeforeItself);
    }
    if sets::has(rows[a.0], b) {
        return Err(Reason::Loop);
    }
    Ok(())
}

// Job a before job b, unless that already follows.
fn follow(size: usize, rows: &mut [u64; 64], a: JobIndex, b: JobIndex)
    requires { (size ≤ 64) × (a.0 < size) × (b.0 < size) × ((y : ℕ) → size ≤ y → T (has (get_or rows.old y 0) b.0) → ⊥) }
    ensures { TakesIn a.0 b.0 rows.old rows.new }
{
    if !sets::has(rows[b.0], a) {
        let more = sets::with(rows[a.0], a);
        Pending { job: b, more }.link(size, rows);
    }
}
