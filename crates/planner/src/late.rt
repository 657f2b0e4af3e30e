// How late a whole list is, and how short a plan of it can be: both by halving over the engine.
ghost use Rattle.std.specs.Prelude.{◌≡◌, ℕ, ◌≤◌, length};
ghost use Rattle.std.proofs.Common.{arith};
ghost use Rattle.schedule.specs.Theory.Lowest.{Lowest, Narrowed};
ghost use Rattle.refusal.specs.Says.{Says};
ghost use Rattle.planner.specs.Late.{Lates, Latens, Shortens, from_origin};
ghost use Rattle.planner.specs.Memory.{Whether};
ghost use Rattle.planner.specs.Inner.Late.{moved_by, capped_at, Fills, Leaves};

use crate::entries;
use crate::judged::Rows;
use refusal::{Answer, Reason, Refusal};

// The least number of slots by which all deadlines can be moved so that a valid plan exists.
pub fn lateness(starts: &[u16], deadlines: &[u16], pairs: &[u16]) -> Result<i16, Refusal>
    ensures { Lates result (Latens starts.now deadlines.now pairs.now) }
{
    if entries::uneven(starts, deadlines, pairs) {
        return Err(Reason::Uneven.into());
    }
    if starts.is_empty() {
        return Err(Reason::NoJobs.into());
    }
    let mut before = [0u64; 64];
    entries::faulty(starts, deadlines, pairs, &mut before)?;
    let rows = Rows {
        starts,
        deadlines,
        before: &before,
    };
    // from 4096 slots earlier, by which no job ends, to 4158 later, by which each has a slot of its own
    Ok(signed(rows.least::<Moved>(1, 8254)))
}

// The shortest finishing time among the valid plans that meet the deadlines.
pub fn shortest(starts: &[u16], deadlines: &[u16], pairs: &[u16]) -> Answer
    ensures { Says result (Shortens starts.now deadlines.now pairs.now) }
{
    if entries::uneven(starts, deadlines, pairs) {
        return Err(Reason::Uneven.into());
    }
    let mut before = [0u64; 64];
    entries::faulty(starts, deadlines, pairs, &mut before)?;
    if starts.is_empty() {
        return Ok(0);
    }
    let rows = Rows {
        starts,
        deadlines,
        before: &before,
    };
    // the last check, and the search: one judgement and at most twelve
    if !rows.leaves::<Capped>(4096) {
        return Err(Reason::NoPlan.into());
    }
    Ok(rows.least::<Capped>(1, 4096))
}

// How a deadline is tried at a number, the later the greater it is.
trait Trial {
    ghost tried: { ℕ → ℕ → ℕ };

    fn tried(deadline: u16, k: usize) -> u16
        requires { (deadline ≤ 4096) × (k ≤ 8254) }
        ensures { result ≡ tried deadline k };

    ghost rising: { (deadline j k : ℕ) → j ≤ k → tried deadline j ≤ tried deadline k };
}

// Moved by the number less 4096; 0, by which no job ends, where it would fall below 0.
struct Moved;

impl Trial for Moved {
    ghost tried = { moved_by };

    ghost rising = { λ deadline j k h. Prim.omega arith };

    fn tried(deadline: u16, k: usize) -> u16 {
        (usize::from(deadline) + k).saturating_sub(4096) as u16
    }
}

// At most the number.
struct Capped;

impl Trial for Capped {
    ghost tried = { capped_at };

    ghost rising = { λ deadline j k h. Prim.omega arith };

    fn tried(deadline: u16, k: usize) -> u16 {
        usize::from(deadline).min(k) as u16
    }
}

impl<'a> Rows<'a> {
    // The least number from low to high at which the deadlines tried leave a plan; high is one.
    fn least<T: Trial>(&self, low: usize, high: usize) -> usize
        requires { let r = self.now in (high ≤ 8254) × Narrowed (Leaves T.tried r.starts.now r.deadlines.now r.before.now) low high }
        ensures { let r = self.now in (result ≤ high) × Lowest (Leaves T.tried r.starts.now r.deadlines.now r.before.now) result }
    {
        let mut from = low;
        let mut to = high;
        while from < to {
            let mid = (from + to) / 2;
            if self.leaves::<T>(mid) {
                to = mid;
            } else {
                from = mid + 1;
            }
        }
        to
    }

    // Whether some plan meets the deadlines tried at a number.
    fn leaves<T: Trial>(&self, k: usize) -> bool
        requires { k ≤ 8254 }
        ensures { let r = self.now in Whether (Leaves T.tried r.starts.now r.deadlines.now r.before.now k) result }
    {
        let mut row = [0u16; 64];
        self.fill::<T>(k, &mut row) && self.tighten(&mut row)
    }

    // The deadlines tried at a number, in a row; false as soon as one is not above its job's start, where no plan meets them and the engine need not be asked.
    fn fill<T: Trial>(&self, k: usize, row: &mut [u16; 64]) -> bool
        requires { k ≤ 8254 }
        ensures { let r = self.now in Fills T.tried r.starts.now r.deadlines.now k row.new result }
    {
        for (i, (&start, &deadline)) in self.starts.iter().zip(self.deadlines).enumerate() {
            let due = T::tried(deadline, k);
            if due <= start {
                return false;
            }
            row[i] = due;
        }
        true
    }
}

// A move as a whole number.
fn signed(y: usize) -> i16
    requires { y ≤ 8254 }
    ensures { result ≡ from_origin y }
{
    y as i16 - 4096
}
