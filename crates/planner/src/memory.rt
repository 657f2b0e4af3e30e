// Whether lent memory holds a book made by requests.
ghost use Rattle.std.specs.Prelude.{◌≡◌, ℕ, ◌≤◌, ◌<◌, length, get_or};
ghost use Rattle.book.specs.Told.{Made, book_in};
ghost use Rattle.planner.specs.Memory.{Whether};
ghost use Rattle.planner.specs.Inner.Memory.{Limits, Sub, ChainedAt, Regular, Steady};

use crate::chains::Pending;
use crate::tighten::posed::Posed;
use book::{Before, Times};
use schedule::JobIndex;

// Of any memory at all: true exactly where the book in it was made by requests.
pub fn is_book(times: &Times, before: &Before) -> bool
    ensures { Whether (Made (book_in times.now before.now)) result }
{
    regular(times, before) && steady(times, before)
}

// Whether its jobs are few, its times in their limits and its sets chained.
fn regular(times: &Times, before: &Before) -> bool
    ensures { Whether (Regular (book_in times.now before.now)) result }
{
    let size = usize::from(times[0]);
    size <= 64
        && limited(size, book::starts(times), 4095)
        && limited(size, book::latest(times), 4096)
        && chained(size, before)
}

// Whether the times are at most a limit, and 0 beyond the jobs held.
fn limited(size: usize, row: &[u16], limit: u16) -> bool
    requires { (length row.now ≡ 64) × (size ≤ 64) }
    ensures { Whether (Limits size limit row.now) result }
{
    let (held, beyond) = row.split_at(size);
    at_most(limit, held) && at_most(0, beyond)
}

// Whether no time is above a limit.
fn at_most(limit: u16, row: &[u16]) -> bool
    ensures { Whether ((i : ℕ) → i < length row.now → get_or row.now i 0 ≤ limit) result }
{
    row.iter().all(|&time| time <= limit)
}

// Whether the sets are of jobs held, closed under chains, and none has its own job.
fn chained(size: usize, before: &Before) -> bool
    requires { size ≤ 64 }
    ensures { Whether ((b : ℕ) → b < 64 → ChainedAt size before.now b) result }
{
    for (b, &row) in before.iter().enumerate() {
        if !chained_at(size, before, JobIndex(b), row) {
            return false;
        }
    }
    true
}

// One set of them.
fn chained_at(size: usize, before: &Before, job: JobIndex, row: u64) -> bool
    requires { (size ≤ 64) × (row ≡ get_or before.now job.0 0) }
    ensures { Whether (ChainedAt size before.now job.0) result }
{
    if job.0 >= size {
        return row == 0;
    }
    if !part_of(row, sets::without(sets::below(size), job)) {
        return false;
    }
    for a in sets::Jobs(row) {
        if !part_of(before[a.0], row) {
            return false;
        }
    }
    true
}

// Whether every job of one set is in the other.
fn part_of(set: u64, all: u64) -> bool
    ensures { Whether (Sub set all) result }
{
    set | all == all
}

// Whether tightening the latest times changes nothing.
fn steady(times: &Times, before: &Before) -> bool
    requires { Regular (book_in times.now before.now) }
    ensures { Whether (Steady (book_in times.now before.now)) result }
{
    let posed = Posed {
        size: usize::from(times[0]),
        start: book::starts(times),
        before,
        pending: Pending::none(),
    };
    let latest = book::latest(times);
    let mut row = [0u16; 64];
    row.copy_from_slice(latest);
    posed.tighten(&mut row) && row.as_slice() == latest
}
