// A book of jobs as it lies in lent memory, and its parts.

#![tactic(auto)]

ghost use Rattle.std.specs.Prelude.{◌≡◌, ◌+◌, ◌≤◌, length};
ghost use Rattle.book.specs.Told.{Told, part, book_in, nothing_listed};

// Two equal cores.
pub const CORES: usize = 2;

// The number of jobs, 64 starts, 64 latest times.
pub type Times = [u16; 129];

// Row b is the set of jobs that precede job b.
pub type Before = [u64; 64];

// An empty book, whatever the memory held.
pub fn open(times: &mut Times, before: &mut Before)
    ensures { Told (book_in times.new before.new) nothing_listed }
{
    *times = [0u16; 129];
    *before = [0u64; 64];
}

// By job, 0 beyond the jobs held.
pub fn starts(times: &Times) -> &[u16]
    ensures { result.now ≡ part 1 times.now }
{
    rows(times, 1)
}

// By job, 0 beyond the jobs held.
pub fn latest(times: &Times) -> &[u16]
    ensures { result.now ≡ part 65 times.now }
{
    rows(times, 65)
}

// 64 entries from a place on.
fn rows(times: &[u16], from: usize) -> &[u16]
    requires { from + 64 ≤ length times.now }
    ensures { result.now ≡ part from times.now }
{
    let to = from + 64;
    &times[from..to]
}
