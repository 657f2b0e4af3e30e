// The rows of a book in lent memory.
ghost use Rattle.std.specs.Prelude.{◌≡◌, ◌≤◌, length};

use book::{Before, Times};

// How many jobs, their starts and latest times, and for each job the set of those that precede it.
#[derive(Clone, Copy)]
pub struct Rows<'a> {
    pub size: usize,
    pub start: &'a [u16],
    pub latest: &'a [u16],
    pub before: &'a Before,
    ghost few: { size ≤ 64 },
    ghost starts: { length start.now ≡ 64 },
    ghost latests: { length latest.now ≡ 64 },
}

impl<'a> Rows<'a> {
    ghost use Rattle.book.specs.Told.{Made, book_in};
    ghost use Rattle.plan.specs.Inner.Rows.{told_by};

    pub fn of(times: &'a Times, before: &'a Before) -> Rows<'a>
        requires { Made (book_in times.now before.now) }
        ensures { told_by result ≡ book_in times.now before.now }
    {
        Rows {
            size: usize::from(times[0]),
            start: book::starts(times),
            latest: book::latest(times),
            before,
        }
    }
}
