// Rows of a list that has passed every check but the last.
ghost use Rattle.std.specs.Prelude.{length};
ghost use Rattle.book.specs.Told.{cores};
ghost use Rattle.planner.specs.Inner.List.{Judgeable};
ghost use Rattle.planner.specs.Inner.Tighten.{Tightens};

use crate::chains::Pending;
use crate::tighten::posed::Posed;

// The jobs' starts and deadlines, and which job precedes which. Each caller builds it behind its own checks: a lateness has 14 among them, judge the row that receives.
#[derive(Clone, Copy)]
pub struct Rows<'a> {
    pub starts: &'a [u16],
    pub deadlines: &'a [u16],
    pub before: &'a [u64; 64],
    ghost judgeable: { Judgeable starts.now deadlines.now before.now },
}

impl<'a> Rows<'a> {
    // The latest times beneath a row of deadlines, in its place; false where no plan meets it.
    pub fn tighten(&self, row: &mut [u16; 64]) -> bool
        ensures { let r = self.now in Tightens cores (length r.starts.now) r.starts.now r.before.now row.old row.new result }
    {
        let posed = Posed {
            size: self.starts.len(),
            start: self.starts,
            before: self.before,
            pending: Pending::none(),
        };
        posed.tighten(row)
    }
}
