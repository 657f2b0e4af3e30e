// What the engine is asked about: some jobs, and an order that their rows do not have yet.
ghost use Rattle.std.specs.Prelude.{◌≡◌, ◌<◌, get_or};
ghost use Rattle.planner.specs.Inner.Chains.{joined_rows};
ghost use Rattle.planner.specs.Inner.Tighten.Early.{Startable};

use crate::chains::Pending;
use schedule::JobIndex;

// The jobs' starts, which precedes which, and the order pending.
// Methods take it by value: by reference, lists of 8 jobs cost 2 % more instructions.
#[derive(Clone, Copy)]
pub struct Posed<'a> {
    pub size: usize,
    pub start: &'a [u16],
    pub before: &'a [u64; 64],
    pub pending: Pending,
    ghost below: { pending.job.0 < 64 },
    ghost ready: { Startable size start.now (joined_rows before.now pending) },
}

impl Posed<'_> {
    ghost use Rattle.planner.specs.Inner.Tighten.Posed.{rows_of};

    // Row y with the order.
    pub fn row_of(self, y: JobIndex) -> u64
        requires { y.0 < 64 }
        ensures { result ≡ get_or (rows_of self.entry) y.0 0 }
    {
        self.pending.joined(self.before[y.0], y)
    }
}
