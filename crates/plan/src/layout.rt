// The layout of a plan: each job's slot and core, found slot by slot.
ghost use Rattle.std.specs.Prelude.{◌≡◌, ◌<◌, get_or};
ghost use Rattle.book.specs.Told.{Made, cores};
ghost use Rattle.plan.specs.Inner.Rows.{told_by};
ghost use Rattle.plan.specs.Inner.Layout.{Serving, Serves, Lays, core_in};

use crate::choice::Chosen;
use crate::rows::Rows;
use schedule::{CoreIndex, JobIndex, SlotTime};

// Each job's slot, 0 before it is placed, the jobs on core 1, and the finishing time.
#[derive(Clone, Copy)]
pub struct Layout {
    pub slot: [u16; 64],
    pub on_core_1: u64,
    pub finish: usize,
}

// The jobs not yet placed, of those placed the jobs on core 1, and the next slot to serve.
#[derive(Clone, Copy)]
pub struct Stage {
    pub left: u64,
    pub on_core_1: u64,
    pub next: SlotTime,
}

impl Layout {
    pub fn slot_of(&self, job: JobIndex) -> SlotTime
        requires { job.0 < 64 }
        ensures { result.0 ≡ get_or self.now.slot job.0 0 }
    {
        SlotTime::from(self.slot[job.0])
    }

    pub fn core_of(&self, job: JobIndex) -> CoreIndex
        ensures { result.0 ≡ core_in self.now.on_core_1 job.0 }
    {
        CoreIndex(usize::from(sets::has(self.on_core_1, job)))
    }
}

impl Rows<'_> {
    // Slot after slot until every job is placed.
    pub fn lay_out(&self) -> Layout
        requires { Made (told_by self.now) }
        ensures { Lays (told_by self.now) result }
    {
        let mut slot = [0; 64];
        let mut stage = Stage {
            left: sets::below(self.size),
            on_core_1: 0,
            next: SlotTime(0),
        };
        while stage.left != 0 {
            stage = self.serve(&mut slot, stage);
        }
        Layout {
            slot,
            on_core_1: stage.on_core_1,
            finish: stage.next.0,
        }
    }

    // One slot: core 0 and then core 1 takes a job. What goes to core 0 is still undone for core 1. A slot with no job ends where a job starts.
    fn serve(&self, slot: &mut [u16; 64], stage: Stage) -> Stage
        requires { Serving cores (told_by self.now) slot.old stage }
        ensures { Serves cores (told_by self.now) stage slot.new result }
    {
        let t = stage.next;
        let Chosen { best, next } = self.next_jobs(stage.left, t);
        let Some(first) = best else {
            return Stage {
                next: self.next_start(t),
                ..stage
            };
        };
        slot[first.0] = t.0 as u16;
        let alone = Stage {
            left: sets::without(stage.left, first),
            next: SlotTime(t.0 + 1),
            ..stage
        };
        let Some(second) = next else {
            return alone;
        };
        slot[second.0] = t.0 as u16;
        Stage {
            left: sets::without(alone.left, second),
            on_core_1: sets::with(alone.on_core_1, second),
            ..alone
        }
    }
}
