// The bytes of a plan.
ghost use Rattle.std.specs.Prelude.{◌≡◌, ◌+◌, ◌*◌, ◌<◌, length, set};
ghost use Rattle.book.specs.Told.{cores};
ghost use Rattle.plan.specs.Inner.Bytes.{seated, Writable};

use crate::layout::Layout;
use book::CORES;
use schedule::{CoreIndex, JobIndex, SlotTime};

// Each job's byte at its seat.
pub fn write(out: &mut [u8], size: usize, laid: &Layout)
    requires { Writable size laid.now.slot out.old }
    ensures { out.new ≡ seated laid.now.slot laid.now.on_core_1 size out.old }
{
    for (i, &slot) in laid.slot[..size].iter().enumerate() {
        let job = JobIndex(i);
        seat(out, SlotTime::from(slot), laid.core_of(job), job);
    }
}

// A job in its slot, on its core.
fn seat(out: &mut [u8], slot: SlotTime, core: CoreIndex, job: JobIndex)
    requires { (cores * slot.0 + core.0 < length out.old) × (job.0 < 64) }
    ensures { out.new ≡ set out.old (cores * slot.0 + core.0) job.0 }
{
    out[CORES * slot.0 + core.0] = job.0 as u8;
}
