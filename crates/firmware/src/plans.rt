// The plan of a book, and the place of one job.
ghost use Rattle.std.specs.Prelude.{[], ◌∷◌};
ghost use Rattle.book.specs.Told.{Made, book_in};
ghost use Rattle.plan.specs.Plan.{Plans};
ghost use Rattle.firmware.specs.Plans.{FindsPlace};

use crate::tell::tell;
use book::{Before, Times};
use schedule::JobIndex;

pub fn firmware_plan(times: &Times, before: &Before, out: &mut [u8], answer: &mut usize) -> u8
    requires { Made (book_in times.now before.now) }
    ensures { Plans (book_in times.now before.now) out.old out.new result answer.new }
{
    tell(plan::plan(times, before, out), answer)
}

pub fn firmware_place(
    times: &Times,
    before: &Before,
    job: u16,
    slot: &mut usize,
    core: &mut usize,
    end: &mut usize,
    spare: &mut usize,
) -> u8
    requires { Made (book_in times.now before.now) }
    ensures { FindsPlace (book_in times.now before.now) job (slot.old ∷ core.old ∷ end.old ∷ spare.old ∷ []) (slot.new ∷ core.new ∷ end.new ∷ spare.new ∷ []) result }
{
    match plan::place(times, before, JobIndex::from(job)) {
        Ok(place) => {
            *slot = place.slot.0;
            *core = place.core.0;
            *end = place.end;
            *spare = place.spare;
            0
        }
        Err(refusal) => refusal.reason.number(),
    }
}
