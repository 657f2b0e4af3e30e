// The plan of a book: its bytes, a span of them, the place of one job.

#![tactic(auto)]

mod bytes;
mod choice;
mod layout;
mod placed;
mod rows;

ghost use Rattle.std.specs.Prelude.{◌≡◌};
ghost use Rattle.refusal.specs.Says.{Says};
ghost use Rattle.book.specs.Told.{Made, book_in};
ghost use Rattle.plan.specs.Plan.{Plans};
ghost use Rattle.plan.specs.Span.{span_of};
ghost use Rattle.plan.specs.Placed.{Sites};
ghost use Rattle.plan.specs.Place.{Places};

use book::{Before, CORES, Times};
pub use placed::Place;
use refusal::{Answer, Reason, Refusal};
use rows::Rows;
use schedule::{JobIndex, SlotTime};

// Two bytes a slot, core 0 first, 255 for an idle core as C reads it, from slot 0 to the finishing time. The parts of a book stay apart in the public calls: the C interface lends them so.
pub fn plan(times: &Times, before: &Before, out: &mut [u8]) -> Answer
    requires { Made (book_in times.now before.now) }
    ensures { Says result (Plans (book_in times.now before.now) out.old out.new) }
{
    let rows = Rows::of(times, before);
    let laid = rows.lay_out();
    let needed = CORES * laid.finish;
    if out.len() < needed {
        return Err(Refusal {
            reason: Reason::NoRoom,
            value: needed,
        });
    }
    out[..needed].fill(255);
    bytes::write(out, rows.size, &laid);
    Ok(laid.finish)
}

// The bytes of the slots from a up to b, as that part of the plan lent.
pub fn span<'a>(plan: &'a [u8], from: SlotTime, to: SlotTime) -> &'a [u8]
    ensures { result.now ≡ span_of plan.now from.0 to.0 }
{
    let a = from.0;
    let b = to.0;
    if a <= b && b <= plan.len() / CORES {
        return &plan[CORES * a..CORES * b];
    }
    &[]
}

// The place of a job: its slot, its core, its end and its spare.
pub fn place(times: &Times, before: &Before, job: JobIndex) -> Result<Place, Refusal>
    requires { Made (book_in times.now before.now) }
    ensures { Sites result (Places (book_in times.now before.now) job.0) }
{
    let rows = Rows::of(times, before);
    if job.0 >= rows.size {
        return Err(Reason::NotHeld.into());
    }
    let laid = rows.lay_out();
    let slot = laid.slot_of(job);
    let end = slot.0 + 1;
    Ok(Place {
        slot,
        core: laid.core_of(job),
        end,
        spare: usize::from(rows.latest[job.0]) - end,
    })
}
