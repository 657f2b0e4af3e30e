// The parts of the listing that are more than a line.
ghost use Rattle.std.specs.Prelude.{◌≡◌};
ghost use Rattle.book.specs.Told.{Made, book_in};
ghost use Rattle.plan.specs.Plan.{bytes_of};
ghost use Rattle.text.specs.Put.{Adds};
ghost use Rattle.report.specs.Listing.{refused_lines, slot_lines, book_lines};

use crate::{jobs, line};
use book::{Before, Times};
use schedule::SlotTime;
use text::Page;

// The number of each record's answer, 0 where it is accepted.
pub fn refused(page: &mut Page, numbers: &[u8])
    ensures { Adds (refused_lines numbers.now) page.old page.new }
{
    for (place, &number) in numbers.iter().enumerate() {
        line::refused(page, place, number);
    }
}

// Jobs held and finishing time, the slots of the plan, the jobs: the plan is laid out once.
pub fn book(page: &mut Page, times: &Times, before: &Before)
    requires { Made (book_in times.now before.now) }
    ensures { Adds (book_lines (book_in times.now before.now)) page.old page.new }
{
    let mut bytes = [0u8; 8192];
    let plan = laid_out(times, before, &mut bytes);
    let finish = SlotTime(plan.len() / 2);
    line::jobs(page, jobs::job_count(times), finish);
    slots(page, plan);
    jobs::lines(page, times, plan);
}

// The plan of a book, at the front of bytes that are enough for any.
fn laid_out<'a>(times: &Times, before: &Before, bytes: &'a mut [u8; 8192]) -> &'a [u8]
    requires { Made (book_in times.now before.now) }
    ensures { result.now ≡ bytes_of (book_in times.now before.now) }
{
    let finish = plan::plan(times, before, bytes).unwrap_or(0);
    &bytes[..2 * finish]
}

// Two bytes a slot, core 0 first.
fn slots(page: &mut Page, plan: &[u8])
    ensures { Adds (slot_lines plan.now) page.old page.new }
{
    for (slot, pair) in plan.chunks_exact(2).enumerate() {
        line::slot(page, SlotTime(slot), pair[0], pair[1]);
    }
}
