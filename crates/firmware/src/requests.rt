// A book opened, and requests on it.
ghost use Rattle.book.specs.Told.{Told, Made, book_in, nothing_listed};
ghost use Rattle.planner.specs.Requests.{Applies, answered};
ghost use Rattle.firmware.specs.Requests.{TellsBook};

use crate::tell::tell;
use book::{Before, Times};
use planner::Request;
use schedule::JobIndex;

pub fn firmware_open(times: &mut Times, before: &mut Before)
    ensures { Told (book_in times.new before.new) nothing_listed }
{
    book::open(times, before);
}

// 1 where the memory holds a book made by requests, and 0 for anything else.
pub fn firmware_is_book(times: &Times, before: &Before) -> u8
    ensures { TellsBook (book_in times.now before.now) result }
{
    u8::from(planner::is_book(times, before))
}

pub fn firmware_add_job(
    times: &mut Times,
    before: &mut Before,
    start: u16,
    deadline: u16,
    answer: &mut usize,
) -> u8
    requires { Made (book_in times.old before.old) }
    ensures { Applies (book_in times.old before.old) (Request.Job start deadline) (answered (book_in times.new before.new) result answer.new) }
{
    let job = Request::Job(start, deadline);
    tell(planner::apply(times, before, job), answer)
}

pub fn firmware_add_order(
    times: &mut Times,
    before: &mut Before,
    first: u16,
    second: u16,
    answer: &mut usize,
) -> u8
    requires { Made (book_in times.old before.old) }
    ensures { Applies (book_in times.old before.old) (Request.Before (record { 0 = first }) (record { 0 = second })) (answered (book_in times.new before.new) result answer.new) }
{
    let order = Request::Before(JobIndex::from(first), JobIndex::from(second));
    tell(planner::apply(times, before, order), answer)
}

pub fn firmware_draw_in(
    times: &mut Times,
    before: &mut Before,
    job: u16,
    deadline: u16,
    answer: &mut usize,
) -> u8
    requires { Made (book_in times.old before.old) }
    ensures { Applies (book_in times.old before.old) (Request.Earlier (record { 0 = job }) deadline) (answered (book_in times.new before.new) result answer.new) }
{
    let earlier = Request::Earlier(JobIndex::from(job), deadline);
    tell(planner::apply(times, before, earlier), answer)
}
