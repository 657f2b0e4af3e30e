// What C links: the calls of `firmware` under their own names, each with its promise. They stand twice since a crate is a library or what C links.

#![tactic(auto)]

ghost use Rattle.book.specs.Told.{Made, Told, book_in, nothing_listed};
ghost use Rattle.planner.specs.Requests.{Applies, answered};
ghost use Rattle.firmware.specs.Requests.{TellsBook};
ghost use Rattle.std.specs.Prelude.{[], ◌∷◌, ◌≡◌};
ghost use Rattle.refusal.specs.Says.{class_of};
ghost use Rattle.planner.specs.Late.{Shortens};
ghost use Rattle.planner.specs.List.{Judges, judged};
ghost use Rattle.firmware.specs.List.{FindsLateness, class_number};
ghost use Rattle.plan.specs.Plan.{Plans};
ghost use Rattle.firmware.specs.Plans.{FindsPlace};
ghost use Rattle.jobfile.specs.Reader.{ReadsRecord, after_read};
ghost use Rattle.jobfile.specs.Writer.{WritesBook};

use book::{Before, Times};
use planner::Request;

#[unsafe(no_mangle)]
pub extern "C" fn firmware_open(times: &mut Times, before: &mut Before)
    ensures { Told (book_in times.new before.new) nothing_listed }
{
    firmware::firmware_open(times, before);
}

// 1 where the memory holds a book made by requests, and 0 for anything else.
#[unsafe(no_mangle)]
pub extern "C" fn firmware_is_book(times: &Times, before: &Before) -> u8
    ensures { TellsBook (book_in times.now before.now) result }
{
    firmware::firmware_is_book(times, before)
}

#[unsafe(no_mangle)]
pub extern "C" fn firmware_add_job(
    times: &mut Times,
    before: &mut Before,
    start: u16,
    deadline: u16,
    answer: &mut usize,
) -> u8
    requires { Made (book_in times.old before.old) }
    ensures { Applies (book_in times.old before.old) (Request.Job start deadline) (answered (book_in times.new before.new) result answer.new) }
{
    firmware::firmware_add_job(times, before, start, deadline, answer)
}

#[unsafe(no_mangle)]
pub extern "C" fn firmware_add_order(
    times: &mut Times,
    before: &mut Before,
    first: u16,
    second: u16,
    answer: &mut usize,
) -> u8
    requires { Made (book_in times.old before.old) }
    ensures { Applies (book_in times.old before.old) (Request.Before (record { 0 = first }) (record { 0 = second })) (answered (book_in times.new before.new) result answer.new) }
{
    firmware::firmware_add_order(times, before, first, second, answer)
}

#[unsafe(no_mangle)]
pub extern "C" fn firmware_draw_in(
    times: &mut Times,
    before: &mut Before,
    job: u16,
    deadline: u16,
    answer: &mut usize,
) -> u8
    requires { Made (book_in times.old before.old) }
    ensures { Applies (book_in times.old before.old) (Request.Earlier (record { 0 = job }) deadline) (answered (book_in times.new before.new) result answer.new) }
{
    firmware::firmware_draw_in(times, before, job, deadline, answer)
}

#[unsafe(no_mangle)]
pub extern "C" fn firmware_judge(
    starts: &[u16],
    deadlines: &[u16],
    pairs: &[u16],
    latest: &mut [u16],
    answer: &mut usize,
) -> u8
    ensures { Judges starts.now deadlines.now pairs.now latest.old (judged latest.new result answer.new) }
{
    firmware::firmware_judge(starts, deadlines, pairs, latest, answer)
}

// A refusal leaves the lateness lent.
#[unsafe(no_mangle)]
pub extern "C" fn firmware_lateness(
    starts: &[u16],
    deadlines: &[u16],
    pairs: &[u16],
    lateness: &mut i16,
    answer: &mut usize,
) -> u8
    ensures { FindsLateness starts.now deadlines.now pairs.now lateness.old lateness.new result answer.new }
{
    firmware::firmware_lateness(starts, deadlines, pairs, lateness, answer)
}

#[unsafe(no_mangle)]
pub extern "C" fn firmware_shortest(
    starts: &[u16],
    deadlines: &[u16],
    pairs: &[u16],
    answer: &mut usize,
) -> u8
    ensures { Shortens starts.now deadlines.now pairs.now result answer.new }
{
    firmware::firmware_shortest(starts, deadlines, pairs, answer)
}

#[unsafe(no_mangle)]
pub extern "C" fn firmware_class(refusal: u8) -> u8
    ensures { result ≡ class_number (class_of refusal) }
{
    firmware::firmware_class(refusal)
}

#[unsafe(no_mangle)]
pub extern "C" fn firmware_plan(
    times: &Times,
    before: &Before,
    out: &mut [u8],
    answer: &mut usize,
) -> u8
    requires { Made (book_in times.now before.now) }
    ensures { Plans (book_in times.now before.now) out.old out.new result answer.new }
{
    firmware::firmware_plan(times, before, out, answer)
}

#[unsafe(no_mangle)]
pub extern "C" fn firmware_place(
    times: &Times,
    before: &Before,
    job: u16,
    slot: &mut usize,
    core: &mut usize,
    end: &mut usize,
    spare: &mut usize,
) -> u8
    requires { Made (book_in times.now before.now) }
    ensures { FindsPlace (book_in times.now before.now) job (slot.old ∷ core.old ∷ end.old ∷ spare.old ∷ []) (slot.new ∷ core.new ∷ end.new ∷ spare.new ∷ []) result }
{
    firmware::firmware_place(times, before, job, slot, core, end, spare)
}

#[unsafe(no_mangle)]
pub extern "C" fn firmware_read(
    times: &mut Times,
    before: &mut Before,
    file: &[u8],
    at: &mut usize,
    answer: &mut usize,
) -> u8
    requires { Made (book_in times.old before.old) }
    ensures { ReadsRecord (book_in times.old before.old) file.now at.old (after_read (book_in times.new before.new) at.new result answer.new) }
{
    firmware::firmware_read(times, before, file, at, answer)
}

#[unsafe(no_mangle)]
pub extern "C" fn firmware_write(
    times: &Times,
    before: &Before,
    out: &mut [u8],
    answer: &mut usize,
) -> u8
    requires { Made (book_in times.now before.now) }
    ensures { WritesBook (book_in times.now before.now) out.old out.new result answer.new }
{
    firmware::firmware_write(times, before, out, answer)
}
