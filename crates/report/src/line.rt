// The lines of the listing, each put on a page.
ghost use Rattle.text.specs.Put.{Adds};
ghost use Rattle.report.specs.Line.{refused_line, stopped_line, too_long_line, jobs_line, slot_line, job_line};

use schedule::{JobIndex, SlotTime};
use text::Page;

// A number and no Option: it is a byte of `read_file`, which promises 0 for a record that was accepted.
pub fn refused(page: &mut Page, place: usize, number: u8)
    ensures { Adds (refused_line place number) page.old page.new }
{
    if number == 0 {
        return;
    }
    let values = [place, usize::from(number)];
    page.fill(b"record \x00 refused \x01\n", &values);
}

pub fn stopped(page: &mut Page, offset: usize, number: usize)
    ensures { Adds (stopped_line offset number) page.old page.new }
{
    page.fill(b"stopped at \x00 refused \x01\n", &[offset, number]);
}

pub fn too_long(page: &mut Page)
    ensures { Adds too_long_line page.old page.new }
{
    page.fill(b"file refused 9\n", &[]);
}

pub fn jobs(page: &mut Page, jobs: usize, finish: SlotTime)
    ensures { Adds (jobs_line jobs finish.0) page.old page.new }
{
    page.fill(b"jobs \x00 slots \x01\n", &[jobs, finish.0]);
}

pub fn job(
    page: &mut Page,
    job: JobIndex,
    start: SlotTime,
    latest: SlotTime,
    end: SlotTime,
    spare: usize,
)
    ensures { Adds (job_line job.0 start.0 latest.0 end.0 spare) page.old page.new }
{
    let values = [job.0, start.0, latest.0, end.0, spare];
    page.fill(
        b"job \x00 start \x01 latest \x02 end \x03 spare \x04\n",
        &values,
    );
}

// The two bytes of a slot in the plan.
pub fn slot(page: &mut Page, slot: SlotTime, core0: u8, core1: u8)
    ensures { Adds (slot_line slot.0 core0 core1) page.old page.new }
{
    let values = [slot.0, usize::from(core0), usize::from(core1)];
    match (core0, core1) {
        (255, 255) => {}
        (255, _) => page.fill(b"slot \x00 - \x02\n", &values),
        (_, 255) => page.fill(b"slot \x00 \x01 -\n", &values),
        _ => page.fill(b"slot \x00 \x01 \x02\n", &values),
    }
}
