// The lines of a verdict, each put on a page.
ghost use Rattle.std.specs.Prelude.{◌++◌, ◌≡◌, ◌≤◌, length, pos};
ghost use Rattle.refusal.specs.Says.{reason_number, number_of, value_of};
ghost use Rattle.report.specs.Line.{refused_line};
ghost use Rattle.text.specs.Put.{Adds};
ghost use Rattle.verdict.specs.Line.{late_line, short_line, turned_down_line, stop_line};
ghost use Rattle.verdict.specs.Inner.Short.{AddsShort};

use refusal::{Answer, Reason, Refusal};
use text::Page;

// A file that is not read to its end.
pub fn stop(page: &mut Page, refusal: Refusal)
    ensures { AddsShort (λ text. text ≡ stop_line (reason_number refusal.reason) refusal.value) page.old page.new }
{
    match refusal.reason {
        Reason::FileTooLong => report::too_long(page),
        reason => report::stopped(page, refusal.value, usize::from(reason.number())),
    }
}

// A record that names no job of the file.
pub fn stray(page: &mut Page, place: usize)
    ensures { AddsShort (λ text. text ≡ refused_line place 5) page.old page.new }
{
    report::refused(page, place, Reason::NotHeld.number());
}

// A list that is refused.
pub fn turned_down(page: &mut Page, refusal: Refusal)
    ensures { AddsShort (λ text. text ≡ turned_down_line (reason_number refusal.reason) (pos refusal.value)) page.old page.new }
{
    match refusal.reason {
        Reason::NoJobs => page.fill(b"jobs 0\n", &[]),
        reason => {
            let values = [usize::from(reason.number()), refusal.value];
            page.fill(b"list refused \x00 at \x01\n", &values);
        }
    }
}

// A list that is accepted: how late, and how short.
pub fn accepted(page: &mut Page, jobs: usize, slots: i16, answer: Answer)
    ensures { AddsShort (λ text. text ≡ late_line jobs slots ++ short_line (number_of answer) (value_of answer)) page.old page.new }
{
    late(page, jobs, slots);
    short(page, answer);
}

fn late(page: &mut Page, jobs: usize, slots: i16)
    ensures { Adds (late_line jobs slots) page.old page.new }
{
    let values = [jobs, usize::from(slots.unsigned_abs())];
    if slots < 0 {
        page.fill(b"jobs \x00 lateness -\x01\n", &values);
    } else {
        page.fill(b"jobs \x00 lateness \x01\n", &values);
    }
}

fn short(page: &mut Page, answer: Answer)
    ensures few { length (short_line (number_of answer) (value_of answer)) ≤ 30 }
    ensures adds { Adds (short_line (number_of answer) (value_of answer)) page.old page.new }
{
    match answer {
        Ok(slots) => page.fill(b"shortest \x00\n", &[slots]),
        Err(_) => page.fill(b"no plan\n", &[]),
    }
}
