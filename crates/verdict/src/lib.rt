// The verdict on a job file: how late its list is, and how short a plan of it can be.

#![tactic(auto)]

mod gather;
mod lines;
mod row;

ghost use Rattle.verdict.specs.Verdict.{Verdicts, Together, Weighs};
ghost use Rattle.verdict.specs.Inner.Gather.{ForRecords, Holds};
ghost use Rattle.verdict.specs.Inner.Short.{AddsShort};

use gather::Rows;
use text::Page;

// The text at the front of the bytes lent, which are enough for any file; the answer is its length.
pub fn verdict(file: &[u8], out: &mut [u8; 80]) -> usize
    ensures { Verdicts file.now out.old out.new result }
{
    let mut page = Page { out, at: 0 };
    let mut rows = Rows::new();
    match rows.gather(file) {
        Ok(()) => together(&mut page, file, &mut rows),
        Err(refusal) => lines::stop(&mut page, refusal),
    }
    page.at
}

// The list of a file's records, by the rows that they give.
fn together(page: &mut Page, file: &[u8], rows: &mut Rows)
    ensures { ForRecords file.now (λ records. Holds records rows.old → AddsShort (Together records) page.old page.new) }
{
    match gather::draw_in(file, &mut rows.deadlines) {
        Ok(()) => weigh(page, rows),
        Err(place) => lines::stray(page, place),
    }
}

// The lines of a list.
fn weigh(page: &mut Page, rows: &Rows)
    ensures { AddsShort (Weighs rows.now.starts rows.now.deadlines rows.now.pairs) page.old page.new }
{
    let starts = rows.starts.entries();
    let deadlines = rows.deadlines.entries();
    let pairs = rows.pairs.entries();
    let short = planner::shortest(starts, deadlines, pairs);
    match planner::lateness(starts, deadlines, pairs) {
        Ok(slots) => lines::accepted(page, starts.len(), slots, short),
        Err(refusal) => lines::turned_down(page, refusal),
    }
}
