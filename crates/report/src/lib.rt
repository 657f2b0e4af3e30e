// The listing of a job file, made on lent bytes.

#![tactic(auto)]

mod jobs;
mod line;
mod lines;

// The lines that a verdict has too.
ghost use Rattle.std.specs.Prelude.{◌≡◌};
ghost use Rattle.jobfile.specs.Reader.{Tells};
ghost use Rattle.text.specs.Put.{Adds};
ghost use Rattle.report.specs.Listing.{Lists, stop_line};

use jobfile::Event;
pub use line::{refused, stopped, too_long};
use text::Page;

// The text at the front of the bytes lent, which are enough for any file; the answer is its length.
pub fn listing(file: &[u8], out: &mut [u8; 196608]) -> usize
    ensures { Lists file.now out.old out.new result }
{
    let mut page = Page { out, at: 0 };
    if file.len() > 24576 {
        line::too_long(&mut page);
        return page.at;
    }
    let mut times = [0u16; 129];
    let mut before = [0u64; 64];
    book::open(&mut times, &mut before);
    // a byte beyond the records stays 0, and gives no line
    let mut numbers = [0u8; 4096];
    let ended = jobfile::read_file(&mut times, &mut before, file, &mut numbers);
    lines::refused(&mut page, &numbers);
    stop(&mut page, ended.event);
    lines::book(&mut page, &times, &before);
    page.at
}

// A file too long is not read.
fn stop(page: &mut Page, event: Event)
    requires { Tells event (λ n v. n ≡ 9 → ⊥) }
    ensures { Tells event (λ n v. Adds (stop_line n v) page.old page.new) }
{
    if let Err(refusal) = event {
        line::stopped(page, refusal.value, usize::from(refusal.reason.number()));
    }
}
