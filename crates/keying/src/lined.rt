// A job file becomes lines: one walk to check it, and one to write.
ghost use Rattle.std.specs.Prelude.{[], ◌∷◌};
ghost use Rattle.text.specs.Fill.{filled};
ghost use Rattle.text.specs.Put.{Adds};
ghost use Rattle.keying.specs.Lines.{Lines, line_of};
ghost use Rattle.keying.specs.Inner.Walk.{Reads};

use records::Record;
use refusal::{Answer, Refusal};
use text::Page;

// The lines of a job file, from the first of the bytes lent, which are enough for any file; the answer is how many bytes they are, or the refusal that stops it.
pub fn lines(file: &[u8], out: &mut [u8; 61440]) -> Answer
    ensures { Lines file.now out.old result out.new }
{
    walk(file, &mut |_| {})?;
    let mut page = Page { out, at: 0 };
    walk(file, &mut |told| line(&mut page, told))?;
    Ok(page.at)
}

// Up to the end of the file or what stops it: each record is told.
fn walk<F: FnMut(Record)>(file: &[u8], tell: &mut F) -> Result<(), Refusal>
    requires { F.IsAlwaysCallable tell.old }
    ensures { Reads file.now (λ before told after. F.step before told tt after) tell.old result tell.new }
{
    let mut at = 0;
    while let Some(told) = records::record_at(file, at)? {
        tell(told);
        at += records::length_of(told);
    }
    Ok(())
}

// A record as a line.
fn line(page: &mut Page, told: Record)
    ensures { Adds (line_of told) page.old page.new }
{
    match told {
        Record::Job(start, deadline) => fields(page, b"JB \x00 \x01\n", start, deadline),
        Record::Order(first, second) => fields(page, b"OR \x00 \x01\n", first, second),
        Record::Deadline(job, deadline) => fields(page, b"TG \x00 \x01\n", job, deadline),
    }
}

fn fields(page: &mut Page, pattern: &[u8], first: u16, second: u16)
    ensures { Adds (filled (first ∷ second ∷ []) pattern.now) page.old page.new }
{
    page.fill(pattern, &[usize::from(first), usize::from(second)]);
}
