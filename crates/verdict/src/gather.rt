// The list of a file: its records walked over twice, since an earlier deadline may stand before its job.
ghost use Rattle.std.specs.Prelude.{◌≡◌, []};
ghost use Rattle.verdict.specs.Inner.Gather.{Holds, Room, Enters, Gathers, ForRecords, Draws, Drew};

use crate::row::Row;
use records::Record;
use refusal::Refusal;

// A start and a deadline for each job, and the two jobs of each order.
#[derive(Drop)]
pub struct Rows {
    pub starts: Row<4096>,
    pub deadlines: Row<4096>,
    pub pairs: Row<8192>,
}

impl Rows {
    pub fn new() -> Self
        ensures { Holds [] result }
    {
        Rows {
            starts: Row::new(),
            deadlines: Row::new(),
            pairs: Row::new(),
        }
    }

    // What every record of a file gives, up to its end; an error is what stops it.
    pub fn gather(&mut self, file: &[u8]) -> Result<(), Refusal>
        requires { Holds [] self.old }
        ensures { Gathers file.now self.new result }
    {
        let mut at: usize = 0;
        while let Some(told) = records::record_at(file, at)? {
            self.enter(told);
            at += records::length_of(told);
        }
        Ok(())
    }

    // A record more.
    fn enter(&mut self, told: Record)
        requires { Room self.old }
        ensures { Enters told self.old self.new }
    {
        match told {
            Record::Job(start, deadline) => {
                self.starts.push(start);
                self.deadlines.push(deadline);
            }
            Record::Order(first, second) => {
                self.pairs.push(first);
                self.pairs.push(second);
            }
            Record::Deadline(..) => {}
        }
    }
}

// The deadlines of the file's jobs, drawn in by every record from the first on; an error has the place of a record that names no job of the file.
pub fn draw_in(file: &[u8], deadlines: &mut Row<4096>) -> Result<(), usize>
    ensures { ForRecords file.now (λ records. Draws records deadlines.old deadlines.new result) }
{
    let mut at: usize = 0;
    let mut place: usize = 0;
    while let Ok(Some(told)) = records::record_at(file, at) {
        if !draw(told, deadlines) {
            return Err(place);
        }
        at += records::length_of(told);
        place += 1;
    }
    Ok(())
}

// A record's earlier deadline; false, and nothing changed, where it names no job of the row.
fn draw(told: Record, deadlines: &mut Row<4096>) -> bool
    ensures { Drew told deadlines.old deadlines.new result }
{
    match told {
        Record::Deadline(job, deadline) => deadlines.lower(usize::from(job), deadline),
        Record::Job(..) | Record::Order(..) => true,
    }
}
