// The whole list at once.
ghost use Rattle.std.specs.Prelude.{◌≤◌, length};
ghost use Rattle.refusal.specs.Says.{Says};
ghost use Rattle.planner.specs.List.{Judges, judged};
ghost use Rattle.planner.specs.Inner.List.{Settles};

use crate::entries;
use crate::judged::Rows;
use refusal::{Answer, Reason};

// The list judged, and its latest times in the receiving row; a refusal leaves the row as it was. Starts, deadlines and pairs are three lent rows, as C has them.
pub fn judge(starts: &[u16], deadlines: &[u16], pairs: &[u16], latest: &mut [u16]) -> Answer
    ensures { Says result (λ n v. Judges starts.now deadlines.now pairs.now latest.old (judged latest.new n v)) }
{
    if entries::uneven(starts, deadlines, pairs) || latest.len() < starts.len() {
        return Err(Reason::Uneven.into());
    }
    let mut before = [0u64; 64];
    entries::faulty(starts, deadlines, pairs, &mut before)?;
    let rows = Rows {
        starts,
        deadlines,
        before: &before,
    };
    rows.settle(latest)
}

impl Rows<'_> {
    // The last check: the latest times handed over, or refusal 4.
    fn settle(&self, latest: &mut [u16]) -> Answer
        requires { length self.now.starts.now ≤ length latest.old }
        ensures { let r = self.now in Says result (λ n v. Settles r.starts.now r.deadlines.now r.before.now latest.old (judged latest.new n v)) }
    {
        let size = self.starts.len();
        let mut row = [0u16; 64];
        row[..size].copy_from_slice(self.deadlines);
        if !self.tighten(&mut row) {
            return Err(Reason::NoPlan.into());
        }
        latest[..size].copy_from_slice(&row[..size]);
        Ok(0)
    }
}
