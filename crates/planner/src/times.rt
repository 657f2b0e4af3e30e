// The times of a job.
ghost use Rattle.std.specs.Prelude.{ℕ};
ghost use Rattle.planner.specs.Requests.{times_checks};
ghost use Rattle.planner.specs.Inner.Passes.{Passes, at_place};

use refusal::Reason;

// A job's own fault.
pub fn fault(start: u16, deadline: u16) -> Result<(), Reason>
    ensures { (place : ℕ) → Passes (times_checks place start deadline) (at_place place result) }
{
    if start > 4095 || deadline > 4096 {
        return Err(Reason::OutOfRange);
    }
    if deadline <= start {
        return Err(Reason::NoSlot);
    }
    Ok(())
}
