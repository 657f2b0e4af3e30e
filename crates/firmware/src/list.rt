// The whole list at once, how late and how short, and the class of a number of refusal.
ghost use Rattle.std.specs.Prelude.{◌≡◌};
ghost use Rattle.refusal.specs.Says.{class_of};
ghost use Rattle.planner.specs.Late.{Shortens};
ghost use Rattle.planner.specs.List.{Judges, judged};
ghost use Rattle.firmware.specs.List.{FindsLateness, class_number};

use crate::tell::tell;

pub fn firmware_judge(
    starts: &[u16],
    deadlines: &[u16],
    pairs: &[u16],
    latest: &mut [u16],
    answer: &mut usize,
) -> u8
    ensures { Judges starts.now deadlines.now pairs.now latest.old (judged latest.new result answer.new) }
{
    tell(planner::judge(starts, deadlines, pairs, latest), answer)
}

// A refusal leaves the lateness lent.
pub fn firmware_lateness(
    starts: &[u16],
    deadlines: &[u16],
    pairs: &[u16],
    lateness: &mut i16,
    answer: &mut usize,
) -> u8
    ensures { FindsLateness starts.now deadlines.now pairs.now lateness.old lateness.new result answer.new }
{
    match planner::lateness(starts, deadlines, pairs) {
        Ok(slots) => {
            *lateness = slots;
            tell(Ok(0), answer)
        }
        Err(refusal) => tell(Err(refusal), answer),
    }
}

pub fn firmware_shortest(starts: &[u16], deadlines: &[u16], pairs: &[u16], answer: &mut usize) -> u8
    ensures { Shortens starts.now deadlines.now pairs.now result answer.new }
{
    tell(planner::shortest(starts, deadlines, pairs), answer)
}

// 0 for a number that is of no class, as C is told it.
pub fn firmware_class(refusal: u8) -> u8
    ensures { result ≡ class_number (class_of refusal) }
{
    match refusal::class_of(refusal) {
        Some(class) => class as u8,
        None => 0,
    }
}
