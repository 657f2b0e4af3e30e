// The three small whole numbers of a plan: one handed over in place of another is an error at compile time.

#![tactic(auto)]

ghost use Rattle.std.specs.Prelude.{◌≡◌};

// T_i: the number of a job, from 0.
#[derive(Clone, Copy, Debug, PartialEq, Eq, PartialOrd, Ord)]
pub struct JobIndex(pub usize);

// As a call or a record names it.
impl From<u16> for JobIndex {
    ghost from_gives = { λ number job. job.0 ≡ number };

    fn from(number: u16) -> JobIndex {
        JobIndex(usize::from(number))
    }
}

// t: a slot, or the time at which it begins.
#[derive(Clone, Copy, Debug, PartialEq, Eq, PartialOrd, Ord)]
pub struct SlotTime(pub usize);

// As a row of times has it.
impl From<u16> for SlotTime {
    ghost from_gives = { λ time slot. slot.0 ≡ time };

    fn from(time: u16) -> SlotTime {
        SlotTime(usize::from(time))
    }
}

// The processor: core 0 or core 1.
#[derive(Clone, Copy, Debug, PartialEq, Eq, PartialOrd, Ord)]
pub struct CoreIndex(pub usize);
