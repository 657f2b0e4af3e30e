// What is told of the place of a job.
use schedule::{CoreIndex, SlotTime};

#[derive(Clone, Copy, Debug, PartialEq, Eq)]
pub struct Place {
    pub slot: SlotTime,
    pub core: CoreIndex,
    pub end: usize,
    pub spare: usize,
}
