// A call that its client withdrew.
use crate::PhaseList;
use sg_facts::{Call, ListOf};

/// A call that its client withdrew before it was answered.
#[derive(Debug, Drop)]
pub struct Withdrawn {
    pub call: Call,
    /// The phases of all clients just before, in ascending numbers.
    pub phases: PhaseList,
    /// How many entries the history had.
    pub at: u64,
}

/// The withdrawn calls, in their order.
pub type WithdrawnList = ListOf<Withdrawn>;
