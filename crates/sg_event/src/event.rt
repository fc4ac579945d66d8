// One event.
use sg_slots::Slot;

/// An event.
#[derive(Clone, Copy, Debug, PartialEq, Eq)]
pub struct Event {
    /// The client that made it.
    pub creator: u8,
    /// What its triggers added and no wait and no take has taken yet.
    pub count: u32,
}

impl Slot for Event {
    ghost use Rattle.sg_event.specs.EventRow.{event_body};

    ghost body = { event_body };
}
