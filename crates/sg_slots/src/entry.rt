// What a service keeps of one descriptor.
ghost use Rattle.sg_slots.specs.Slots.{Body};

/// What a service keeps of one descriptor beside its id.
pub trait Slot: Drop {
    /// The row that it stands for, but for the id.
    ghost body: { Self → Body };
}
