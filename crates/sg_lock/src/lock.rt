// One lock.
use sg_slots::Slot;

/// A lock.
#[derive(Clone, Copy, Debug, PartialEq, Eq)]
pub struct Lock {
    /// The client that made it.
    pub creator: u8,
    /// The client that owns it, 0 while it is free.
    pub owner: u8,
}

impl Slot for Lock {
    ghost use Rattle.sg_lock.specs.LockRow.{lock_body};

    ghost body = { lock_body };
}
