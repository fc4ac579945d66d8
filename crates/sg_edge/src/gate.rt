// What stands round each call of a thread.

/// What a thread passes before and after each call of its client. Nothing is claimed of it: it may wait, and serves
/// tests that hold one thread back.
pub trait Gate: Sync {
    /// Passed before the client's call of this number is offered.
    fn before(&self, client: u8, seq: u32);

    /// Passed after the client's call of this number was answered.
    fn after(&self, client: u8, seq: u32);
}

/// A gate that is always open.
#[derive(Clone, Copy, Debug, PartialEq, Eq)]
pub struct OpenGate;

impl Gate for OpenGate {
    fn before(&self, _: u8, _: u32) {}

    fn after(&self, _: u8, _: u32) {}
}
