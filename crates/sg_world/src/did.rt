// What a step of a client did.
use sg_facts::Reply;

/// What a step of a client did.
#[derive(Debug, PartialEq, Eq, Drop)]
pub enum Did {
    /// Nothing: the client has no call under way, or waits.
    Skipped,
    /// The service stopped.
    Struck,
    /// A service that had failed was booted afresh.
    Booted,
    /// A call of a walk was replayed.
    Replayed,
    /// A file was loaded.
    Loaded,
    /// The service answered the call, whose reply is handed over by a later step.
    Served,
    /// The call has to wait.
    Blocked,
    /// The reply that the client held was lost, since the service failed; its call is asked again.
    Lost,
    /// The reply was handed over.
    Answered(Reply),
}
