// How far a client has come with its call.
use sg_facts::ListOf;

/// How far a client has come with its call.
#[derive(Clone, Copy, Debug, PartialEq, Eq)]
pub enum Phase {
    /// It has no call under way.
    Idle,
    /// Its call waits to be let in, or to be asked of the service.
    Asked,
    /// The service answered its call, which nobody else can tell, and which isn't in the history yet.
    Held,
    /// Its call is in the history, and its reply is to be handed over.
    Receipted,
    /// Its call has to wait.
    Blocked,
    /// It makes no call any more.
    Left,
}

/// The phases of all clients, in ascending numbers.
pub type PhaseList = ListOf<Phase>;
