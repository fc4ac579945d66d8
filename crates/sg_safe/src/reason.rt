// Why a described service can't be recovered.
use sg_known::{Bounds, FieldState, ListOf, NoMemory, Walk};
use thiserror::Error;

/// What is known of a field where a walk has come to: whether it is restored, what it may be there, and what it may be in the row
/// that is rebuilt. An argument that a replayed function takes into the field is the latter.
#[derive(Clone, Copy, Debug, PartialEq, Eq)]
pub struct KnownField {
    pub mark: FieldState,
    pub bounds: Bounds,
    pub own: Bounds,
}

/// Where a walk has come to: the state, and what is known of each field. Before its first call a walk stands in the state of the
/// function that it begins with, and no field is set.
#[derive(Debug, Drop)]
pub struct KnownSpot {
    pub state: u8,
    pub fields: ListOf<KnownField>,
}

/// What may make a replayed call fail.
#[derive(Clone, Copy, Debug, PartialEq, Eq)]
pub enum Obstacle {
    /// A field that the function sets to its caller may hold no client: by whom would it be called?
    NoClient { field: u8 },
    /// A rule may refuse the call, or make its caller wait.
    ByRule { rule: usize },
    /// A field may be taken past its greatest number.
    PastMost { field: u8 },
}

/// A replayed call that may fail: its function, where the walk has come to before it, and what may make it fail.
#[derive(Debug, Drop)]
pub struct FailingCall {
    pub fun: u8,
    pub spot: KnownSpot,
    pub obstacle: Obstacle,
}

/// Why a described service can't be recovered. Functions and rules are numbered from 1, fields from 0. The kinds are looked for
/// in this order.
#[derive(Debug, Drop)]
pub enum Unsafe {
    /// A field takes returned words, and its greatest number is far too great for a field that counts.
    CountsFar { field: u8 },
    /// A replayed function adds to a field that takes returned words.
    Recounts { fun: u8, field: u8 },
    /// A client that waits for a function by one of its rules may be let pass by an Ok of another function, which is no wake-up.
    Overtaken { waiter: u8, rule: usize, by: u8 },
    /// A replayed call may fail: after the calls of this walk, of which there are none before the first call.
    Fails { walk: Walk, call: FailingCall },
}

/// Why a described service isn't found to be safe.
#[derive(Debug, Drop, Error)]
pub enum SafeError {
    /// There was no memory.
    #[error("no memory")]
    NoMemory,
    /// It can't be recovered, and this is the first reason.
    #[error("{0:?}")]
    Unsafe(Unsafe),
}

impl From<NoMemory> for SafeError {
    ghost use Rattle.std.specs.Prelude.{◌≡◌};
    ghost use Rattle.sg_safe.specs.declared.reason.SafeError.TheVariants.{NoMemory as no_memory};

    ghost from_gives = { λ _ error. error ≡ no_memory };

    fn from(_: NoMemory) -> Self {
        SafeError::NoMemory
    }
}
