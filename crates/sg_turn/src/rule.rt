// What is kept true of the ticket lock, and the kinds of its steps.
ghost use Rattle.sg_turn.specs.Logs.{face_by};
ghost use Rattle.sg_turn.specs.Inside.Rule.{KeepsTurns};
ghost use Rattle.sg_turn.specs.Inside.Steps.{first_view, next_view, client_view, with_joined, spent_view, HasDrawn, HasLooked, HasFetched, HasProgressed, HasCounted, HasServed};

use crate::kept::Kept;
use crate::view::View;
use atomic_table::{Join, Play, Split, TableRule};
use std::marker::PhantomData;
use std::snapshot::Snapshot;

/// Only the seat whose ticket is served may have the value, and each seat knows a beginning of its log. The key is the value that
/// was handed in.
pub struct InTurn<V> {
    marker: PhantomData<V>,
}

impl<V: Kept> TableRule<Option<V>, View, Snapshot<V>> for InTurn<V> {
    ghost holds = { λ key. KeepsTurns (face_by V.log V.events) (face_by V.log V.events key.value) };

    ghost first = { λ key. first_view (face_by V.log V.events key.value) };
}

/// A ticket is drawn.
pub struct Draw;

impl<V> Play<Option<V>, View> for Draw {
    ghost then = { HasDrawn };
}

/// A seat looks whether its ticket is served.
pub struct Look;

impl<V> Play<Option<V>, View> for Look {
    ghost then = { HasLooked };
}

/// A seat whose ticket is served learns the latest face, and takes the slot with the value.
pub struct Fetch<V> {
    marker: PhantomData<V>,
}

impl<V: Kept> Play<Option<V>, View> for Fetch<V> {
    ghost then = { HasFetched (face_by V.log V.events) };
}

/// A seat learns the latest face.
pub struct Learn;

impl<V> Play<Option<V>, View> for Learn {
    ghost then = { HasProgressed };
}

/// A hold is counted, with the value back in its slot.
pub struct Count<V> {
    marker: PhantomData<V>,
}

impl<V: Kept> Play<Option<V>, View> for Count<V> {
    ghost then = { HasCounted (face_by V.log V.events) };
}

/// The next ticket is served, and the slot given back.
pub struct Serve;

impl<V> Play<Option<V>, View> for Serve {
    ghost then = { HasServed };
}

/// A seat leaves its number to a new seat, and takes the next.
pub struct Deal;

impl Split<View> for Deal {
    ghost left = { next_view };

    ghost right = { client_view };
}

/// What one seat knows is kept by another.
pub struct Gather;

impl Join<View> for Gather {
    ghost both = { with_joined };

    ghost spent = { spent_view };
}
