// A hand-over that is being ended.
ghost use Rattle.std.specs.Prelude.{◌≡◌, ◌∷◌, [], true, false};
ghost use Rattle.sg_turn.specs.Logs.{face_by};
ghost use Rattle.sg_turn.specs.Seats.{AllEndIn, NumberedFrom, knowledge_of};

use crate::kept::Kept;
use crate::rule::Gather;
use crate::seat::Seat;
use crate::steps::{Board, BoardSeat};
use std::marker::Model;

/// A hand-over that is being ended. Its seats come back one by one, the last one first, and it takes no memory. It is for a caller
/// that keeps seats in values of its own; `Turn::close` takes a list of them. Contracts see the value's face at the beginning, and
/// what the clients knew whose seats are back, in ascending numbers where the seats come back in descending ones.
#[derive(Drop)]
pub struct Closing<V: Kept> {
    table: Board<V>,
    place: BoardSeat<V>,
}

impl<V: Kept> Model for Closing<V> {
    ghost use Rattle.sg_turn.specs.Logs.{face_by};
    ghost use Rattle.sg_turn.specs.Seats.{ClosingView};
    ghost use Rattle.sg_turn.specs.Inside.Places.{closing_of, IsClosing};

    ghost Value = { ClosingView };

    ghost view = { λ c. closing_of c.table.shared.table_id (face_by V.log V.events c.table.shared.key.value) c.place.me.0 };

    ghost invariant = { λ c. IsClosing c.table.shared.table_id c.place };
}

impl<V: Kept> Closing<V> {
    pub(crate) fn begin(table: Board<V>, last: Seat<V>) -> Closing<V>
        requires words { table.shared.table_id.words ≡ 3 }
        requires slots { table.shared.table_id.slots ≡ 1 }
        requires turn { last.turn ≡ table.shared.table_id }
        requires free { last.holds ≡ false }
        requires last { last.last ≡ true }
        ensures { result ≡ record { id = table.shared.table_id; start = face_by V.log V.events table.shared.key.value; gathered = knowledge_of last ∷ [] } }
    {
        let Seat { place } = last;
        Closing { table, place }
    }

    /// Takes one more seat back, which doesn't hold the value.
    pub fn gather(&mut self, seat: Seat<V>)
        requires turn { seat.turn ≡ self.old.id }
        requires free { seat.holds ≡ false }
        ensures { self.new ≡ record self.old { gathered = knowledge_of seat ∷ self.old.gathered } }
    {
        let Seat { place } = seat;
        let table = &self.table;
        table.shared.join_seat::<Gather>(&mut self.place, place);
    }

    /// Ends the hand-over once all seats are back, and gives the value out as it was last given back. For each client its face ends
    /// what the client knew.
    pub fn end(self) -> V
        requires { NumberedFrom 1 self.gathered }
        ensures { AllEndIn self.start (face_by V.log V.events result) self.gathered }
    {
        let Closing { table, place } = self;
        let mut closed = table.close_with(place);
        let Some(value) = closed.take(0) else {
            unreachable!()
        };
        closed.free();
        value
    }
}
