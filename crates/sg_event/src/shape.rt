// The facts of the event service, those of its standard interface.
ghost use Rattle.std.specs.Prelude.{◌≡◌};
ghost use Rattle.sg_facts.specs.Facts.{facts_of};
ghost use Rattle.sg_event.specs.EventFacts.{event_facts};

use crate::functions::{FREE, SPLIT, TAKE, TRIGGER, WAIT};
use sg_facts::{Effect, FieldShape, FunShape, Kind, Leaves, Shape};
use sg_slots::SINGLE_ROWS;

static FIELDS: [FieldShape; 1] = [FieldShape {
    name: b"count",
    text: false,
}];

static FUNS: [FunShape; 5] = [
    FunShape {
        name: b"evt_split",
        kinds: &[],
        flags: FunShape::CREATION,
        leaves: Leaves::Own,
        effects: &[],
    },
    FunShape {
        name: b"evt_wait",
        kinds: &[Kind::Desc],
        flags: FunShape::BLOCK,
        leaves: Leaves::Same,
        effects: &[(0, Effect::SubOne)],
    },
    FunShape {
        name: b"evt_trigger",
        kinds: &[Kind::Desc, Kind::Word],
        flags: FunShape::WAKEUP,
        leaves: Leaves::Same,
        effects: &[(0, Effect::AddArg(0))],
    },
    FunShape {
        name: b"evt_free",
        kinds: &[Kind::Desc],
        flags: FunShape::TERMINAL,
        leaves: Leaves::Own,
        effects: &[],
    },
    FunShape {
        name: b"evt_take",
        kinds: &[Kind::Desc, Kind::Word],
        flags: 0,
        leaves: Leaves::Same,
        effects: &[(0, Effect::SubRet)],
    },
];

static MOVES: [(u8, u8); 4] = [
    (SPLIT, WAIT),
    (SPLIT, TRIGGER),
    (SPLIT, FREE),
    (SPLIT, TAKE),
];

static STEPS: [(u8, u8); 1] = [(SPLIT, TRIGGER)];

/// The shape of the event service.
pub fn event_shape() -> Shape
    ensures { facts_of result ≡ event_facts }
{
    Shape {
        name: b"event",
        fields: &FIELDS,
        funs: &FUNS,
        moves: &MOVES,
        steps: &STEPS,
        ..SINGLE_ROWS
    }
}
