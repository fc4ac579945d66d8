// The facts of the timer service, those of its standard interface.
ghost use Rattle.std.specs.Prelude.{◌≡◌};
ghost use Rattle.sg_facts.specs.Facts.{facts_of};
ghost use Rattle.sg_timer.specs.TimerFacts.{timer_facts};

use crate::functions::{CREATE, FREE, PLACE, SKIP, TICK, WAIT};
use sg_facts::{Effect, FieldShape, FunShape, Kind, Leaves, Shape};
use sg_slots::SINGLE_ROWS;

static FIELDS: [FieldShape; 5] = [
    FieldShape {
        name: b"owner",
        text: false,
    },
    FieldShape {
        name: b"period",
        text: false,
    },
    FieldShape {
        name: b"tag",
        text: false,
    },
    FieldShape {
        name: b"now",
        text: false,
    },
    FieldShape {
        name: b"due",
        text: false,
    },
];

static FUNS: [FunShape; 7] = [
    FunShape {
        name: b"tmr_create",
        kinds: &[Kind::Word, Kind::Word],
        flags: FunShape::CREATION + FunShape::ALL,
        leaves: Leaves::Own,
        effects: &[
            (0, Effect::SetCaller),
            (1, Effect::SetArg(0)),
            (2, Effect::SetArg(1)),
            (4, Effect::SetRet),
        ],
    },
    FunShape {
        name: b"tmr_tick",
        kinds: &[Kind::Desc, Kind::Word],
        flags: FunShape::WAKEUP,
        leaves: Leaves::Same,
        effects: &[(3, Effect::AddArg(0))],
    },
    FunShape {
        name: b"tmr_wait",
        kinds: &[Kind::Desc],
        flags: FunShape::BLOCK,
        leaves: Leaves::Same,
        effects: &[(4, Effect::AddRet)],
    },
    FunShape {
        name: b"tmr_place",
        kinds: &[Kind::Desc, Kind::Word],
        flags: 0,
        leaves: Leaves::Same,
        effects: &[(4, Effect::SetArg(0))],
    },
    FunShape {
        name: b"tmr_first",
        kinds: &[],
        flags: FunShape::QUERY + FunShape::ALL,
        leaves: Leaves::Own,
        effects: &[],
    },
    FunShape {
        name: b"tmr_skip",
        kinds: &[Kind::Desc],
        flags: 0,
        leaves: Leaves::Same,
        effects: &[(4, Effect::AddRet)],
    },
    FunShape {
        name: b"tmr_free",
        kinds: &[Kind::Desc],
        flags: FunShape::TERMINAL,
        leaves: Leaves::Own,
        effects: &[],
    },
];

static MOVES: [(u8, u8); 4] = [
    (CREATE, TICK),
    (CREATE, WAIT),
    (CREATE, SKIP),
    (CREATE, FREE),
];

static STEPS: [(u8, u8); 2] = [(CREATE, TICK), (CREATE, PLACE)];

/// The shape of the timer service.
pub fn timer_shape() -> Shape
    ensures { facts_of result ≡ timer_facts }
{
    Shape {
        name: b"timer",
        fields: &FIELDS,
        funs: &FUNS,
        moves: &MOVES,
        steps: &STEPS,
        ..SINGLE_ROWS
    }
}
