// The facts of the thread service, those of its standard interface.
ghost use Rattle.std.specs.Prelude.{◌≡◌};
ghost use Rattle.sg_facts.specs.Facts.{facts_of};
ghost use Rattle.sg_sched.specs.SchedFacts.{sched_facts};

use crate::functions::{CREATE, EXIT, PLACE, SLEEP, WAIT, WAKEUP, YIELD};
use sg_facts::{Effect, FieldShape, FunShape, Kind, Leaves, Shape};
use sg_slots::SINGLE_ROWS;

static FIELDS: [FieldShape; 2] = [
    FieldShape {
        name: b"prio",
        text: false,
    },
    FieldShape {
        name: b"rank",
        text: false,
    },
];

static FUNS: [FunShape; 8] = [
    FunShape {
        name: b"sched_create_thd",
        kinds: &[Kind::Word],
        flags: FunShape::CREATION + FunShape::ALL,
        leaves: Leaves::Own,
        effects: &[(0, Effect::SetArg(0)), (1, Effect::SetRet)],
    },
    FunShape {
        name: b"sched_yield",
        kinds: &[Kind::Desc],
        flags: FunShape::ALL,
        leaves: Leaves::Same,
        effects: &[(1, Effect::SetRet)],
    },
    FunShape {
        name: b"sched_sleep",
        kinds: &[Kind::Desc],
        flags: 0,
        leaves: Leaves::Own,
        effects: &[],
    },
    FunShape {
        name: b"sched_wakeup",
        kinds: &[Kind::Desc],
        flags: FunShape::WAKEUP,
        leaves: Leaves::Of(CREATE),
        effects: &[],
    },
    FunShape {
        name: b"sched_wait",
        kinds: &[Kind::Desc],
        flags: FunShape::BLOCK,
        leaves: Leaves::Same,
        effects: &[],
    },
    FunShape {
        name: b"sched_next",
        kinds: &[],
        flags: FunShape::QUERY + FunShape::ALL,
        leaves: Leaves::Own,
        effects: &[],
    },
    FunShape {
        name: b"sched_place",
        kinds: &[Kind::Desc, Kind::Word],
        flags: 0,
        leaves: Leaves::Same,
        effects: &[(1, Effect::SetArg(0))],
    },
    FunShape {
        name: b"sched_exit",
        kinds: &[Kind::Desc],
        flags: FunShape::TERMINAL,
        leaves: Leaves::Own,
        effects: &[],
    },
];

static MOVES: [(u8, u8); 7] = [
    (CREATE, YIELD),
    (CREATE, SLEEP),
    (CREATE, WAIT),
    (CREATE, EXIT),
    (SLEEP, WAKEUP),
    (SLEEP, WAIT),
    (SLEEP, EXIT),
];

static STEPS: [(u8, u8); 2] = [(CREATE, SLEEP), (CREATE, PLACE)];

/// The shape of the thread service.
pub fn sched_shape() -> Shape
    ensures { facts_of result ≡ sched_facts }
{
    Shape {
        name: b"sched",
        fields: &FIELDS,
        funs: &FUNS,
        moves: &MOVES,
        steps: &STEPS,
        ..SINGLE_ROWS
    }
}
