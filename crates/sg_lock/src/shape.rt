// The facts of the lock service, those of its standard interface.
ghost use Rattle.std.specs.Prelude.{◌≡◌};
ghost use Rattle.sg_facts.specs.Facts.{facts_of};
ghost use Rattle.sg_lock.specs.LockFacts.{lock_facts};

use crate::functions::{ALLOC, FREE, RELEASE, TAKE};
use sg_facts::{Effect, FieldShape, FunShape, Kind, Leaves, Shape};
use sg_slots::SINGLE_ROWS;

static FIELDS: [FieldShape; 1] = [FieldShape {
    name: b"owner",
    text: false,
}];

static FUNS: [FunShape; 4] = [
    FunShape {
        name: b"lock_alloc",
        kinds: &[],
        flags: FunShape::CREATION,
        leaves: Leaves::Own,
        effects: &[],
    },
    FunShape {
        name: b"lock_take",
        kinds: &[Kind::Desc],
        flags: FunShape::BLOCK,
        leaves: Leaves::Own,
        effects: &[(0, Effect::SetCaller)],
    },
    FunShape {
        name: b"lock_release",
        kinds: &[Kind::Desc],
        flags: FunShape::WAKEUP,
        leaves: Leaves::Of(ALLOC),
        effects: &[(0, Effect::Clear)],
    },
    FunShape {
        name: b"lock_free",
        kinds: &[Kind::Desc],
        flags: FunShape::TERMINAL,
        leaves: Leaves::Own,
        effects: &[],
    },
];

static MOVES: [(u8, u8); 5] = [
    (ALLOC, TAKE),
    (ALLOC, FREE),
    (TAKE, TAKE),
    (TAKE, RELEASE),
    (TAKE, FREE),
];

static STEPS: [(u8, u8); 1] = [(ALLOC, TAKE)];

/// The shape of the lock service.
pub fn lock_shape() -> Shape
    ensures { facts_of result ≡ lock_facts }
{
    Shape {
        name: b"lock",
        fields: &FIELDS,
        funs: &FUNS,
        moves: &MOVES,
        steps: &STEPS,
        ..SINGLE_ROWS
    }
}
