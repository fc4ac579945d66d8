// The facts of the file service, those of its standard interface.
ghost use Rattle.std.specs.Prelude.{◌≡◌};
ghost use Rattle.sg_facts.specs.Facts.{facts_of};
ghost use Rattle.sg_ramfs.specs.RamfsFacts.{ramfs_facts};

use crate::functions::{READ, RELEASE, SEEK, SPLIT, WRITE};
use sg_facts::{Effect, FieldShape, FunShape, Kind, Leaves, Parents, Shape};

static FIELDS: [FieldShape; 2] = [
    FieldShape {
        name: b"name",
        text: true,
    },
    FieldShape {
        name: b"offset",
        text: false,
    },
];

static FUNS: [FunShape; 5] = [
    FunShape {
        name: b"tsplit",
        kinds: &[Kind::Parent, Kind::Text],
        flags: FunShape::CREATION,
        leaves: Leaves::Own,
        effects: &[(0, Effect::SetArg(0))],
    },
    FunShape {
        name: b"tread",
        kinds: &[Kind::Desc, Kind::Word],
        flags: FunShape::DATA,
        leaves: Leaves::Same,
        effects: &[(1, Effect::AddRet)],
    },
    FunShape {
        name: b"twrite",
        kinds: &[Kind::Desc, Kind::Text],
        flags: FunShape::DATA,
        leaves: Leaves::Same,
        effects: &[(1, Effect::AddRet)],
    },
    FunShape {
        name: b"tseek",
        kinds: &[Kind::Desc, Kind::Word],
        flags: 0,
        leaves: Leaves::Same,
        effects: &[(1, Effect::SetArg(0))],
    },
    FunShape {
        name: b"trelease",
        kinds: &[Kind::Desc],
        flags: FunShape::TERMINAL,
        leaves: Leaves::Own,
        effects: &[],
    },
];

static MOVES: [(u8, u8); 4] = [
    (SPLIT, READ),
    (SPLIT, WRITE),
    (SPLIT, SEEK),
    (SPLIT, RELEASE),
];

static STEPS: [(u8, u8); 1] = [(SPLIT, SEEK)];

/// The shape of the file service.
pub fn ramfs_shape() -> Shape
    ensures { facts_of result ≡ ramfs_facts }
{
    Shape {
        name: b"ramfs",
        parents: Parents::Same,
        subtree: false,
        global: false,
        block: false,
        has_data: true,
        resc_data: true,
        fields: &FIELDS,
        funs: &FUNS,
        moves: &MOVES,
        steps: &STEPS,
    }
}
