// The facts of the memory-mapping service, those of its standard interface.
ghost use Rattle.std.specs.Prelude.{◌≡◌};
ghost use Rattle.sg_facts.specs.Facts.{facts_of};
ghost use Rattle.sg_mm.specs.MmFacts.{mm_facts};

use crate::functions::{ALIAS, GET, RELEASE};
use sg_facts::{Effect, FieldShape, FunShape, Kind, Leaves, Parents, Shape};

static FIELDS: [FieldShape; 2] = [
    FieldShape {
        name: b"space",
        text: false,
    },
    FieldShape {
        name: b"addr",
        text: false,
    },
];

static FUNS: [FunShape; 4] = [
    FunShape {
        name: b"mman_get_page",
        kinds: &[Kind::Word],
        flags: FunShape::CREATION + FunShape::ALL,
        leaves: Leaves::Own,
        effects: &[(0, Effect::SetCaller), (1, Effect::SetArg(0))],
    },
    FunShape {
        name: b"mman_alias_page",
        kinds: &[Kind::Parent, Kind::Word, Kind::Word],
        flags: FunShape::CREATION + FunShape::ALL,
        leaves: Leaves::Own,
        effects: &[(0, Effect::SetArg(0)), (1, Effect::SetArg(1))],
    },
    FunShape {
        name: b"mman_release_page",
        kinds: &[Kind::Desc],
        flags: FunShape::TERMINAL,
        leaves: Leaves::Own,
        effects: &[],
    },
    FunShape {
        name: b"mman_find",
        kinds: &[Kind::Word, Kind::Word],
        flags: FunShape::QUERY + FunShape::ALL,
        leaves: Leaves::Own,
        effects: &[],
    },
];

static MOVES: [(u8, u8); 2] = [(GET, RELEASE), (ALIAS, RELEASE)];

/// The shape of the memory-mapping service.
pub fn mm_shape() -> Shape
    ensures { facts_of result ≡ mm_facts }
{
    Shape {
        name: b"mm",
        parents: Parents::Cross,
        subtree: true,
        global: true,
        block: false,
        has_data: true,
        resc_data: false,
        fields: &FIELDS,
        funs: &FUNS,
        moves: &MOVES,
        steps: &[],
    }
}
