// What an accepted text declares: its functions, and of the service's transitions and recover steps those that it names, in
// the service's order.
ghost use Rattle.std.specs.Prelude.{◌≡◌, true, map};
ghost use Rattle.sg_input.specs.sg_facts.Facts.{facts_of};
ghost use Rattle.sg_input.specs.sg_check_statements.Shapes.{are_shapes};

use crate::answers::accepted;
use crate::edits::Edit::{self, Front, Then, Twice, Without};
use crate::edits::edited;
use crate::shapes::standard_shapes;
use sg_input::{Interface, Shape};
use std::alloc::Global;
use std::process::Abort;
use std::test::Fail;
use test_interfaces::{EVENT, LOCK, MM, RAMFS, SCHED};

// Changes of a text, and what it declares then: bit f - 1 for function f, transitions, recover steps.
struct Narrower {
    edits: &'static [Edit],
    declared: u32,
    moves: &'static [(u8, u8)],
    steps: &'static [(u8, u8)],
}

// Whether an interface is that.
fn is_that(iface: &Interface, case: &Narrower) -> bool {
    iface.declared == case.declared
        && iface.moves.as_slice() == case.moves
        && iface.steps.as_slice() == case.steps
}

// Whether a text with changes is accepted, and declares just that.
fn declares(alloc: Global, base: &[u8], case: &Narrower, shapes: &[Shape]) -> Result<bool, Fail>
    requires { are_shapes (map facts_of shapes.now) ≡ true }
{
    let text = edited(alloc, base, case.edits)?;
    let accepted = accepted(alloc, text.as_slice(), shapes)?;
    Ok(is_that(accepted.interface(), case))
}

// Each is accepted, and declares just that.
fn declare(rt: &impl Abort, alloc: Global, base: &[u8], cases: &[Narrower]) -> Result<(), Fail> {
    let shapes = standard_shapes();
    for case in cases {
        assert!(rt;
            declares(alloc, base, case, &shapes)?,
            "with {:?}",
            case.edits
        );
    }
    Ok(())
}

static OF_LOCKS: [Narrower; 5] = [
    Narrower {
        edits: &[],
        declared: 0b1111,
        moves: &[(1, 2), (1, 4), (2, 2), (2, 3), (2, 4)],
        steps: &[(1, 2)],
    },
    // Locks that never end.
    Narrower {
        edits: &[Without(11), Without(16), Without(19), Without(25)],
        declared: 0b0111,
        moves: &[(1, 2), (2, 2), (2, 3)],
        steps: &[(1, 2)],
    },
    // And are never released.
    Narrower {
        edits: &[
            Without(11),
            Without(13),
            Without(14),
            Without(16),
            Without(18),
            Without(19),
            Without(23),
            Without(24),
            Without(25),
        ],
        declared: 0b0011,
        moves: &[(1, 2), (2, 2)],
        steps: &[(1, 2)],
    },
    // The creation alone.
    Narrower {
        edits: &[
            Front(9),
            Then(
                9,
                b"unsigned long lock_alloc(spdid_t s);\nsm_creation(lock_alloc);",
            ),
        ],
        declared: 0b0001,
        moves: &[],
        steps: &[],
    },
    // In another order, and some twice.
    Narrower {
        edits: &[
            Twice(16),
            Without(17),
            Without(15),
            Then(25, b"sm_transition(lock_alloc, lock_take);"),
            Twice(20),
        ],
        declared: 0b1111,
        moves: &[(1, 2), (1, 4), (2, 3), (2, 4)],
        steps: &[(1, 2)],
    },
];

static OF_EVENTS: [Narrower; 2] = [
    // Events that are never waited for.
    Narrower {
        edits: &[
            Without(12),
            Without(14),
            Without(16),
            Without(21),
            Without(22),
        ],
        declared: 0b1101,
        moves: &[(1, 3), (1, 4)],
        steps: &[(1, 3)],
    },
    // Events that are never raised.
    Narrower {
        edits: &[
            Without(13),
            Without(15),
            Without(17),
            Without(19),
            Without(23),
        ],
        declared: 0b1011,
        moves: &[(1, 2), (1, 4)],
        steps: &[],
    },
];

static OF_PAGES: [Narrower; 2] = [
    // Pages that aren't made from others.
    Narrower {
        edits: &[Without(11), Without(15), Without(18), Without(20)],
        declared: 0b1101,
        moves: &[(1, 3)],
        steps: &[],
    },
    // Pages that are made from others alone.
    Narrower {
        edits: &[Without(10), Without(14), Without(17), Without(19)],
        declared: 0b1110,
        moves: &[(2, 3)],
        steps: &[],
    },
];

static OF_FILES: [Narrower; 1] = [
    // Files that are neither read nor written nor sought in.
    Narrower {
        edits: &[
            Without(12),
            Without(13),
            Without(14),
            Without(15),
            Without(16),
            Without(17),
            Without(18),
            Without(19),
            Without(21),
            Without(23),
            Without(24),
            Without(25),
        ],
        declared: 0b10001,
        moves: &[(1, 5)],
        steps: &[],
    },
];

static OF_THREADS: [Narrower; 1] = [
    // Steps in the service's order, which isn't the text's; without a query.
    Narrower {
        edits: &[Without(14), Without(17), Without(36)],
        declared: 0b1101_1111,
        moves: &[(1, 2), (1, 3), (1, 5), (1, 8), (3, 4), (3, 5), (3, 8)],
        steps: &[(1, 3), (1, 7)],
    },
];

#[test]
fn accepted_texts_declare_what_they_name(rt: HostRuntime) -> Result<(), Fail> {
    declare(&rt, rt.alloc(), LOCK, &OF_LOCKS)?;
    declare(&rt, rt.alloc(), EVENT, &OF_EVENTS)?;
    declare(&rt, rt.alloc(), MM, &OF_PAGES)?;
    declare(&rt, rt.alloc(), RAMFS, &OF_FILES)?;
    declare(&rt, rt.alloc(), SCHED, &OF_THREADS)
}
