// What descriptors come to: the creation, the state and the set of fields.
ghost use Rattle.sg_input.specs.sg_facts.Interface.{HasFewFields};

use crate::interfaces::{Pairs, interface};
use sg_input::{Interface, NoMemory, Shape, Triple, reachable};
use sg_load::kind::{EventService, LockService, RamfsService};
use std::alloc::Global;
use std::process::Abort;
use std::test::Fail;

// A shape, the functions and transitions that are declared, and all that descriptors come to.
type Case = (Shape, u32, Pairs, &'static [(u8, u8, u8)]);

// Whether a triple is that of a creation, a state and a set of fields.
fn is_that(triple: &Triple, of: &(u8, u8, u8)) -> bool {
    (triple.made, triple.state, triple.mask) == *of
}

// Triples are just these, in their order.
fn are_those(rt: &impl Abort, found: &[Triple], all: &[(u8, u8, u8)]) {
    assert_eq!(rt; found.len(), all.len());
    for (triple, of) in found.iter().zip(all) {
        assert!(rt; is_that(triple, of));
    }
}

// The descriptors of an interface come to just these.
fn come_to(
    rt: &impl Abort,
    alloc: Global,
    declared: &Interface,
    all: &[(u8, u8, u8)],
) -> Result<(), NoMemory>
    requires { HasFewFields declared.now }
{
    let found = reachable(alloc, declared)?;
    are_those(rt, found.as_slice(), all);
    Ok(())
}

// Those of a case do.
fn try_case(rt: &impl Abort, alloc: Global, case: Case) -> Result<(), Fail> {
    let (shape, declared, moves, all) = case;
    let declared = interface(alloc, shape, declared, moves, &[])?;
    Ok(come_to(rt, alloc, &declared, all)?)
}

#[test]
fn triples_that_descriptors_come_to(rt: HostRuntime) -> Result<(), Fail> {
    let locks = LockService::shape();
    let files = RamfsService::shape();
    let cases: [Case; 6] = [
        (locks, 0b1111, locks.moves, &[(1, 1, 0), (1, 2, 1)]),
        // Never taken, and never made.
        (locks, 0b1001, &[(1, 4)], &[(1, 1, 0)]),
        (locks, 0b1110, &[(2, 3)], &[]),
        (EventService::shape(), 0b1111, &[(1, 2)], &[(1, 1, 0)]),
        (
            files,
            0b11111,
            files.moves,
            &[(1, 1, 0), (1, 1, 1), (1, 1, 2), (1, 1, 3)],
        ),
        // Only freed.
        (files, 0b10001, &[(1, 5)], &[(1, 1, 0), (1, 1, 1)]),
    ];
    for case in cases {
        try_case(&rt, rt.alloc(), case)?;
    }
    Ok(())
}
