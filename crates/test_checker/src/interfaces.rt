// Interfaces that no text declares.
ghost use Rattle.std.specs.Prelude.{IfOk};
ghost use Rattle.sg_input.specs.sg_facts.Interface.{HasFewFields};

use sg_input::{Interface, MOST_FIELDS, PairList, Shape};
use std::alloc::Global;
use std::test::Fail;

/// Pairs of a state and a function.
pub type Pairs = &'static [(u8, u8)];

/// The interface of a shape that declares these functions, transitions and recover steps.
pub(crate) fn interface(
    alloc: Global,
    shape: Shape,
    declared: u32,
    moves: &[(u8, u8)],
    steps: &[(u8, u8)],
) -> Result<Interface, Fail>
    ensures { IfOk result HasFewFields }
{
    if shape.fields.len() > MOST_FIELDS {
        return Err(Fail::new("more fields than a row may have"));
    }
    Ok(Interface {
        shape,
        declared,
        version: 1,
        eager: false,
        moves: PairList::from_slice(alloc, moves)?,
        steps: PairList::from_slice(alloc, steps)?,
    })
}
