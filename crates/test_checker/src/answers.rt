// What is answered on a text, and what is to be.
ghost use Rattle.std.specs.Prelude.{◌≡◌, true, map};
ghost use Rattle.sg_input.specs.sg_facts.Facts.{facts_of};
ghost use Rattle.sg_input.specs.sg_check_statements.Shapes.{are_shapes};

use crate::edits::{Edit, Layout, edited};
use crate::shapes::standard_shapes;
use sg_input::{Accepted, CheckError, CheckKind, Shape, check, column_of, line_of, parse};
use std::alloc::Global;
use std::process::Abort;
use std::test::Fail;

/// What is first wrong with a text, and its line and the byte in the line, both from 1; None where it is accepted.
pub type Answer = Option<(CheckKind, usize, usize)>;

/// A standard text with changes, and its answer.
pub type Case = (&'static [Edit], Answer);

// What the checker says of a text. Its tree is dropped here alone.
fn checked(
    alloc: Global,
    text: &[u8],
    shapes: &[Shape],
) -> Result<Result<Accepted, CheckError>, Fail>
    requires { are_shapes (map facts_of shapes.now) ≡ true }
{
    let tree = parse(alloc, text)?;
    Ok(check(alloc, &tree, shapes))
}

/// What a text declares that is accepted.
pub(crate) fn accepted(alloc: Global, text: &[u8], shapes: &[Shape]) -> Result<Accepted, Fail>
    requires { are_shapes (map facts_of shapes.now) ≡ true }
{
    Ok(checked(alloc, text, shapes)??)
}

/// The answer on a text.
pub(crate) fn answer(alloc: Global, text: &[u8], shapes: &[Shape]) -> Result<Answer, Fail>
    requires { are_shapes (map facts_of shapes.now) ≡ true }
{
    match checked(alloc, text, shapes)? {
        Ok(_) => Ok(None),
        Err(CheckError::Fault(fault)) => Ok(Some((
            fault.kind,
            line_of(text, fault.at),
            column_of(text, fault.at),
        ))),
        Err(CheckError::NoMemory) => Err(Fail::new("no memory")),
    }
}

// The answer on a text with changes, laid out so.
fn answer_to(
    alloc: Global,
    base: &[u8],
    layout: Layout,
    edits: &[Edit],
    shapes: &[Shape],
) -> Result<Answer, Fail>
    requires { are_shapes (map facts_of shapes.now) ≡ true }
{
    let text = edited(alloc, base, edits)?;
    let laid_out = layout.of(alloc, text.as_slice())?;
    answer(alloc, laid_out.as_slice(), shapes)
}

/// Each of these changes of a text, laid out so, gives its answer.
pub(crate) fn try_each(
    rt: &impl Abort,
    alloc: Global,
    base: &[u8],
    layout: Layout,
    cases: &[Case],
) -> Result<(), Fail> {
    let shapes = standard_shapes();
    for (edits, want) in cases {
        let given = answer_to(alloc, base, layout, edits, &shapes)?;
        assert_eq!(rt; given, *want, "with {edits:?}, {layout:?}");
    }
    Ok(())
}
