// An input up to its second text.
ghost use Rattle.std.specs.Prelude.{◌≡◌, ℕ, List, map, true, IfOk};
ghost use Rattle.sg_facts.specs.Facts.{facts_of};
ghost use Rattle.sg_input.specs.sg_check_statements.Shapes.{are_shapes};
ghost use Rattle.sg_input.specs.Inputs.{AreTexts};
ghost use Rattle.sg_input.specs.Inside.Parted.{AreInputParts, AreInputTexts};

use crate::divider::cut;
use crate::limits::MOST_INTERFACE;
use crate::lines::{NO_DIVIDER, TOO_LONG};
use crate::{Accepted, Read, examine};
use sg_facts::{Bytes, NoMemory, Shape};
use std::alloc::Global;

/// The two texts of an input, as they are.
#[derive(Clone, Copy, Debug)]
pub struct InputTexts<'a> {
    /// That of its interface.
    pub interface: &'a [u8],
    /// Its second text.
    pub second: &'a [u8],
}

/// The two texts of an input, of which the second has so many bytes at most; or the line that refuses it whatever they are: `input refused:
/// NoDivider` or `input refused: TooLong`. The only error is want of memory.
pub fn texts_of<'a>(
    alloc: Global,
    input: &'a [u8],
    most: usize,
) -> Result<Read<InputTexts<'a>>, NoMemory>
    ensures { IfOk result (AreInputTexts most input.now) }
{
    let Some((interface, second)) = cut(input) else {
        return Ok(Read::Refused(Bytes::from_slice(alloc, NO_DIVIDER)?));
    };
    if interface.len() > MOST_INTERFACE || second.len() > most {
        return Ok(Read::Refused(Bytes::from_slice(alloc, TOO_LONG)?));
    }
    Ok(Read::Ready(InputTexts { interface, second }))
}

/// An input up to its second text: what its first text stands for, and the second as it is.
#[derive(Debug, Drop)]
pub struct InputParts<'a> {
    /// Its interface, which is accepted.
    pub accepted: Accepted,
    /// Its second text.
    pub second: &'a [u8],
}

/// Reads an input up to its second text, which has so many bytes at most. It is refused where it would be whatever its second text is.
pub(crate) fn input_parts<'a>(
    alloc: Global,
    input: &'a [u8],
    most: usize,
    shapes: &[Shape],
) -> Result<Read<InputParts<'a>>, NoMemory>
    requires { are_shapes (map facts_of shapes.now) ≡ true }
    ensures { IfOk result (AreInputParts most (map facts_of shapes.now) input.now) }
{
    match texts_of(alloc, input, most)? {
        Read::Ready(texts) => parts_of_texts(alloc, texts, shapes),
        Read::Refused(line) => Ok(Read::Refused(line)),
    }
}

// An input of these texts, up to the second.
fn parts_of_texts<'a>(
    alloc: Global,
    texts: InputTexts<'a>,
    shapes: &[Shape],
) -> Result<Read<InputParts<'a>>, NoMemory>
    requires { are_shapes (map facts_of shapes.now) ≡ true }
    ensures { IfOk result (λ parts. (most : ℕ) (input : List ℕ) → AreTexts most input texts.entry.interface.now texts.entry.second.now
        → AreInputParts most (map facts_of shapes.now) input parts) }
{
    match examine(alloc, texts.interface, shapes)? {
        Read::Ready(accepted) => Ok(Read::Ready(InputParts {
            accepted,
            second: texts.second,
        })),
        Read::Refused(line) => Ok(Read::Refused(line)),
    }
}
