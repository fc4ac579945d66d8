// The texts of an input that is divided more than once.
ghost use Rattle.std.specs.Prelude.{◌≡◌, map, IfOk};
ghost use Rattle.sg_input.specs.Inside.Parted.{AreMultiInputTexts};
ghost use Rattle.sg_input.specs.MultiInputs.{AreParts, are_short};

use crate::Read;
use crate::divider::cut;
use crate::limits::{MOST_INTERFACE, MOST_SCRIPT};
use crate::lines::{NO_DIVIDER, TOO_LONG};
use sg_facts::{Bytes, NoMemory};
use std::alloc::Global;

/// The texts of an input for several services, lent from it.
#[derive(Debug, Drop)]
pub struct MultiTexts<'a> {
    /// Those of its interfaces, in their order.
    pub interfaces: Vec<&'a [u8]>,
    /// That of its script.
    pub script: &'a [u8],
}

/// The texts of an input for several services: those that stand before a line of `%%` alone, of which there is one at least, and the one after
/// the last such line; or the line that refuses it whatever they are: `input refused: NoDivider` or `input refused: TooLong`. The only error is
/// want of memory.
pub fn multi_texts_of(alloc: Global, input: &[u8]) -> Result<Read<MultiTexts<'_>>, NoMemory>
    ensures { IfOk result (AreMultiInputTexts input.now) }
{
    let texts = parts_of(alloc, input)?;
    if texts.interfaces.is_empty() {
        return Ok(Read::Refused(Bytes::from_slice(alloc, NO_DIVIDER)?));
    }
    if !are_short(texts.interfaces.as_slice(), texts.script) {
        return Ok(Read::Refused(Bytes::from_slice(alloc, TOO_LONG)?));
    }
    Ok(Read::Ready(texts))
}

// The texts into which every line of `%%` alone divides an input; where there is no such line, all of it is the script.
fn parts_of(alloc: Global, input: &[u8]) -> Result<MultiTexts<'_>, NoMemory>
    ensures { IfOk result (λ parts. AreParts input.now (map (λ t. t.now) parts.interfaces.items) parts.script.now) }
{
    let mut interfaces = Vec::new(alloc);
    let mut script = input;
    'dividers: while let Some((text, behind)) = cut(script) {
        interfaces.push(text)?;
        script = behind;
    }
    Ok(MultiTexts { interfaces, script })
}

// Whether no text is too long.
fn are_short(texts: &[&[u8]], script: &[u8]) -> bool
    ensures { result ≡ are_short (map (λ t. t.now) texts.now) script.now }
{
    'texts: for text in texts {
        if text.len() > MOST_INTERFACE {
            return false;
        }
    }
    script.len() <= MOST_SCRIPT
}
