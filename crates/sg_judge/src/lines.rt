// The line that refuses a text which describes a service of its own.
ghost use Rattle.std.specs.Prelude.{◌≡◌, codes, IfOk};
ghost use Rattle.sg_explain.specs.sg_input.Lines.{refused_line};
ghost use Rattle.sg_judge.specs.Names.{own_name};

use crate::names::own_name;
use sg_explain::{Bytes, NoMemory, interface_line};
use sg_own::OwnKind;
use std::alloc::Global;

/// The line of a text that is refused for a kind at a place, which is counted in bytes from 0.
pub(crate) fn own_line(
    alloc: Global,
    text: &[u8],
    kind: OwnKind,
    at: usize,
) -> Result<Bytes, NoMemory>
    ensures { IfOk result (λ line. line ≡ refused_line (codes "interface refused at ") text.now at (own_name kind)) }
{
    interface_line(alloc, text, at, own_name(kind))
}
