// What an input is, or why it is refused.
ghost use Rattle.std.specs.Prelude.{◌≡◌, ◌≤◌, ℕ, List, length, map, true, IfOk};
ghost use Rattle.sg_facts.specs.Facts.{Facts, facts_of};
ghost use Rattle.sg_facts.specs.Interface.{Declared};
ghost use Rattle.sg_script.specs.Scripts.{most_members};
ghost use Rattle.sg_script.specs.declared.script.Script.{Script as OneScript};
ghost use Rattle.sg_input.specs.sg_check_statements.Shapes.{are_shapes};
ghost use Rattle.sg_input.specs.declared.read.Read.{Read as AnyRead};
ghost use Rattle.sg_input.specs.Inputs.{AreTexts, IsInputOf, IsInterface, IsScriptOf, judged_by, most_script};
ghost use Rattle.sg_input.specs.MultiInputs.{IsMultiScriptOf};

use crate::limits::MOST_SCRIPT;
use crate::lines::script_line;
use crate::parted::{InputParts, input_parts};
use crate::{Accepted, Read};
use sg_facts::{Interface, NoMemory, Shape};
use sg_script::{MultiScript, Script, ScriptError, read, read_multi};
use std::alloc::Global;

/// What an input is, where its interface may be of one of these shapes: an interface that is accepted with a script for it
/// without a flaw, or else the line that refuses it, by the first of these that applies. `input refused: NoDivider`: no line is
/// `%%` alone. `input refused: TooLong`: more than 65,536 bytes stand before the first such line, or more than 4,194,304 after
/// it. `interface refused at L:C: KIND`: as `verdict` says. `script refused at L:C: KIND`: the script's first flaw. L and C are
/// the line and the byte in the line, from 1, in that text alone. The shapes are as for `verdict`. The only error is want of
/// memory.
pub fn read_input(
    alloc: Global,
    input: &[u8],
    shapes: &[Shape],
) -> Result<Read<(Accepted, Script)>, NoMemory>
    requires { are_shapes (map facts_of shapes.now) ≡ true }
    ensures input { IfOk result (IsInputOf (judged_by (map facts_of shapes.now)) input.now) }
    // Nothing else may be answered.
    ensures only { (other : AnyRead (Declared × OneScript)) → IsInputOf (judged_by (map facts_of shapes.now)) input.now other → IfOk result (λ made. made ≡ other) }
{
    input_of(alloc, input, shapes)
}

// What `read_input` answers.
fn input_of(
    alloc: Global,
    input: &[u8],
    shapes: &[Shape],
) -> Result<Read<(Accepted, Script)>, NoMemory>
    requires { are_shapes (map facts_of shapes.now) ≡ true }
    ensures { IfOk result (IsInputOf (judged_by (map facts_of shapes.now)) input.now) }
{
    match input_parts(alloc, input, MOST_SCRIPT, shapes)? {
        Read::Ready(InputParts { accepted, second }) => with_script(alloc, accepted, second),
        Read::Refused(line) => Ok(Read::Refused(line)),
    }
}

// What an input with this script is, whose interface is accepted.
fn with_script(
    alloc: Global,
    accepted: Accepted,
    script: &[u8],
) -> Result<Read<(Accepted, Script)>, NoMemory>
    ensures { IfOk result (λ made. (input interface : List ℕ) (services : List Facts) → AreTexts most_script input interface script.now
        → IsInterface services interface accepted → IsInputOf (judged_by services) input made) }
{
    match script_of(alloc, script, accepted.interface())? {
        Read::Ready(script) => Ok(Read::Ready((accepted, script))),
        Read::Refused(line) => Ok(Read::Refused(line)),
    }
}

/// What a text is as a script for an interface: the script, or the line that refuses it, with its first flaw. The only error is want of
/// memory.
pub fn script_of(alloc: Global, text: &[u8], iface: &Interface) -> Result<Read<Script>, NoMemory>
    ensures { IfOk result (IsScriptOf iface.now text.now) }
{
    match read(alloc, text, iface) {
        Ok(script) => Ok(Read::Ready(script)),
        Err(ScriptError::NoMemory) => Err(NoMemory),
        Err(ScriptError::Fault(fault)) => Ok(Read::Refused(script_line(alloc, text, fault)?)),
    }
}

/// What a text is as a script for several interfaces, its members: the script, or the line that refuses it, with its first flaw. The only error is
/// want of memory.
pub fn multi_script_of(
    alloc: Global,
    text: &[u8],
    members: &[Interface],
) -> Result<Read<MultiScript>, NoMemory>
    requires { length members.now ≤ most_members }
    ensures { IfOk result (IsMultiScriptOf members.now text.now) }
{
    match read_multi(alloc, text, members) {
        Ok(script) => Ok(Read::Ready(script)),
        Err(ScriptError::NoMemory) => Err(NoMemory),
        Err(ScriptError::Fault(fault)) => Ok(Read::Refused(script_line(alloc, text, fault)?)),
    }
}
