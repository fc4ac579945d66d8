// The whole of a script for an interface, or for several.
ghost use Rattle.std.specs.Prelude.{◌≡◌, ◌≢◌, ◌⊎◌, ◌≤◌, length, Err as failed};
ghost use Rattle.std.specs.declared.result.Result.{Result as Answered};
ghost use Rattle.sg_script.specs.declared.fault.ScriptError.{ScriptError as Fault};
ghost use Rattle.sg_script.specs.declared.multi.MultiScript.{MultiScript as WholeMulti};
ghost use Rattle.sg_script.specs.declared.script.Script.{Script as Whole};
ghost use Rattle.sg_script.specs.Reads.{IsMultiReadingOf, IsReadingOf};
ghost use Rattle.sg_script.specs.Scripts.{most_members};

use crate::judging::judge;
use crate::making::{multi_script_of, script_of};
use crate::{MultiScript, Script, ScriptError, ScriptFault, ScriptKind};
use sg_facts::Interface;
use sg_script_parse::{ScriptSyntax, parse, parse_multi};
use std::alloc::Global;
use std::slice;

/// The script of a text for an interface.
///
/// `Fault` with the first that is wrong: with kind `Syntax` and its place exactly where the text is no script of the grammar,
/// and else with the flaw at the first place, and of the first kind at that place. `NoMemory` where there was no memory;
/// nothing else is told then.
#[tactic(auto, using(crate::proofs::Unique::only))]
pub fn read(alloc: Global, text: &[u8], iface: &Interface) -> Result<Script, ScriptError>
    ensures answer { IsReadingOf iface.now text.now result }
    // No other answer may be given, want of memory aside.
    ensures only { (other : Answered Whole Fault) → IsReadingOf iface.now text.now other → other ≢ failed ScriptError.NoMemory →
        (result ≡ other) ⊎ (result ≡ failed ScriptError.NoMemory) }
{
    script_in(alloc, text, iface)
}

// The script of a text, or the first that is wrong with it.
fn script_in(alloc: Global, text: &[u8], iface: &Interface) -> Result<Script, ScriptError>
    ensures { IsReadingOf iface.now text.now result }
{
    let parts = match parse(alloc, text) {
        Ok(parts) => parts,
        Err(ScriptSyntax::NoMemory) => return Err(ScriptError::NoMemory),
        Err(ScriptSyntax::Syntax { at }) => return Err(fault_of(at, ScriptKind::Syntax)),
    };
    match judge(parts.as_slice(), slice::from_ref(iface)) {
        Some(fault) => Err(ScriptError::Fault(fault)),
        None => Ok(script_of(alloc, iface, parts.as_slice())?),
    }
}

/// The script of a text for several interfaces, its members, each of which a `stop` names by its service; else as `read` says.
#[tactic(auto, using(crate::proofs::Unique::only_multi))]
pub fn read_multi(
    alloc: Global,
    text: &[u8],
    members: &[Interface],
) -> Result<MultiScript, ScriptError>
    requires few { length members.now ≤ most_members }
    ensures answer { IsMultiReadingOf members.now text.now result }
    // No other answer may be given, want of memory aside.
    ensures only { (other : Answered WholeMulti Fault) → IsMultiReadingOf members.now text.now other → other ≢ failed ScriptError.NoMemory →
        (result ≡ other) ⊎ (result ≡ failed ScriptError.NoMemory) }
{
    multi_script_in(alloc, text, members)
}

// The script of a text for several interfaces, or the first that is wrong with it.
fn multi_script_in(
    alloc: Global,
    text: &[u8],
    members: &[Interface],
) -> Result<MultiScript, ScriptError>
    requires few { length members.now ≤ most_members }
    ensures { IsMultiReadingOf members.now text.now result }
{
    let parts = match parse_multi(alloc, text) {
        Ok(parts) => parts,
        Err(ScriptSyntax::NoMemory) => return Err(ScriptError::NoMemory),
        Err(ScriptSyntax::Syntax { at }) => return Err(fault_of(at, ScriptKind::Syntax)),
    };
    match judge(parts.as_slice(), members) {
        Some(fault) => Err(ScriptError::Fault(fault)),
        None => Ok(multi_script_of(alloc, members, parts.as_slice())?),
    }
}

// The error of a flaw.
fn fault_of(at: usize, kind: ScriptKind) -> ScriptError
    ensures { result ≡ ScriptError.Fault (record { at = at; kind = kind }) }
{
    ScriptError::Fault(ScriptFault { at, kind })
}
