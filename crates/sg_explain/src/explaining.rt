// What is explained of an input.
ghost use Rattle.std.specs.Prelude.{◌≡◌, ◌||◌, ◌++◌, ℕ, nat_lt, List, codes, length, true, map, IfOk};
ghost use Rattle.std.specs.List.{flat_map};
ghost use Rattle.sg_input.specs.sg_facts.Facts.{Facts, facts_of};
ghost use Rattle.sg_input.specs.sg_check_statements.Shapes.{are_shapes};
ghost use Rattle.sg_input.specs.Divider.{IsCut};
ghost use Rattle.sg_input.specs.Inputs.{AreTexts, IsInterface, most_interface, most_script};
ghost use Rattle.sg_input.specs.Lines.{refused_line, script_kind_name};
ghost use Rattle.sg_explain.specs.Explained.{IsExplained, IsUndivided, why_at};
ghost use Rattle.sg_explain.specs.Rebuilt.{counts_line, rebuilt_line};
ghost use Rattle.sg_explain.specs.Words.{script_words};
ghost use Rattle.sg_explain.specs.Inside.Pieces.{TellsInterface, TellsLength, accepted_line};

use crate::parts::put;
use crate::reasons::{examine_with_reason, put_why};
use crate::rebuilt::{put_counts, put_rebuilt};
use crate::words::{TOO_LONG_EXPLAINED, script_words};
use sg_input::{
    Accepted, Bytes, Interface, MOST_INTERFACE, MOST_SCRIPT, NoMemory, Read, Script, ScriptError,
    ScriptFault, Shape, WalkLine, compile, cut, read_script, script_line,
};
use std::alloc::Global;

/// What is explained of an input, where its interface may be of one of these shapes. The input is the text of an interface, as `verdict`
/// takes it, or, where a line of it is `%%` alone, an interface and a script, as `read_input` takes them. Where nothing is wrong with it:
/// the line `accepted SERVICE`, a line for each thing that a descriptor can come to, with the walk that rebuilds it, and for a script the
/// counts of its clients, calls and stops. Else, as a refusal: the very line that `verdict` or `read_input` refuses it with; of a fault
/// with a place the line of the text that has it, with a mark below; what is wrong there, and what is usually meant. Where no walk
/// restores a state there is a line more, with the first thing that a descriptor can come to there and no walk restores. The shapes are as for
/// `verdict`. The only error is want of memory.
pub fn explain(alloc: Global, input: &[u8], shapes: &[Shape]) -> Result<Read<Bytes>, NoMemory>
    requires { are_shapes (map facts_of shapes.now) ≡ true }
    ensures { IfOk result (IsExplained (map facts_of shapes.now) input.now) }
{
    let Some((interface, script)) = cut(input) else {
        return explain_text(alloc, input, shapes);
    };
    explain_input(alloc, interface, script, shapes)
}

// What is explained of an input that no line divides: the text of an interface.
fn explain_text(alloc: Global, text: &[u8], shapes: &[Shape]) -> Result<Read<Bytes>, NoMemory>
    requires shapes { are_shapes (map facts_of shapes.now) ≡ true }
    requires undivided { IsUndivided text.now }
    ensures { IfOk result (IsExplained (map facts_of shapes.now) text.now) }
{
    if is_longer(text, MOST_INTERFACE) {
        return too_long(alloc);
    }
    let examined = examine_with_reason(alloc, text, shapes)?;
    match examined {
        Read::Ready(accepted) => {
            let told = told_of(alloc, &accepted)?;
            Ok(Read::Ready(told))
        }
        Read::Refused(told) => Ok(Read::Refused(told)),
    }
}

// What is explained of an input that a line divides into these two texts.
fn explain_input(
    alloc: Global,
    interface: &[u8],
    script: &[u8],
    shapes: &[Shape],
) -> Result<Read<Bytes>, NoMemory>
    requires { are_shapes (map facts_of shapes.now) ≡ true }
    ensures { IfOk result (λ told. (input : List ℕ) → IsCut input interface.now script.now → IsExplained (map facts_of shapes.now) input told) }
{
    if are_longer(interface, script) {
        return too_long(alloc);
    }
    let examined = examine_with_reason(alloc, interface, shapes)?;
    match examined {
        Read::Ready(accepted) => explain_script(alloc, &accepted, script),
        Read::Refused(told) => Ok(Read::Refused(told)),
    }
}

// What is explained of an input whose interface is accepted, and which has this script.
fn explain_script(
    alloc: Global,
    accepted: &Accepted,
    script: &[u8],
) -> Result<Read<Bytes>, NoMemory>
    ensures { IfOk result (λ told. (services : List Facts) (input interface : List ℕ) → AreTexts most_script input interface script.now
        → IsInterface services interface accepted.now → IsExplained services input told) }
{
    match read_script(alloc, script, accepted.interface()) {
        Ok(parsed) => {
            let told = with_counts(alloc, accepted, &parsed)?;
            Ok(Read::Ready(told))
        }
        Err(ScriptError::NoMemory) => Err(NoMemory),
        Err(ScriptError::Fault(fault)) => {
            let told = with_fault(alloc, script, fault)?;
            Ok(Read::Refused(told))
        }
    }
}

// What is told of an interface that is accepted, with the counts of a script.
fn with_counts(alloc: Global, accepted: &Accepted, script: &Script) -> Result<Bytes, NoMemory>
    ensures { IfOk result (λ told. (old : List ℕ) × TellsInterface accepted.now old × (told ≡ old ++ counts_line script.now)) }
{
    let mut told = told_of(alloc, accepted)?;
    put_counts(&mut told, alloc, script)?;
    Ok(told)
}

/// The line that refuses an input for a fault of its script, with why.
pub fn with_fault(alloc: Global, script: &[u8], fault: ScriptFault) -> Result<Bytes, NoMemory>
    ensures { IfOk result (λ told. told ≡ refused_line (codes "script refused at ") script.now fault.at (script_kind_name fault.kind)
        ++ why_at script.now fault.at (script_words fault.kind)) }
{
    let mut told = script_line(alloc, script, fault)?;
    put_why(&mut told, script, fault.at, &script_words(fault.kind))?;
    Ok(told)
}

// Whether a text has more than so many bytes.
fn is_longer(text: &[u8], most: usize) -> bool
    ensures { result ≡ nat_lt most (length text.now) }
{
    text.len() > most
}

// Whether one of the two texts of an input is longer than it may be.
fn are_longer(interface: &[u8], script: &[u8]) -> bool
    ensures { result ≡ (nat_lt most_interface (length interface.now) || nat_lt most_script (length script.now)) }
{
    is_longer(interface, MOST_INTERFACE) || is_longer(script, MOST_SCRIPT)
}

// What is told of an input that is too long.
fn too_long(alloc: Global) -> Result<Read<Bytes>, NoMemory>
    ensures { IfOk result TellsLength }
{
    Ok(Read::Refused(Bytes::from_slice(alloc, TOO_LONG_EXPLAINED)?))
}

/// What is told of an interface that is accepted: the line that says so, and a line for each thing that its descriptors can come to, with the
/// walk that rebuilds it.
pub fn told_of(alloc: Global, accepted: &Accepted) -> Result<Bytes, NoMemory>
    ensures { IfOk result (TellsInterface accepted.now) }
{
    let tables = compile(alloc, accepted)?;
    told_by(alloc, tables.interface(), tables.lines())
}

// What is told of an interface that is accepted, by the lines of its tables.
fn told_by(alloc: Global, iface: &Interface, lines: &[WalkLine]) -> Result<Bytes, NoMemory>
    ensures { IfOk result (λ told. told ≡ accepted_line iface.now.facts.name ++ flat_map (rebuilt_line iface.now.facts) lines.now) }
{
    let mut told = Bytes::new(alloc);
    put(&mut told, &[b"accepted ", iface.shape.name, b"\n"])?;
    put_rebuilt(&mut told, &iface.shape, lines)?;
    Ok(told)
}
