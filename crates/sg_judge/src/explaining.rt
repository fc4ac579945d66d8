// What is explained of any input.
ghost use Rattle.std.specs.Prelude.{◌≡◌, ◌≤◌, ◌++◌, ℕ, List, MatchOption, length, map, true, IfOk};
ghost use Rattle.std.specs.List.{flat_map};
ghost use Rattle.sg_explain.specs.Explained.{IsUndivided};
ghost use Rattle.sg_explain.specs.Rebuilt.{counts_line};
ghost use Rattle.sg_explain.specs.sg_facts.Facts.{Facts, facts_of};
ghost use Rattle.sg_explain.specs.sg_input.Divider.{IsCut};
ghost use Rattle.sg_explain.specs.sg_input.Inputs.{AreTexts, most_interface, most_script};
ghost use Rattle.sg_own.specs.sg_check_statements.Shapes.{are_shapes};
ghost use Rattle.sg_own.specs.Faults.{IsOwnAccepted};
ghost use Rattle.sg_own.specs.OwnErrors.{IsToldFault};
ghost use Rattle.sg_judge.specs.Said.{IsOfServices, IsOwnText};
ghost use Rattle.sg_judge.specs.OwnExplained.{ExplainsOwnFault, IsExplainedAny, IsOwnExplained};
ghost use Rattle.sg_judge.specs.Inside.Told.{AreShort, TellsMore, TellsOwn};

use crate::answers::put_answers;
use crate::judging::own_tree;
use crate::lines::own_line;
use crate::reasons::put_more;
use crate::words::own_words;
use sg_explain::{
    Accepted, Bytes, MOST_INTERFACE, MOST_SCRIPT, NoMemory, Read, Script, ScriptError, Shape, Tree,
    cut, put_counts, put_why, read_script, told_of, with_fault,
};
use sg_own::{OwnError, OwnFault, check_own};
use std::alloc::Global;

/// What is explained of an input, as `sg_explain` says, of one whose interface describes a service of its own too. Where nothing is wrong with that:
/// the line `accepted SERVICE`, a line for each thing that a descriptor can come to, with the walk that rebuilds it, a sentence for each rule
/// of a function, and for a script the counts of its clients, calls and stops. Else: the line that refuses it, the line of the text with a mark
/// below, what is wrong there, and what is usually meant; and of a service that can't be recovered a line more: which function lets a waiting
/// client pass, or after which calls, with which fields, a replayed call may fail. The shapes are as for `sg_input`'s `verdict`. The only error
/// is want of memory.
pub fn explain(alloc: Global, input: &[u8], shapes: &[Shape]) -> Result<Read<Bytes>, NoMemory>
    requires { are_shapes (map facts_of shapes.now) ≡ true }
    ensures { IfOk result (IsExplainedAny (map facts_of shapes.now) input.now) }
{
    match cut(input) {
        Some((interface, script)) => explain_divided(alloc, input, interface, script, shapes),
        None => explain_alone(alloc, input, shapes),
    }
}

// ---- an interface alone

// What is explained of an input that no line divides: the text of an interface.
fn explain_alone(alloc: Global, text: &[u8], shapes: &[Shape]) -> Result<Read<Bytes>, NoMemory>
    requires shapes { are_shapes (map facts_of shapes.now) ≡ true }
    requires undivided { IsUndivided text.now }
    ensures { IfOk result (IsExplainedAny (map facts_of shapes.now) text.now) }
{
    match short_tree(alloc, text)? {
        Some(tree) => explain_own(alloc, text, &tree),
        None => sg_explain::explain(alloc, text, shapes),
    }
}

// The tree of a text that describes a service of its own and isn't too long.
fn short_tree<'a>(alloc: Global, text: &'a [u8]) -> Result<Option<Tree<'a>>, NoMemory>
    ensures { IfOk result (λ tree. MatchOption tree (length text.now ≤ most_interface → IsOfServices text.now)
        (λ t. (length text.now ≤ most_interface) × IsOwnText text.now t)) }
{
    if text.len() > MOST_INTERFACE {
        return Ok(None);
    }
    own_tree(alloc, text)
}

// What is explained of a text by itself that describes a service of its own.
fn explain_own(alloc: Global, text: &[u8], tree: &Tree) -> Result<Read<Bytes>, NoMemory>
    requires { IsUndivided text.now }
    ensures { IfOk result (λ told. (services : List Facts) → IsOwnExplained services text.now text.now tree.now told) }
{
    match check_own(alloc, tree) {
        Ok(own) => {
            let told = told_accepted(alloc, tree, &own.accepted)?;
            Ok(Read::Ready(told))
        }
        Err(OwnError::NoMemory) => Err(NoMemory),
        Err(OwnError::Fault(fault)) => {
            let told = told_fault(alloc, text, tree, &fault)?;
            Ok(Read::Refused(told))
        }
    }
}

// What is told of a text that is accepted.
fn told_accepted(alloc: Global, tree: &Tree, accepted: &Accepted) -> Result<Bytes, NoMemory>
    ensures { IfOk result (TellsOwn tree.now accepted.now) }
{
    let mut told = told_of(alloc, accepted)?;
    put_answers(&mut told, tree.statements.as_slice())?;
    Ok(told)
}

// ---- an interface and a script

// What is explained of an input that a line divides into these two texts.
fn explain_divided(
    alloc: Global,
    input: &[u8],
    interface: &[u8],
    script: &[u8],
    shapes: &[Shape],
) -> Result<Read<Bytes>, NoMemory>
    requires shapes { are_shapes (map facts_of shapes.now) ≡ true }
    requires cut { IsCut input.now interface.now script.now }
    ensures { IfOk result (IsExplainedAny (map facts_of shapes.now) input.now) }
{
    match divided_tree(alloc, interface, script)? {
        Some(tree) => explain_own_input(alloc, interface, &tree, script),
        None => sg_explain::explain(alloc, input, shapes),
    }
}

// The tree of an interface that describes a service of its own, where neither text is too long.
fn divided_tree<'a>(
    alloc: Global,
    interface: &'a [u8],
    script: &[u8],
) -> Result<Option<Tree<'a>>, NoMemory>
    ensures { IfOk result (λ tree. MatchOption tree (AreShort interface.now script.now → IsOfServices interface.now)
        (λ t. AreShort interface.now script.now × IsOwnText interface.now t)) }
{
    if interface.len() > MOST_INTERFACE || script.len() > MOST_SCRIPT {
        return Ok(None);
    }
    own_tree(alloc, interface)
}

// What is explained of an input with this script, whose interface describes a service of its own.
fn explain_own_input(
    alloc: Global,
    text: &[u8],
    tree: &Tree,
    script: &[u8],
) -> Result<Read<Bytes>, NoMemory>
    requires { IsOwnText text.now tree.now }
    ensures { IfOk result (λ told. (services : List Facts) (input : List ℕ) → AreTexts most_script input text.now script.now
        → IsOwnExplained services input text.now tree.now told) }
{
    match check_own(alloc, tree) {
        Ok(own) => explain_own_script(alloc, text, tree, &own.accepted, script),
        Err(OwnError::NoMemory) => Err(NoMemory),
        Err(OwnError::Fault(fault)) => {
            let told = told_fault(alloc, text, tree, &fault)?;
            Ok(Read::Refused(told))
        }
    }
}

// What is explained of an input with this script, whose interface is accepted.
fn explain_own_script(
    alloc: Global,
    text: &[u8],
    tree: &Tree,
    accepted: &Accepted,
    script: &[u8],
) -> Result<Read<Bytes>, NoMemory>
    requires own { IsOwnText text.now tree.now }
    requires accepted { IsOwnAccepted tree.now accepted.now }
    ensures { IfOk result (λ told. (services : List Facts) (input : List ℕ) → AreTexts most_script input text.now script.now
        → IsOwnExplained services input text.now tree.now told) }
{
    match read_script(alloc, script, accepted.interface()) {
        Ok(parsed) => {
            let told = with_counts(alloc, tree, accepted, &parsed)?;
            Ok(Read::Ready(told))
        }
        Err(ScriptError::NoMemory) => Err(NoMemory),
        Err(ScriptError::Fault(fault)) => {
            let told = with_fault(alloc, script, fault)?;
            Ok(Read::Refused(told))
        }
    }
}

// What is told of a text that is accepted, with the counts of a script.
fn with_counts(
    alloc: Global,
    tree: &Tree,
    accepted: &Accepted,
    script: &Script,
) -> Result<Bytes, NoMemory>
    ensures { IfOk result (λ told. (old : List ℕ) × TellsOwn tree.now accepted.now old × (told ≡ old ++ counts_line script.now)) }
{
    let mut told = told_accepted(alloc, tree, accepted)?;
    put_counts(&mut told, alloc, script)?;
    Ok(told)
}

// ---- an interface that is refused

// What is told of a text that has this fault first.
fn told_fault(alloc: Global, text: &[u8], tree: &Tree, fault: &OwnFault) -> Result<Bytes, NoMemory>
    requires { IsToldFault tree.now fault.now }
    ensures { IfOk result (ExplainsOwnFault text.now tree.now) }
{
    let mut told = own_line(alloc, text, fault.kind, fault.at)?;
    put_why(&mut told, text, fault.at, &own_words(fault.kind))?;
    put_more(&mut told, alloc, tree, fault)?;
    Ok(told)
}
