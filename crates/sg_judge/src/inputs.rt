// What an input is, whatever the version of its interface, or why it is refused.
ghost use Rattle.std.specs.Prelude.{◌≡◌, ℕ, List, map, true, IfOk};
ghost use Rattle.sg_explain.specs.sg_facts.Facts.{Facts, facts_of};
ghost use Rattle.sg_explain.specs.sg_facts.Interface.{Declared};
ghost use Rattle.sg_explain.specs.sg_facts.declared.entry.Entry.{Entry};
ghost use Rattle.sg_explain.specs.sg_facts.sg_base.Room.{Roomy};
ghost use Rattle.sg_explain.specs.sg_input.Inputs.{AreTexts, IsInputOf, IsRunInputOf, IsSameRun, most_run, most_script};
ghost use Rattle.sg_explain.specs.sg_input.Judged.{MayBeJudged};
ghost use Rattle.sg_explain.specs.sg_input.sg_check_statements.Shapes.{are_shapes};
ghost use Rattle.sg_explain.specs.sg_input.declared.read.Read.{Read as AnyRead};
ghost use Rattle.sg_explain.specs.sg_input.sg_script.declared.script.Script.{Script as OneScript};
ghost use Rattle.sg_judge.specs.AnyInputs.{IsAcceptedAs, IsAnyInputOf, IsAnyRunInputOf, any_judging, interfaces_in};
ghost use Rattle.sg_judge.specs.Inside.Examined.{AreAnyParts};

use crate::examining::read_any;
use crate::interface::AnyInterface;
use sg_explain::{
    History, InputTexts, MOST_RUN, MOST_SCRIPT, NoMemory, Read, Script, Shape, history_of,
    script_of, texts_of,
};
use std::alloc::Global;

/// What an input is, whatever the version of its interface: as `sg_input`'s `read_input` says, and a text of version 3 describes a service of its
/// own and is judged by itself, as `verdict` says. The shapes are as for `verdict`. The only error is want of memory.
pub fn read_any_input(
    alloc: Global,
    input: &[u8],
    shapes: &[Shape],
) -> Result<Read<(AnyInterface, Script)>, NoMemory>
    requires { are_shapes (map facts_of shapes.now) ≡ true }
    ensures input { IfOk result (IsAnyInputOf (map facts_of shapes.now) input.now) }
    // Nothing else may be answered.
    ensures only { (other : AnyRead (Declared × OneScript)) → IsInputOf (any_judging (map facts_of shapes.now)) input.now other
        → IfOk result (λ made. interfaces_in made ≡ other) }
{
    input_of(alloc, input, shapes)
}

/// What an input is whose second text is a printed run, whatever the version of its interface: as `sg_input`'s `read_run` says, with what
/// `read_any_input` says of a text of version 3. Each call of the history is one that a client may make, and there are no more than a script may
/// have. The only error is want of memory.
pub fn read_any_run(
    alloc: Global,
    input: &[u8],
    shapes: &[Shape],
) -> Result<Read<(AnyInterface, History)>, NoMemory>
    requires { are_shapes (map facts_of shapes.now) ≡ true }
    ensures input { IfOk result (IsAnyRunInputOf (map facts_of shapes.now) input.now) }
    // Nothing else may be answered.
    ensures only { (other : AnyRead (Declared × Roomy Entry)) → IsRunInputOf (any_judging (map facts_of shapes.now)) input.now other
        → IfOk result (λ made. IsSameRun (interfaces_in made) other) }
    ensures may { IfOk result (λ made. MayBeJudged (interfaces_in made)) }
{
    run_input_of(alloc, input, shapes)
}

// ---- the interface

/// An input up to its second text: its interface, which is accepted, and the second text as it is.
#[derive(Debug, Drop)]
pub struct AnyParts<'a> {
    pub any: AnyInterface,
    pub second: &'a [u8],
}

// Reads an input up to its second text, which has so many bytes at most. It is refused where it would be whatever its second text is.
fn any_parts<'a>(
    alloc: Global,
    input: &'a [u8],
    most: usize,
    shapes: &[Shape],
) -> Result<Read<AnyParts<'a>>, NoMemory>
    requires { are_shapes (map facts_of shapes.now) ≡ true }
    ensures { IfOk result (AreAnyParts most (map facts_of shapes.now) input.now) }
{
    match texts_of(alloc, input, most)? {
        Read::Ready(texts) => parts_of_texts(alloc, texts, shapes),
        Read::Refused(line) => Ok(Read::Refused(line)),
    }
}

// An input of these texts, up to the second.
fn parts_of_texts<'a>(
    alloc: Global,
    texts: InputTexts<'a>,
    shapes: &[Shape],
) -> Result<Read<AnyParts<'a>>, NoMemory>
    requires { are_shapes (map facts_of shapes.now) ≡ true }
    ensures { IfOk result (λ parts. (most : ℕ) (input : List ℕ) → AreTexts most input texts.entry.interface.now texts.entry.second.now
        → AreAnyParts most (map facts_of shapes.now) input parts) }
{
    match read_any(alloc, texts.interface, shapes)? {
        Read::Ready(any) => Ok(Read::Ready(AnyParts {
            any,
            second: texts.second,
        })),
        Read::Refused(line) => Ok(Read::Refused(line)),
    }
}

// ---- scripts

// What `read_any_input` answers.
fn input_of(
    alloc: Global,
    input: &[u8],
    shapes: &[Shape],
) -> Result<Read<(AnyInterface, Script)>, NoMemory>
    requires { are_shapes (map facts_of shapes.now) ≡ true }
    ensures { IfOk result (IsAnyInputOf (map facts_of shapes.now) input.now) }
{
    match any_parts(alloc, input, MOST_SCRIPT, shapes)? {
        Read::Ready(AnyParts { any, second }) => with_script(alloc, any, second),
        Read::Refused(line) => Ok(Read::Refused(line)),
    }
}

// What an input with this script is, whose interface is accepted.
fn with_script(
    alloc: Global,
    any: AnyInterface,
    script: &[u8],
) -> Result<Read<(AnyInterface, Script)>, NoMemory>
    ensures { IfOk result (λ made. (input interface : List ℕ) (services : List Facts) → AreTexts most_script input interface script.now
        → IsAcceptedAs services interface any.accepted any.own → IsAnyInputOf services input made) }
{
    match script_of(alloc, script, any.accepted.interface())? {
        Read::Ready(script) => Ok(Read::Ready((any, script))),
        Read::Refused(line) => Ok(Read::Refused(line)),
    }
}

// ---- printed runs

// What `read_any_run` answers.
fn run_input_of(
    alloc: Global,
    input: &[u8],
    shapes: &[Shape],
) -> Result<Read<(AnyInterface, History)>, NoMemory>
    requires { are_shapes (map facts_of shapes.now) ≡ true }
    ensures input { IfOk result (IsAnyRunInputOf (map facts_of shapes.now) input.now) }
    ensures may { IfOk result (λ made. MayBeJudged (interfaces_in made)) }
{
    match any_parts(alloc, input, MOST_RUN, shapes)? {
        Read::Ready(AnyParts { any, second }) => with_run(alloc, any, second, shapes),
        Read::Refused(line) => Ok(Read::Refused(line)),
    }
}

// What an input with this printed run is, whose interface is accepted.
fn with_run(
    alloc: Global,
    any: AnyInterface,
    run: &[u8],
    shapes: &[Shape],
) -> Result<Read<(AnyInterface, History)>, NoMemory>
    ensures input { IfOk result (λ made. (input interface : List ℕ) → AreTexts most_run input interface run.now
        → IsAcceptedAs (map facts_of shapes.now) interface any.accepted any.own → IsAnyRunInputOf (map facts_of shapes.now) input made) }
    ensures may { IfOk result (λ made. MayBeJudged (interfaces_in made)) }
{
    match history_of(alloc, run, any.accepted.interface(), shapes)? {
        Read::Ready(history) => Ok(Read::Ready((any, history))),
        Read::Refused(line) => Ok(Read::Refused(line)),
    }
}
