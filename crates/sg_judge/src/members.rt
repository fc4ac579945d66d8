// What an input for several services is, whatever the versions of its interfaces, or why it is refused.
ghost use Rattle.std.specs.Prelude.{◌≡◌, ◌≤◌, ◌+◌, ℕ, List, length, map, true, IfOk};
ghost use Rattle.std.specs.Option.{option_map};
ghost use Rattle.std.specs.Str.{bytes_eq};
ghost use Rattle.sg_explain.specs.sg_facts.Facts.{Facts, facts_of};
ghost use Rattle.sg_explain.specs.sg_facts.Interface.{Declared};
ghost use Rattle.sg_explain.specs.sg_input.MultiInputs.{AreMultiTexts, IsMultiInputOf, has_service, member_flaw, member_line, most_services};
ghost use Rattle.sg_explain.specs.sg_input.sg_check_statements.Shapes.{are_shapes};
ghost use Rattle.sg_explain.specs.sg_input.declared.read.Read.{Read as AnyRead};
ghost use Rattle.sg_explain.specs.sg_input.sg_script.declared.multi.MultiScript.{MultiScript as OneScript};
ghost use Rattle.sg_judge.specs.AnyInputs.{IsAnyMultiInputOf, any_judging, interfaces_of, members_in};
ghost use Rattle.sg_judge.specs.Inside.Examined.{AreAnyMembers, IsGathered, IsMemberOf};

use crate::examining::{Examined, examine_any};
use crate::interface::{AnyInterface, AnyMembers};
use sg_explain::{
    Bytes, Interface, ListOf, MOST_SERVICES, MultiScript, MultiTexts, NoMemory, Read, Shape,
    TryCopy, member_line, multi_script_of, multi_texts_of,
};
use std::alloc::Global;

/// What an input for several services is, whatever the versions of its interfaces: interfaces that are accepted, its members, each with what its
/// text describes, and a script for them without a flaw; or else the line that refuses it, by the first of these that applies. `input refused:
/// NoDivider`: no line is `%%` alone. `input refused: TooLong`: more than 65,536 bytes stand before one of these lines and after the one before
/// it, or more than 4,194,304 after the last. Then, text by text: `interface M refused at L:C: KIND`, with the text's number from 1, and KIND as
/// `verdict` says; or, at the service's name, `DuplicateService` where an earlier text is of the same service, and `Limit` where six are of
/// others. `script refused at L:C: KIND`: the script's first flaw. L and C are the line and the byte in the line, from 1, in that text alone. The
/// shapes are as for `verdict`. The only error is want of memory.
pub fn read_any_multi(
    alloc: Global,
    input: &[u8],
    shapes: &[Shape],
) -> Result<Read<(AnyMembers, MultiScript)>, NoMemory>
    requires { are_shapes (map facts_of shapes.now) ≡ true }
    ensures input { IfOk result (IsAnyMultiInputOf (map facts_of shapes.now) input.now) }
    // Nothing else may be answered.
    ensures only { (other : AnyRead (List Declared × OneScript)) → IsMultiInputOf (any_judging (map facts_of shapes.now)) input.now other
        → IfOk result (λ made. members_in made ≡ other) }
{
    multi_input_of(alloc, input, shapes)
}

// What `read_any_multi` answers.
fn multi_input_of(
    alloc: Global,
    input: &[u8],
    shapes: &[Shape],
) -> Result<Read<(AnyMembers, MultiScript)>, NoMemory>
    requires { are_shapes (map facts_of shapes.now) ≡ true }
    ensures { IfOk result (IsAnyMultiInputOf (map facts_of shapes.now) input.now) }
{
    match multi_texts_of(alloc, input)? {
        Read::Ready(texts) => multi_input_with(alloc, &texts, shapes),
        Read::Refused(line) => Ok(Read::Refused(line)),
    }
}

// What an input with these texts is.
fn multi_input_with(
    alloc: Global,
    texts: &MultiTexts,
    shapes: &[Shape],
) -> Result<Read<(AnyMembers, MultiScript)>, NoMemory>
    requires { are_shapes (map facts_of shapes.now) ≡ true }
    ensures { IfOk result (λ made. (input : List ℕ) → AreMultiTexts input (map (λ t. t.now) texts.now.interfaces.items) texts.now.script.now
        → IsAnyMultiInputOf (map facts_of shapes.now) input made) }
{
    match members_of(alloc, texts.interfaces.as_slice(), shapes)? {
        Read::Ready(members) => with_script(alloc, members, texts.script),
        Read::Refused(line) => Ok(Read::Refused(line)),
    }
}

// ---- the script

// What an input with this script is, whose interfaces are accepted as these members.
fn with_script(
    alloc: Global,
    members: AnyMembers,
    script: &[u8],
) -> Result<Read<(AnyMembers, MultiScript)>, NoMemory>
    requires { length members ≤ most_services }
    ensures { IfOk result (λ made. (input : List ℕ) (texts : List (List ℕ)) (services : List Facts) → AreMultiTexts input texts script.now
        → AreAnyMembers services texts members → IsAnyMultiInputOf services input made) }
{
    let interfaces = interfaces_of(alloc, members.as_slice())?;
    match multi_script_of(alloc, script, interfaces.as_slice())? {
        Read::Ready(script) => Ok(Read::Ready((members, script))),
        Read::Refused(line) => Ok(Read::Refused(line)),
    }
}

// The interfaces of members, copied.
fn interfaces_of(alloc: Global, members: &[AnyInterface]) -> Result<ListOf<Interface>, NoMemory>
    ensures { IfOk result (λ list. list ≡ interfaces_of members.now) }
{
    let mut list = ListOf::new(alloc);
    'members: for member in members {
        list.push(member.accepted.interface().copy(alloc)?)?;
    }
    Ok(list)
}

// ---- the members

// The interfaces that texts are accepted with, or the line of the first text that is refused after those before it.
fn members_of(
    alloc: Global,
    texts: &[&[u8]],
    shapes: &[Shape],
) -> Result<Read<AnyMembers>, NoMemory>
    requires { are_shapes (map facts_of shapes.now) ≡ true }
    ensures { IfOk result (IsGathered (map facts_of shapes.now) (map (λ t. t.now) texts.now)) }
{
    let mut members = AnyMembers::new(alloc);
    'texts: for text in texts {
        match member_of(alloc, members.as_slice(), text, shapes)? {
            Read::Ready(any) => members.push(any)?,
            Read::Refused(line) => return Ok(Read::Refused(line)),
        }
    }
    Ok(Read::Ready(members))
}

// The interface that a text is accepted with, where it is one more of these members; or the line that refuses it after them.
fn member_of(
    alloc: Global,
    members: &[AnyInterface],
    text: &[u8],
    shapes: &[Shape],
) -> Result<Read<AnyInterface>, NoMemory>
    requires { are_shapes (map facts_of shapes.now) ≡ true }
    ensures { IfOk result (IsMemberOf (map facts_of shapes.now) members.now text.now) }
{
    match examine_any(alloc, text, shapes)? {
        Examined::Accepted { any, service_at } => {
            match member_flaw(members, any.accepted.interface()) {
                Some(name) => {
                    let line = next_line(alloc, members, text, service_at, name)?;
                    Ok(Read::Refused(line))
                }
                None => Ok(Read::Ready(any)),
            }
        }
        Examined::Flawed { name, at } => {
            Ok(Read::Refused(next_line(alloc, members, text, at, name)?))
        }
    }
}

// The line that refuses the text after those of these members, at a place and by the name of what is wrong there.
fn next_line(
    alloc: Global,
    members: &[AnyInterface],
    text: &[u8],
    at: usize,
    name: &str,
) -> Result<Bytes, NoMemory>
    ensures { IfOk result (λ line. line ≡ member_line (length members.now + 1) text.now at name.now) }
{
    member_line(alloc, members.len() + 1, text, at, name)
}

// What keeps an accepted interface from being one more of these members, by its name.
fn member_flaw(members: &[AnyInterface], iface: &Interface) -> Option<&'static str>
    ensures { option_map (λ name. name.now) result ≡ member_flaw (interfaces_of members.now) iface.now }
{
    if has_service(members, iface) {
        return Some("DuplicateService");
    }
    if members.len() >= MOST_SERVICES {
        return Some("Limit");
    }
    None
}

// Whether an interface is of the service of one of these.
fn has_service(members: &[AnyInterface], iface: &Interface) -> bool
    ensures { result ≡ has_service (interfaces_of members.now) iface.now }
{
    'members: for member in members {
        if is_of_its_service(member, iface) {
            return true;
        }
    }
    false
}

// Whether an interface is of the service of a member.
fn is_of_its_service(member: &AnyInterface, iface: &Interface) -> bool
    ensures { result ≡ bytes_eq member.now.accepted.facts.name iface.now.facts.name }
{
    member.accepted.interface().shape.name == iface.shape.name
}
