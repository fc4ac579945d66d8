// What comes of the text of an interface, whatever its version, before anything is said of it.
ghost use Rattle.std.specs.Prelude.{◌≡◌, ℕ, Ok, List, map, true, IfOk};
ghost use Rattle.sg_explain.specs.sg_facts.Facts.{Facts, facts_of};
ghost use Rattle.sg_explain.specs.sg_input.Verdicts.{IsRefused};
ghost use Rattle.sg_explain.specs.sg_input.sg_check_statements.Shapes.{are_shapes};
ghost use Rattle.sg_explain.specs.sg_input.sg_print.sg_parse.Grammar.Parses.{Parses};
ghost use Rattle.sg_judge.specs.Said.{IsOfServices, IsOwnText};
ghost use Rattle.sg_judge.specs.Inside.Examined.{IsAnyRead, IsExaminedAs};

use crate::interface::AnyInterface;
use crate::names::own_name;
use sg_explain::{
    CheckError, NoMemory, ParseError, Read, RefusalKind, Shape, Tree, check_for, interface_line,
    is_own, parse, refusal_name,
};
use sg_own::{OwnError, OwnInterface, check_own};
use std::alloc::Global;

/// What comes of the text of an interface. Places are counted in bytes from 0.
#[derive(Debug, Drop)]
pub enum Examined {
    /// It is accepted, and the name of its service stands at this place.
    Accepted {
        any: AnyInterface,
        service_at: usize,
    },
    /// This is wrong with it, by name, at this place.
    Flawed {
        name: &'static str,
        at: usize,
    },
}

/// The interface of a text, with what it describes where its service is its own; or the line that refuses it, as `verdict` says. The shapes are
/// as for `verdict`. The only error is want of memory.
pub(crate) fn read_any(
    alloc: Global,
    text: &[u8],
    shapes: &[Shape],
) -> Result<Read<AnyInterface>, NoMemory>
    requires { are_shapes (map facts_of shapes.now) ≡ true }
    ensures { IfOk result (IsAnyRead (map facts_of shapes.now) text.now) }
{
    match examine_any(alloc, text, shapes)? {
        Examined::Accepted { any, .. } => Ok(Read::Ready(any)),
        Examined::Flawed { name, at } => {
            Ok(Read::Refused(interface_line(alloc, text, at, name)?))
        }
    }
}

/// What comes of the text of an interface. The shapes are as for `verdict`. The only error is want of memory.
pub(crate) fn examine_any(
    alloc: Global,
    text: &[u8],
    shapes: &[Shape],
) -> Result<Examined, NoMemory>
    requires { are_shapes (map facts_of shapes.now) ≡ true }
    ensures { IfOk result (IsExaminedAs (map facts_of shapes.now) text.now) }
{
    match parse(alloc, text) {
        Ok(tree) => examine_tree(alloc, &tree, shapes),
        Err(ParseError::NoMemory) => Err(NoMemory),
        Err(ParseError::Lex { at }) => Ok(flawed(RefusalKind::Lex, at)),
        Err(ParseError::Syntax { at }) => Ok(flawed(RefusalKind::Syntax, at)),
    }
}

// What comes of a text with this tree.
fn examine_tree(alloc: Global, tree: &Tree, shapes: &[Shape]) -> Result<Examined, NoMemory>
    requires { are_shapes (map facts_of shapes.now) ≡ true }
    ensures { IfOk result (λ made. (text : List ℕ) → Parses text (Ok tree.now) → IsExaminedAs (map facts_of shapes.now) text made) }
{
    if is_own(tree) {
        examine_own(alloc, tree)
    } else {
        examine_among(alloc, tree, shapes)
    }
}

// The same where the text describes a service of its own, whatever the services.
fn examine_own(alloc: Global, tree: &Tree) -> Result<Examined, NoMemory>
    ensures { IfOk result (λ made. (services : List Facts) (text : List ℕ) → IsOwnText text tree.now → IsExaminedAs services text made) }
{
    match check_own(alloc, tree) {
        Ok(
            OwnInterface {
                accepted,
                description,
            },
        ) => Ok(Examined::Accepted {
            any: AnyInterface {
                accepted,
                own: Some(description),
            },
            service_at: service_place(tree),
        }),
        Err(OwnError::NoMemory) => Err(NoMemory),
        Err(OwnError::Fault(fault)) => Ok(Examined::Flawed {
            name: own_name(fault.kind),
            at: fault.at,
        }),
    }
}

// The same where it describes none.
fn examine_among(alloc: Global, tree: &Tree, shapes: &[Shape]) -> Result<Examined, NoMemory>
    requires { are_shapes (map facts_of shapes.now) ≡ true }
    ensures { IfOk result (λ made. (text : List ℕ) → Parses text (Ok tree.now) → IsOfServices text → IsExaminedAs (map facts_of shapes.now) text made) }
{
    match check_for(alloc, tree, shapes) {
        Ok(accepted) => Ok(Examined::Accepted {
            any: AnyInterface {
                accepted,
                own: None,
            },
            service_at: service_place(tree),
        }),
        Err(CheckError::NoMemory) => Err(NoMemory),
        Err(CheckError::Fault(fault)) => Ok(flawed(RefusalKind::Check(fault.kind), fault.at)),
    }
}

// What comes of a text that describes no service of its own and is refused for a kind at a place.
fn flawed(kind: RefusalKind, at: usize) -> Examined
    ensures { (services : List Facts) (text : List ℕ) → IsOfServices text → IsRefused services text kind at → IsExaminedAs services text result }
{
    Examined::Flawed {
        name: refusal_name(kind),
        at,
    }
}

// The place of the name of a text's service.
fn service_place(tree: &Tree) -> usize
    ensures { result ≡ tree.now.facts.service.at }
{
    tree.facts.service.at
}
