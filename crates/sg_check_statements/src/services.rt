// The service of a text, and whether its text makes a descriptor at all.
ghost use Rattle.std.specs.Prelude.{◌≡◌, ◌&&◌, map};
ghost use Rattle.std.specs.List.{list_any};
ghost use Rattle.std.specs.Option.{option_copied, option_map};
ghost use Rattle.sg_facts.specs.Facts.{facts_of, fun_of_shape};
ghost use Rattle.sg_check_statements.specs.Inside.Pieces.{no_creation};
ghost use Rattle.sg_check_statements.specs.Says.{has_proto, service_of};

use crate::said::has_proto;
use sg_facts::{FunShape, Shape};
use sg_parse::Statement;

/// The first of these services that has a name.
pub fn service_in<'a>(services: &'a [Shape], name: &[u8]) -> Option<&'a Shape>
    ensures { option_map (λ s. facts_of s) (option_copied result) ≡ service_of (map facts_of services.now) name.now }
{
    match services {
        [] => None,
        [service, ..] if service.name == name => Some(service),
        [_, rest @ ..] => service_in(rest, name),
    }
}

/// The beginning of the text, where no function that has a prototype makes a descriptor.
pub fn no_creation(shape: &Shape, statements: &[Statement]) -> Option<usize>
    ensures { result ≡ no_creation (facts_of shape.now) statements.now }
{
    if makes_some(shape.funs, statements) {
        None
    } else {
        Some(0)
    }
}

// Whether one of these functions makes a descriptor and has a prototype.
fn makes_some(funs: &[FunShape], statements: &[Statement]) -> bool
    ensures { result ≡ list_any (λ f. f.creation && has_proto statements.now f.name) (map fun_of_shape funs.now) }
{
    match funs {
        [] => false,
        [fun, rest @ ..] => {
            (fun.is_creation() && has_proto(statements, fun.name)) || makes_some(rest, statements)
        }
    }
}
