// The prototypes of a text, and the functions that they number.
ghost use Rattle.std.specs.Prelude.{◌≡◌, ◌+◌, ◌<◌, ◌≤◌, ◌^◌, length, IfOk};
ghost use Rattle.sg_shape.specs.Prototypes.{names_of, number_from, proto_in, protos_of};

use crate::adding::add;
use sg_check_statements::{ListOf, NoMemory, Param, Ret, Spelled, Statement};
use std::alloc::Global;
use std::marker::Model;

/// A prototype of a text, lent by its parts. Contracts see the parts.
#[derive(Drop)]
pub struct Proto<'t, 'a> {
    ret: &'t Ret<'a>,
    name: &'t Spelled<'a>,
    params: &'t [Param<'a>],
}

/// Prototypes, in their order.
pub type ProtoList<'t, 'a> = ListOf<Proto<'t, 'a>>;

impl<'t, 'a> Model for Proto<'t, 'a> {
    ghost use Rattle.sg_shape.specs.Prototypes.{Prototype};

    ghost Value = { Prototype };

    ghost view = { λ p. record { ret = p.ret.now; name = p.name.now; params = p.params.now } };
}

impl<'t, 'a> Proto<'t, 'a> {
    /// What it returns.
    pub fn ret(&self) -> &'t Ret<'a>
        ensures { result.now ≡ self.now.ret }
    {
        self.ret
    }

    /// The function's name.
    pub fn name(&self) -> &'a [u8]
        ensures { result.now ≡ self.now.name.bytes }
    {
        let name = self.name;
        name.slice
    }

    /// The place of the function's name.
    pub fn at(&self) -> usize
        ensures { result ≡ self.now.name.at }
    {
        let name = self.name;
        name.at
    }

    /// Its parameters, of which the first is the caller.
    pub fn params(&self) -> &'t [Param<'a>]
        ensures { result.now ≡ self.now.params }
    {
        self.params
    }
}

/// The prototypes of a text.
pub fn protos_of<'t, 'a>(
    alloc: Global,
    statements: &'t [Statement<'a>],
) -> Result<ProtoList<'t, 'a>, NoMemory>
    ensures { IfOk result (λ protos. protos ≡ protos_of statements.now) }
{
    let mut protos = ProtoList::new(alloc);
    'statements: for statement in statements {
        add(&mut protos, proto_in(statement))?;
    }
    Ok(protos)
}

/// The prototype that a statement is.
pub fn proto_in<'t, 'a>(statement: &'t Statement<'a>) -> Option<Proto<'t, 'a>>
    ensures { result ≡ proto_in statement.now }
{
    match statement {
        Statement::Proto { ret, name, params } => Some(Proto {
            ret,
            name,
            params: params.as_slice(),
        }),
        _ => None,
    }
}

/// The number of the function of a name, from 1; 0 where no prototype is of the name. There are fewer than 255 prototypes.
pub fn number_in(protos: &[Proto], name: &[u8]) -> u8
    requires { length protos.now < 255 }
    ensures number { result ≡ number_from 1 (names_of protos.now) name.now }
{
    number_from(1, protos, name)
}

// The number of the function of a name, where the first of these prototypes has this number.
fn number_from(first: u8, protos: &[Proto], name: &[u8]) -> u8
    requires { first + length protos.now < 2 ^ 8 }
    ensures { result ≡ number_from first (names_of protos.now) name.now }
{
    match protos {
        [] => 0,
        [proto, ..] if proto.name() == name => first,
        [_, rest @ ..] => number_from(first + 1, rest, name),
    }
}
