// The effects that a text declares for a function, gone over one by one.
ghost use Rattle.std.specs.Prelude.{◌≡◌, ◌+◌, ◌||◌, if◌then◌else◌, false, [], ◌∷◌, codes, Bool};
ghost use Rattle.std.specs.List.{list_any, flat_map};
ghost use Rattle.sg_check_statements.specs.Effects.{arg_effects, declared_effects};
ghost use Rattle.sg_check_statements.specs.Inside.Pieces.{Named_effect, caller_effects, later_effects, ret_effects, statement_effects};
ghost use Rattle.sg_check_statements.specs.Inside.Changes.{change_effect};
ghost use Rattle.sg_check_statements.specs.Params.{has_word};
ghost use Rattle.sg_facts.specs.declared.shape.Effect.TheVariants.{SetArg, AddArg};

use crate::change::Change;
use crate::judge::Statements;
use crate::params::has_word;
use sg_parse::{Param, Ret, Statement};

/// A test of effects.
pub trait Test {
    /// Which effects pass.
    ghost passes: { Self → Named_effect → Bool };

    /// Whether a change of the field of this name passes.
    fn has(&self, field: &[u8], change: Change) -> bool
        ensures { result ≡ passes self.now (field.now, change_effect change) };
}

/// A prototype, with the statements beside it.
#[derive(Clone, Copy)]
pub struct Proto<'p, 's, 't, 'a> {
    pub statements: &'p Statements<'s, 't>,
    pub name: &'p [u8],
    pub ret: &'p Ret<'a>,
    pub params: &'p [Param<'a>],
}

/// Whether some effect that is declared for a function passes.
pub fn any_declared<T: Test>(test: &T, proto: &Proto) -> bool
    ensures { result ≡ list_any (T.passes test.now)
        (declared_effects proto.now.statements.now proto.now.name.now proto.now.ret.now proto.now.params.now) }
{
    any_by_parts(test, proto)
}

// Whether some effect that is declared for a function passes, part by part of the declaration.
fn any_by_parts<T: Test>(test: &T, proto: &Proto) -> bool
    ensures { result ≡ ((list_any (T.passes test.now) (caller_effects proto.now.params.now) || list_any (T.passes test.now) (later_effects proto.now.params.now))
        || (list_any (T.passes test.now) (ret_effects proto.now.ret.now)
        || list_any (λ s. list_any (T.passes test.now) (statement_effects proto.now.name.now s)) proto.now.statements.now)) }
{
    any_by_params(test, proto.params)
        || any_by_ret(test, proto.ret)
        || any_by_statements(test, proto.name, proto.statements.all())
}

// Whether some effect that parameters declare passes.
fn any_by_params<T: Test>(test: &T, params: &[Param]) -> bool
    ensures { result ≡ (list_any (T.passes test.now) (caller_effects params.now) || list_any (T.passes test.now) (later_effects params.now)) }
{
    match params {
        [] => false,
        [caller, later @ ..] => by_caller(test, caller) || any_by_args(test, later),
    }
}

// Whether the effect that the first parameter declares passes.
fn by_caller<T: Test>(test: &T, caller: &Param) -> bool
    ensures { result ≡ list_any (T.passes test.now) (caller_effects (caller.now ∷ [])) }
{
    has_word(&caller.form, b"desc_data") && test.has(caller.name.slice, Change::Caller)
}

// Whether some effect that later parameters declare passes.
fn any_by_args<T: Test>(test: &T, params: &[Param]) -> bool
    ensures { result ≡ list_any (T.passes test.now) (arg_effects 0 params.now) }
{
    let mut number = 0;
    'params: for param in params {
        if is_desc(param) {
            continue;
        }
        if by_arg(test, number, param) {
            return true;
        }
        number += 1;
    }
    false
}

// Whether a parameter is a descriptor or a parent.
fn is_desc(param: &Param) -> bool
    ensures { result ≡ (has_word param.now.form (codes "desc") || has_word param.now.form (codes "parent_desc")) }
{
    has_word(&param.form, b"desc") || has_word(&param.form, b"parent_desc")
}

// Whether the effect that an argument declares passes.
fn by_arg<T: Test>(test: &T, number: usize, param: &Param) -> bool
    ensures { result ≡ (if has_word param.now.form (codes "desc_data") then T.passes test.now (param.now.name.bytes, SetArg number)
        else (if has_word param.now.form (codes "desc_data_add") then T.passes test.now (param.now.name.bytes, AddArg number) else false)) }
{
    if has_word(&param.form, b"desc_data") {
        test.has(param.name.slice, Change::Arg(number))
    } else {
        has_word(&param.form, b"desc_data_add")
            && test.has(param.name.slice, Change::MoreArg(number))
    }
}

// Whether the effect that the return declares passes.
fn any_by_ret<T: Test>(test: &T, ret: &Ret) -> bool
    ensures { result ≡ list_any (T.passes test.now) (ret_effects ret.now) }
{
    match ret {
        Ret::Plain(_) => false,
        Ret::Set { field, .. } => test.has(field.slice, Change::Ret),
        Ret::Add { field, .. } => test.has(field.slice, Change::MoreRet),
        Ret::Sub { field, .. } => test.has(field.slice, Change::LessRet),
    }
}

// Whether some effect that statements of their own declare passes.
fn any_by_statements<T: Test>(test: &T, fun: &[u8], statements: &[Statement]) -> bool
    ensures { result ≡ list_any (λ s. list_any (T.passes test.now) (statement_effects fun.now s)) statements.now }
{
    statements
        .iter()
        .any(|statement| by_statement(test, fun, statement))
}

// Whether the effect that a statement of its own declares passes.
fn by_statement<T: Test>(test: &T, fun: &[u8], statement: &Statement) -> bool
    ensures { result ≡ list_any (T.passes test.now) (statement_effects fun.now statement.now) }
{
    match statement {
        Statement::Two {
            word,
            first,
            second,
        } if first.slice == fun => {
            if word.slice == b"desc_data_clear".as_slice() {
                test.has(second.slice, Change::Nothing)
            } else {
                word.slice == b"desc_data_sub".as_slice() && test.has(second.slice, Change::Less)
            }
        }
        _ => false,
    }
}
