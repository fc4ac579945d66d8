// Whether a prototype has the parameters of its function.
ghost use Rattle.std.specs.Prelude.{◌≡◌, Some, MatchOption, codes};
ghost use Rattle.sg_facts.specs.Facts.{facts_of, fun_of_shape};
ghost use Rattle.std.specs.Cmp.Lexicographic.{pointwise};
ghost use Rattle.sg_check_statements.specs.Faults.{IsFirstStatement};
ghost use Rattle.sg_check_statements.specs.Inside.Pieces.{NoStatement, bad_params};
ghost use Rattle.sg_check_statements.specs.Params.{fit_params, has_word, is_caller, is_client_type, is_of_kind};

use crate::funs::fun_of_name;
use crate::judge::{Judge, first_flaw};
use sg_facts::{FunShape, Kind, Shape};
use sg_parse::{Param, Spelled, Statement, TypeName};

/// Looks for prototypes whose parameters aren't their function's.
#[derive(Clone, Copy)]
pub struct Parameters<'a> {
    pub shape: &'a Shape,
}

impl Judge for Parameters<'_> {
    ghost flaw = { λ j s. bad_params (facts_of j.shape.now) s };

    fn flaw_in(&self, statement: &Statement) -> Option<usize> {
        match statement {
            Statement::Proto { name, params, .. } => {
                let fun = fun_of_name(self.shape, name.slice);
                if fit(&fun, params.as_slice()) {
                    None
                } else {
                    Some(name.at)
                }
            }
            _ => None,
        }
    }
}

/// The place of the first prototype whose parameters aren't its function's.
pub fn bad_params_in(shape: &Shape, statements: &[Statement]) -> Option<usize>
    ensures { MatchOption result
        (NoStatement (λ before s p. bad_params (facts_of shape.now) s ≡ Some p) statements.now)
        (IsFirstStatement (λ before s p. bad_params (facts_of shape.now) s ≡ Some p) statements.now) }
{
    first_flaw(&Parameters { shape }, statements)
}

// Whether parameters are those of a function.
fn fit(fun: &FunShape, params: &[Param]) -> bool
    ensures { result ≡ fit_params (fun_of_shape fun.now) params.now }
{
    match params {
        [] => false,
        [caller, rest @ ..] => is_caller(caller) && are_of_kinds(rest, fun.kinds),
    }
}

/// Whether the first parameter is the caller: it is of a client type, is neither descriptor nor parent, and isn't added to
/// a field.
pub fn is_caller(param: &Param) -> bool
    ensures { result ≡ is_caller param.now }
{
    is_client_type(&param.ty)
        && !(has_word(&param.form, b"desc")
            || has_word(&param.form, b"parent_desc")
            || has_word(&param.form, b"desc_data_add"))
}

// Whether a type is that of a client.
fn is_client_type(ty: &TypeName) -> bool
    ensures { result ≡ is_client_type ty.now }
{
    match ty.names.as_slice().last() {
        Some(last) => {
            ty.stars == 0
                && (last.slice == b"spdid_t".as_slice()
                    || last.slice == b"componentid_t".as_slice())
        }
        None => false,
    }
}

/// Whether a name, where there is one, is this word.
pub fn has_word(name: &Option<Spelled>, word: &[u8]) -> bool
    ensures { result ≡ has_word name.now word.now }
{
    match name {
        Some(name) => name.slice == word,
        None => false,
    }
}

// Whether later parameters are of these kinds.
fn are_of_kinds(params: &[Param], kinds: &[Kind]) -> bool
    ensures { result ≡ pointwise is_of_kind params.now kinds.now }
{
    match params {
        [] => kinds.is_empty(),
        [param, params @ ..] => match kinds {
            [] => false,
            [kind, kinds @ ..] => is_of_kind(param, *kind) && are_of_kinds(params, kinds),
        },
    }
}

// Whether a later parameter is of a kind.
fn is_of_kind(param: &Param, kind: Kind) -> bool
    ensures { result ≡ is_of_kind param.now kind }
{
    let is_desc = has_word(&param.form, b"desc");
    let is_parent = has_word(&param.form, b"parent_desc");
    let is_text = param.ty.stars != 0;
    match kind {
        Kind::Desc => is_desc && !is_text,
        Kind::Parent => is_parent && !is_text,
        Kind::Word => !is_desc && !is_parent && !is_text,
        Kind::Text => !is_desc && !is_parent && is_text,
    }
}
