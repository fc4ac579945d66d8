// Parameters of a prototype.
ghost use Rattle.std.specs.Prelude.{◌≡◌, ◌≤◌, List, [], ◌∷◌, ◌++◌, length, OnOk, Some as with_form, None as without};
ghost use Rattle.sg_parse.specs.declared.tree.Param.{Param as Declared};
ghost use Rattle.sg_parse.specs.declared.words.Sort.TheVariants.{Name as a_name};
ghost use Rattle.sg_rules.specs.sg_lex.Lexeme.{Spelling as Named};
ghost use Rattle.sg_parse.specs.Grammar.Inside.Forms.{open_bracket, close_bracket};
ghost use Rattle.sg_parse.specs.Grammar.Inside.States.{State, due, want, either, listed, declared, param, param_after, with_param, type_of, trees};
ghost use Rattle.sg_rules.specs.sg_lex.Inside.Automata.{read, Leads};
ghost use Rattle.sg_parse.specs.Inside.{either_of};

use crate::reader::{mark, take_mark, take_word, word_of};
use crate::tree::{Param, ParamList};
use crate::types::{SpelledType, declared, spelling};
use crate::words::Sort;
use sg_rules::{ParseError, Reader, Spelled};
use std::alloc::Global;

/// The parameters after the bracket that opens them, at least one, and the bracket that closes them.
#[tactic(auto, using(crate::proofs::ByToken::comma_came, crate::proofs::ByToken::comma_missing))]
pub fn params<'a>(reader: &mut Reader<'a>, alloc: Global) -> Result<ParamList<'a>, ParseError>
    ensures leads { (k : List Declared → State) → Leads trees (read trees (param k []) reader.old) result k reader.new }
    ensures fewer { OnOk result (length reader.new.rest ≤ length reader.old.rest) }
{
    let mut params = ParamList::new(alloc);
    params.push(param(reader, alloc)?)?;
    'params: while take_mark(reader, b',')? {
        params.push(param(reader, alloc)?)?;
    }
    mark(reader, b')')?;
    Ok(params)
}

/// A parameter, after others.
fn param<'a>(reader: &mut Reader<'a>, alloc: Global) -> Result<Param<'a>, ParseError>
    ensures leads { (params : List Declared) (k : List Declared → State) →
        Leads trees (read trees (param k params) reader.old) result (λ p. listed (params ++ p ∷ []) k) reader.new }
    ensures fewer { OnOk result (length reader.new.rest ≤ length reader.old.rest) }
{
    let first = word_of(reader, Sort::Name)?;
    let spelled = spelling(reader, alloc, first)?;
    after_type(reader, spelled)
}

/// A parameter after its type: its form, if one comes, and its name.
fn after_type<'a>(
    reader: &mut Reader<'a>,
    spelled: SpelledType<'a>,
) -> Result<Param<'a>, ParseError>
    ensures leads { (params : List Declared) (k : List Declared → State) →
        Leads trees (read trees (param_after k params spelled.entry.front spelled.entry.last spelled.entry.stars) reader.old)
        result (λ p. listed (params ++ p ∷ []) k) reader.new }
    ensures fewer { OnOk result (length reader.new.rest ≤ length reader.old.rest) }
{
    match form(reader)? {
        Some(form) => formed(reader, spelled, form),
        None => unformed(reader, spelled),
    }
}

/// The form of a parameter, if one comes.
#[tactic(auto, using(crate::proofs::ByToken::form_came, crate::proofs::ByToken::form_missing))]
fn form<'a>(reader: &mut Reader<'a>) -> Result<Option<Spelled<'a>>, ParseError>
    ensures leads { (k : Named → State) (s : State) → Leads trees (read trees (either k s) reader.old) result (either_of k s) reader.new }
    ensures fewer { OnOk result (length reader.new.rest ≤ length reader.old.rest) }
{
    take_word(reader, Sort::Form)
}

/// A parameter after its type, where no form comes.
fn unformed<'a>(reader: &mut Reader<'a>, spelled: SpelledType<'a>) -> Result<Param<'a>, ParseError>
    ensures leads { (params : List Declared) (k : List Declared → State) →
        Leads trees (read trees (declared (λ ty n. with_param k params ty without n) spelled.entry.front spelled.entry.last spelled.entry.stars) reader.old)
        result (λ p. listed (params ++ p ∷ []) k) reader.new }
    ensures fewer { OnOk result (length reader.new.rest ≤ length reader.old.rest) }
{
    let (ty, name) = declared(reader, spelled)?;
    Ok(Param {
        ty,
        form: None,
        name,
    })
}

/// A parameter after its type and its form: its name in brackets.
fn formed<'a>(
    reader: &mut Reader<'a>,
    spelled: SpelledType<'a>,
    form: Spelled<'a>,
) -> Result<Param<'a>, ParseError>
    ensures leads { (params : List Declared) (k : List Declared → State) →
        Leads trees (read trees (due open_bracket (want a_name (λ n. due close_bracket
        (with_param k params (type_of spelled.entry.front spelled.entry.last spelled.entry.stars) (with_form form.entry) n)))) reader.old)
        result (λ p. listed (params ++ p ∷ []) k) reader.new }
    ensures fewer { OnOk result (length reader.new.rest ≤ length reader.old.rest) }
{
    mark(reader, b'(')?;
    let name = word_of(reader, Sort::Name)?;
    mark(reader, b')')?;
    Ok(Param {
        ty: spelled.whole()?,
        form: Some(form),
        name,
    })
}
