// Statements.
ghost use Rattle.std.specs.Prelude.{◌≡◌, ◌≤◌, List, [], ◌∷◌, ◌++◌, length, OnOk, None as without};
ghost use Rattle.sg_rules.specs.declared.tree.Rule.{Rule as ARule};
ghost use Rattle.sg_rules.specs.Grammar.Inside.States.{ruled};
ghost use Rattle.sg_parse.specs.declared.tree.Ret.{Ret as Returned};
ghost use Rattle.sg_parse.specs.declared.tree.Statement.{Statement as Stated};
ghost use Rattle.sg_parse.specs.declared.tree.TypeName.{TypeName as Typed};
ghost use Rattle.sg_parse.specs.declared.words.Sort.TheVariants.{Name as a_name};
ghost use Rattle.sg_rules.specs.sg_lex.Lexeme.{Spelling as Named};
ghost use Rattle.sg_parse.specs.Grammar.Inside.States.{State, want, statements, statement_after, one_rest, two_rest, proto_rest, plain_rest, returned_rest, kept_after, external_rest, most_rest, unique_rest, answer_rest, answering, fielded, trees};
ghost use Rattle.sg_rules.specs.sg_lex.Inside.Automata.{read, Leads, Answers, read_on};

use crate::params::params;
use crate::reader::{has_sort, is_kept, mark, name_of, next_token, number, take_mark, word_of};
use crate::tree::{Facts, Ret, Statement, StatementList, Tree, TypeName};
use crate::types::{declared, spelling};
use crate::words::Sort;
use sg_rules::{ParseError, Reader, RuleList, Spelled, SpelledList, Token, TokenKind, parse_rules};
use std::alloc::Global;

/// The statements after the facts, up to the end of the text.
#[tactic(auto, using(crate::proofs::ByToken::statement_came, crate::proofs::ByToken::statement_end))]
pub fn statements<'a>(
    reader: &mut Reader<'a>,
    alloc: Global,
    facts: Facts<'a>,
) -> Result<Tree<'a>, ParseError>
    ensures { Answers trees (read trees (statements facts.entry []) reader.old) result }
{
    let mut statements = StatementList::new(alloc);
    'statements: while let Some(token) = next_token(reader)? {
        statements.push(statement(reader, alloc, token)?)?;
    }
    Ok(Tree { facts, statements })
}

/// A statement whose first token was taken.
#[tactic(auto, using(crate::proofs::ByToken::is_one, crate::proofs::ByToken::is_two, crate::proofs::ByToken::is_set, crate::proofs::ByToken::is_add, crate::proofs::ByToken::is_kept, crate::proofs::ByToken::is_plain, crate::proofs::ByToken::is_none))]
fn statement<'a>(
    reader: &mut Reader<'a>,
    alloc: Global,
    token: Token<'a>,
) -> Result<Statement<'a>, ParseError>
    ensures leads { (go : Stated → State) →
        Leads trees (read_on trees (statement_after go token.entry) token.entry reader.old) result go reader.new }
    ensures fewer { OnOk result (length reader.new.rest ≤ length reader.old.rest) }
{
    if has_sort(&token, Sort::One) {
        return one(reader, name_of(token));
    }
    if has_sort(&token, Sort::Two) {
        return two(reader, name_of(token));
    }
    if token.is_word(b"desc_data_retval") {
        return set(reader, alloc);
    }
    if token.is_word(b"desc_data_retval_add") {
        return add(reader, alloc);
    }
    if token.has_kind(TokenKind::Mark) {
        return kept(reader, alloc, token);
    }
    if has_sort(&token, Sort::Name) {
        return plain(reader, alloc, name_of(token));
    }
    Err(ParseError::Syntax { at: token.at })
}

/// A statement whose first token was taken, which is a mark: a word that a version keeps for itself.
#[tactic(auto, using(crate::proofs::ByToken::is_sub, crate::proofs::ByToken::is_external, crate::proofs::ByToken::is_most, crate::proofs::ByToken::is_unique, crate::proofs::ByToken::is_answer, crate::proofs::ByToken::is_no_statement))]
fn kept<'a>(
    reader: &mut Reader<'a>,
    alloc: Global,
    token: Token<'a>,
) -> Result<Statement<'a>, ParseError>
    ensures leads { (go : Stated → State) →
        Leads trees (read_on trees (kept_after go token.entry without) token.entry reader.old) result go reader.new }
    ensures fewer { OnOk result (length reader.new.rest ≤ length reader.old.rest) }
{
    if is_kept(&token, b"desc_data_retval_sub") {
        return sub(reader, alloc);
    }
    if is_kept(&token, b"sm_external") {
        return external(reader);
    }
    if is_kept(&token, b"desc_data_most") {
        return most(reader);
    }
    if is_kept(&token, b"desc_data_unique") {
        return unique(reader, alloc);
    }
    if is_kept(&token, b"sm_answer") {
        return answer(reader, alloc);
    }
    Err(ParseError::Syntax { at: token.at })
}

/// A creation that can't be done again, after the word that says so.
fn external<'a>(reader: &mut Reader<'a>) -> Result<Statement<'a>, ParseError>
    ensures leads { (go : Stated → State) → Leads trees (read trees (external_rest go) reader.old) result go reader.new }
    ensures fewer { OnOk result (length reader.new.rest ≤ length reader.old.rest) }
{
    mark(reader, b'(')?;
    let fun = word_of(reader, Sort::Name)?;
    mark(reader, b')')?;
    mark(reader, b';')?;
    Ok(Statement::External { fun })
}

/// The greatest number of a field, after the word that says it.
fn most<'a>(reader: &mut Reader<'a>) -> Result<Statement<'a>, ParseError>
    ensures leads { (go : Stated → State) → Leads trees (read trees (most_rest go) reader.old) result go reader.new }
    ensures fewer { OnOk result (length reader.new.rest ≤ length reader.old.rest) }
{
    mark(reader, b'(')?;
    let field = word_of(reader, Sort::Name)?;
    mark(reader, b',')?;
    let most = number(reader)?;
    mark(reader, b')')?;
    mark(reader, b';')?;
    Ok(Statement::Most { field, most })
}

/// Fields in all of which no two descriptors agree, after the word that says so.
fn unique<'a>(reader: &mut Reader<'a>, alloc: Global) -> Result<Statement<'a>, ParseError>
    ensures leads { (go : Stated → State) → Leads trees (read trees (unique_rest go) reader.old) result go reader.new }
    ensures fewer { OnOk result (length reader.new.rest ≤ length reader.old.rest) }
{
    mark(reader, b'(')?;
    let fields = fields(reader, alloc)?;
    mark(reader, b';')?;
    Ok(Statement::Unique { fields })
}

/// The fields after the bracket that opens them, at least one, and the bracket that closes them.
#[tactic(auto, using(crate::proofs::ByToken::field_came, crate::proofs::ByToken::fields_over))]
fn fields<'a>(reader: &mut Reader<'a>, alloc: Global) -> Result<SpelledList<'a>, ParseError>
    ensures leads { (k : List Named → State) →
        Leads trees (read trees (want a_name (λ first. fielded (first ∷ []) k)) reader.old) result k reader.new }
    ensures fewer { OnOk result (length reader.new.rest ≤ length reader.old.rest) }
{
    let mut fields = SpelledList::new(alloc);
    fields.push(word_of(reader, Sort::Name)?)?;
    'fields: while take_mark(reader, b',')? {
        fields.push(word_of(reader, Sort::Name)?)?;
    }
    mark(reader, b')')?;
    Ok(fields)
}

/// The rules of a function, after the word that begins them.
fn answer<'a>(reader: &mut Reader<'a>, alloc: Global) -> Result<Statement<'a>, ParseError>
    ensures leads { (go : Stated → State) → Leads trees (read trees (answer_rest go) reader.old) result go reader.new }
    ensures fewer { OnOk result (length reader.new.rest ≤ length reader.old.rest) }
{
    mark(reader, b'(')?;
    let fun = word_of(reader, Sort::Name)?;
    mark(reader, b')')?;
    mark(reader, b'{')?;
    let rules = answers(reader, alloc)?;
    Ok(Statement::Answer { fun, rules })
}

/// The rules after the brace that opens them, and the brace that closes them.
fn answers<'a>(reader: &mut Reader<'a>, alloc: Global) -> Result<RuleList<'a>, ParseError>
    ensures leads { (k : List ARule → State) → Leads trees (read trees (answering (ruled []) k) reader.old) result k reader.new }
    ensures fewer { OnOk result (length reader.new.rest ≤ length reader.old.rest) }
{
    let rules = parse_rules(reader, alloc)?;
    mark(reader, b'}')?;
    Ok(rules)
}

/// A statement over one function, after its word.
fn one<'a>(reader: &mut Reader<'a>, word: Spelled<'a>) -> Result<Statement<'a>, ParseError>
    ensures leads { (go : Stated → State) → Leads trees (read trees (one_rest go word.entry) reader.old) result go reader.new }
    ensures fewer { OnOk result (length reader.new.rest ≤ length reader.old.rest) }
{
    mark(reader, b'(')?;
    let fun = word_of(reader, Sort::Name)?;
    mark(reader, b')')?;
    mark(reader, b';')?;
    Ok(Statement::One { word, fun })
}

/// A statement over two names, after its word.
fn two<'a>(reader: &mut Reader<'a>, word: Spelled<'a>) -> Result<Statement<'a>, ParseError>
    ensures leads { (go : Stated → State) → Leads trees (read trees (two_rest go word.entry) reader.old) result go reader.new }
    ensures fewer { OnOk result (length reader.new.rest ≤ length reader.old.rest) }
{
    mark(reader, b'(')?;
    let first = word_of(reader, Sort::Name)?;
    mark(reader, b',')?;
    let second = word_of(reader, Sort::Name)?;
    mark(reader, b')')?;
    mark(reader, b';')?;
    Ok(Statement::Two {
        word,
        first,
        second,
    })
}

/// A prototype whose return is a type alone, after the type's first name.
fn plain<'a>(
    reader: &mut Reader<'a>,
    alloc: Global,
    first: Spelled<'a>,
) -> Result<Statement<'a>, ParseError>
    ensures leads { (go : Stated → State) → Leads trees (read trees (plain_rest go first.entry) reader.old) result go reader.new }
    ensures fewer { OnOk result (length reader.new.rest ≤ length reader.old.rest) }
{
    let spelled = spelling(reader, alloc, first)?;
    let (ty, name) = declared(reader, spelled)?;
    proto(reader, alloc, Ret::Plain(ty), name)
}

/// A prototype whose returned word sets a field, after the word that says so.
fn set<'a>(reader: &mut Reader<'a>, alloc: Global) -> Result<Statement<'a>, ParseError>
    ensures leads { (go : Stated → State) → Leads trees (read trees (returned_rest go Ret.Set) reader.old) result go reader.new }
    ensures fewer { OnOk result (length reader.new.rest ≤ length reader.old.rest) }
{
    let (ty, field) = returned(reader, alloc)?;
    let name = word_of(reader, Sort::Name)?;
    proto(reader, alloc, Ret::Set { ty, field }, name)
}

/// A prototype whose returned word is added to a field, after the word that says so.
fn add<'a>(reader: &mut Reader<'a>, alloc: Global) -> Result<Statement<'a>, ParseError>
    ensures leads { (go : Stated → State) → Leads trees (read trees (returned_rest go Ret.Add) reader.old) result go reader.new }
    ensures fewer { OnOk result (length reader.new.rest ≤ length reader.old.rest) }
{
    let (ty, field) = returned(reader, alloc)?;
    let name = word_of(reader, Sort::Name)?;
    proto(reader, alloc, Ret::Add { ty, field }, name)
}

/// A prototype whose returned word is subtracted from a field, after the word that says so.
fn sub<'a>(reader: &mut Reader<'a>, alloc: Global) -> Result<Statement<'a>, ParseError>
    ensures leads { (go : Stated → State) → Leads trees (read trees (returned_rest go Ret.Sub) reader.old) result go reader.new }
    ensures fewer { OnOk result (length reader.new.rest ≤ length reader.old.rest) }
{
    let (ty, field) = returned(reader, alloc)?;
    let name = word_of(reader, Sort::Name)?;
    proto(reader, alloc, Ret::Sub { ty, field }, name)
}

/// The type and the field, in brackets, of a return that sets a field, adds to it or subtracts from it.
fn returned<'a>(
    reader: &mut Reader<'a>,
    alloc: Global,
) -> Result<(TypeName<'a>, Spelled<'a>), ParseError>
    ensures leads { (go : Stated → State) (make : Typed → Named → Returned) →
        Leads trees (read trees (returned_rest go make) reader.old) result (λ r. want a_name (λ n. proto_rest go (make r.0 r.1) n)) reader.new }
    ensures fewer { OnOk result (length reader.new.rest ≤ length reader.old.rest) }
{
    mark(reader, b'(')?;
    let first = word_of(reader, Sort::Name)?;
    let spelled = spelling(reader, alloc, first)?;
    let ty = spelled.whole()?;
    mark(reader, b',')?;
    let field = word_of(reader, Sort::Name)?;
    mark(reader, b')')?;
    Ok((ty, field))
}

/// A prototype after its return and its name.
fn proto<'a>(
    reader: &mut Reader<'a>,
    alloc: Global,
    ret: Ret<'a>,
    name: Spelled<'a>,
) -> Result<Statement<'a>, ParseError>
    ensures leads { (go : Stated → State) → Leads trees (read trees (proto_rest go ret.entry name.entry) reader.old) result go reader.new }
    ensures fewer { OnOk result (length reader.new.rest ≤ length reader.old.rest) }
{
    mark(reader, b'(')?;
    let params = params(reader, alloc)?;
    mark(reader, b';')?;
    Ok(Statement::Proto { ret, name, params })
}
