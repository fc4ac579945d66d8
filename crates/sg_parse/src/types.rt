// Types, and the names that are declared after them.
ghost use Rattle.std.specs.Prelude.{◌≡◌, ◌≤◌, ◌<◌, ◌+◌, ℕ, List, [], ◌∷◌, ◌++◌, length, IfOk, OnOk};
ghost use Rattle.sg_parse.specs.declared.tree.TypeName.{TypeName as Typed};
ghost use Rattle.sg_rules.specs.sg_lex.Lexeme.{Spelling as Named};
ghost use Rattle.sg_parse.specs.Grammar.Inside.States.{State, names, stars, declared, type_of, trees};
ghost use Rattle.sg_rules.specs.sg_lex.Inside.Automata.{read, Leads};

use crate::reader::{take_mark, take_word, unexpected, word_of};
use crate::tree::TypeName;
use crate::words::Sort;
use sg_rules::{NoMemory, ParseError, Reader, Spelled, SpelledList};
use std::alloc::Global;

/// The names of a type, the last apart, and the number of its stars. Without stars the last name may be the one that is
/// declared.
#[derive(Debug, Drop)]
pub struct SpelledType<'a> {
    pub front: SpelledList<'a>,
    pub last: Spelled<'a>,
    pub stars: usize,
}

impl<'a> SpelledType<'a> {
    /// The type of all these names.
    pub fn whole(self) -> Result<TypeName<'a>, NoMemory>
        ensures { IfOk result (λ ty. ty ≡ type_of self.entry.front self.entry.last self.entry.stars) }
    {
        let mut names = self.front;
        names.push(self.last)?;
        Ok(TypeName {
            names,
            stars: self.stars,
        })
    }
}

/// The names and the stars of a type whose first name was taken, as far as they go.
pub fn spelling<'a>(
    reader: &mut Reader<'a>,
    alloc: Global,
    first: Spelled<'a>,
) -> Result<SpelledType<'a>, ParseError>
    ensures leads { (k : List Named → Named → ℕ → State) →
        Leads trees (read trees (names [] first.entry k) reader.old) result (λ s. k s.front s.last s.stars) reader.new }
    ensures fewer { OnOk result (length reader.new.rest ≤ length reader.old.rest) }
{
    let (front, last) = names(reader, alloc, first)?;
    let stars = stars(reader)?;
    Ok(SpelledType { front, last, stars })
}

/// The names of a type whose first name was taken, the last apart.
#[tactic(auto, using(crate::proofs::ByToken::name_came, crate::proofs::ByToken::names_over))]
fn names<'a>(
    reader: &mut Reader<'a>,
    alloc: Global,
    first: Spelled<'a>,
) -> Result<(SpelledList<'a>, Spelled<'a>), ParseError>
    ensures leads { (k : List Named → Named → ℕ → State) →
        Leads trees (read trees (names [] first.entry k) reader.old) result (λ r. stars r.0 r.1 0 k) reader.new }
    ensures fewer { OnOk result (length reader.new.rest ≤ length reader.old.rest) }
{
    let mut front = SpelledList::new(alloc);
    let mut last = first;
    'names: while let Some(name) = take_word(reader, Sort::Name)? {
        front.push(last)?;
        last = name;
    }
    Ok((front, last))
}

/// The number of stars that come.
#[tactic(auto, using(crate::proofs::ByToken::star_came, crate::proofs::ByToken::stars_over))]
fn stars(reader: &mut Reader<'_>) -> Result<usize, ParseError>
    ensures leads { (front : List Named) (last : Named) (k : List Named → Named → ℕ → State) →
        Leads trees (read trees (stars front last 0 k) reader.old) result (λ n. k front last n) reader.new }
    ensures fewer { OnOk result (length reader.new.rest ≤ length reader.old.rest) }
{
    let most = reader.end();
    let mut count = 0;
    'stars: while take_mark(reader, b'*')? {
        prove!(count < most);
        count += 1;
    }
    Ok(count)
}

/// The type and the name that is declared: without stars the last of at least two names, else the name after them.
#[tactic(auto, using(crate::proofs::ByToken::declared_none, crate::proofs::ByToken::declared_bare, crate::proofs::ByToken::declared_starred))]
pub fn declared<'a>(
    reader: &mut Reader<'a>,
    spelled: SpelledType<'a>,
) -> Result<(TypeName<'a>, Spelled<'a>), ParseError>
    ensures leads { (go : Typed → Named → State) →
        Leads trees (read trees (declared go spelled.entry.front spelled.entry.last spelled.entry.stars) reader.old) result (λ r. go r.0 r.1) reader.new }
    ensures fewer { OnOk result (length reader.new.rest ≤ length reader.old.rest) }
{
    if spelled.stars > 0 {
        let name = word_of(reader, Sort::Name)?;
        return Ok((spelled.whole()?, name));
    }
    if spelled.front.is_empty() {
        return Err(unexpected(reader));
    }
    let ty = TypeName {
        names: spelled.front,
        stars: 0,
    };
    Ok((ty, spelled.last))
}
