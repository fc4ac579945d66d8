// The pairs of functions that a text names.
ghost use Rattle.std.specs.Prelude.{◌≡◌, ◌≤◌, ◌++◌, [], ◌∷◌, if◌then◌else◌, List, filter, length, map, IfOk, OnOk};
ghost use Rattle.std.specs.List.{filter_map, range_with_len};
ghost use Rattle.sg_check_statements.specs.sg_facts.Interface.{has_pair};
ghost use Rattle.sg_check_statements.specs.sg_facts.Limits.{most_funs};
ghost use Rattle.sg_shape.specs.Prototypes.{protos_of};
ghost use Rattle.sg_check_statements.specs.sg_parse.declared.tree.Statement.{Statement as One};
ghost use Rattle.sg_shape.specs.ShapeOfText.{in_order, pair_in, pairs_of};

use crate::adding::add;
use crate::keeping::kept;
use crate::protos::{Proto, number_in};
use sg_check_statements::{NoMemory, PairList, Statement, has_pair};
use std::alloc::Global;

/// The pairs of functions that statements name under a word, each once, in order, kept to the end of the program. The prototypes are those
/// of the statements.
pub fn pairs_of(
    alloc: Global,
    word: &[u8],
    statements: &[Statement],
    protos: &[Proto],
) -> Result<&'static [(u8, u8)], NoMemory>
    requires protos { protos.now ≡ protos_of statements.now }
    requires few { length protos.now ≤ most_funs }
    ensures { IfOk result (λ pairs. pairs.now ≡ pairs_of word.now statements.now) }
{
    let named = named_pairs(alloc, word, statements, protos)?;
    in_order(alloc, named.as_slice(), protos.len() as u8)
}

// The pairs of functions that statements name under a word, in their order.
fn named_pairs(
    alloc: Global,
    word: &[u8],
    statements: &[Statement],
    protos: &[Proto],
) -> Result<PairList, NoMemory>
    requires protos { protos.now ≡ protos_of statements.now }
    requires few { length protos.now ≤ most_funs }
    ensures { IfOk result (λ named. named ≡ filter_map (pair_in word.now statements.now) statements.now) }
{
    let mut named = PairList::new(alloc);
    'statements: for statement in statements {
        add(&mut named, pair_in(word, protos, statement))?;
    }
    Ok(named)
}

// The pair of functions that a statement names under a word.
fn pair_in(word: &[u8], protos: &[Proto], statement: &Statement) -> Option<(u8, u8)>
    requires { length protos.now ≤ most_funs }
    ensures { (statements : List One) → protos.now ≡ protos_of statements → result ≡ pair_in word.now statements statement.now }
{
    match statement {
        Statement::Two {
            word: own,
            first,
            second,
        } => {
            if own.slice == word {
                Some((
                    number_in(protos, first.slice),
                    number_in(protos, second.slice),
                ))
            } else {
                None
            }
        }
        _ => None,
    }
}

// The pairs of the numbers from 1 to a count that are among these, in order, kept to the end of the program.
fn in_order(alloc: Global, named: &[(u8, u8)], count: u8) -> Result<&'static [(u8, u8)], NoMemory>
    requires { count ≤ most_funs }
    ensures { IfOk result (λ pairs. pairs.now ≡ in_order named.now count) }
{
    let mut pairs = Vec::new(alloc);
    'firsts: for before in 0..count {
        add_pairs(&mut pairs, named, before + 1, count)?;
    }
    Ok(kept(pairs))
}

// Adds the pairs of a number with each from 1 to a count that are among these.
fn add_pairs(
    pairs: &mut Vec<(u8, u8)>,
    named: &[(u8, u8)],
    first: u8,
    count: u8,
) -> Result<(), NoMemory>
    requires { count ≤ most_funs }
    ensures { OnOk result (pairs.new.items ≡ pairs.old.items
        ++ filter (λ p. has_pair named.now p.0 p.1) (map (λ b. (first, b)) (range_with_len 1 count))) }
{
    'seconds: for before in 0..count {
        add_pair(pairs, named, first, before + 1)?;
    }
    Ok(())
}

// Adds a pair that is among these.
fn add_pair(
    pairs: &mut Vec<(u8, u8)>,
    named: &[(u8, u8)],
    first: u8,
    second: u8,
) -> Result<(), NoMemory>
    ensures { OnOk result (pairs.new.items ≡ pairs.old.items ++ (if has_pair named.now first second then (first, second) ∷ [] else [])) }
{
    if has_pair(named, usize::from(first), usize::from(second)) {
        pairs.push((first, second))?;
    }
    Ok(())
}
