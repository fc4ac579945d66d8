// The interface that a text declares.
ghost use Rattle.std.specs.Prelude.{◌≡◌, ◌≤◌, ◌<◌, ◌^◌, length, map, filter, IfOk, codes};
ghost use Rattle.sg_check_statements.specs.sg_facts.Facts.{facts_of, fun_at, fun_of_shape};
ghost use Rattle.sg_check_statements.specs.sg_facts.Fields.{number_of};
ghost use Rattle.sg_check_statements.specs.sg_facts.Limits.{most_funs};
ghost use Rattle.sg_check_statements.specs.Faults.{interface_of};
ghost use Rattle.sg_check_statements.specs.Says.{has_proto, says_of};

use sg_check_statements::{
    FunShape, Interface, NoMemory, PairList, Protos, Shape, Statement, Tree, says_of,
};
use std::alloc::Global;

/// The interface that a text declares of a shape, whether the text is accepted or not: the functions that have a prototype, the
/// version of the text's language, whether it is eager, and those of the shape's transitions and recover steps that a statement
/// names. A shape has at most `MOST_FUNS` functions.
pub fn interface_of(alloc: Global, shape: &Shape, tree: &Tree) -> Result<Interface, NoMemory>
    requires { length shape.now.funs.now ≤ most_funs }
    ensures { IfOk result (λ i. i ≡ interface_of (facts_of shape.now) tree.now) }
{
    let statements = tree.statements.as_slice();
    let protos = Protos::of(alloc, statements)?;
    Ok(Interface {
        shape: *shape,
        declared: declared_in(shape.funs, &protos),
        version: tree.facts.version,
        eager: tree.facts.eager,
        moves: listed(alloc, shape, shape.moves, b"sm_transition", statements)?,
        steps: listed(alloc, shape, shape.steps, b"sm_recover", statements)?,
    })
}

// Which of at most `MOST_FUNS` functions have a prototype: bit f - 1 for function f.
fn declared_in(funs: &[FunShape], protos: &Protos) -> u32
    requires { length funs.now ≤ most_funs }
    ensures declared { result ≡ number_of (map (λ f. has_proto protos.now f.name) (map fun_of_shape funs.now)) }
    ensures bound { result < 2 ^ length funs.now }
{
    match funs {
        [] => 0,
        [fun, rest @ ..] => u32::from(protos.has(fun.name)) + 2 * declared_in(rest, protos),
    }
}

// The pairs of a shape that a statement names under a word.
fn listed(
    alloc: Global,
    shape: &Shape,
    pairs: &[(u8, u8)],
    word: &[u8],
    statements: &[Statement],
) -> Result<PairList, NoMemory>
    ensures { let funs = (facts_of shape.now).funs in
        IfOk result (λ list. list ≡ filter (λ p. says_of statements.now word.now (fun_at funs p.0).name (fun_at funs p.1).name) pairs.now) }
{
    let mut list = PairList::new(alloc);
    'pairs: for pair in pairs {
        if is_listed(shape, *pair, word, statements) {
            list.push(*pair)?;
        }
    }
    Ok(list)
}

// Whether a statement names a pair of a shape's functions under a word.
fn is_listed(shape: &Shape, pair: (u8, u8), word: &[u8], statements: &[Statement]) -> bool
    ensures { let funs = (facts_of shape.now).funs in
        result ≡ says_of statements.now word.now (fun_at funs pair.0).name (fun_at funs pair.1).name }
{
    let (first, second) = pair;
    says_of(
        statements,
        word,
        shape.fun(first).name,
        shape.fun(second).name,
    )
}
