// What the statements of a text say of functions.
ghost use Rattle.std.specs.Prelude.{◌≡◌, codes};
ghost use Rattle.sg_check_statements.specs.Says.{has_proto, says, says_of};
ghost use Rattle.sg_check_statements.specs.Inside.Pieces.{is_one, is_proto, is_two};

use sg_parse::Statement;

/// Whether a statement says a word of a function.
pub fn says(statements: &[Statement], word: &[u8], fun: &[u8]) -> bool
    ensures { result ≡ says statements.now word.now fun.now }
{
    statements
        .iter()
        .any(|statement| is_one(statement, word, fun))
}

/// Whether a statement says a word of a function and another name.
pub fn says_of(statements: &[Statement], word: &[u8], fun: &[u8], other: &[u8]) -> bool
    ensures { result ≡ says_of statements.now word.now fun.now other.now }
{
    statements
        .iter()
        .any(|statement| is_two(statement, word, fun, other))
}

/// Whether a function has a prototype.
pub fn has_proto(statements: &[Statement], fun: &[u8]) -> bool
    ensures { result ≡ has_proto statements.now fun.now }
{
    statements.iter().any(|statement| is_proto(statement, fun))
}

// Whether a statement says a word of a function.
fn is_one(statement: &Statement, word: &[u8], fun: &[u8]) -> bool
    ensures { result ≡ is_one word.now fun.now statement.now }
{
    match statement {
        Statement::One { word: own, fun: of } => own.slice == word && of.slice == fun,
        _ => false,
    }
}

// Whether a statement says a word of a function and another name.
fn is_two(statement: &Statement, word: &[u8], fun: &[u8], other: &[u8]) -> bool
    ensures { result ≡ is_two word.now fun.now other.now statement.now }
{
    match statement {
        Statement::Two {
            word: own,
            first,
            second,
        } => own.slice == word && first.slice == fun && second.slice == other,
        _ => false,
    }
}

// Whether a statement is a prototype of a function.
fn is_proto(statement: &Statement, fun: &[u8]) -> bool
    ensures { result ≡ is_proto fun.now statement.now }
{
    match statement {
        Statement::Proto { name, .. } => name.slice == fun,
        _ => false,
    }
}
