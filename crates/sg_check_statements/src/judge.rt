// What can be wrong with a statement by itself, and the first that is.
ghost use Rattle.std.specs.Prelude.{◌≡◌, ℕ, List, Some, MatchOption};
ghost use Rattle.std.specs.declared.option.Option.{Option as Maybe};
ghost use Rattle.sg_parse.specs.declared.tree.Statement.{Statement as One};
ghost use Rattle.sg_check_statements.specs.Faults.{IsFirstStatement};
ghost use Rattle.sg_check_statements.specs.Inside.Pieces.{NoStatement};

use sg_parse::Statement;
use std::marker::Model;

/// What looks for one kind of flaw in a statement.
pub trait Judge {
    /// The place of the flaw in a statement, where it has one.
    ghost flaw: { Self → One → Maybe ℕ };

    /// The place of the flaw, where the statement has one.
    fn flaw_in(&self, statement: &Statement) -> Option<usize>
        ensures { result ≡ flaw self.now statement.now };
}

/// The place of the first flaw of its kind.
pub fn first_flaw<J: Judge>(judge: &J, statements: &[Statement]) -> Option<usize>
    ensures { MatchOption result (NoStatement (λ before s p. J.flaw judge.now s ≡ Some p) statements.now)
        (IsFirstStatement (λ before s p. J.flaw judge.now s ≡ Some p) statements.now) }
{
    'statements: for statement in statements {
        if let Some(at) = judge.flaw_in(statement) {
            return Some(at);
        }
    }
    None
}

/// The statements of a text, for judges that look at all of them. Contracts see their list.
#[derive(Drop)]
pub struct Statements<'s, 'a> {
    all: &'s [Statement<'a>],
}

impl<'s, 'a> Model for Statements<'s, 'a> {
    ghost use Rattle.std.specs.Prelude.{List};
    ghost use Rattle.sg_parse.specs.declared.tree.Statement.{Statement as One};

    ghost Value = { List One };

    ghost view = { λ s. s.all.now };
}

impl<'s, 'a> Statements<'s, 'a> {
    /// These statements.
    pub fn new(all: &'s [Statement<'a>]) -> Statements<'s, 'a>
        ensures { result ≡ all.now }
    {
        Statements { all }
    }

    /// All of them.
    pub fn all(&self) -> &'s [Statement<'a>]
        ensures { result.now ≡ self.now }
    {
        self.all
    }
}
