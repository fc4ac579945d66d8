// The functions that have a prototype.
ghost use Rattle.std.specs.Prelude.{◌≡◌, ◌||◌, ℕ, List, Some, IfOk, OnOk, MatchOption};
ghost use Rattle.sg_check_statements.specs.Faults.{IsFirstStatement};
ghost use Rattle.sg_check_statements.specs.Inside.Pieces.{NoStatement, is_proto};
ghost use Rattle.sg_check_statements.specs.Says.{has_proto};
ghost use Rattle.sg_check_statements.specs.Flaws.{duplicate};
ghost use Rattle.sg_check_statements.specs.NameSet.{AreOf, has_name};
ghost use Rattle.sg_parse.specs.declared.tree.Statement.{Statement as One};

use crate::names::NameSet;
use sg_facts::NoMemory;
use sg_parse::Statement;
use std::alloc::Global;
use std::marker::Model;

/// The functions that have a prototype among statements. Contracts see the statements.
#[derive(Drop)]
pub struct Protos<'s, 'a> {
    statements: &'s [Statement<'a>],
    names: NameSet<'a>,
}

impl<'s, 'a> Model for Protos<'s, 'a> {
    ghost use Rattle.std.specs.Prelude.{List};
    ghost use Rattle.sg_check_statements.specs.NameSet.{AreOf};
    ghost use Rattle.sg_parse.specs.declared.tree.Statement.{Statement as One};

    ghost Value = { List One };

    ghost view = { λ p. p.statements.now };

    ghost invariant = { λ p. AreOf p.names p.statements.now };
}

impl<'s, 'a> Protos<'s, 'a> {
    /// The functions that have a prototype among these statements.
    pub fn of(alloc: Global, statements: &'s [Statement<'a>]) -> Result<Protos<'s, 'a>, NoMemory>
        ensures { IfOk result (λ p. p ≡ statements.now) }
    {
        let names = names_of(alloc, statements)?;
        Ok(Protos { statements, names })
    }

    /// Whether a function has a prototype.
    pub fn has(&self, name: &[u8]) -> bool
        ensures { result ≡ has_proto self.now name.now }
    {
        self.names.has(name)
    }
}

// The names of the functions that have a prototype.
fn names_of<'a>(alloc: Global, statements: &[Statement<'a>]) -> Result<NameSet<'a>, NoMemory>
    ensures { IfOk result (λ names. AreOf names statements.now) }
{
    let mut names = NameSet::new(alloc);
    'statements: for statement in statements {
        add_proto(&mut names, statement)?;
    }
    Ok(names)
}

// Adds the function of a prototype.
fn add_proto<'a>(names: &mut NameSet<'a>, statement: &Statement<'a>) -> Result<(), NoMemory>
    ensures { OnOk result ((f : List ℕ) → has_name names.new f ≡ (is_proto f statement.now || has_name names.old f)) }
{
    match statement {
        Statement::Proto { name, .. } => names.add(name.slice),
        _ => Ok(()),
    }
}

/// The place of the first prototype of a function that has one before.
pub fn duplicate_in(alloc: Global, statements: &[Statement]) -> Result<Option<usize>, NoMemory>
    ensures { IfOk result (λ r. MatchOption r (NoStatement (λ before s p. duplicate before s ≡ Some p) statements.now)
        (IsFirstStatement (λ before s p. duplicate before s ≡ Some p) statements.now)) }
{
    let mut names = NameSet::new(alloc);
    'statements: for statement in statements {
        if let Some(at) = second_in(&names, statement) {
            return Ok(Some(at));
        }
        add_proto(&mut names, statement)?;
    }
    Ok(None)
}

// The place of a prototype of a function that has one before.
fn second_in(names: &NameSet, statement: &Statement) -> Option<usize>
    ensures { (before : List One) → AreOf names.now before → result ≡ duplicate before statement.now }
{
    match statement {
        Statement::Proto { name, .. } => {
            if names.has(name.slice) {
                Some(name.at)
            } else {
                None
            }
        }
        _ => None,
    }
}
