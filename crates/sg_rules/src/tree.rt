// The tree of rules.
ghost use Rattle.std.specs.Prelude.{◌≡◌};
ghost use Rattle.sg_rules.specs.Grammar.Sentence.{operator_word};

use crate::words::Keyword;
use sg_base::ListOf;
use sg_lex::Spelled;

/// The rules of a function, in their order.
pub type RuleList<'a> = ListOf<Rule<'a>>;
/// Tests, all of which are to hold.
pub type TestList<'a> = ListOf<Test<'a>>;
/// What holds of a row that is looked for.
pub type PickList<'a> = ListOf<Pick<'a>>;
/// The numbers by which a row is the least.
pub type TermList<'a> = ListOf<Term<'a>>;

/// A rule: what a function answers where it applies. `at` is the place of its first word.
#[derive(Debug, Drop)]
pub enum Rule<'a> {
    /// `refuse CODE if TESTS;`
    Refuse {
        at: usize,
        code: Spelled<'a>,
        when: Tests<'a>,
    },
    /// `wait if TESTS;`
    Wait {
        at: usize,
        when: Tests<'a>,
    },
    /// `give TERM if TESTS;`, or `give TERM;`, which has no tests.
    Give {
        at: usize,
        term: Term<'a>,
        when: Tests<'a>,
    },
    /// `give row where PICKS else CODE;`
    GiveRow {
        at: usize,
        picks: PickList<'a>,
        code: Spelled<'a>,
    },
    /// `give first TERMS where PICKS else CODE;`, or without `where` and its picks.
    GiveFirst {
        at: usize,
        terms: TermList<'a>,
        picks: PickList<'a>,
        code: Spelled<'a>,
    },
}

/// What is to hold so that a rule applies: these tests, and then what is asked of the rows, where it is.
#[derive(Debug, Drop)]
pub struct Tests<'a> {
    pub tests: TestList<'a>,
    pub rows: Option<RowTest<'a>>,
}

/// Two numbers stand in this relation.
#[derive(Debug, Drop)]
pub struct Test<'a> {
    pub left: Term<'a>,
    pub relation: Relation,
    pub right: Term<'a>,
}

/// `some row where PICKS` or `no row where PICKS`. `at` is the place of its first word.
#[derive(Debug, Drop)]
pub struct RowTest<'a> {
    pub at: usize,
    /// Whether there has to be such a row; else there may be none.
    pub some: bool,
    pub picks: PickList<'a>,
}

/// Something of a row that is looked for stands in this relation to a number.
#[derive(Debug, Drop)]
pub struct Pick<'a> {
    pub what: What<'a>,
    pub relation: Relation,
    pub right: Term<'a>,
}

/// What is asked of a row: its state, whose word stands at a place, or a field.
#[derive(Debug, Drop)]
pub enum What<'a> {
    State { at: usize },
    Field(Spelled<'a>),
}

/// A number: an operand, or two with an operator between them.
#[derive(Debug, Drop)]
pub struct Term<'a> {
    pub first: Operand<'a>,
    pub more: Option<(Operator, Operand<'a>)>,
}

/// An operand of a number.
#[derive(Debug, Drop)]
pub enum Operand<'a> {
    /// A number as it is spelt.
    Number(Spelled<'a>),
    /// The word `caller` at a place.
    Caller { at: usize },
    /// The word `state` at a place.
    State { at: usize },
    /// `$` and this number: an argument of the call.
    Argument(Spelled<'a>),
    /// `greatest` and this name: the greatest number that a field has.
    GreatestOf(Spelled<'a>),
    /// A name.
    Named(Spelled<'a>),
}

/// How two numbers stand to each other.
#[derive(Clone, Copy, Debug, PartialEq, Eq)]
pub enum Relation {
    Is,
    IsNot,
    Below,
    Above,
}

/// What two operands come to.
#[derive(Clone, Copy, Debug, PartialEq, Eq)]
pub enum Operator {
    Plus,
    Minus,
    Least,
    Greatest,
}

impl Operator {
    /// The word of the operator.
    pub fn keyword(self) -> Keyword
        ensures { result ≡ operator_word self }
    {
        match self {
            Operator::Plus => Keyword::Plus,
            Operator::Minus => Keyword::Minus,
            Operator::Least => Keyword::Least,
            Operator::Greatest => Keyword::Greatest,
        }
    }
}
