// A service as data.
ghost use Rattle.std.specs.Prelude.{◌≡◌, ◌+◌, ◌<◌, ◌^◌, map};
ghost use Rattle.sg_described.specs.Described.{described_of, rule_of, rules_among, rules_at, rules_of};

use sg_facts::{Code, Shape};

/// What a term reads.
#[derive(Clone, Copy, Debug, PartialEq, Eq)]
pub enum Operand {
    /// A number.
    Number(u64),
    /// The client that calls.
    Caller,
    /// The state of the descriptor's row, as the number of the function that names it; of a call that makes a descriptor its own.
    State,
    /// An argument, by its number from 0; 0 where there is none, or it is a text.
    Argument(u8),
    /// A field of the descriptor's row, by its number from 0; 0 where there is none.
    Own(u8),
}

/// A number that a call and a row give.
#[derive(Clone, Copy, Debug, PartialEq, Eq)]
pub enum Term {
    Only(Operand),
    /// The sum, at most the greatest number of 64 bits.
    Plus(Operand, Operand),
    /// The difference, 0 where the second is greater.
    Minus(Operand, Operand),
    Least(Operand, Operand),
    Greatest(Operand, Operand),
}

/// How two numbers may stand to each other.
#[derive(Clone, Copy, Debug, PartialEq, Eq)]
pub enum Relation {
    Is,
    IsNot,
    Below,
    Above,
}

/// A comparison of two terms.
#[derive(Clone, Copy, Debug, PartialEq, Eq)]
pub struct Test {
    pub left: Term,
    pub relation: Relation,
    pub right: Term,
}

/// What becomes of a call to which a rule applies.
#[derive(Clone, Copy, Debug, PartialEq, Eq)]
pub enum Verdict {
    /// It is refused.
    Refuse(Code),
    /// Its caller waits.
    Wait,
    /// It is done, and its Ok has this word.
    Give(Term),
}

/// A rule: where all its tests hold, the call gets its verdict.
#[derive(Clone, Copy, Debug)]
pub struct RuleShape {
    pub tests: &'static [Test],
    pub verdict: Verdict,
}

/// How a function answers: by the first rule that applies; where none does, by an Ok without a word.
#[derive(Clone, Copy, Debug)]
pub struct AnswerShape {
    pub rules: &'static [RuleShape],
}

/// A service: its shape, the greatest number of each field, and an answer for each function.
#[derive(Clone, Copy, Debug)]
pub struct Description {
    pub shape: Shape,
    pub most: &'static [u64],
    pub answers: &'static [AnswerShape],
}

impl Description {
    /// The rules of the function of a number, from 1; none where it has no answer.
    pub fn rules(&self, fun: u8) -> &'static [RuleShape]
        ensures { map rule_of result.now ≡ rules_at (described_of self.now) fun }
    {
        if fun == 0 {
            return &[];
        }
        rules_in(self.answers, usize::from(fun) - 1)
    }
}

// The rules of the answer at a place, from 0.
fn rules_in(answers: &'static [AnswerShape], at: usize) -> &'static [RuleShape]
    requires { at < 2 ^ 8 }
    ensures { map rule_of result.now ≡ rules_among (map rules_of answers.now) (at + 1) }
{
    match answers.get(at) {
        Some(answer) => answer.rules,
        None => &[],
    }
}
