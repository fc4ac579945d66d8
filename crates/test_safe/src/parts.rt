// What descriptions here are made of.
use sg_safe::{
    AnswerShape, FieldShape, Operand, Parents, Relation, RuleShape, Shape, Term, Test, Verdict,
};

/// The caller.
pub(crate) const CALLER: Term = Term::Only(Operand::Caller);

/// The first field of the row.
pub(crate) const FIELD: Term = Term::Only(Operand::Own(0));

/// The first argument.
pub(crate) const ARGUMENT: Term = Term::Only(Operand::Argument(0));

/// 0.
pub(crate) const ZERO: Term = Term::Only(Operand::Number(0));

/// A rule by which a caller waits while the field is 0.
pub(crate) const WAIT_AT_ZERO: RuleShape = RuleShape {
    tests: &[Test {
        left: FIELD,
        relation: Relation::Is,
        right: ZERO,
    }],
    verdict: Verdict::Wait,
};

/// Every call is done, and has no word.
pub(crate) const DONE: AnswerShape = AnswerShape { rules: &[] };

/// A field that counts.
pub(crate) const COUNT: &[FieldShape] = &[FieldShape {
    name: b"count",
    text: false,
}];

/// A service of single rows with data, without functions.
pub(crate) const SINGLE: Shape = Shape {
    name: b"",
    parents: Parents::Never,
    subtree: false,
    global: true,
    block: false,
    has_data: true,
    resc_data: false,
    fields: COUNT,
    funs: &[],
    moves: &[],
    steps: &[],
};
