// Laws of the definitions.
ghost use Rattle.std.specs.Prelude.{◌≡◌, ◌⊎◌, ℕ, true};
ghost use Rattle.sg_shape.specs.sg_check_statements.sg_parse.declared.tree.Tree.{Tree};
ghost use Rattle.sg_shape.specs.Faults.{HasNoShapeFlaw};
ghost use Rattle.sg_described.specs.Safe.{is_plain};
ghost use Rattle.sg_describe.specs.declared.fault.AnswerFaultKind.{AnswerFaultKind as Kind};
ghost use Rattle.sg_describe.specs.AnswerFaults.{HasNoAnswerFlaw, IsFirstAnswerFlaw};
ghost use Rattle.sg_describe.specs.DescribedText.{described_of_text};

/// Either nothing is wrong with what a text says of answers, or one thing is first wrong, at one place; and not both.
pub fn one_verdict()
    ensures some { (tree : Tree) → HasNoAnswerFlaw tree ⊎ ((kind : Kind) × (at : ℕ) × IsFirstAnswerFlaw tree kind at) }
    ensures not_both { (tree : Tree) (kind : Kind) (at : ℕ) → HasNoAnswerFlaw tree → IsFirstAnswerFlaw tree kind at → ⊥ }
    ensures alone { (tree : Tree) (kind other : Kind) (at place : ℕ) → IsFirstAnswerFlaw tree kind at → IsFirstAnswerFlaw tree other place
        → (kind ≡ other) × (at ≡ place) }
{}

/// A text with which nothing is wrong, neither by itself nor in what it says of answers, describes a service that keeps to what it has to by
/// itself.
pub fn flawless_texts_are_plain()
    ensures { (tree : Tree) → HasNoShapeFlaw tree → HasNoAnswerFlaw tree → is_plain (described_of_text tree) ≡ true }
{}
