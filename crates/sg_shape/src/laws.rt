// Laws of the definitions.
ghost use Rattle.std.specs.Prelude.{◌≡◌, ◌⊎◌, ℕ, true, [], ◌∷◌};
ghost use Rattle.sg_check_statements.specs.sg_facts.Allowed.{is_allowed};
ghost use Rattle.sg_check_statements.specs.Faults.{IsFault};
ghost use Rattle.sg_check_statements.specs.Shapes.{is_shape};
ghost use Rattle.sg_check_statements.specs.declared.fault.CheckKind.{CheckKind};
ghost use Rattle.sg_check_statements.specs.declared.fault.CheckKind.TheVariants.{NoCreation, Unreached, NoWalk};
ghost use Rattle.sg_check_statements.specs.sg_parse.declared.tree.Tree.{Tree};
ghost use Rattle.sg_shape.specs.declared.fault.ShapeFaultKind.{ShapeFaultKind as Kind};
ghost use Rattle.sg_shape.specs.Faults.{HasNoShapeFlaw, IsFirstShapeFlaw};
ghost use Rattle.sg_shape.specs.ShapeOfText.{shape_of_text};

/// Either nothing is wrong with a text by itself, or one thing is first wrong, at one place; and not both.
pub fn one_verdict()
    ensures some { (tree : Tree) → HasNoShapeFlaw tree ⊎ ((kind : Kind) × (at : ℕ) × IsFirstShapeFlaw tree kind at) }
    ensures not_both { (tree : Tree) (kind : Kind) (at : ℕ) → HasNoShapeFlaw tree → IsFirstShapeFlaw tree kind at → ⊥ }
    ensures alone { (tree : Tree) (kind other : Kind) (at place : ℕ) → IsFirstShapeFlaw tree kind at → IsFirstShapeFlaw tree other place
        → (kind ≡ other) × (at ≡ place) }
{}

/// The shape of a text with which nothing is wrong by itself is within the limits, names its own functions, and keeps to what every shape
/// keeps to.
pub fn flawless_shapes()
    ensures fits { (tree : Tree) → HasNoShapeFlaw tree → is_shape (shape_of_text tree) ≡ true }
    ensures allowed { (tree : Tree) → HasNoShapeFlaw tree → is_allowed (shape_of_text tree) ≡ true }
{}

/// A text with which nothing is wrong by itself is what its shape says: checked against that, it has no other faults than those that speak of
/// what descriptors come to.
pub fn own_texts_fit()
    ensures { (tree : Tree) (kind : CheckKind) (at : ℕ) → HasNoShapeFlaw tree → IsFault (shape_of_text tree ∷ []) tree kind at
        → (kind ≡ NoCreation) ⊎ ((kind ≡ Unreached) ⊎ (kind ≡ NoWalk)) }
{}
