// Locks and events that texts describe answer what the built-in ones do.
ghost use Rattle.std.specs.Prelude.{◌≡◌, true};
ghost use Rattle.sg_describe.specs.DescribedText.{described_of_text};
ghost use Rattle.sg_describe.specs.sg_described.Safe.{is_safe};
ghost use Rattle.sg_load.specs.declared.kind.ServiceKind.TheVariants.{Events, Locks};
ghost use Rattle.test_own.specs.OwnTexts.{AnswersAs, own_event_tree, own_lock_tree};

/// Locks that a text describes are safe, and answer what the built-in ones do.
pub fn own_locks()
    ensures safe { is_safe (described_of_text own_lock_tree) ≡ true }
    ensures answers { AnswersAs (described_of_text own_lock_tree) Locks }
{}

/// Events that a text describes are safe, and answer what the built-in ones do.
pub fn own_events()
    ensures safe { is_safe (described_of_text own_event_tree) ≡ true }
    ensures answers { AnswersAs (described_of_text own_event_tree) Events }
{}
