// Plays over several services.
ghost use Rattle.std.specs.Prelude.{ℕ, ◌≡◌, [], ◌∷◌, take};
ghost use Rattle.sg_multi.specs.Calls.{setup_at};
ghost use Rattle.sg_multi.specs.Ends.{IsWaiting};
ghost use Rattle.sg_multi.specs.Played.{IsAskedInTurn};
ghost use Rattle.sg_plain.specs.Promises.{IsSetupFirst};
ghost use Rattle.sg_plain.specs.sg_hist.Reading.{places_of};
ghost use Rattle.test_recovery.specs.EventRuns.{event_stubs};
ghost use Rattle.test_recovery.specs.LockRuns.{lock_stubs};
ghost use Rattle.test_recovery.specs.sg_facts.sg_base.Lists.{Each};
ghost use Rattle.test_recovery.specs.test_histories.sg_event.EventFacts.{event_facts};
ghost use Rattle.test_plays.specs.LockPlays.{lock_call};
ghost use Rattle.test_plays.specs.SeveralPlays.{CameTo, entries_after, in_turn, lock_taken, one_lock, one_taken, out_of_turn, out_of_turn_run, second_makes_first, setup_of_two, take_then_wait, taken_then_waited, two_takes, waited_early, waited_in_turn};
ghost use Rattle.test_plays.specs.StopPlays.{setup_first as waits_behind_setup, setup_first_history, turn_in_setup};

/// A client that waits does so in its next call, under that call's own number.
pub fn waits_by_number()
    ensures waits { IsWaiting (lock_stubs ∷ []) one_taken two_takes 2 1 (lock_call 2 1 2 1) }
    ensures wrong { IsWaiting (lock_stubs ∷ []) one_taken two_takes 2 1 (lock_call 2 7 2 1) → ⊥ }
{}

/// The setup's calls of a member come first in its trace: no play has another client's wait in the middle of them.
pub fn setup_at_member()
    ensures first { IsSetupFirst (setup_at 2 setup_of_two) setup_first_history waits_behind_setup }
    ensures wrong { CameTo (lock_stubs ∷ event_stubs ∷ []) setup_of_two (one_lock ∷ turn_in_setup ∷ []) → ⊥ }
{}

/// Until a member stops, turns are those of the schedule: no play has them in another order, where the service stops after them.
pub fn turns_until_a_stop()
    ensures begins { (n : ℕ) → take n in_turn ≡ take n (entries_after (lock_stubs ∷ []) second_makes_first 3) }
    ensures wrong { (c : CameTo (lock_stubs ∷ []) second_makes_first (out_of_turn_run ∷ [])) → c.play.merged ≡ out_of_turn → ⊥ }
{}

/// A client makes its calls one after the other, at whichever member: no play has it wait at one member before it made an earlier call at another.
pub fn earlier_calls_first()
    ensures asked { Each (λ p. IsAskedInTurn event_facts taken_then_waited 2 p p.item.tag) (places_of waited_in_turn) }
    ensures wrong { (c : CameTo (lock_stubs ∷ event_stubs ∷ []) take_then_wait (lock_taken ∷ waited_early ∷ [])) → c.play.merged ≡ taken_then_waited → ⊥ }
{}
