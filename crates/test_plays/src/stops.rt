// What plays with stops promise.
ghost use Rattle.std.specs.Prelude.{◌≡◌, [], false, true};
ghost use Rattle.test_recovery.specs.test_histories.sg_event.EventFacts.{event_facts};
ghost use Rattle.test_recovery.specs.test_histories.sg_event.EventTable.{event_table};
ghost use Rattle.test_recovery.specs.sg_facts.Laws.{whole};
ghost use Rattle.test_recovery.specs.test_histories.sg_lock.LockFacts.{lock_facts};
ghost use Rattle.test_recovery.specs.test_histories.sg_lock.LockTable.{lock_table};
ghost use Rattle.sg_plain.specs.Calls.{AreEnds};
ghost use Rattle.sg_plain.specs.Inside.Turns.{IsPlainPlay};
ghost use Rattle.sg_plain.specs.Inside.Kept.{somebody_waits};
ghost use Rattle.sg_plain.specs.Promises.{AreScriptsCalls, AreScriptsStops, AreWoken, FollowsPlain, IsSetupFirst};
ghost use Rattle.sg_plain.specs.Inside.Kept.{GetsPlainAlone};
ghost use Rattle.test_plays.specs.LockPlays.{four_lock_calls};
ghost use Rattle.test_plays.specs.StopPlays.{asked_in_vain, blocked_redone_script, call_left_out, calls_exchanged, setup_first, setup_first_history, setup_first_script, stop_after_take_script, stop_before_storage_script, stop_in_walk_script, taken_by_another, taken_by_another_history, taken_by_another_script, trigger_not_twice_script, turn_in_setup, wait_left_out};
ghost use Rattle.sg_multi.specs.sg_sim.sg_play.Asked.{AsksPlain};
ghost use Rattle.sg_multi.specs.sg_sim.sg_play.Following.Asking.{asked_by};
ghost use Rattle.test_recovery.specs.EventRuns.{blocked_redone, blocked_redone_ends, blocked_redone_history, trigger_not_twice, trigger_not_twice_ends, trigger_not_twice_history};
ghost use Rattle.test_recovery.specs.LockRuns.{boot_without_a_stop, stop_after_take, stop_after_take_ends, stop_after_take_history, stop_before_storage, stop_before_storage_history, stop_in_walk, stop_in_walk_history};

/// One client's four calls, with a stop after the second: it gets the play without stops.
pub fn stop_after_take()
    ensures calls { AreScriptsCalls lock_facts stop_after_take_script stop_after_take_history }
    ensures stops { AreScriptsStops stop_after_take_script stop_after_take }
    ensures ends { AreEnds (whole lock_facts) lock_table stop_after_take_history stop_after_take_script stop_after_take_ends }
    ensures done { somebody_waits stop_after_take_ends ≡ false }
    ensures plain { IsPlainPlay (whole lock_facts) lock_table stop_after_take_script stop_after_take_history }
    ensures follows { FollowsPlain lock_facts stop_after_take stop_after_take_history stop_after_take_history }
    ensures alone { GetsPlainAlone stop_after_take_script stop_after_take_history stop_after_take_history }
    ensures woken { AreWoken lock_facts stop_after_take_history stop_after_take }
{}

/// The same calls, with a stop before the take is committed.
pub fn stop_before_storage()
    ensures calls { AreScriptsCalls lock_facts stop_before_storage_script stop_before_storage_history }
    ensures stops { AreScriptsStops stop_before_storage_script stop_before_storage }
    ensures plain { IsPlainPlay (whole lock_facts) lock_table stop_before_storage_script stop_before_storage_history }
    ensures alone { GetsPlainAlone stop_before_storage_script stop_before_storage_history stop_before_storage_history }
{}

/// The same calls, with two stops.
pub fn stop_in_walk()
    ensures calls { AreScriptsCalls lock_facts stop_in_walk_script stop_in_walk_history }
    ensures stops { AreScriptsStops stop_in_walk_script stop_in_walk }
    ensures plain { IsPlainPlay (whole lock_facts) lock_table stop_in_walk_script stop_in_walk_history }
    ensures alone { GetsPlainAlone stop_in_walk_script stop_in_walk_history stop_in_walk_history }
{}

/// Two clients, one of which waits at the end.
pub fn trigger_not_twice()
    ensures calls { AreScriptsCalls event_facts trigger_not_twice_script trigger_not_twice_history }
    ensures stops { AreScriptsStops trigger_not_twice_script trigger_not_twice }
    ensures ends { AreEnds (whole event_facts) event_table trigger_not_twice_history trigger_not_twice_script trigger_not_twice_ends }
    ensures waits { somebody_waits trigger_not_twice_ends ≡ true }
    ensures plain { IsPlainPlay (whole event_facts) event_table trigger_not_twice_script trigger_not_twice_history }
    ensures follows { FollowsPlain event_facts trigger_not_twice trigger_not_twice_history trigger_not_twice_history }
    ensures woken { AreWoken event_facts trigger_not_twice_history trigger_not_twice }
{}

/// A setup call, and a client that waits when the service stops.
pub fn blocked_redone()
    ensures calls { AreScriptsCalls event_facts blocked_redone_script blocked_redone_history }
    ensures stops { AreScriptsStops blocked_redone_script blocked_redone }
    ensures ends { AreEnds (whole event_facts) event_table blocked_redone_history blocked_redone_script blocked_redone_ends }
    ensures done { somebody_waits blocked_redone_ends ≡ false }
    ensures plain { IsPlainPlay (whole event_facts) event_table blocked_redone_script blocked_redone_history }
    ensures follows { FollowsPlain event_facts blocked_redone blocked_redone_history blocked_redone_history }
    ensures woken { AreWoken event_facts blocked_redone_history blocked_redone }
    ensures setup { IsSetupFirst blocked_redone_script blocked_redone_history blocked_redone }
{}

/// A client that waits twice in one boot, as another took what woke it.
pub fn taken_by_another()
    ensures calls { AreScriptsCalls event_facts taken_by_another_script taken_by_another_history }
    ensures stops { AreScriptsStops taken_by_another_script taken_by_another }
    ensures plain { IsPlainPlay (whole event_facts) event_table taken_by_another_script taken_by_another_history }
    ensures follows { FollowsPlain event_facts taken_by_another taken_by_another_history taken_by_another_history }
    ensures asks { AsksPlain taken_by_another (asked_by (whole event_facts) event_table taken_by_another_script 9) }
    ensures woken { AreWoken event_facts taken_by_another_history taken_by_another }
{}

/// Two setup calls, and a client that waits once both are done.
pub fn setup_first()
    ensures calls { AreScriptsCalls event_facts setup_first_script setup_first_history }
    ensures setup { IsSetupFirst setup_first_script setup_first_history setup_first }
    ensures stops { AreScriptsStops setup_first_script setup_first }
    ensures plain { IsPlainPlay (whole event_facts) event_table setup_first_script setup_first_history }
    ensures follows { FollowsPlain event_facts setup_first setup_first_history setup_first_history }
    ensures asks { AsksPlain setup_first (asked_by (whole event_facts) event_table setup_first_script 9) }
    ensures woken { AreWoken event_facts setup_first_history setup_first }
{}

/// The client waits in the middle of the setup: the history is the same, so that nothing but the promise of the setup tells it, and where the
/// turns are those of the play without stops what that asks.
pub fn turn_in_setup()
    ensures stops { AreScriptsStops setup_first_script turn_in_setup }
    ensures follows { FollowsPlain event_facts turn_in_setup setup_first_history setup_first_history }
    ensures woken { AreWoken event_facts setup_first_history turn_in_setup }
    ensures not_first { IsSetupFirst setup_first_script setup_first_history turn_in_setup → ⊥ }
    ensures not_asked { AsksPlain turn_in_setup (asked_by (whole event_facts) event_table setup_first_script 9) → ⊥ }
{}

/// A wait is left out of the run: all else is as it was.
pub fn wait_left_out()
    ensures setup { IsSetupFirst setup_first_script setup_first_history wait_left_out }
    ensures follows { FollowsPlain event_facts wait_left_out setup_first_history setup_first_history }
    ensures woken { AreWoken event_facts setup_first_history wait_left_out }
    ensures not_asked { AsksPlain wait_left_out (asked_by (whole event_facts) event_table setup_first_script 9) → ⊥ }
{}

/// What no play may come to: calls in another order than the script's, or one left out; a setup whose calls aren't all done; a stop that the script doesn't have, or one of
/// its stops left out; a client that is done although a call of its isn't answered; another history than the play's, of a client that
/// is alone; and a call that waits twice in a boot though nobody woke it.
pub fn wrong_plays()
    ensures exchanged { AreScriptsCalls lock_facts four_lock_calls calls_exchanged → ⊥ }
    ensures left_out { AreScriptsCalls lock_facts four_lock_calls call_left_out → ⊥ }
    ensures not_set_up { IsSetupFirst blocked_redone_script [] blocked_redone → ⊥ }
    ensures no_such_stop { AreScriptsStops four_lock_calls stop_after_take → ⊥ }
    ensures not_stopped { AreScriptsStops stop_after_take_script boot_without_a_stop → ⊥ }
    ensures not_done { AreEnds (whole lock_facts) lock_table call_left_out four_lock_calls stop_after_take_ends → ⊥ }
    ensures no_plain { FollowsPlain lock_facts boot_without_a_stop call_left_out stop_after_take_history → ⊥ }
    ensures other_first_boot { FollowsPlain lock_facts stop_after_take stop_after_take_history [] → ⊥ }
    ensures not_alone { GetsPlainAlone stop_after_take_script call_left_out stop_after_take_history → ⊥ }
    ensures not_woken { AreWoken event_facts taken_by_another_history asked_in_vain → ⊥ }
{}
