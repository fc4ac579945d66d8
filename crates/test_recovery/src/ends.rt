// Runs that end as none may, or whose calls are under way at the wrong time.
ghost use Rattle.std.specs.Prelude.{◌∷◌, ◌-◌, [], true};
ghost use Rattle.test_histories.specs.sg_facts.sg_base.Counts.{last_count};
ghost use Rattle.sg_recovery_laws.specs.sg_hist.Recovered.{ArePointsOf, IsRecovered, waiting};
ghost use Rattle.sg_recovery_laws.specs.sg_hist.Ending.{AreLost, HasRecovered};
ghost use Rattle.test_recovery.specs.LockRuns.{lock_stubs};
ghost use Rattle.test_recovery.specs.RamfsRuns.{held_late, held_late_history, held_lost, held_lost_history, ramfs_stubs};
ghost use Rattle.test_recovery.specs.EndRuns.{asked_early, asked_late, both_opened, counted_for_nothing, held_asked_twice, held_seek, load_shows_a_call, made_at_the_end, other_waits, refused_early, refused_late, slept_over_reboot, sought_and_read, sought_at_last, sought_ends, stopped_after, stopped_idle, stopped_unasked, stopped_unused, take_after_refusal, taken_and_held, waits_again, waits_asked, waits_unasked, written_and_read};
ghost use Rattle.test_recovery.specs.StrictRuns.{one_made, one_made_ends, one_taken};

/// A run that ended hasn't recovered where a client waits in a call that the service was never asked for, though the run recovers so far.
pub fn waits_unasked()
    ensures wrong { HasRecovered lock_stubs one_taken waits_unasked other_waits → ⊥ }
    ensures recovered { IsRecovered lock_stubs one_taken waits_unasked (waiting other_waits) }
{}

/// It has recovered where the service was asked for it.
pub fn waits_asked()
    ensures recovered { HasRecovered lock_stubs one_taken waits_asked other_waits }
{}

/// It hasn't recovered where a client that had to wait is left asleep over a reboot.
pub fn slept_over_reboot()
    ensures wrong { HasRecovered lock_stubs taken_and_held slept_over_reboot other_waits → ⊥ }
{}

/// It hasn't recovered where the service stops though no call asks, and is booted only for who has to wait again, though the run recovers
/// so far.
pub fn waits_again()
    ensures wrong { HasRecovered lock_stubs one_taken waits_again other_waits → ⊥ }
    ensures recovered { IsRecovered lock_stubs one_taken waits_again (waiting other_waits) }
{}

/// It has recovered where the service stops as it is about to be used for a call that then has to wait.
pub fn stopped_idle()
    ensures recovered { HasRecovered lock_stubs one_taken stopped_idle other_waits }
{}

/// It hasn't recovered where the last boot stops at a point that no call asked, though the run recovers so far.
pub fn stopped_unasked()
    ensures wrong { HasRecovered lock_stubs one_made stopped_unasked one_made_ends → ⊥ }
    ensures recovered { IsRecovered lock_stubs one_made stopped_unasked [] }
{}

/// It hasn't recovered where a boot more is empty but for a stop.
pub fn stopped_unused()
    ensures wrong { HasRecovered lock_stubs one_made stopped_unused one_made_ends → ⊥ }
{}

/// It hasn't recovered where a call is asked for again though its reply is held, though the run recovers so far.
pub fn held_asked_twice()
    ensures wrong { HasRecovered ramfs_stubs sought_and_read held_asked_twice sought_ends → ⊥ }
    ensures recovered { IsRecovered ramfs_stubs sought_and_read held_asked_twice (waiting sought_ends) }
{}

/// It doesn't recover where a reply that was held as the service stopped right after a commit is an entry's after that. Where it is no
/// entry's, the run recovers.
pub fn committed_after_stop()
    ensures wrong { IsRecovered ramfs_stubs sought_at_last stopped_after [] → ⊥ }
    ensures recovered { IsRecovered ramfs_stubs both_opened stopped_after (held_seek ∷ []) }
    ensures lost { AreLost both_opened [] stopped_after.boots }
{}

/// A reply that a stop took may be no entry's, and one that was held until its entry is its.
pub fn held_or_lost()
    ensures lost { AreLost held_lost_history [] held_lost.boots }
    ensures held { AreLost held_late_history [] held_late.boots }
{}

/// A run doesn't recover that counts all points where none was asked, and the count of points stands still at its end.
pub fn counted_to_the_end()
    ensures wrong { IsRecovered lock_stubs [] counted_for_nothing [] → ⊥ }
    ensures still { ArePointsOf true lock_stubs.interface.facts lock_stubs.ask lock_stubs.parts (last_count - 1) made_at_the_end last_count }
{}

/// A run doesn't recover where the service is asked for a call that the guard had refused before.
pub fn asked_late()
    ensures wrong { IsRecovered lock_stubs refused_early asked_late [] → ⊥ }
{}

/// It doesn't recover where the service is asked for a call before the guard refused its client's earlier one.
pub fn asked_early()
    ensures wrong { IsRecovered lock_stubs refused_late asked_early (take_after_refusal ∷ []) → ⊥ }
{}

/// It doesn't recover where a load shows a client's call.
pub fn load_shows_a_call()
    ensures wrong { IsRecovered ramfs_stubs written_and_read load_shows_a_call [] → ⊥ }
{}
