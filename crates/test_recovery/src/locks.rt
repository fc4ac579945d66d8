// Runs of locks.
ghost use Rattle.std.specs.Prelude.{◌≡◌, ◌∷◌, [], false};
ghost use Rattle.test_recovery.specs.LockRuns.{lock_stubs, out_of_order, two_makers_ends, two_makers_history, point_asked_in_vain, rebuilt_for_take, another_id, boot_without_a_stop, asked_after_a_stop, reply_without_an_item, taken_twice, walk_from_its_middle, walk_by_another, walk_too_long, rebuilt_for_nobody, rebuilt_too_late, served_without_a_walk, half_a_walk, stop_at_another_number, point_left_out, rebuilt_needlessly, two_locks_ends, two_locks_history, stop_after_take, stop_after_take_ends, stop_after_take_history, stop_before_storage, stop_before_storage_ends, stop_before_storage_history, stop_in_walk, stop_in_walk_ends, stop_in_walk_history};
ghost use Rattle.sg_recovery_laws.specs.sg_hist.Recovered.{ArePointsOf, IsRecovered, struck_in, waiting};
ghost use Rattle.sg_recovery_laws.specs.sg_hist.Growing.{IsRecovering};
ghost use Rattle.test_histories.specs.Written.{entry, ok_at};
ghost use Rattle.test_recovery.specs.Written.{bare_call};

/// The service stops once a take is committed: the lock is made and taken again before its release.
pub fn stop_after_take()
    ensures recovered { IsRecovered lock_stubs stop_after_take_history stop_after_take (waiting stop_after_take_ends) }
{}

/// It stops before the take is committed: the lock is made again, and taken once.
pub fn stop_before_storage()
    ensures recovered { IsRecovered lock_stubs stop_before_storage_history stop_before_storage (waiting stop_before_storage_ends) }
{}

/// It stops again while the lock is rebuilt, and is rebuilt from the first call on.
pub fn stop_in_walk()
    ensures recovered { IsRecovered lock_stubs stop_in_walk_history stop_in_walk (waiting stop_in_walk_ends) }
    ensures struck { struck_in stop_in_walk ≡ 9 ∷ 15 ∷ [] }
{}

/// It doesn't recover where the service says another id than its table gives.
pub fn another_id()
    ensures wrong { IsRecovered lock_stubs stop_after_take_history another_id (waiting stop_after_take_ends) → ⊥ }
{}

/// It doesn't recover where the service is booted again, though it never stopped.
pub fn boot_without_a_stop()
    ensures wrong { IsRecovered lock_stubs stop_after_take_history boot_without_a_stop (waiting stop_after_take_ends) → ⊥ }
{}

/// It doesn't recover where the service is asked though it has stopped.
pub fn asked_after_a_stop()
    ensures wrong { IsRecovered lock_stubs stop_before_storage_history asked_after_a_stop (waiting stop_before_storage_ends) → ⊥ }
{}

/// It doesn't recover where the last reply was given without the service.
pub fn reply_without_an_item()
    ensures wrong { IsRecovered lock_stubs stop_after_take_history reply_without_an_item (waiting stop_after_take_ends) → ⊥ }
{}

/// It doesn't recover where a take that was committed is served again.
pub fn taken_twice()
    ensures wrong { IsRecovered lock_stubs stop_after_take_history taken_twice (waiting stop_after_take_ends) → ⊥ }
{}

/// It doesn't recover where a lock is taken again without being made.
pub fn walk_from_its_middle()
    ensures wrong { IsRecovered lock_stubs stop_after_take_history walk_from_its_middle (waiting stop_after_take_ends) → ⊥ }
{}

/// It doesn't recover where a lock is made again for another owner.
pub fn walk_by_another()
    ensures wrong { IsRecovered lock_stubs stop_after_take_history walk_by_another (waiting stop_after_take_ends) → ⊥ }
{}

/// It doesn't recover where a lock that is whole is taken once more.
pub fn walk_too_long()
    ensures wrong { IsRecovered lock_stubs stop_after_take_history walk_too_long (waiting stop_after_take_ends) → ⊥ }
{}

/// It doesn't recover where a lock is rebuilt for a client that has no call.
pub fn rebuilt_for_nobody()
    ensures wrong { IsRecovered lock_stubs stop_after_take_history rebuilt_for_nobody (waiting stop_after_take_ends) → ⊥ }
{}

/// It doesn't recover where a lock is rebuilt once nobody needs it any more.
pub fn rebuilt_too_late()
    ensures wrong { IsRecovered lock_stubs stop_after_take_history rebuilt_too_late (waiting stop_after_take_ends) → ⊥ }
{}

/// It doesn't recover where a release reaches a service that hasn't the lock.
pub fn served_without_a_walk()
    ensures wrong { IsRecovered lock_stubs stop_after_take_history served_without_a_walk (waiting stop_after_take_ends) → ⊥ }
{}

/// It doesn't recover where a release reaches a lock that was made and not taken.
pub fn half_a_walk()
    ensures wrong { IsRecovered lock_stubs stop_after_take_history half_a_walk (waiting stop_after_take_ends) → ⊥ }
{}

/// It doesn't recover where the first boot ends at a point that wasn't asked.
pub fn stop_at_another_number()
    ensures wrong { IsRecovered lock_stubs stop_after_take_history stop_at_another_number (waiting stop_after_take_ends) → ⊥ }
{}

/// It doesn't recover where an item has fewer points than its parts.
pub fn point_left_out()
    ensures wrong { IsRecovered lock_stubs stop_after_take_history point_left_out (waiting stop_after_take_ends) → ⊥ }
{}

/// It doesn't recover where a lock is rebuilt that the call doesn't need.
pub fn rebuilt_needlessly()
    ensures wrong { IsRecovered lock_stubs two_locks_history rebuilt_needlessly (waiting two_locks_ends) → ⊥ }
{}

/// It doesn't recover where two visible calls are served in another order than their entries have.
pub fn out_of_order()
    ensures wrong { IsRecovered lock_stubs two_makers_history out_of_order (waiting two_makers_ends) → ⊥ }
{}

/// A point that was asked in vain is told by the exact count, and allowed by the other.
pub fn point_asked_in_vain()
    ensures wrong { IsRecovered lock_stubs stop_after_take_history point_asked_in_vain (waiting stop_after_take_ends) → ⊥ }
    ensures counted { ArePointsOf false lock_stubs.interface.facts lock_stubs.ask lock_stubs.parts 0 point_asked_in_vain.boots point_asked_in_vain.points }
{}

/// A run recovers so far, shown step by step: a lock is made, the service stops and is booted again, and the lock is made again
/// for a take that isn't answered yet.
pub fn rebuilt_for_take()
    ensures recovering { IsRecovering lock_stubs (entry (bare_call 1 1 1 0) (ok_at 1) ∷ []) rebuilt_for_take (bare_call 1 2 2 1 ∷ []) }
{}
