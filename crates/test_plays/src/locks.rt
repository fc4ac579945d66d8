// Plays of locks.
ghost use Rattle.test_recovery.specs.sg_facts.Laws.{whole};
ghost use Rattle.test_recovery.specs.test_histories.sg_lock.LockFacts.{lock_facts};
ghost use Rattle.test_recovery.specs.test_histories.sg_lock.LockTable.{lock_table};
ghost use Rattle.sg_plain.specs.Calls.{AreEnds};
ghost use Rattle.test_plays.specs.LockPlays.{both_done, four_lock_calls, four_lock_calls_history, own_backs, own_backs_history, wait_and_wake, wait_and_wake_history, second_blocked, second_first, second_first_history, stays_blocked, stays_blocked_history};
ghost use Rattle.sg_plain.specs.Inside.Turns.{IsPlainPlay};

/// One client makes four calls, one after the other.
pub fn four_lock_calls()
    ensures play { IsPlainPlay (whole lock_facts) lock_table four_lock_calls four_lock_calls_history }
{}

/// A client that waits for a lock is answered after its release; both are done.
pub fn wait_and_wake()
    ensures play { IsPlainPlay (whole lock_facts) lock_table wait_and_wake wait_and_wake_history }
    ensures ends { AreEnds (whole lock_facts) lock_table wait_and_wake_history wait_and_wake both_done }
{}

/// A client that waits for a lock which nobody releases stays blocked, and isn't done.
pub fn stays_blocked()
    ensures play { IsPlainPlay (whole lock_facts) lock_table stays_blocked stays_blocked_history }
    ensures ends { AreEnds (whole lock_facts) lock_table stays_blocked_history stays_blocked second_blocked }
    ensures wrong { AreEnds (whole lock_facts) lock_table stays_blocked_history stays_blocked both_done → ⊥ }
{}

/// The schedule lets the other client come first.
pub fn second_first()
    ensures play { IsPlainPlay (whole lock_facts) lock_table second_first second_first_history }
{}

/// A client's `$1` is what its own first call was given.
pub fn own_backs()
    ensures play { IsPlainPlay (whole lock_facts) lock_table own_backs own_backs_history }
{}
