// Locks.
ghost use Rattle.std.specs.Prelude.{◌≡◌, None};
ghost use Rattle.sg_facts.specs.Laws.{whole};
ghost use Rattle.sg_facts.specs.Legal.{answer, IsLegal};
ghost use Rattle.sg_facts.specs.Object.{object_of};
ghost use Rattle.sg_load.specs.Services.sg_lock.LockFacts.{lock_facts};
ghost use Rattle.sg_load.specs.Services.sg_lock.LockTable.{lock_table};
ghost use Rattle.test_histories.specs.Written.{ok, ok_at, with_reply};
ghost use Rattle.test_histories.specs.LockRows.{four_calls, one_takes, other_takes, release_wakes, both_own, lock_refusals, owner_alone};

/// A lock is made, taken, released and freed. The first id is 1, and not 2.
pub fn four_calls()
    ensures legal { IsLegal (whole lock_facts) lock_table four_calls }
    ensures wrong { IsLegal (whole lock_facts) lock_table (with_reply 0 (ok_at 2) four_calls) → ⊥ }
{}

/// A client that waits for a lock is answered after its release, and not before.
pub fn release_wakes()
    ensures legal { IsLegal (whole lock_facts) lock_table release_wakes }
    ensures waits { answer (whole lock_facts) lock_table (object_of lock_facts one_takes) other_takes ≡ None }
    ensures wrong { IsLegal (whole lock_facts) lock_table both_own → ⊥ }
{}

/// A client that waits for a lock which nobody releases stays blocked.
pub fn blocked()
    ensures legal { IsLegal (whole lock_facts) lock_table one_takes }
    ensures waits { answer (whole lock_facts) lock_table (object_of lock_facts one_takes) other_takes ≡ None }
    ensures wrong { IsLegal (whole lock_facts) lock_table both_own → ⊥ }
{}

/// The rows alone refuse a lock that there is none of, and a release of a free one.
pub fn lock_refusals()
    ensures legal { IsLegal (whole lock_facts) lock_table lock_refusals }
    ensures wrong { IsLegal (whole lock_facts) lock_table (with_reply 0 ok lock_refusals) → ⊥ }
{}

/// A lock is released by its owner alone, is taken once, and not freed while it is owned.
pub fn owner_alone()
    ensures legal { IsLegal (whole lock_facts) lock_table owner_alone }
    ensures wrong { IsLegal (whole lock_facts) lock_table (with_reply 2 ok owner_alone) → ⊥ }
{}
