// Runs that one part alone refuses.
ghost use Rattle.std.specs.Prelude.{◌∷◌, []};
ghost use Rattle.sg_recovery_laws.specs.sg_hist.Recovered.{IsRecovered};
ghost use Rattle.sg_recovery_laws.specs.sg_hist.Ending.{HasRecovered};
ghost use Rattle.test_recovery.specs.EventRuns.{event_stubs};
ghost use Rattle.test_recovery.specs.LockRuns.{lock_stubs};
ghost use Rattle.test_recovery.specs.RamfsRuns.{ramfs_stubs};
ghost use Rattle.test_recovery.specs.StrictRuns.{double_stubs, empty_boot_more, first_wait, free_of_taken, free_released, free_stopped_late, late_read, late_read_history, late_seek, late_seek_history, long_stubs, made_and_stopped, no_boot, one_event, one_made, one_made_ends, one_taken, other_take, rebuilt_for_refused, refusal_stopped_late, refused_at_once, refused_was_asked, second_take, seek_before_write, seek_then_write, stopped_where_blocked, two_boots_more, wait_stopped, write_before_seek, write_then_seek};

/// It doesn't recover where a client's seek is served before its own earlier write: its file would be another in the service than in the history.
pub fn seek_before_write()
    ensures wrong { IsRecovered ramfs_stubs write_then_seek seek_before_write [] → ⊥ }
{}

/// It doesn't recover where a client's write is served before its own earlier seek.
pub fn write_before_seek()
    ensures wrong { IsRecovered ramfs_stubs seek_then_write write_before_seek [] → ⊥ }
{}

/// It doesn't recover where the service was asked for a call that the guard refuses.
pub fn refused_was_asked()
    ensures wrong { IsRecovered lock_stubs free_released refused_was_asked [] → ⊥ }
{}

/// It doesn't recover where a lock is rebuilt for a call that the guard refuses.
pub fn rebuilt_for_refused()
    ensures wrong { IsRecovered lock_stubs free_released rebuilt_for_refused [] → ⊥ }
{}

/// It doesn't recover where the service stopped within a take that would have to wait.
pub fn stopped_where_blocked()
    ensures wrong { IsRecovered lock_stubs one_taken stopped_where_blocked (other_take ∷ []) → ⊥ }
{}

/// It doesn't recover where the service stopped within a wait that would block.
pub fn wait_stopped()
    ensures wrong { IsRecovered event_stubs one_event wait_stopped (first_wait ∷ []) → ⊥ }
{}

/// It doesn't recover where the service stopped within a take that would be refused, at a point that only an Ok has.
pub fn refusal_stopped_late()
    ensures wrong { IsRecovered lock_stubs one_taken refusal_stopped_late (second_take ∷ []) → ⊥ }
{}

/// It doesn't recover where the service stopped so within a call that would free a lock that is owned.
pub fn free_stopped_late()
    ensures wrong { IsRecovered lock_stubs one_taken free_stopped_late (free_of_taken ∷ []) → ⊥ }
{}

/// It doesn't recover where a seek's reply, held when the service stopped, is committed in a later boot.
pub fn late_seek()
    ensures wrong { IsRecovered ramfs_stubs late_seek_history late_seek [] → ⊥ }
{}

/// It doesn't recover where a read's reply is committed so.
pub fn late_read()
    ensures wrong { IsRecovered ramfs_stubs late_read_history late_read [] → ⊥ }
{}

/// It doesn't recover where the trace has no boot.
pub fn no_boot()
    ensures wrong { IsRecovered lock_stubs [] no_boot [] → ⊥ }
{}

/// It doesn't recover so where the guard refused a call, either.
pub fn no_boot_for_a_refusal()
    ensures wrong { IsRecovered lock_stubs refused_at_once no_boot [] → ⊥ }
{}

/// A run that ended hasn't recovered where the service was booted once more for nothing, though the run recovers so far.
pub fn empty_boot_more()
    ensures wrong { HasRecovered lock_stubs one_made empty_boot_more one_made_ends → ⊥ }
    ensures recovered { IsRecovered lock_stubs one_made empty_boot_more [] }
{}

/// A run that ended hasn't recovered where it was booted so after a second stop.
pub fn two_boots_more()
    ensures wrong { HasRecovered lock_stubs one_made two_boots_more one_made_ends → ⊥ }
{}

/// A run that ended hasn't recovered where the stubs have another walk than their interface's.
pub fn other_walk()
    ensures wrong { HasRecovered long_stubs one_made made_and_stopped one_made_ends → ⊥ }
{}

/// A run that ended hasn't recovered where the stubs' lines aren't ascending.
pub fn line_twice()
    ensures wrong { HasRecovered double_stubs one_made made_and_stopped one_made_ends → ⊥ }
{}

/// A run that ended has recovered, where the lock service stops once a lock is made, and nobody calls it again: the walks are those of
/// the tables of its interface.
pub fn made_and_stopped()
    ensures recovered { HasRecovered lock_stubs one_made made_and_stopped one_made_ends }
{}
