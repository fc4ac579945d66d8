// Runs of files.
ghost use Rattle.test_recovery.specs.RamfsRuns.{ramfs_stubs, loaded_twice, file_loaded, file_loaded_ends, file_loaded_history, held_late, held_late_ends, held_late_history, held_lost, held_lost_ends, held_lost_history};
ghost use Rattle.sg_recovery_laws.specs.sg_hist.Recovered.{IsRecovered, waiting};

/// A file that was written before the stop is loaded before it is read.
pub fn file_loaded()
    ensures recovered { IsRecovered ramfs_stubs file_loaded_history file_loaded (waiting file_loaded_ends) }
{}

/// A reply that wasn't committed is lost with the service, and its call is done again.
pub fn held_lost()
    ensures recovered { IsRecovered ramfs_stubs held_lost_history held_lost (waiting held_lost_ends) }
{}

/// A reply that others don't see is committed after a creation that was asked for later.
pub fn held_late()
    ensures recovered { IsRecovered ramfs_stubs held_late_history held_late (waiting held_late_ends) }
{}

/// It doesn't recover where a file is loaded that was loaded in this boot.
pub fn loaded_twice()
    ensures wrong { IsRecovered ramfs_stubs file_loaded_history loaded_twice (waiting file_loaded_ends) → ⊥ }
{}
