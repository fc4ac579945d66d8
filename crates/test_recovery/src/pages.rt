// Runs of pages.
ghost use Rattle.test_recovery.specs.MmRuns.{mm_stubs, child_first, parent_first, parent_first_ends, parent_first_history, occupied_after_stop, occupied_after_stop_ends, occupied_after_stop_history, subtree, subtree_ends, subtree_history};
ghost use Rattle.sg_recovery_laws.specs.sg_hist.Recovered.{IsRecovered, waiting};

/// A page is rebuilt after the page that it was made from.
pub fn parent_first()
    ensures recovered { IsRecovered mm_stubs parent_first_history parent_first (waiting parent_first_ends) }
{}

/// A page that the service lost still has its address.
pub fn occupied_after_stop()
    ensures recovered { IsRecovered mm_stubs occupied_after_stop_history occupied_after_stop (waiting occupied_after_stop_ends) }
{}

/// A page goes with the pages made from it, of which one was never rebuilt.
pub fn subtree()
    ensures recovered { IsRecovered mm_stubs subtree_history subtree (waiting subtree_ends) }
{}

/// It doesn't recover where a page is rebuilt before the page that it was made from.
pub fn child_first()
    ensures wrong { IsRecovered mm_stubs parent_first_history child_first (waiting parent_first_ends) → ⊥ }
{}
