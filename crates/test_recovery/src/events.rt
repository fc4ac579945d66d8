// Runs of events.
ghost use Rattle.test_recovery.specs.EventRuns.{event_stubs, earlier_value, trigger_not_twice, trigger_not_twice_ends, trigger_not_twice_history, present_value, present_value_ends, present_value_history, blocked_redone, blocked_redone_ends, blocked_redone_history};
ghost use Rattle.sg_recovery_laws.specs.sg_hist.Recovered.{IsRecovered, waiting};

/// A trigger is committed before the stop, and the other client gets its count once.
pub fn trigger_not_twice()
    ensures recovered { IsRecovered event_stubs trigger_not_twice_history trigger_not_twice (waiting trigger_not_twice_ends) }
{}

/// An event comes back with the count that is left, and not with the one that was triggered.
pub fn present_value()
    ensures recovered { IsRecovered event_stubs present_value_history present_value (waiting present_value_ends) }
{}

/// A client is blocked when the service stops, and its call is done again.
pub fn blocked_redone()
    ensures recovered { IsRecovered event_stubs blocked_redone_history blocked_redone (waiting blocked_redone_ends) }
{}

/// It doesn't recover where an event comes back with the count that was triggered.
pub fn earlier_value()
    ensures wrong { IsRecovered event_stubs present_value_history earlier_value (waiting present_value_ends) → ⊥ }
{}
