// Runs of timers.
ghost use Rattle.test_recovery.specs.TimerRuns.{timer_stubs, time_kept, time_kept_ends, time_kept_history, waited_unset};
ghost use Rattle.sg_recovery_laws.specs.sg_hist.Recovered.{IsRecovered, waiting};

/// A timer comes back with its clock and with when it is due.
pub fn time_kept()
    ensures recovered { IsRecovered timer_stubs time_kept_history time_kept (waiting time_kept_ends) }
{}

/// It doesn't recover where a timer is waited for before it is set when it is due.
pub fn waited_unset()
    ensures wrong { IsRecovered timer_stubs time_kept_history waited_unset (waiting time_kept_ends) → ⊥ }
{}
