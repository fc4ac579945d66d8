// Runs of locks under an interface that rebuilds every lock before any call is served.
ghost use Rattle.test_recovery.specs.EagerRuns.{both_rebuilt, eager_ends, eager_history, eager_stubs, one_rebuilt, second_first};
ghost use Rattle.test_recovery.specs.LockRuns.{lock_stubs};
ghost use Rattle.sg_recovery_laws.specs.sg_hist.Recovered.{IsRecovered, waiting};

/// Both locks are rebuilt before the release of the first is served.
pub fn both_rebuilt()
    ensures recovered { IsRecovered eager_stubs eager_history both_rebuilt (waiting eager_ends) }
{}

/// It doesn't recover where the second lock is left out; under an interface that rebuilds a lock when a call needs it, it does.
pub fn one_rebuilt()
    ensures wrong { IsRecovered eager_stubs eager_history one_rebuilt (waiting eager_ends) → ⊥ }
    ensures recovered { IsRecovered lock_stubs eager_history one_rebuilt (waiting eager_ends) }
{}

/// It doesn't recover where the second lock is rebuilt before the first.
pub fn second_first()
    ensures wrong { IsRecovered eager_stubs eager_history second_first (waiting eager_ends) → ⊥ }
{}
