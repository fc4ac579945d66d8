// Runs of threads.
ghost use Rattle.test_recovery.specs.SchedRuns.{sched_stubs, service_id_shown, shown_id_ends, shown_id_history, ranks_kept, ranks_kept_ends, ranks_kept_history, one_walk_two_clients, one_walk_two_clients_ends, one_walk_two_clients_history};
ghost use Rattle.sg_recovery_laws.specs.sg_hist.Recovered.{IsRecovered, waiting};

/// Threads come back under other ids of the service, with their ranks.
pub fn ranks_kept()
    ensures recovered { IsRecovered sched_stubs ranks_kept_history ranks_kept (waiting ranks_kept_ends) }
{}

/// Two clients rebuild one thread, each a call of its walk.
pub fn one_walk_two_clients()
    ensures recovered { IsRecovered sched_stubs one_walk_two_clients_history one_walk_two_clients (waiting one_walk_two_clients_ends) }
{}

/// It doesn't recover where a client is told the id of the service.
pub fn service_id_shown()
    ensures wrong { IsRecovered sched_stubs shown_id_history service_id_shown (waiting shown_id_ends) → ⊥ }
{}
