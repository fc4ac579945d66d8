// Threads.
ghost use Rattle.std.specs.Prelude.{◌≡◌, None};
ghost use Rattle.sg_facts.specs.Laws.{whole};
ghost use Rattle.sg_facts.specs.Legal.{answer, IsLegal};
ghost use Rattle.sg_facts.specs.Object.{object_of};
ghost use Rattle.sg_load.specs.Services.sg_sched.SchedFacts.{sched_facts};
ghost use Rattle.sg_load.specs.Services.sg_sched.SchedTable.{sched_table};
ghost use Rattle.test_histories.specs.Written.{ok, ok_at, with_reply};
ghost use Rattle.test_histories.specs.SchedRows.{thread_refusals, queue, one_sleeps, waits_for_it, woken, not_woken};

/// No thread is next where there is none, and no client gives a thread its rank.
pub fn thread_refusals()
    ensures legal { IsLegal (whole sched_facts) sched_table thread_refusals }
    ensures wrong { IsLegal (whole sched_facts) sched_table (with_reply 0 ok thread_refusals) → ⊥ }
{}

/// The thread with the least rank is next, and a yield gives the greatest.
pub fn queue()
    ensures legal { IsLegal (whole sched_facts) sched_table queue }
    ensures wrong { IsLegal (whole sched_facts) sched_table (with_reply 5 (ok_at 2) queue) → ⊥ }
{}

/// A client that waits for a sleeping thread is answered after its wake-up, and not before.
pub fn woken()
    ensures legal { IsLegal (whole sched_facts) sched_table woken }
    ensures waits { answer (whole sched_facts) sched_table (object_of sched_facts one_sleeps) waits_for_it ≡ None }
    ensures wrong { IsLegal (whole sched_facts) sched_table not_woken → ⊥ }
{}
