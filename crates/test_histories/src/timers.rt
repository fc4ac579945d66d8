// Timers.
ghost use Rattle.std.specs.Prelude.{◌≡◌, None};
ghost use Rattle.sg_facts.specs.Laws.{whole};
ghost use Rattle.sg_facts.specs.Legal.{answer, IsLegal};
ghost use Rattle.sg_facts.specs.Object.{object_of};
ghost use Rattle.sg_load.specs.Services.sg_timer.TimerFacts.{timer_facts};
ghost use Rattle.sg_load.specs.Services.sg_timer.TimerTable.{timer_table};
ghost use Rattle.test_histories.specs.Written.{ok_with, with_reply};
ghost use Rattle.test_histories.specs.TimerRows.{due, not_due, timer_refusals, two_run, waits_for_it};

/// No timer is first where there is none; a period above the greatest, a tag that a live timer has, and an end by another client are
/// refused; and no client says when a timer is due.
pub fn timer_refusals()
    ensures legal { IsLegal (whole timer_facts) timer_table timer_refusals }
    ensures wrong { IsLegal (whole timer_facts) timer_table (with_reply 3 (ok_with 2 2) timer_refusals) → ⊥ }
{}

/// A client that waits for a timer is answered once its clock has come to the time at which it is due, and not before. It is put off by a
/// period then, and by as many as take it past its clock where a client skips it.
pub fn due()
    ensures legal { IsLegal (whole timer_facts) timer_table due }
    ensures waits { answer (whole timer_facts) timer_table (object_of timer_facts two_run) waits_for_it ≡ None }
    ensures wrong { IsLegal (whole timer_facts) timer_table not_due → ⊥ }
{}
