// Events.
ghost use Rattle.std.specs.Prelude.{◌≡◌, None};
ghost use Rattle.sg_facts.specs.Laws.{whole};
ghost use Rattle.sg_facts.specs.Legal.{answer, IsLegal};
ghost use Rattle.sg_facts.specs.Object.{object_of};
ghost use Rattle.sg_load.specs.Services.sg_event.EventFacts.{event_facts};
ghost use Rattle.sg_load.specs.Services.sg_event.EventTable.{event_table};
ghost use Rattle.test_histories.specs.Written.{ok, with_reply};
ghost use Rattle.test_histories.specs.EventRows.{overflow, one_waits, waits_again, both_waits};

/// A trigger that takes a count past the greatest 32-bit number is refused.
pub fn overflow()
    ensures legal { IsLegal (whole event_facts) event_table overflow }
    ensures wrong { IsLegal (whole event_facts) event_table (with_reply 2 ok overflow) → ⊥ }
{}

/// A trigger of one lets one wait go on, and the next is blocked.
pub fn one_waits()
    ensures legal { IsLegal (whole event_facts) event_table one_waits }
    ensures waits { answer (whole event_facts) event_table (object_of event_facts one_waits) waits_again ≡ None }
    ensures wrong { IsLegal (whole event_facts) event_table both_waits → ⊥ }
{}
