// Laws of what the program reads.
ghost use Rattle.std.specs.Prelude.{ℕ, List, Ok as done};
ghost use Rattle.sg_multi.specs.sg_facts.Interface.{Declared};
ghost use Rattle.sg_multi.specs.sg_facts.declared.entry.Entry.{Entry};
ghost use Rattle.sg_judge.specs.sg_input.sg_entries.Entry.{shows_named};
ghost use Rattle.sg_judge.specs.sg_input.sg_entries.Printed.{PrintsHistory};
ghost use Rattle.sg_judge.specs.sg_input.sg_entries.Reads.{IsReadOf};
ghost use Rattle.sg_judge.specs.sg_input.Inputs.{IsInterface};
ghost use Rattle.sg_top.specs.Answer.{services};

/// A text that prints a history of an interface of one of the services, as a run's entry lines do, is read to that history.
pub fn printed_runs_are_read()
    ensures { (text run : List ℕ) (i : Declared) (history : List Entry) → IsInterface services text i → PrintsHistory i run history → IsReadOf (shows_named services i) i run (done history) }
{}
