// That replayed calls are few.
ghost use Rattle.std.specs.Prelude.{◌≡◌, ◌≤◌, [], ℕ, List, length, true};
ghost use Rattle.sg_cost.specs.Costs.{IsClients, cost_of, fun_cost, most_entries, AreFewInEach};
ghost use Rattle.sg_facts.specs.sg_base.Lists.{Each};
ghost use Rattle.sg_facts.specs.Allowed.{is_allowed};
ghost use Rattle.sg_facts.specs.Fits.{Fits};
ghost use Rattle.sg_facts.specs.Interface.{Declared};
ghost use Rattle.sg_facts.specs.Kinds.{FitsKinds, IsCall};
ghost use Rattle.sg_facts.specs.Object.{Object};
ghost use Rattle.sg_facts.specs.Sound.{IsSound};
ghost use Rattle.sg_facts.specs.Trace.{Run};
ghost use Rattle.sg_facts.specs.declared.entry.Entry.{Entry};
ghost use Rattle.sg_facts.specs.declared.tables.WalkLine.{WalkLine};
ghost use Rattle.sg_facts.specs.sg_base.declared.call.Call.{Call};
ghost use Rattle.sg_plain.specs.Playing.Playable.{IsPlayable};
ghost use Rattle.sg_plain.specs.Promises.{AreScriptsCalls};
ghost use Rattle.sg_plain.specs.sg_script.declared.script.Script.{Script};
ghost use Rattle.sg_report.specs.sg_hist.Recovered.{Stubs};
ghost use Rattle.sg_report.specs.sg_hist.Ending.{HasRecovered};
ghost use Rattle.sg_report.specs.sg_hist.declared.ended.End.{End};
ghost use Rattle.sg_report.specs.sg_hist.Clients.{AreNumbered};

/// In each boot of a run that has recovered replayed calls are few: those of a descriptor are at most the calls of its walk at the
/// boot's opening, and so are, together, those of all that has to be whole before a call is served, and all. Each call of the history
/// is one of the service's functions, and each client's are numbered one after the other.
pub fn replays_are_few()
    ensures { (s : Stubs) (history : List Entry) (run : Run) (ends : List (ℕ × End)) → HasRecovered s history run ends
        → is_allowed s.interface.facts ≡ true → AreNumbered [] history → Each (λ e. IsCall s.interface.facts e.call) history
        → AreFewInEach s.interface s.walks history run }
{}

/// The replayed calls of a play are few: in each boot of a run that has recovered, of a script that may be played, those of a
/// descriptor are at most the calls of its walk at the boot's opening, and so on as for every such run. Each client's calls are numbered
/// one after the other there, each is a client's, and there are no more entries than a history may have.
pub fn plays_are_few()
    ensures few { (s : Stubs) (script : Script) (history : List Entry) (run : Run) (ends : List (ℕ × End)) → IsPlayable s.interface script
        → AreScriptsCalls s.interface.facts script history → HasRecovered s history run ends → is_allowed s.interface.facts ≡ true
        → AreFewInEach s.interface s.walks history run }
    ensures numbered { (i : Declared) (script : Script) (history : List Entry) → IsPlayable i script → AreScriptsCalls i.facts script history → AreNumbered [] history }
    ensures clients { (i : Declared) (script : Script) (history : List Entry) → IsPlayable i script → AreScriptsCalls i.facts script history → Fits i → Each (λ e. IsClients i.facts e.call) history }
    ensures entries { (i : Declared) (script : Script) (history : List Entry) → IsPlayable i script → AreScriptsCalls i.facts script history → length history ≤ most_entries }
{}

/// No call costs more than the most that is told of its function, whatever its descriptor and its arguments.
pub fn no_call_costs_more()
    ensures { (i : Declared) (walks : List WalkLine) (o : Object) (call : Call) → IsSound i.facts o → FitsKinds i.facts call
        → cost_of i walks o.rows call ≤ (fun_cost i walks o.rows call.fun).cost }
{}
