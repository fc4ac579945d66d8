// What stays as it is where a run grows: an entry more, an item more, a stop, a boot.
ghost use Rattle.std.specs.Prelude.{◌≡◌, ◌≤◌, ◌⊎◌, ◌+◌, ◌++◌, ◌∷◌, [], ℕ, Bool, List, None, Some, IsSome, false, true};
ghost use Rattle.sg_facts.specs.sg_base.Lists.{Each};
ghost use Rattle.sg_facts.specs.sg_base.Stops.{asked_after};
ghost use Rattle.sg_facts.specs.sg_base.declared.call.Call.{Call};
ghost use Rattle.sg_facts.specs.declared.entry.Entry.{Entry};
ghost use Rattle.sg_facts.specs.declared.trace.Item.{Item};
ghost use Rattle.sg_facts.specs.Facts.{Facts};
ghost use Rattle.sg_facts.specs.Interface.{Declared};
ghost use Rattle.sg_facts.specs.Legal.{IsLegal, Table, answer};
ghost use Rattle.sg_facts.specs.Object.{object_of};
ghost use Rattle.sg_facts.specs.Trace.{Boot, Run};
ghost use Rattle.sg_hist.specs.Growing.{AreKept, HasOneMore, IsGrown, IsHeldReply, IsInLast, IsItemOf, IsLastCall, IsNextItem, IsRecovering, IsSettled, IsOfNoEntry, asked_over, booted, last_stop, noted, place_after, struck};
ghost use Rattle.sg_hist.specs.Reading.{Position, is_by_guard, is_item_of, last_items, names_at, places_from, places_of, stands_before, value_at};
ghost use Rattle.sg_hist.specs.Inside.Reads.{after_item, entries_before, names_in};
ghost use Rattle.sg_hist.specs.Recovered.{AreInBoots, ArePointsOf, IsCount, Stubs, asked_with_commit, ends_committed, is_visible_reply};
ghost use Rattle.sg_hist.specs.Inside.Parts.{IsCommitted, IsPointOf, answer_to, is_stopped};

/// A legal history stays so with an entry that is the answer after it.
pub fn legal_stays()
    ensures { (i : Declared) (ask : Table) (history : List Entry) (e : Entry) → IsLegal i ask history
        → answer i ask (object_of i.facts history) e.call ≡ Some e.reply → IsLegal i ask (history ++ e ∷ []) }
{}

/// The entries before a place stay: where an item is noted that is none of theirs; where it is noted together with its entry;
/// and where a refusal by the guard is appended. An entry that is appended after its item, as a held reply is, is among those
/// before the places after that item, and before no other.
pub fn entries_stay()
    ensures noted { (item : Item) (p q : Position) (history : List Entry) → IsGrown item p q → IsOfNoEntry item history
        → entries_before history q ≡ entries_before history p }
    ensures committed { (item : Item) (p q : Position) (history : List Entry) (e : Entry) → IsGrown item p q → IsOfNoEntry item history → is_item_of e item ≡ true
        → entries_before (history ++ e ∷ []) q ≡ entries_before history p }
    ensures refused { (p : Position) (history : List Entry) (e : Entry) → is_by_guard e.reply ≡ true
        → entries_before (history ++ e ∷ []) p ≡ entries_before history p }
    ensures held { (p : Position) (history : List Entry) (e : Entry) → stands_before p e ≡ true
        → entries_before (history ++ e ∷ []) p ≡ entries_before history p ++ e ∷ [] }
    ensures not_yet { (p : Position) (history : List Entry) (e : Entry) → stands_before p e ≡ false
        → entries_before (history ++ e ∷ []) p ≡ entries_before history p }
{}

/// Where an item is noted, each place has it after it, and it has a place of its own. A stop and a boot change no place.
pub fn places_grow()
    ensures noted { (older : List Item) (b : Boot) (boots : List Boot) (item : Item)
        → HasOneMore item (place_after older (b ∷ boots) item) (places_from older (b ∷ boots)) (places_from older (noted (b ∷ boots) item)) }
    ensures stopped { (older : List Item) (boots : List Boot) (stop : ℕ) → places_from older (struck boots stop) ≡ places_from older boots }
    ensures again { (older : List Item) (boots : List Boot) → places_from older (booted boots) ≡ places_from older boots }
{}

/// What the service holds, and the names, after an item more.
pub fn values_grow()
    ensures value { (facts : Facts) (front : List Item) (item : Item) → value_at facts (front ++ item ∷ []) ≡ after_item facts (value_at facts front) item }
    ensures names { (facts : Facts) (history : List Entry) (front : List Item) (item : Item)
        → names_at facts history (front ++ item ∷ []) ≡ names_at facts history front ++ names_in facts history item.shown.fun item.tag item.outcome }
{}

/// A run that recovers goes on to do so. It begins with a boot in which nothing was asked. Then these steps are made: an item is
/// noted that belongs to no entry (a client's call that isn't committed, a call of a walk, or a load); an item is noted together
/// with its entry. A refusal by the guard is appended. A held reply is committed:
/// then what stands after its item is to be settled anew. A call is made. The service stops, and is booted again. Beside that,
/// what each item must meet is asked of it when it is noted, and never again.
pub fn recovering_goes_on()
    ensures begins { (s : Stubs) → IsRecovering s [] (record { boots = booted []; points = 0 }) [] }
    ensures noted { (s : Stubs) (h : List Entry) (b : Boot) (boots : List Boot) (points later : ℕ) (u u' : List Call) (item : Item)
        → IsOfNoEntry item h → is_visible_reply s.interface.facts item ≡ false → AreKept h u h u' → IsNextItem s h u' (place_after [] (b ∷ boots) item)
        → IsRecovering s h (record { boots = b ∷ boots; points = points }) u
        → IsRecovering s h (record { boots = noted (b ∷ boots) item; points = later }) u' }
    ensures committed { (s : Stubs) (h : List Entry) (b : Boot) (boots : List Boot) (points later : ℕ) (u u' : List Call) (item : Item) (e : Entry)
        → IsOfNoEntry item h → IsItemOf s.interface.facts h (place_after [] (b ∷ boots) item) e → IsLastCall h u e.call → AreKept h u (h ++ e ∷ []) u'
        → IsNextItem s (h ++ e ∷ []) u' (place_after [] (b ∷ boots) item)
        → IsRecovering s h (record { boots = b ∷ boots; points = points }) u
        → IsRecovering s (h ++ e ∷ []) (record { boots = noted (b ∷ boots) item; points = later }) u' }
    ensures refused { (s : Stubs) (h : List Entry) (run : Run) (u u' : List Call) (e : Entry) → is_by_guard e.reply ≡ true → IsLastCall h u e.call
        → AreKept h u (h ++ e ∷ []) u' → IsRecovering s h run u → IsRecovering s (h ++ e ∷ []) run u' }
    ensures held { (s : Stubs) (h : List Entry) (run : Run) (u u' : List Call) (e : Entry) → IsHeldReply s.interface.facts h run e → IsLastCall h u e.call
        → AreKept h u (h ++ e ∷ []) u' → Each (λ p. stands_before p e ≡ true → IsSettled s (h ++ e ∷ []) u' p) (places_of run)
        → IsRecovering s h run u → IsRecovering s (h ++ e ∷ []) run u' }
    ensures made { (s : Stubs) (h : List Entry) (run : Run) (u u' : List Call) → AreKept h u h u' → IsRecovering s h run u → IsRecovering s h run u' }
    ensures stopped { (s : Stubs) (h : List Entry) (boots : List Boot) (points later stop : ℕ) (u : List Call)
        → IsRecovering s h (record { boots = boots; points = points }) u → IsRecovering s h (record { boots = struck boots stop; points = later }) u }
    ensures again { (s : Stubs) (h : List Entry) (b : Boot) (boots : List Boot) (points later : ℕ) (u : List Call) → IsSome (last_stop (b ∷ boots))
        → IsRecovering s h (record { boots = b ∷ boots; points = points }) u
        → IsRecovering s h (record { boots = booted (b ∷ boots); points = later }) u }
{}

/// Points stay counted: where an item is noted that has its points; where it stopped; where the service stops at the point of the
/// commit before, or at the next; where it is booted again; and where points were asked that belong to no item.
pub fn points_go_on()
    ensures begins { (exact : Bool) (facts : Facts) (ask : Table) (parts : ℕ → ℕ) → ArePointsOf exact facts ask parts 0 (booted []) 0 }
    ensures noted { (exact : Bool) (facts : Facts) (ask : Table) (parts : ℕ → ℕ) (asked : ℕ) (b : Boot) (boots : List Boot) (points later : ℕ) (item : Item)
        → last_stop (b ∷ boots) ≡ None → is_stopped item.outcome ≡ false
        → IsPointOf exact parts (asked_over facts asked (b ∷ boots)) (answer_to facts ask (last_items (b ∷ boots)) item)
        item.tag item.shown.fun item.outcome item.points
        → IsCount exact later (asked_with_commit facts item)
        → ArePointsOf exact facts ask parts asked (b ∷ boots) points → ArePointsOf exact facts ask parts asked (noted (b ∷ boots) item) later }
    ensures within { (exact : Bool) (facts : Facts) (ask : Table) (parts : ℕ → ℕ) (asked : ℕ) (b : Boot) (boots : List Boot) (points later : ℕ) (item : Item)
        → last_stop (b ∷ boots) ≡ None → is_stopped item.outcome ≡ true
        → IsPointOf exact parts (asked_over facts asked (b ∷ boots)) (answer_to facts ask (last_items (b ∷ boots)) item)
        item.tag item.shown.fun item.outcome item.points
        → IsCount exact later item.points
        → ArePointsOf exact facts ask parts asked (b ∷ boots) points
        → ArePointsOf exact facts ask parts asked (struck (noted (b ∷ boots) item) item.points) later }
    ensures between { (exact : Bool) (facts : Facts) (ask : Table) (parts : ℕ → ℕ) (asked : ℕ) (b : Boot) (boots : List Boot) (points later stop : ℕ)
        → last_stop (b ∷ boots) ≡ None
        → ((ends_committed facts (last_items (b ∷ boots)) ≡ true) × (stop ≡ asked_over facts asked (b ∷ boots)))
        ⊎ IsCount exact stop (asked_after (asked_over facts asked (b ∷ boots)) 1)
        → IsCount exact later stop
        → ArePointsOf exact facts ask parts asked (b ∷ boots) points → ArePointsOf exact facts ask parts asked (struck (b ∷ boots) stop) later }
    ensures again { (exact : Bool) (facts : Facts) (ask : Table) (parts : ℕ → ℕ) (asked : ℕ) (b : Boot) (boots : List Boot) (points : ℕ)
        → ArePointsOf exact facts ask parts asked (b ∷ boots) points → ArePointsOf exact facts ask parts asked (booted (b ∷ boots)) points }
    ensures counted { (exact : Bool) (facts : Facts) (ask : Table) (parts : ℕ → ℕ) (asked : ℕ) (boots : List Boot) (points later : ℕ)
        → IsCount exact later (asked_over facts asked boots)
        → ArePointsOf exact facts ask parts asked boots points → ArePointsOf exact facts ask parts asked boots later }
{}

/// Along the history the boots of the entries' items never go back: where an entry is appended whose item stands in the last boot, which
/// goes on, or a refusal by the guard; where an item is noted that is of no entry; where points more are counted, and where the
/// service is booted again. They don't where it stops either: as it is about to be used; within an item that is of no entry; or right after the commit of an entry, which
/// is the last then whose item is in its boot. The item that is noted last stands in the last boot, and one that stood there goes on to
/// do so until the next boot.
pub fn held_stay_in_boots()
    ensures appended { (facts : Facts) (run : Run) (entries h : List Entry) (e : Entry) → last_stop run.boots ≡ None → Each (IsCommitted facts entries) (places_of run)
        → is_by_guard e.reply ≡ false → IsInLast run e → AreInBoots facts run 0 h → AreInBoots facts run 0 (h ++ e ∷ []) }
    ensures refused { (facts : Facts) (run : Run) (h : List Entry) (e : Entry) → is_by_guard e.reply ≡ true → AreInBoots facts run 0 h → AreInBoots facts run 0 (h ++ e ∷ []) }
    ensures noted { (facts : Facts) (b : Boot) (boots : List Boot) (points later : ℕ) (item : Item) (h : List Entry) → last_stop (b ∷ boots) ≡ None → IsOfNoEntry item h
        → AreInBoots facts (record { boots = b ∷ boots; points = points }) 0 h → AreInBoots facts (record { boots = noted (b ∷ boots) item; points = later }) 0 h }
    ensures between { (facts : Facts) (asked : ℕ) (boots : List Boot) (points later stop : ℕ) (h : List Entry) → last_stop boots ≡ None
        → asked_after (asked_over facts asked boots) 1 ≤ stop
        → AreInBoots facts (record { boots = boots; points = points }) 0 h → AreInBoots facts (record { boots = struck boots stop; points = later }) 0 h }
    ensures within { (facts : Facts) (b : Boot) (boots : List Boot) (points later stop : ℕ) (item : Item) (h : List Entry) → last_stop (b ∷ boots) ≡ None
        → IsOfNoEntry item h
        → AreInBoots facts (record { boots = b ∷ boots; points = points }) 0 h → AreInBoots facts (record { boots = struck (noted (b ∷ boots) item) stop; points = later }) 0 h }
    ensures behind { (facts : Facts) (b : Boot) (boots : List Boot) (points later stop : ℕ) (item : Item) (entries h : List Entry) (e : Entry) → last_stop (b ∷ boots) ≡ None
        → IsOfNoEntry item h → is_item_of e item ≡ true → is_by_guard e.reply ≡ false
        → Each (IsCommitted facts entries) (places_of (record { boots = struck (noted (b ∷ boots) item) stop; points = later }))
        → AreInBoots facts (record { boots = b ∷ boots; points = points }) 0 h
        → AreInBoots facts (record { boots = struck (noted (b ∷ boots) item) stop; points = later }) 0 (h ++ e ∷ []) }
    ensures counted { (facts : Facts) (boots : List Boot) (points later : ℕ) (h : List Entry) → AreInBoots facts (record { boots = boots; points = points }) 0 h
        → AreInBoots facts (record { boots = boots; points = later }) 0 h }
    ensures again { (facts : Facts) (boots : List Boot) (points later : ℕ) (h : List Entry) → AreInBoots facts (record { boots = boots; points = points }) 0 h
        → AreInBoots facts (record { boots = booted boots; points = later }) 0 h }
    ensures own { (b : Boot) (boots : List Boot) (points later : ℕ) (item : Item) (e : Entry) → is_item_of e item ≡ true
        → IsInLast (record { boots = noted (b ∷ boots) item; points = later }) e }
    ensures still { (b : Boot) (boots : List Boot) (points later : ℕ) (item : Item) (e : Entry) → is_item_of e item ≡ false
        → IsInLast (record { boots = b ∷ boots; points = points }) e → IsInLast (record { boots = noted (b ∷ boots) item; points = later }) e }
{}
