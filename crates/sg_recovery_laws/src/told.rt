// What each item of a run owes where it is noted, and how a trace grows.
ghost use Rattle.std.specs.Prelude.{◌≡◌, ◌≢◌, if◌then◌else◌, ◌⊎◌, ◌+◌, ◌++◌, ◌<◌, ◌∷◌, ◌==◌, ◌||◌, [], ℕ, Bool, List, None, Some, false, true, find, length, not};
ghost use Rattle.std.specs.declared.option.Option.{Option};
ghost use Rattle.std.specs.List.{list_any};
ghost use Rattle.sg_facts.specs.sg_base.Lists.{Each};
ghost use Rattle.sg_facts.specs.sg_base.declared.call.Call.{Call};
ghost use Rattle.sg_facts.specs.sg_base.declared.reply.Good.{Good};
ghost use Rattle.sg_facts.specs.sg_base.declared.reply.Reply.TheVariants.{Ok};
ghost use Rattle.sg_facts.specs.declared.entry.Entry.{Entry};
ghost use Rattle.sg_facts.specs.declared.outcome.Outcome.TheVariants.{Replied};
ghost use Rattle.sg_facts.specs.declared.row.Row.{Row};
ghost use Rattle.sg_facts.specs.declared.tables.WalkLine.{WalkLine};
ghost use Rattle.sg_facts.specs.declared.trace.Item.{Item};
ghost use Rattle.sg_facts.specs.declared.trace.Tag.TheVariants.{Client, Walk};
ghost use Rattle.sg_facts.specs.Alike.{HasAlike, SameFile, named};
ghost use Rattle.sg_facts.specs.Facts.{Facts, fun_at};
ghost use Rattle.sg_facts.specs.Fits.{Fits};
ghost use Rattle.sg_facts.specs.Guard.{guard};
ghost use Rattle.sg_facts.specs.Held.{AreReachable};
ghost use Rattle.sg_facts.specs.Interface.{Declared, declares};
ghost use Rattle.sg_facts.specs.Laws.{is_none, names_after, slow};
ghost use Rattle.sg_facts.specs.Legal.{LegalFrom};
ghost use Rattle.sg_facts.specs.Limits.{end_of_counts};
ghost use Rattle.sg_facts.specs.Needs.{is_needed, is_wanted, needs, wanted};
ghost use Rattle.sg_facts.specs.Object.{Object, empty_object, file_at, object_of};
ghost use Rattle.sg_facts.specs.Trace.{Boot};
ghost use Rattle.sg_facts.specs.Track.{is_live, row_at};
ghost use Rattle.sg_facts.specs.Walks.{replayed_call};
ghost use Rattle.sg_hist.specs.Reading.{Position, id_given, is_made, is_whole_at, last_items, names_at, object_before, older_items, stands_before, value_at, walk_in};
ghost use Rattle.sg_hist.specs.Inside.Reads.{entries_before, is_rebuilt_at, names_in};
ghost use Rattle.sg_hist.specs.Recovered.{IsAdmitted, IsCallOf, IsLoadedFor, IsTracked, item_of_load};
ghost use Rattle.sg_hist.specs.Inside.Parts.{IsCallOfRow, IsOkOrStopped, is_patch_at, is_walk_of};
ghost use Rattle.sg_hist.specs.Growing.{IsGrown, IsOfNoEntry, IsSameId, place_after};
ghost use Rattle.sg_recovery_laws.specs.Midway.Progress.{TellsCalls, IsNone, Told, complete, fresh, is_complete};
ghost use Rattle.sg_recovery_laws.specs.Midway.Stepping.{told_after};
ghost use Rattle.sg_recovery_laws.specs.LastItem.Asked.{IsComeTo};
ghost use Rattle.sg_hist.specs.Clients.{IsClientsCall};
ghost use Rattle.sg_recovery_laws.specs.LastItem.LastPlace.{HaveItems, last_place};
ghost use Rattle.sg_recovery_laws.specs.LastItem.Told.{IsKnown, IsRead, whole_after};

use sg_facts::Service;

/// Where an item is noted last, the object before it is that of the whole history, and what is whole there is what is whole after all
/// items; and that is where an item is noted in the last boot.
pub fn last_place()
    ensures object { (facts : Facts) (older front : List Item) (item : Item) (history : List Entry) → IsOfNoEntry item history → HaveItems (older ++ front) history
        → object_before facts history (last_place older front item) ≡ object_of facts history }
    ensures whole { (facts : Facts) (walks : List WalkLine) (older front : List Item) (item : Item) (history : List Entry) (id : ℕ) → IsOfNoEntry item history
        → is_whole_at facts walks history (last_place older front item) id ≡ whole_after facts walks history older front id }
    ensures noted { (b : Boot) (boots : List Boot) (item : Item)
        → place_after [] (b ∷ boots) item ≡ last_place (older_items [] (b ∷ boots)) (last_items (b ∷ boots)) item }
{}

/// What an item owes where it is noted last: a call of a client that has no later one, and passes the guard, is admitted; the call of an
/// item reaches the service as it is tracked, where all that is wanted for it is told whole and what it needs stands there so; a call of a walk is the next of
/// its row, and the least that isn't whole is so by what is told; and a file is loaded for a call that needs it.
pub fn items_settle()
    ensures admitted { (i : Declared) (walks : List WalkLine) (h : List Entry) (u : List Call) (older front : List Item) (item : Item) (names : List (ℕ × ℕ)) (told : ℕ → Told)
        (present : List ℕ → Bool) (o : Object) (client : ℕ) (call : Call) → IsKnown i.facts walks h older front item names told present o → IsCallOf h u client call
        → Each (λ e. (e.call.client == client) ≡ true → e.call.seq < call.seq) h → guard i o call ≡ None → IsAdmitted i h u (stands_before (last_place older front item)) client call }
    ensures tracked { (i : Declared) (walks : List WalkLine) (h : List Entry) (older front : List Item) (item : Item) (names : List (ℕ × ℕ)) (told : ℕ → Told)
        (present : List ℕ → Bool) (o held : Object) → IsKnown i.facts walks h older front item names told present o → value_at i.facts front ≡ held
        → ((r : Row) → row_at o.rows r.id ≡ Some r → is_wanted i o.rows item.shown r ≡ true → told r.id ≡ complete)
        → ((r : Row) → row_at o.rows r.id ≡ Some r → is_needed i.facts o.rows item.shown r ≡ true → HasAlike names held r)
        → IsNone o.rows item.shown.desc → item.real ≡ named names item.shown.desc
        → SameFile o held item.shown.desc (named names item.shown.desc) (needs i.facts o item.shown).file
        → IsTracked i walks h (last_place older front item) }
    ensures walked { (i : Declared) (walks : List WalkLine) (h : List Entry) (older front : List Item) (item : Item) (names : List (ℕ × ℕ)) (told : ℕ → Told)
        (present : List ℕ → Bool) (o : Object) (id k client : ℕ) (r : Row) (done rest : List ℕ) (fun : ℕ) → IsKnown i.facts walks h older front item names told present o
        → row_at o.rows id ≡ Some r → is_complete (told id) ≡ false → TellsCalls (told id) (length done) → (told id ≡ fresh → done ≡ []) → k ≡ length done + 1
        → walk_in walks (Some r) ≡ Some (done ++ fun ∷ rest) → item.shown ≡ replayed_call i.facts r (is_none done) fun
        → (r.parent ≡ 0) ⊎ ((is_live o.rows r.parent ≡ true) × (told r.parent ≡ complete)) → IsNone o.rows item.shown.desc
        → item.real ≡ named names item.shown.desc → IsOkOrStopped item.outcome
        → IsCallOfRow i.facts walks h (last_place older front item) id k (row_at (object_before i.facts h (last_place older front item)).rows id) }
    ensures least { (i : Declared) (walks : List WalkLine) (h : List Entry) (older front : List Item) (item : Item) (names : List (ℕ × ℕ)) (told : ℕ → Told)
        (present : List ℕ → Bool) (o : Object) (call : Call) (id : ℕ) → IsKnown i.facts walks h older front item names told present o
        → find (λ a. not (is_complete (told a))) (wanted i o call).ids ≡ Some id
        → find (λ a. not (is_whole_at i.facts walks h (last_place older front item) a)) (wanted i (object_before i.facts h (last_place older front item)) call).ids ≡ Some id }
    ensures loaded { (i : Declared) (walks : List WalkLine) (h : List Entry) (u : List Call) (older front : List Item) (item : Item) (names : List (ℕ × ℕ)) (told : ℕ → Told)
        (present : List ℕ → Bool) (o : Object) (client : ℕ) (key : List ℕ) (call : Call) → IsKnown i.facts walks h older front item names told present o → IsCallOf h u client call
        → Each (λ e. (e.call.client == client) ≡ true → e.call.seq < call.seq) h
        → ((r : Row) → row_at o.rows r.id ≡ Some r → is_wanted i o.rows call r ≡ true → told r.id ≡ complete) → (needs i.facts o call).file ≡ Some key
        → present key ≡ false → file_at o.files key ≢ [] → item ≡ item_of_load client item.points key (file_at o.files key) → guard i o call ≡ None → IsLoadedFor i walks h u (last_place older front item) client key }
{}

/// What is told stays what the trace tells: where an item is noted that gives no name and makes nothing whole, whose file, if it wrote
/// one, is present then, also together with an entry; where a call of a walk is answered Ok, which names its row if it was the first, and
/// makes it whole if it was the last; and where a creation is noted with its entry, whose id is named and whole then.
pub fn told_grows()
    ensures plain { (facts : Facts) (walks : List WalkLine) (h : List Entry) (older front : List Item) (item : Item) (names : List (ℕ × ℕ)) (told : ℕ → Told)
        (present : List ℕ → Bool) (rows : List Row) → IsOfNoEntry item h → IsRead facts walks h older front names told present rows
        → ((id : ℕ) → is_made facts h id item ≡ false) → ((id : ℕ) → is_walk_of id item.tag ≡ false)
        → ((id : ℕ) → is_rebuilt_at facts walks h id (last_place older front item) ≡ false) → names_in facts h item.shown.fun item.tag item.outcome ≡ []
        → IsRead facts walks h older (front ++ item ∷ []) names told (λ path. present path || is_patch_at path item.outcome) rows }
    ensures walked { (facts : Facts) (walks : List WalkLine) (h : List Entry) (older front : List Item) (item : Item) (names : List (ℕ × ℕ)) (told : ℕ → Told)
        (present : List ℕ → Bool) (rows : List Row) (id client : ℕ) (r : Row) (done rest : List ℕ) (fun : ℕ) (good : Good) → IsOfNoEntry item h
        → IsRead facts walks h older front names told present rows → item.tag ≡ Walk id (length done + 1) client → item.outcome ≡ Replied (Ok good) None
        → row_at (object_before facts h (last_place older front item)).rows id ≡ Some r → walk_in walks (Some r) ≡ Some (done ++ fun ∷ rest) → r.id ≡ id
        → is_complete (told id) ≡ false → TellsCalls (told id) (length done) → (told id ≡ fresh → done ≡ []) → is_live rows id ≡ true
        → IsRead facts walks h older (front ++ item ∷ []) (names_after names r done good) (told_after told id done rest) present rows }
    ensures made { (facts : Facts) (walks : List WalkLine) (h later : List Entry) (older front : List Item) (item : Item) (names : List (ℕ × ℕ)) (told : ℕ → Told)
        (present : List ℕ → Bool) (rows rows' : List Row) (client seq : ℕ) (good other : Good) → ((p q : Position) → IsGrown item p q → entries_before later q ≡ entries_before h p)
        → Each (IsSameId facts h later) front → IsRead facts walks h older front names told present rows → item.tag ≡ Client client seq → item.outcome ≡ Replied (Ok other) None
        → (fun_at facts.funs item.shown.fun).creation ≡ true → id_given later client seq ≡ good.desc → list_any (λ n. n.0 == good.desc) (names_at facts h front) ≡ false
        → ((id : ℕ) → is_live rows' id ≡ true → (id ≡ good.desc) ⊎ ((id ≢ good.desc) × (is_live rows id ≡ true))) → good.desc ≢ 0
        → IsRead facts walks later older (front ++ item ∷ []) ((good.desc, other.desc) ∷ names) (λ x. if x == good.desc then complete else told x) present rows' }
    ensures put { (facts : Facts) (walks : List WalkLine) (h later : List Entry) (older front : List Item) (item : Item) (names : List (ℕ × ℕ)) (told : ℕ → Told)
        (present : List ℕ → Bool) (rows : List Row) → ((p q : Position) → IsGrown item p q → entries_before later q ≡ entries_before h p)
        → Each (IsSameId facts h later) front → IsRead facts walks h older front names told present rows → ((id : ℕ) → is_made facts later id item ≡ false)
        → ((id : ℕ) → is_walk_of id item.tag ≡ false) → ((id : ℕ) → is_rebuilt_at facts walks later id (last_place older front item) ≡ false)
        → names_in facts later item.shown.fun item.tag item.outcome ≡ []
        → IsRead facts walks later older (front ++ item ∷ []) names told (λ path. present path || is_patch_at path item.outcome) rows }
{}

/// Each of its rows is such as a descriptor can come to, where the functions of its calls are declared.
pub fn legal_is_reachable<S: Service>()
    ensures { (i : Declared) (history : List Entry) → i.facts ≡ S.facts → Fits i → slow + length history < end_of_counts
        → Each (λ e. IsClientsCall S.facts e.call) history → Each (λ e. declares i e.call.fun ≡ true) history → LegalFrom i S.ask empty_object history
        → AreReachable i (object_of S.facts history).rows }
{}

/// The object of a legal history is sound, for every service and every interface of its that can be recovered, whatever calls clients
/// made; its ids are at most as many as the entries, and its counted words at most 2^34 more.
pub fn legal_is_sound<S: Service>()
    ensures { (i : Declared) (history : List Entry) → i.facts ≡ S.facts → Fits i → slow + length history < end_of_counts
        → Each (λ e. IsClientsCall S.facts e.call) history → LegalFrom i S.ask empty_object history → IsComeTo S.facts S.sound (length history) (object_of S.facts history) }
{}
