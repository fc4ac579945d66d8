// The first row that is wanted and isn't whole.
ghost use Rattle.std.specs.Prelude.{◌≡◌, ◌<◌, ◌≤◌, ℕ, false, true, Some, map, MatchOption, if◌then◌else◌};
ghost use Rattle.sg_facts.specs.Needs.{wanted};
ghost use Rattle.sg_facts.specs.Object.{Object};
ghost use Rattle.sg_facts.specs.Track.{is_live};
ghost use Rattle.sg_name.specs.Names.{named_at};
ghost use Rattle.sg_needs.specs.Inside.Lines.{ids_in};
ghost use Rattle.sg_replay.specs.Missing.{first_hole, is_whole};

use crate::engine::Engine;
use crate::todo::is_whole;
use sg_facts::{Call, Interface, Service};
use sg_name::Names;
use sg_needs::{Tracker, wants_all};

impl<S: Service> Engine<S> {
    /// The first id that is wanted for a call and isn't whole; None where there is none. Where all live rows are whole none is
    /// looked at. Else those that were found whole aren't looked at again before the next boot, and a call that doesn't want all
    /// looks up from its descriptor.
    pub(crate) fn hole_for(&mut self, call: &Call) -> Option<u64>
        ensures hole { (o : Object) → o.rows ≡ self.old.tracked.rows → result ≡ first_hole self.old.names.known (wanted self.old.tables.iface o call.now).ids }
        ensures same { self.new ≡ self.old }
    {
        let Some(first) = self.first_hole() else {
            return None;
        };
        wanted_hole(
            self.tables.interface(),
            &self.rows,
            &self.names,
            call,
            first,
        )
    }

    // The id of the first live row that isn't whole; None where all are.
    fn first_hole(&mut self) -> Option<u64>
        ensures hole { result ≡ first_hole self.old.names.known (map (λ r. r.id) self.old.tracked.rows) }
        ensures same { self.new ≡ self.old }
    {
        // Nothing is done: the proof takes what this call promises.
        let _tracked = self.rows.live();
        if self.whole_below > self.storage.given() {
            return None;
        }
        let hole = hole_from(&self.rows, &self.names, self.whole_below);
        self.whole_below = match hole {
            Some(id) => id,
            None => self.storage.given().saturating_add(1),
        };
        hole
    }
}

// The id of the first live row that isn't whole, where all below an id are.
fn hole_from(rows: &Tracker, names: &Names, below: u64) -> Option<u64>
    requires { (id : ℕ) → id < below → is_live rows.now.rows id ≡ true → is_whole (named_at names.now.known id) ≡ true }
    ensures hole { result ≡ first_hole names.now.known (map (λ r. r.id) rows.now.rows) }
    ensures before { MatchOption result ((x : ℕ) → is_live rows.now.rows x ≡ true → is_whole (named_at names.now.known x) ≡ true)
        (λ id. (id ≤ rows.now.given) × ((x : ℕ) → x < id → is_live rows.now.rows x ≡ true → is_whole (named_at names.now.known x) ≡ true)) }
{
    'places: for place in rows.place(below)..rows.live() {
        let id = rows.id_at(place);
        if !is_whole(names.get(id)) {
            return Some(id);
        }
    }
    None
}

// The first id that is wanted for a call and isn't whole, where the first of all live rows that isn't is known.
fn wanted_hole(
    iface: &Interface,
    rows: &Tracker,
    names: &Names,
    call: &Call,
    first: u64,
) -> Option<u64>
    requires { first_hole names.now.known (map (λ r. r.id) rows.now.rows) ≡ Some first }
    ensures { (o : Object) → o.rows ≡ rows.now.rows → result ≡ first_hole names.now.known (wanted iface.now o call.now).ids }
{
    if wants_all(iface, call.fun) {
        Some(first)
    } else {
        hole_in_line(rows, names, call.desc, first)
    }
}

// The first id of a live row, from the root of an id to it, that isn't whole, where the first of all live rows that isn't is
// known; None where all are. The way goes up from the id, so the last one that is found is the first. It ends below the first of
// all, where the rows are whole.
fn hole_in_line(rows: &Tracker, names: &Names, id: u64, first: u64) -> Option<u64>
    requires { first_hole names.now.known (map (λ r. r.id) rows.now.rows) ≡ Some first }
    ensures { result ≡ first_hole names.now.known (ids_in false rows.now.rows id) }
{
    // Nothing is done: the proof takes what this call promises.
    let _tracked = rows.live();
    let mut hole = None;
    let mut at = id;
    'up: while at >= first {
        let Some(row) = rows.row(at) else {
            return hole;
        };
        hole = hole_at(names, at, hole);
        at = row.parent;
    }
    hole
}

// An id where it isn't whole, else what was found below it.
fn hole_at(names: &Names, id: u64, below: Option<u64>) -> Option<u64>
    ensures { result ≡ (if is_whole (named_at names.now.known id) then below else Some id) }
{
    if is_whole(names.get(id)) {
        below
    } else {
        Some(id)
    }
}

/// The lesser of two ids.
pub(crate) fn lesser(a: u64, b: u64) -> u64
    ensures first { result ≤ a }
    ensures second { result ≤ b }
{
    if a < b { a } else { b }
}
