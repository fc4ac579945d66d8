// The tracked rows of all descriptors.
ghost use Rattle.std.specs.Prelude.{◌≡◌, ◌≤◌, ◌<◌, ◌+◌, ◌-◌, ◌^◌, [], Some, drop, length, map, slice_get, take, IfOk, OnOk, OnErr};
ghost use Rattle.std.specs.Option.{option_copied, option_map};
ghost use Rattle.sg_facts.specs.sg_base.Lists.{Each};
ghost use Rattle.sg_facts.specs.Inside.Rows.{given_after, has_child, track};
ghost use Rattle.sg_facts.specs.Track.{ancestors, row_at, rows_after};
ghost use Rattle.sg_track.specs.Tracked.{AreTracked, MayChange, MayMake, MayTrack, MayTrackOk, changed_rows, left_rows, made_rows, spare_after};

use crate::kept::{KeptRows, add_row, change_row};
use crate::make::made_row;
use crate::places::{ancestors_in, first_from, has_child, ids_in, place_of};
use crate::room::RowRoom;
use crate::subtree::{close_up, mark_below, remove_row};
use crate::tally::{count_child, discount_row};
use indexmap::IndexMap;
use sg_facts::{Call, Good, IdList, Interface, NoMemory, Reply, Row, Tables};
use std::alloc::Global;
use std::marker::Model;

/// The tracked rows of all descriptors: what the answered calls so far make of them. Contracts see the rows in ascending
/// ids, the number of ids given, and for how many more rows there is room. A row is found by its hash.
#[derive(Debug, Drop)]
pub struct Tracker {
    pub(crate) kept: KeptRows,
    pub(crate) given: u64,
    pub(crate) room: RowRoom,
    /// Whether there is room for one more row.
    pub(crate) ready: bool,
}

impl Model for Tracker {
    ghost use Rattle.sg_track.specs.Tracked.{Tracked};

    ghost Value = { Tracked };

    ghost use Rattle.sg_track.specs.Kept.{rows_in, spare_of, IsKept};

    ghost view = { λ t. record { rows = rows_in t.kept.entries; given = t.given; spare = spare_of t.ready } };

    ghost invariant = { λ t. IsKept t };
}

impl Tracker {
    /// No row, no id given, and no room. It takes no memory.
    pub fn new(alloc: Global) -> Tracker
        ensures rows { result.rows ≡ [] }
        ensures given { result.given ≡ 0 }
        ensures spare { result.spare ≡ 0 }
    {
        Tracker {
            kept: IndexMap::new(alloc),
            given: 0,
            room: RowRoom::new(alloc),
            ready: false,
        }
    }

    /// Takes the memory for one more row, its fields and a text of 256 bytes in each. The rows stay, whatever the answer.
    pub fn reserve(&mut self, alloc: Global) -> Result<(), NoMemory>
        ensures rows { self.new.rows ≡ self.old.rows }
        ensures given { self.new.given ≡ self.old.given }
        ensures ok { OnOk result (1 ≤ self.new.spare) }
        ensures err { OnErr result (self.new.spare ≡ self.old.spare) }
    {
        if !self.ready {
            self.kept.reserve(1)?;
            self.room.reserve(alloc)?;
            self.ready = true;
        }
        Ok(())
    }

    /// Does to the rows what an answered call does. It takes no memory: a creation fills the room that was taken for it, and
    /// other functions set words in place.
    pub fn track(&mut self, tables: &Tables, call: &Call, reply: &Reply)
        requires { MayTrack tables.now.iface.facts self.old call.now reply.now }
        ensures rows { self.new.rows ≡ track tables.now.iface.facts self.old.rows call.now reply.now }
        ensures given { self.new.given ≡ given_after tables.now.iface.facts self.old.given call.now reply.now }
        ensures spare { self.new.spare ≡ spare_after tables.now.iface.facts self.old.spare call.now reply.now }
    {
        match reply {
            Reply::Ok(good) => self.track_ok(tables.interface(), call, good),
            Reply::Refused(_) => {}
        }
    }

    // Does to the rows what an Ok does.
    pub(crate) fn track_ok(&mut self, interface: &Interface, call: &Call, good: &Good)
        requires { MayTrackOk interface.now.facts self.old call.now good.now }
        ensures rows { self.new.rows ≡ rows_after interface.now.facts self.old.rows call.now good.now }
        ensures given { self.new.given ≡ given_after interface.now.facts self.old.given call.now (Reply.Ok good.now) }
        ensures spare { self.new.spare ≡ spare_after interface.now.facts self.old.spare call.now (Reply.Ok good.now) }
    {
        let fun = interface.fun(call.fun);
        if fun.is_creation() {
            return self.make(interface, call, good);
        }
        if fun.is_query() {
            return;
        }
        if fun.is_terminal() {
            self.end(interface.shape.subtree, call.desc)
        } else {
            self.change(interface, call, good)
        }
    }

    // Adds the row that a creation makes; none where the creation is a query too.
    fn make(&mut self, interface: &Interface, call: &Call, good: &Good)
        requires { MayMake interface.now.facts self.old call.now good.now }
        ensures rows { self.new.rows ≡ made_rows interface.now.facts self.old.rows call.now good.now }
        ensures given { self.new.given ≡ self.old.given + 1 }
        ensures spare { self.new.spare ≡ self.old.spare - 1 }
    {
        self.ready = false;
        self.given = good.desc;
        if !interface.fun(call.fun).is_query() {
            let row = made_row(interface, call, good, &mut self.room);
            count_child(&mut self.kept, row.parent);
            add_row(&mut self.kept, row);
        }
    }

    // Removes the row of an id, and under subtree all below it. Other rows are looked at where it has children.
    fn end(&mut self, subtree: bool, id: u64)
        ensures rows { self.new.rows ≡ left_rows subtree self.old.rows id }
        ensures given { self.new.given ≡ self.old.given }
        ensures spare { self.new.spare ≡ self.old.spare }
    {
        let all = subtree && self.has_children(id);
        discount_row(&mut self.kept, id);
        if all {
            mark_below(&mut self.kept, id);
            close_up(&mut self.kept, id);
        } else {
            remove_row(&mut self.kept, id);
        }
    }

    // Changes the row of the call's descriptor.
    fn change(&mut self, interface: &Interface, call: &Call, good: &Good)
        requires { MayChange interface.now.facts self.old call.now good.now }
        ensures rows { self.new.rows ≡ changed_rows interface.now.facts self.old.rows call.now good.now }
        ensures given { self.new.given ≡ self.old.given }
        ensures spare { self.new.spare ≡ self.old.spare }
    {
        if let Some(place) = place_of(&self.kept, call.desc) {
            change_row(&mut self.kept[place].row, interface, call, good);
        }
    }

    /// Counts the next id as given, without a row.
    pub fn skip(&mut self)
        requires { self.old.given + 1 < 2 ^ 64 }
        ensures rows { self.new.rows ≡ self.old.rows }
        ensures given { self.new.given ≡ self.old.given + 1 }
        ensures spare { self.new.spare ≡ self.old.spare }
    {
        self.given += 1;
    }

    /// The row of an id; None exactly where no live row has the id.
    pub fn row(&self, id: u64) -> Option<&Row>
        ensures { option_copied result ≡ row_at self.now.rows id }
    {
        match self.kept.get(&id) {
            Some(one) => Some(&one.row),
            None => None,
        }
    }

    /// The ancestors of an id, nearest first: its parent, the parent of that, and so on. None of them is 0.
    pub fn ancestors(&self, alloc: Global, id: u64) -> Result<IdList, NoMemory>
        ensures above { IfOk result (λ above. above ≡ ancestors self.now.rows id) }
        ensures tracked { AreTracked self.now.given self.now.rows }
    {
        ancestors_in(alloc, &self.kept, id)
    }

    /// Whether a live row has the id as its parent. Where the id is live this looks at the number beside its row.
    pub fn has_children(&self, id: u64) -> bool
        ensures { result ≡ has_child self.now.rows id }
    {
        match self.kept.get(&id) {
            Some(one) => one.children > 0,
            None => has_child(&self.kept, id),
        }
    }

    /// The place among the live rows, from 0, of the first whose id is this or greater; the number of live rows where there is none.
    pub fn place(&self, id: u64) -> usize
        ensures within { result ≤ length self.now.rows }
        ensures before { Each (λ r. r.id < id) (take result self.now.rows) }
        ensures after { Each (λ r. id ≤ r.id) (drop result self.now.rows) }
    {
        first_from(&self.kept, id)
    }

    /// The id of the row at a place.
    pub fn id_at(&self, place: usize) -> u64
        requires { place < length self.now.rows }
        ensures { option_map (λ r. r.id) (slice_get self.now.rows place) ≡ Some result }
    {
        self.kept[place].row.id
    }

    /// The ids of the live rows, ascending.
    pub fn ids(&self, alloc: Global) -> Result<IdList, NoMemory>
        ensures { IfOk result (λ ids. ids ≡ map (λ r. r.id) self.now.rows) }
    {
        ids_in(alloc, &self.kept)
    }

    /// The number of live rows.
    pub fn live(&self) -> usize
        ensures count { result ≡ length self.now.rows }
        ensures tracked { AreTracked self.now.given self.now.rows }
    {
        self.kept.len()
    }
}
