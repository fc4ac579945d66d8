// One step more of what a call needs: a call of a walk.
ghost use Rattle.std.specs.Prelude.{◌≡◌, ◌<◌, ◌≤◌, ◌^◌, ℕ, List, true, [], None, Some, IsSome, IfOk, OnErr, length};
ghost use Rattle.std.specs.Option.{option_copied};
ghost use Rattle.sg_facts.specs.sg_base.declared.call.Call.{Call as IsCall};
ghost use Rattle.sg_facts.specs.Object.{Object};
ghost use Rattle.sg_facts.specs.declared.row.Row.{Row as IsRow};
ghost use Rattle.sg_facts.specs.Track.{row_at};
ghost use Rattle.sg_facts.specs.Walks.{most_calls};
ghost use Rattle.sg_replay.specs.Replaying.{KeepsPresent, LoadsOne, MayAdvance, MayReplay, ReplaysOne, name_after, real_after, replay_of, walk_length};

use crate::engine::Engine;
use crate::hole::lesser;
use crate::names::real_call;
use crate::todo::Todo;
use sg_facts::{Call, NoMemory, Outcome, Path, Reply, Row, Service, Stops, Tables, Tag};
use sg_name::Named;
use sg_needs::{replayed_call, walk_of_row};
use std::alloc::Global;

/// What one step has done for what a call needs.
#[derive(Clone, Copy, Debug, PartialEq, Eq)]
pub enum Advanced {
    /// A call of a walk was replayed.
    Replayed,
    /// The needed file was loaded.
    Loaded,
    /// The service stopped.
    Struck,
}

impl<S: Service> Engine<S> {
    /// Does what is to be done next for a call that needs this file, for a client: replays the next call of a row's walk, or loads
    /// the file. Its room is taken first, and after `NoMemory` nothing changed but room, of which the cell lost none.
    /// `Struck` comes where the service stopped within the call. What stubs and storage keep stays.
    pub fn advance<T: Stops>(
        &mut self,
        alloc: Global,
        stops: &mut T,
        client: u8,
        file: &Option<Path>,
        todo: Todo,
    ) -> Result<Advanced, NoMemory>
        requires { MayAdvance S.facts S.ask self.old file.now todo }
        ensures walk { (held : Object) (id k : ℕ) (shown : IsCall) → self.old.cell.running ≡ Some held → todo ≡ Todo.Walk id k
            → replay_of S.facts self.old.tables.walks (row_at self.old.tracked.rows id) k ≡ Some shown
            → ReplaysOne S.facts S.ask S.parts held self.old id k client shown
            (record { asked = T.asked stops.old; struck = T.struck stops.old }) result
            self.new (record { asked = T.asked stops.new; struck = T.struck stops.new }) × KeepsPresent self.old self.new }
        ensures load { (held : Object) (key : List ℕ) → self.old.cell.running ≡ Some held → todo ≡ Todo.Load → file.now ≡ Some key
            → LoadsOne S.facts held self.old client key
            (record { asked = T.asked stops.old; struck = T.struck stops.old }) result
            self.new (record { asked = T.asked stops.new; struck = T.struck stops.new }) }
        ensures cell_room { OnErr result (self.old.cell.room ≤ self.new.cell.room) }
        ensures tables { self.new.tables ≡ self.old.tables }
        ensures stored { self.new.stored ≡ self.old.stored }
        ensures tracked { self.new.tracked ≡ self.old.tracked }
        ensures plan { T.plan stops.new ≡ T.plan stops.old }
        ensures test { T.test (T.asked stops.old) (T.struck stops.old) (T.plan stops.old)
            → T.test (T.asked stops.new) (T.struck stops.new) (T.plan stops.new) }
    {
        match todo {
            Todo::Walk { id, k } => self.replay(alloc, stops, client, id, k),
            Todo::Load => self.load(alloc, client, stops.asked(), file),
        }
    }

    // Loads the needed file, for a client. Its room is taken first.
    fn load(
        &mut self,
        alloc: Global,
        client: u8,
        points: u64,
        file: &Option<Path>,
    ) -> Result<Advanced, NoMemory>
        requires files { S.facts.resc_data ≡ true }
        requires up { IsSome self.old.cell.running }
        requires needed { IsSome file.now }
        ensures outcome { (held : Object) (key : List ℕ) → self.old.cell.running ≡ Some held → file.now ≡ Some key
            → LoadsOne S.facts held self.old client key (record { asked = points; struck = [] }) result
            self.new (record { asked = points; struck = [] }) }
        ensures cell_room { OnErr result (self.old.cell.room ≤ self.new.cell.room) }
        ensures tables { self.new.tables ≡ self.old.tables }
        ensures stored { self.new.stored ≡ self.old.stored }
        ensures tracked { self.new.tracked ≡ self.old.tracked }
    {
        match file {
            Some(key) => {
                self.cell.reserve(alloc)?;
                self.present.prepare(alloc, key)?;
                match self.storage.lend(key, 0, self.storage.len(key)) {
                    Some(bytes) => self.cell.load(alloc, client, points, key, bytes)?,
                    None => unreachable!(),
                }
                self.present.mark(key);
                Ok(Advanced::Loaded)
            }
            None => unreachable!(),
        }
    }

    // Replays the next call of the walk of an id, for a client. Its room is taken first.
    pub(crate) fn replay<T: Stops>(
        &mut self,
        alloc: Global,
        stops: &mut T,
        client: u8,
        id: u64,
        k: u8,
    ) -> Result<Advanced, NoMemory>
        requires { MayReplay S.facts S.ask self.old id k }
        ensures outcome { (held : Object) (shown : IsCall) → self.old.cell.running ≡ Some held
            → replay_of S.facts self.old.tables.walks (row_at self.old.tracked.rows id) k ≡ Some shown
            → ReplaysOne S.facts S.ask S.parts held self.old id k client shown
            (record { asked = T.asked stops.old; struck = T.struck stops.old }) result
            self.new (record { asked = T.asked stops.new; struck = T.struck stops.new }) }
        ensures cell_room { OnErr result (self.old.cell.room ≤ self.new.cell.room) }
        ensures tables { self.new.tables ≡ self.old.tables }
        ensures stored { self.new.stored ≡ self.old.stored }
        ensures tracked { self.new.tracked ≡ self.old.tracked }
        ensures present { self.new.present ≡ self.old.present }
        ensures plan { T.plan stops.new ≡ T.plan stops.old }
        ensures test { T.test (T.asked stops.old) (T.struck stops.old) (T.plan stops.old)
            → T.test (T.asked stops.new) (T.struck stops.new) (T.plan stops.new) }
    {
        self.cell.reserve(alloc)?;
        self.names.reserve()?;
        let (shown, last) = walk_call(alloc, &self.tables, self.rows.row(id), k)?;
        let real = real_call(alloc, &self.names, &shown)?;
        let tag = Tag::Walk { id, k, client };
        match self.cell.invoke(alloc, stops, tag, &shown, real) {
            Outcome::Replied { reply, patch } => {
                drop(patch);
                match reply {
                    Reply::Ok(good) => {
                        let named = named_after(self.names.get(id), k, last, good.desc);
                        self.names.set(id, named);
                        self.whole_below = lesser(self.whole_below, id);
                        Ok(Advanced::Replayed)
                    }
                    Reply::Refused(_) => unreachable!(),
                }
            }
            Outcome::Stopped => Ok(Advanced::Struck),
            Outcome::NoMemory => Err(NoMemory),
            Outcome::Blocks => unreachable!(),
        }
    }
}

// The call of a row's walk with a number, from 1, and the length of the walk.
fn walk_call(
    alloc: Global,
    tables: &Tables,
    row: Option<&Row>,
    k: u8,
) -> Result<(Call, u8), NoMemory>
    requires there { IsSome (replay_of tables.now.iface.facts tables.now.walks (option_copied row) k) }
    requires first { 1 ≤ k }
    requires fields { (r : IsRow) → option_copied row ≡ Some r → length r.fields ≤ 8 }
    requires client { (call : IsCall) → replay_of tables.now.iface.facts tables.now.walks (option_copied row) k ≡ Some call → call.client < 2 ^ 8 }
    ensures call { IfOk result (λ p. replay_of tables.now.iface.facts tables.now.walks (option_copied row.entry) k ≡ Some p.0) }
    ensures last { IfOk result (λ p. p.1 ≡ walk_length tables.now.walks (option_copied row.entry)) }
    ensures short { IfOk result (λ p. (k ≤ p.1) × (p.1 ≤ most_calls)) }
{
    let Some(row) = row else { unreachable!() };
    let Some(walk) = walk_of_row(tables, row) else {
        unreachable!()
    };
    let Some(fun) = walk.get(usize::from(k) - 1) else {
        unreachable!()
    };
    let shown = replayed_call(alloc, tables.interface(), row, k == 1, *fun)?;
    Ok((shown, walk.as_slice().len() as u8))
}

// What stands for an id after a call of its walk: its first call gives its service id, its last makes it whole.
fn named_after(named: Named, k: u8, last: u8, desc: u64) -> Named
    ensures { result ≡ name_after (real_after named desc) k last }
{
    let real = match named {
        Named::Partial { real, .. } => real,
        Named::Unnamed | Named::Live { .. } => desc,
    };
    if k == last {
        Named::Live { real }
    } else {
        Named::Partial { real, done: k }
    }
}
