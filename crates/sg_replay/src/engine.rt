// A service with its journal, what outlives its stops, and what stubs know of its descriptors.
ghost use Rattle.std.specs.Prelude.{◌≡◌, ◌≤◌, ℕ, List, false, [], length, None, Some, IsSome, IfOk, MatchOption};
ghost use Rattle.std.specs.Option.{is_some, option_copied, option_map};
ghost use Rattle.sg_facts.specs.Guard.{guard as the_guard};
ghost use Rattle.sg_facts.specs.Needs.{wanted};
ghost use Rattle.sg_facts.specs.Object.{Object, empty_object};
ghost use Rattle.sg_facts.specs.Track.{row_at};
ghost use Rattle.sg_facts.specs.Trace.{run_of};
ghost use Rattle.sg_boot.specs.sg_hist.Growing.{booted};
ghost use Rattle.sg_boot.specs.Invoking.{with_stop};
ghost use Rattle.sg_store.specs.Stored.{bytes_of, receipt_at};
ghost use Rattle.sg_replay.specs.Missing.{missing, missing_file};
ghost use Rattle.sg_replay.specs.Present.{is_present};

use crate::present::Present;
use crate::todo::{Todo, next_walk};
use sg_boot::Cell;
use sg_facts::{Call, Code, Interface, NoMemory, Path, Reply, Row, Service, Tables, Trace};
use sg_name::Names;
use sg_needs::{Tracker, file_needed, guard};
use sg_store::Storage;
use std::alloc::Global;
use std::marker::Model;

/// A service with its journal, its tables, what outlives its stops, the rows that stubs keep of its descriptors, and the service
/// ids that these have in this boot.
#[derive(Debug, Drop)]
pub struct Engine<S: Service> {
    pub(crate) tables: Tables,
    pub(crate) cell: Cell<S>,
    pub(crate) storage: Storage,
    pub(crate) rows: Tracker,
    pub(crate) names: Names,
    pub(crate) present: Present,
    /// Each tracked row of a smaller id is whole.
    pub(crate) whole_below: u64,
}

impl<S: Service> Model for Engine<S> {
    ghost use Rattle.sg_replay.specs.Engined.{Engined};
    ghost use Rattle.sg_replay.specs.Inside.Whole.{IsWholeBelow};

    ghost Value = { Engined };

    ghost view = { λ e. record { tables = e.tables; cell = e.cell; stored = e.storage; tracked = e.rows; names = e.names; present = e.present } };

    ghost invariant = { λ e. IsWholeBelow S.facts (record { tables = e.tables; cell = e.cell; stored = e.storage; tracked = e.rows; names = e.names; present = e.present }) e.whole_below };
}

impl<S: Service> Engine<S> {
    /// A service that is up in its first boot, for clients from 1 to so many, with nothing done and nothing stored.
    pub fn new(
        alloc: Global,
        image: S::Image,
        tables: Tables,
        clients: u8,
    ) -> Result<Engine<S>, NoMemory>
        requires { tables.iface.facts ≡ S.facts }
        ensures tables { IfOk result (λ e. e.tables ≡ tables) }
        ensures running { IfOk result (λ e. e.cell.running ≡ Some empty_object) }
        ensures run { IfOk result (λ e. e.cell.run ≡ record { boots = booted []; points = 0 }) }
        ensures clients { IfOk result (λ e. e.stored.clients ≡ clients) }
        ensures receipts { IfOk result (λ e. (client : ℕ) → receipt_at e.stored client ≡ None) }
        ensures stored_rows { IfOk result (λ e. e.stored.rows ≡ []) }
        ensures stored_given { IfOk result (λ e. e.stored.given ≡ 0) }
        ensures files { IfOk result (λ e. (key : List ℕ) → bytes_of e.stored key ≡ []) }
        ensures rows { IfOk result (λ e. e.tracked.rows ≡ []) }
        ensures given { IfOk result (λ e. e.tracked.given ≡ 0) }
        ensures names { IfOk result (λ e. e.names.known ≡ []) }
        ensures present { IfOk result (λ e. (key : List ℕ) → is_present e.present key ≡ false) }
    {
        Ok(Engine {
            cell: Cell::new(alloc, image)?,
            storage: Storage::new(alloc, clients)?,
            tables,
            rows: Tracker::new(alloc),
            names: Names::new(alloc),
            present: Present::new(alloc),
            whole_below: 0,
        })
    }

    /// The interface of its tables, lent.
    pub fn interface(&self) -> &Interface
        ensures { result.now ≡ self.now.tables.iface }
    {
        self.tables.interface()
    }

    /// Whether the service is up.
    pub fn is_up(&self) -> bool
        ensures { result ≡ is_some self.now.cell.running }
    {
        self.cell.is_up()
    }

    /// The number of this boot, from 1.
    pub fn boot_number(&self) -> u64
        ensures { result ≡ length self.now.cell.run.boots }
    {
        self.cell.boot_number()
    }

    /// What was done to the service, lent.
    pub fn trace(&self) -> &Trace
        ensures { run_of result.now ≡ self.now.cell.run }
    {
        self.cell.trace()
    }

    /// What was done to the service, given away; all else is let go.
    pub fn into_trace(self) -> Trace
        ensures { run_of result ≡ self.cell.run }
    {
        self.cell.into_trace()
    }

    /// The running service, lent; None exactly where it failed.
    pub fn service(&self) -> Option<&S>
        ensures { option_map S.object (option_copied result) ≡ self.now.cell.running }
    {
        self.cell.service()
    }

    /// The tracked row of an id; None exactly where no live row has it.
    pub fn row(&self, id: u64) -> Option<&Row>
        ensures { option_copied result ≡ row_at self.now.tracked.rows id }
    {
        self.rows.row(id)
    }

    /// Number and reply of a client's last visible call that was committed; None exactly where none was.
    pub fn receipt(&self, client: u8) -> Option<(u32, &Reply)>
        ensures { MatchOption result (receipt_at self.now.stored client ≡ None) (λ p. receipt_at self.now.stored client ≡ Some (record { seq = p.0; reply = p.1.now })) }
    {
        self.storage.receipt(client)
    }

    /// The guard's refusal of a call; None where it may reach the service.
    pub fn guard(&self, call: &Call) -> Option<Code>
        ensures { (o : Object) → o.rows ≡ self.now.tracked.rows → result ≡ the_guard self.now.tables.iface o call.now }
    {
        guard(self.tables.interface(), &self.rows, call)
    }

    /// The path of the file that has to be there before a call is served; None where its function uses none, which takes no memory.
    pub fn file_needed(&self, alloc: Global, call: &Call) -> Result<Option<Path>, NoMemory>
        ensures { IfOk result (λ file. (o : Object) → o.rows ≡ self.now.tracked.rows → file ≡ (wanted self.now.tables.iface o call.now).file) }
    {
        file_needed(alloc, self.tables.interface(), &self.rows, call)
    }

    /// What is still to be done before a call that needs this file may be served: the next call of the walk of the first wanted
    /// row that isn't whole, else the load of the file, where that has bytes and isn't present; None where nothing is. It takes no
    /// memory, and nothing that contracts see changes.
    pub fn missing(&mut self, call: &Call, file: &Option<Path>) -> Option<Todo>
        ensures todo { (o : Object) → o.rows ≡ self.old.tracked.rows → file.now ≡ (wanted self.old.tables.iface o call.now).file
            → result ≡ missing self.old (wanted self.old.tables.iface o call.now) }
        ensures same { self.new ≡ self.old }
    {
        let hole = self.hole_for(call);
        match next_walk(&self.names, hole) {
            Some(todo) => Some(todo),
            None => self.missing_file(file),
        }
    }

    // The load of a needed file, where that has bytes and isn't present.
    fn missing_file(&self, file: &Option<Path>) -> Option<Todo>
        ensures { result ≡ missing_file self.now file.now }
    {
        match file {
            Some(key) if self.storage.len(key) > 0 && !self.present.has(key) => Some(Todo::Load),
            _ => None,
        }
    }

    /// Sets the number of points asked.
    pub fn count(&mut self, points: u64)
        ensures { self.new ≡ record self.old { cell = record self.old.cell { run = record self.old.cell.run { points = points } } } }
    {
        self.cell.count(points);
    }

    /// Stops the service at a point, which is the last that was asked. It has failed then.
    pub fn strike(&mut self, point: u64)
        requires { IsSome self.old.cell.running }
        ensures running { self.new.cell.running ≡ None }
        ensures run { self.new.cell.run ≡ with_stop self.old.cell.run point }
        ensures room { self.old.cell.room ≤ self.new.cell.room }
        ensures tables { self.new.tables ≡ self.old.tables }
        ensures stored { self.new.stored ≡ self.old.stored }
        ensures tracked { self.new.tracked ≡ self.old.tracked }
        ensures names { self.new.names ≡ self.old.names }
        ensures present { self.new.present ≡ self.old.present }
    {
        self.cell.strike(point);
    }

    /// Boots a fresh service after one that failed: nothing of it has a service id, and no file is present.
    pub fn boot(&mut self, alloc: Global)
        requires failed { self.old.cell.running ≡ None }
        requires room { 1 ≤ self.old.cell.room }
        ensures running { self.new.cell.running ≡ Some empty_object }
        ensures run { self.new.cell.run ≡ record self.old.cell.run { boots = booted self.old.cell.run.boots } }
        ensures names { self.new.names.known ≡ [] }
        ensures names_room { self.old.names.spare ≤ self.new.names.spare }
        ensures present { (key : List ℕ) → is_present self.new.present key ≡ false }
        ensures tables { self.new.tables ≡ self.old.tables }
        ensures stored { self.new.stored ≡ self.old.stored }
        ensures tracked { self.new.tracked ≡ self.old.tracked }
    {
        self.cell.boot(alloc);
        self.names.clear();
        self.present = Present::new(alloc);
        self.whole_below = 0;
    }
}
