// A service of single rows, by what it decides of each call.
ghost use Rattle.std.specs.Prelude.{◌≡◌, ◌<◌, ℕ, false, length, IsSome};
ghost use Rattle.std.specs.Option.{option_map, option_copied};
ghost use Rattle.sg_facts.specs.Facts.{facts_of};
ghost use Rattle.sg_facts.specs.Kinds.{MayAsk};
ghost use Rattle.sg_facts.specs.Track.{row_at};
ghost use Rattle.sg_facts.specs.Inside.Rows.{has_child};
ghost use Rattle.sg_slots.specs.Decide.{Decides};
ghost use Rattle.sg_slots.specs.RowModel.{RowModel};
ghost use Rattle.sg_slots.specs.Slots.{object_of, row_with, rows_of};

use crate::{Decision, Slot, Slots, carry_out};
use sg_facts::{Call, NoMemory, Outcome, Parents, Path, Service, Shape, Stops};
use std::alloc::Global;

/// What shapes of services of single rows have in common: no parents, every client may use every descriptor, some function
/// may block, rows have fields, and no descriptor has a file. The name, the fields, the functions and their pairs are each
/// service's own.
pub const SINGLE_ROWS: Shape = Shape {
    name: &[],
    parents: Parents::Never,
    subtree: false,
    global: true,
    block: true,
    has_data: true,
    resc_data: false,
    fields: &[],
    funs: &[],
    moves: &[],
    steps: &[],
};

/// What tells a service of single rows from the others: its shape, and what it decides of a call on its entries.
pub trait RowRules: Slot + Sized {
    /// The service as plain data, with the laws that it keeps to.
    ghost model: { RowModel };

    /// The shape of the service.
    fn shape() -> Shape
        ensures { facts_of result ≡ model.facts };

    /// What to do with a call, which keeps to the shape.
    fn decide(slots: &Slots<Self>, call: &Call) -> Decision<Self>
        requires { MayAsk model.facts (object_of Self.body slots.now) call.now }
        ensures { Decides model.facts model.ask model.parts Self.body slots.now call.now result };

    /// No descriptor has a parent.
    ghost alone: { (e : Self) → (Self.Slot.body e).parent ≡ 0 };
}

/// A service of single rows: it holds an entry for each descriptor, does with a call what its entries' rules decide, and
/// has neither parents nor files.
#[derive(Debug, Drop)]
pub struct RowService<E> {
    slots: Slots<E>,
}

impl<E: RowRules> RowService<E> {
    /// The shape of the service.
    pub fn shape() -> Shape
        ensures { facts_of result ≡ E.model.facts }
    {
        E::shape()
    }

    /// The entry of an id, lent; None where no descriptor has it. Ids count from 1.
    pub fn get(&self, id: u64) -> Option<&E>
        ensures row { row_at (rows_of E.body self.now.slots.entries) id ≡ option_map (λ e. row_with id (E.body e)) (option_copied result) }
        ensures id { IsSome result → 0 < id }
        ensures childless { (parent : ℕ) → 0 < parent → has_child (rows_of E.body self.now.slots.entries) parent ≡ false }
    {
        self.slots.get(id)
    }

    /// The number of live descriptors.
    pub fn live(&self) -> usize
        ensures { result ≡ length (rows_of E.body self.now.slots.entries) }
    {
        self.slots.len()
    }
}

impl<E: RowRules> Service for RowService<E> {
    type Image = ();

    ghost facts = { E.model.facts };

    ghost object = { λ s. object_of E.body s.slots };

    ghost ask = { E.model.ask };

    ghost parts = { E.model.parts };

    ghost sound = { E.model.sound };

    ghost answers_and_keeps = { E.model.answers_and_keeps };

    ghost answers_alike = { E.model.answers_alike };

    ghost walk_goes_on = { E.model.walk_goes_on };

    ghost blocked_stays = { E.model.blocked_stays };

    ghost shape_allows = { E.model.shape_allows };

    ghost counts_slowly = { E.model.counts_slowly };

    fn fresh(alloc: Global, _: ()) -> Self {
        RowService {
            slots: Slots::new(alloc),
        }
    }

    fn invoke<T: Stops>(&mut self, alloc: Global, stops: &mut T, call: &Call) -> Outcome {
        let decision = E::decide(&self.slots, call);
        carry_out(&mut self.slots, alloc, stops, call.desc, decision)
    }

    fn load(&mut self, _: Global, _: &Path, _: &[u8]) -> Result<(), NoMemory> {
        Ok(())
    }
}
