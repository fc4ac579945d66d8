// The memory mapping service.
ghost use Rattle.std.specs.Prelude.{◌≡◌, ◌<◌, length, IsSome};
ghost use Rattle.std.specs.Option.{option_map, option_copied};
ghost use Rattle.sg_facts.specs.Facts.{facts_of};
ghost use Rattle.sg_facts.specs.Track.{row_at};
ghost use Rattle.sg_facts.specs.declared.outcome.Outcome.{Outcome as IsOutcome};
ghost use Rattle.sg_slots.specs.Slots.{row_with};
ghost use Rattle.sg_mm.specs.Laws.MmAlikeLaw.{mm_answers_alike};
ghost use Rattle.sg_mm.specs.Laws.MmBlockedLaw.{mm_blocked_stays};
ghost use Rattle.sg_mm.specs.Inside.MmDoes.{alias_page, found_reply, got_page};
ghost use Rattle.sg_mm.specs.MmFacts.{mm_facts};
ghost use Rattle.sg_mm.specs.MmRow.{page_body};
ghost use Rattle.sg_mm.specs.Laws.MmShapeLaw.{mm_shape_allows, mm_counts_slowly};
ghost use Rattle.sg_mm.specs.MmSound.{IsMmSound};
ghost use Rattle.sg_mm.specs.Laws.MmSoundLaw.{mm_answers_and_keeps};
ghost use Rattle.sg_mm.specs.MmTable.{mm_table, mm_parts, number_at};
ghost use Rattle.sg_mm.specs.Laws.MmWalkLaw.{mm_walk_goes_on};

use crate::functions::{ALIAS, GET, RELEASE};
use crate::pages::{Pages, answer};
use crate::shape::mm_shape;
use crate::{Page, PageKey};
use sg_facts::{Call, Code, LentValue, NoMemory, Outcome, Path, Reply, Service, Shape, Stops};
use std::alloc::Global;

/// The memory mapping service: it makes pages in spaces at addresses, from each other too, tells which page is in a place,
/// and ends a page with all that was made from it.
#[derive(Debug, Drop)]
pub struct MmService {
    pages: Pages,
}

impl MmService {
    /// The shape of the service.
    pub fn shape() -> Shape
        ensures { facts_of result ≡ mm_facts }
    {
        mm_shape()
    }

    ghost use Rattle.sg_mm.specs.MmObject.{mm_object};

    /// The page of an id, lent; None where no page has it. Ids count from 1.
    pub fn page(&self, id: u64) -> Option<&Page>
        ensures row { row_at (mm_object self.now).rows id ≡ option_map (λ p. row_with id (page_body p)) (option_copied result) }
        ensures id { IsSome result → 0 < id }
    {
        self.pages.get(id)
    }

    /// The number of pages.
    pub fn live(&self) -> usize
        ensures { result ≡ length (mm_object self.now).rows }
    {
        self.pages.len()
    }

    /// The number of ids given.
    pub fn given(&self) -> u64
        ensures { result ≡ (mm_object self.now).given }
    {
        self.pages.given()
    }
}

impl Service for MmService {
    ghost use Rattle.sg_mm.specs.MmObject.{mm_object};

    type Image = ();

    ghost facts = { mm_facts };

    ghost object = { mm_object };

    ghost ask = { mm_table };

    ghost parts = { mm_parts };

    ghost sound = { IsMmSound };

    ghost answers_and_keeps = { mm_answers_and_keeps };

    ghost answers_alike = { mm_answers_alike };

    ghost walk_goes_on = { mm_walk_goes_on };

    ghost blocked_stays = { mm_blocked_stays };

    ghost shape_allows = { mm_shape_allows };

    ghost counts_slowly = { mm_counts_slowly };

    fn fresh(alloc: Global, _: ()) -> Self {
        MmService {
            pages: Pages::new(alloc),
        }
    }

    fn invoke<T: Stops>(&mut self, alloc: Global, stops: &mut T, call: &Call) -> Outcome {
        match call.fun {
            GET => self.pages.make(alloc, stops, got_page(call), None),
            ALIAS => self
                .pages
                .make(alloc, stops, alias_page(call), Some(call.desc)),
            RELEASE => self.pages.release(alloc, stops, call.desc),
            _ => found(alloc, self.pages.find(asked_place(call))),
        }
    }

    fn load(&mut self, _: Global, _: &Path, _: &[u8]) -> Result<(), NoMemory> {
        Ok(())
    }
}

// The page that `mman_get_page` makes: one of its own, in the caller's space.
fn got_page(call: &Call) -> Page
    ensures { result ≡ got_page call.now }
{
    Page {
        made: GET,
        creator: call.client,
        parent: 0,
        space: u64::from(call.client),
        addr: number(call, 0),
    }
}

// The page that `mman_alias_page` makes, before it hangs below another: in a space that is named.
fn alias_page(call: &Call) -> Page
    ensures { result ≡ alias_page call.now }
{
    Page {
        made: ALIAS,
        creator: call.client,
        parent: 0,
        space: number(call, 0),
        addr: number(call, 1),
    }
}

// The place that `mman_find` asks for.
fn asked_place(call: &Call) -> PageKey
    ensures space { result.space ≡ number_at call.now 0 }
    ensures addr { result.addr ≡ number_at call.now 1 }
{
    PageKey {
        space: number(call, 0),
        addr: number(call, 1),
    }
}

// A page that was found, or none.
fn found(alloc: Global, id: Option<u64>) -> Outcome
    ensures { result ≡ IsOutcome.Replied (found_reply id) None }
{
    match id {
        Some(id) => answer(alloc, id),
        None => Outcome::Replied {
            reply: Reply::Refused(Code::NotFound),
            patch: None,
        },
    }
}

// An argument that is a number.
fn number(call: &Call, k: usize) -> u64
    ensures { result ≡ number_at call.now k }
{
    match call.args.get(k) {
        Some(LentValue::Word(n)) => n,
        _ => 0,
    }
}
