// The pages with their indexes.
ghost use Rattle.std.specs.Prelude.{◌≡◌, ◌+◌, ◌^◌, ◌<◌, true, [], length, OnOk, OnErr};
ghost use Rattle.std.specs.Option.{option_copied};
ghost use Rattle.sg_facts.specs.Track.{is_live};
ghost use Rattle.sg_slots.specs.Slots.{entry_at, rows_of, AreIds};
ghost use Rattle.sg_mm.specs.Inside.Children.{HangsOne};
ghost use Rattle.sg_mm.specs.Inside.MmDoes.{Does, MayHang, after_new, held_with, held_without, hung, new_parts, new_reply, ok_about, parts_of_new};
ghost use Rattle.sg_mm.specs.Inside.MmIndex.{id_in, Gains, Keeps};
ghost use Rattle.sg_mm.specs.MmRow.{page_body};
ghost use Rattle.sg_mm.specs.Inside.MmAnswer.{page_at};

use crate::child::{Child, hang, take_off, take_off_all};
use crate::place::{free, free_all, id_in, put};
use crate::subtree::{end_all, ending};
use crate::{Page, PageKey};
use sg_facts::{Bytes, Code, Good, NoMemory, Outcome, Point, Reply, Stops, Words};
use std::alloc::Global;
use std::collections::btree_map::Entry;
use std::collections::{BTreeMap, BTreeSet};
use std::marker::Model;

/// The pages, each under its service id, and the number of ids given. A page is found by its id or its place, and made, in
/// time that grows with the logarithm of the live pages. Pages end in time that grows with the number of those that end,
/// times that logarithm: no call goes over all pages.
#[derive(Debug, Drop)]
pub(crate) struct Pages {
    pages: BTreeMap<u64, Page>,
    places: BTreeMap<PageKey, u64>,
    children: BTreeSet<Child>,
    given: u64,
}

impl Model for Pages {
    ghost use Rattle.sg_slots.specs.Slots.{Held};
    ghost use Rattle.sg_mm.specs.declared.page.Page.{Page as IsPage};
    ghost use Rattle.sg_mm.specs.Inside.MmIndex.{AreIndexed};

    ghost Value = { Held IsPage };

    ghost view = { λ p. record { entries = p.pages.entries; given = p.given } };

    ghost invariant = { λ p. AreIndexed (record { entries = p.pages.entries; given = p.given }) p.places p.children };
}

impl Pages {
    /// No page, and no id given. It takes no memory.
    pub(crate) fn new(alloc: Global) -> Self
        ensures entries { result.entries ≡ [] }
        ensures given { result.given ≡ 0 }
    {
        Pages {
            pages: BTreeMap::new(alloc),
            places: BTreeMap::new(alloc),
            children: BTreeSet::new(alloc),
            given: 0,
        }
    }

    /// The page of an id; None where no page has it.
    pub(crate) fn get(&self, id: u64) -> Option<&Page>
        ensures entry { option_copied result ≡ entry_at self.now.entries id }
        ensures ascending { AreIds 0 self.now.given self.now.entries }
    {
        self.pages.get(&id)
    }

    /// The number of pages.
    pub(crate) fn len(&self) -> usize
        ensures { result ≡ length self.now.entries }
    {
        self.pages.len()
    }

    /// The number of ids given.
    pub(crate) fn given(&self) -> u64
        ensures { result ≡ self.now.given }
    {
        self.given
    }

    /// The id of the page in a place; None where there is none.
    pub(crate) fn find(&self, place: PageKey) -> Option<u64>
        ensures { result ≡ page_at (rows_of page_body self.now.entries) place.space place.addr }
    {
        id_in(&self.places, place)
    }

    /// Makes a page of its own, or below another: refused where its place is taken. The memory is taken before the first part
    /// is asked, that of the indexes by the page's entries in them.
    pub(crate) fn make<T: Stops>(
        &mut self,
        alloc: Global,
        stops: &mut T,
        page: Page,
        below: Option<u64>,
    ) -> Outcome
        requires room { self.old.given < 2 ^ 63 }
        requires own { page.parent ≡ 0 }
        requires parent { MayHang self.old below }
        ensures outcome { Does (parts_of_new self.old page below) (new_reply self.old page) self.old (after_new self.old page below)
            (record { asked = T.asked stops.old; struck = T.struck stops.old }) result
            self.new (record { asked = T.asked stops.new; struck = T.struck stops.new }) }
        ensures plan { T.plan stops.new ≡ T.plan stops.old }
        ensures test { T.test (T.asked stops.old) (T.struck stops.old) (T.plan stops.old)
            → T.test (T.asked stops.new) (T.struck stops.new) (T.plan stops.new) }
    {
        let place = page.place();
        if id_in(&self.places, place).is_some() {
            return Outcome::Replied {
                reply: Reply::Refused(Code::Occupied),
                patch: None,
            };
        }
        let id = self.given + 1;
        if reserve(&mut self.places, &mut self.children, place, below, id).is_err() {
            return Outcome::NoMemory;
        }
        match add(alloc, &mut self.pages, &mut self.given, stops, page, below) {
            Outcome::Replied { reply, patch } => Outcome::Replied { reply, patch },
            Outcome::NoMemory => {
                free(&mut self.places, place);
                take_off(&mut self.children, below, id);
                Outcome::NoMemory
            }
            Outcome::Stopped => {
                // A stop takes all that was held: nothing is known of the pages now, so none is kept.
                *self = Pages::new(alloc);
                Outcome::Stopped
            }
            Outcome::Blocks => unreachable!(),
        }
    }

    /// Ends a page with all below it: first its places are freed, then the pages go. The memory to tell which is taken before
    /// the first part is asked.
    pub(crate) fn release<T: Stops>(&mut self, alloc: Global, stops: &mut T, id: u64) -> Outcome
        requires { is_live (rows_of page_body self.old.entries) id ≡ true }
        ensures outcome { Does 2 (ok_about 0) self.old (held_without self.old id)
            (record { asked = T.asked stops.old; struck = T.struck stops.old }) result
            self.new (record { asked = T.asked stops.new; struck = T.struck stops.new }) }
        ensures plan { T.plan stops.new ≡ T.plan stops.old }
        ensures test { T.test (T.asked stops.old) (T.struck stops.old) (T.plan stops.old)
            → T.test (T.asked stops.new) (T.struck stops.new) (T.plan stops.new) }
    {
        match ending(alloc, &self.children, id) {
            Ok(ends) => {
                if stops.strikes(Point::Part(1)) {
                    return Outcome::Stopped;
                }
                free_all(&mut self.places, &self.pages, &ends);
                if stops.strikes(Point::Part(2)) {
                    // The index has lost pages that are still there, so none is kept.
                    *self = Pages::new(alloc);
                    return Outcome::Stopped;
                }
                take_off_all(&mut self.children, &self.pages, &ends);
                end_all(&mut self.pages, &ends);
                answer(alloc, 0)
            }
            Err(_) => Outcome::NoMemory,
        }
    }
}

// Makes room in both indexes for a page that is to come: the entries by its place, which is free, and by its parent, where it
// is to have one. After `NoMemory` both are as before.
fn reserve(
    places: &mut BTreeMap<PageKey, u64>,
    children: &mut BTreeSet<Child>,
    place: PageKey,
    below: Option<u64>,
    id: u64,
) -> Result<(), NoMemory>
    requires { id_in places.old place ≡ None }
    ensures place { OnOk result (Gains places.old places.new place id) }
    ensures parent { OnOk result (HangsOne children.old children.new below id) }
    ensures no_place { OnErr result (Keeps places.old places.new) }
    ensures no_parent { OnErr result (children.new ≡ children.old) }
{
    put(places, place, id)?;
    if hang(children, below, id).is_err() {
        free(places, place);
        return Err(NoMemory);
    }
    Ok(())
}

// Adds a page under the id after the last one given: the first part gives the id, the second makes the page as one of its
// own, and the third hangs it below another. Its room is taken first.
fn add<T: Stops>(
    alloc: Global,
    pages: &mut BTreeMap<u64, Page>,
    given: &mut u64,
    stops: &mut T,
    page: Page,
    below: Option<u64>,
) -> Outcome
    requires ids { AreIds 0 given.old pages.old.entries }
    requires room { given.old < 2 ^ 63 }
    ensures outcome { Does (new_parts below) (ok_about (given.old + 1))
        (record { entries = pages.old.entries; given = given.old })
        (held_with (record { entries = pages.old.entries; given = given.old }) (hung page below))
        (record { asked = T.asked stops.old; struck = T.struck stops.old }) result
        (record { entries = pages.new.entries; given = given.new })
        (record { asked = T.asked stops.new; struck = T.struck stops.new }) }
    ensures plan { T.plan stops.new ≡ T.plan stops.old }
    ensures test { T.test (T.asked stops.old) (T.struck stops.old) (T.plan stops.old)
        → T.test (T.asked stops.new) (T.struck stops.new) (T.plan stops.new) }
{
    match pages.entry(*given + 1) {
        Ok(Entry::Vacant(room)) => {
            if stops.strikes(Point::Part(1)) {
                return Outcome::Stopped;
            }
            *given += 1;
            if stops.strikes(Point::Part(2)) {
                return Outcome::Stopped;
            }
            let made = room.insert(page);
            if let Some(parent) = below {
                if stops.strikes(Point::Part(3)) {
                    return Outcome::Stopped;
                }
                made.parent = parent;
                return answer(alloc, *given);
            }
            answer(alloc, *given)
        }
        Ok(Entry::Occupied(_)) => unreachable!(),
        Err(_) => Outcome::NoMemory,
    }
}

/// An Ok with a descriptor, without a patch.
pub(crate) fn answer(alloc: Global, desc: u64) -> Outcome
    ensures { result ≡ Outcome.Replied (ok_about desc) None }
{
    Outcome::Replied {
        reply: Reply::Ok(Good {
            desc,
            words: Words::new(alloc),
            bytes: Bytes::new(alloc),
        }),
        patch: None,
    }
}
