// The world of one of several services.
ghost use Rattle.std.specs.Prelude.{◌≡◌, ◌≤◌, ◌<◌, [], IfOk};
ghost use Rattle.sg_edge.specs.Stops.{struck_of};
ghost use Rattle.sg_facts.specs.Limits.{last_client};
ghost use Rattle.sg_interpret.specs.sg_described.Described.{described_of};
ghost use Rattle.sg_interpret.specs.sg_described.Safe.{made_safe};
ghost use Rattle.sg_load.specs.Services.{facts_by};
ghost use Rattle.sg_multi.specs.Members.{IsNewMember, placed};
ghost use Rattle.sg_multi.specs.Serving.{IsPicked, answering_at, built_in, described, most_places, serving};

use crate::served::Served;
use crate::world::{BeginsWorld, ServiceWorld, Through};
use sg_edge::AtPoints;
use sg_facts::{Args, Call, NoMemory, Tables};
use sg_interpret::{DescribedImage, DescribedService, Describes, Description};
use sg_load::ServiceKind;
use sg_load::kind::{
    EventService, LockService, MmService, RamfsService, SchedService, TimerService,
};
use sg_sim::{Did, EndList, Ended, NextCall, Phase, ScriptCall, World};
use std::alloc::Global;
use std::marker::Model;

// The world of a service that is built in, or of the one of a description, at the place at which it was picked.
#[derive(Drop)]
#[derive_where(Debug)]
pub(crate) enum AnyWorld<N: Describes> {
    Locks(World<LockService, AtPoints>),
    Events(World<EventService, AtPoints>),
    Pages(World<MmService, AtPoints>),
    Files(World<RamfsService, AtPoints>),
    Threads(World<SchedService, AtPoints>),
    Timers(World<TimerService, AtPoints>),
    First(Through<World<DescribedService<N, 0>, AtPoints>>),
    Second(Through<World<DescribedService<N, 1>, AtPoints>>),
    Third(Through<World<DescribedService<N, 2>, AtPoints>>),
    Fourth(Through<World<DescribedService<N, 3>, AtPoints>>),
    Fifth(Through<World<DescribedService<N, 4>, AtPoints>>),
    Sixth(Through<World<DescribedService<N, 5>, AtPoints>>),
}

/// The world of one of several services. Contracts see its service, and it as plain data.
#[derive(Drop)]
#[derive_where(Debug)]
pub struct Member<N: Describes> {
    world: AnyWorld<N>,
}

impl<N: Describes> Model for Member<N> {
    ghost use Rattle.sg_multi.specs.Members.{Membered, membered};

    ghost Value = { Membered };

    ghost view = { λ m. membered m.world };
}

// What is made of the world of a member, whichever its service is.
macro_rules! at_world {
    ($any:expr, $world:ident => $made:expr) => {
        match $any {
            AnyWorld::Locks($world) => $made,
            AnyWorld::Events($world) => $made,
            AnyWorld::Pages($world) => $made,
            AnyWorld::Files($world) => $made,
            AnyWorld::Threads($world) => $made,
            AnyWorld::Timers($world) => $made,
            AnyWorld::First($world) => $made,
            AnyWorld::Second($world) => $made,
            AnyWorld::Third($world) => $made,
            AnyWorld::Fourth($world) => $made,
            AnyWorld::Fifth($world) => $made,
            AnyWorld::Sixth($world) => $made,
        }
    };
}

impl<N: Describes> Member<N> {
    /// A world of a service in which nothing was done, with clients from 1 to so many. A service of one's own stands at a place, from 0.
    pub fn new(
        alloc: Global,
        place: usize,
        service: Served,
        tables: Tables,
        clients: u8,
        stops: AtPoints,
    ) -> Result<Member<N>, NoMemory>
        requires there { place < most_places }
        requires picked { IsPicked (N.descriptions place) service }
        requires its { tables.iface.facts ≡ (answering_at service).facts }
        requires few { clients ≤ last_client }
        requires unasked { stops.asked ≡ 0 }
        requires unstruck { struck_of stops ≡ [] }
        ensures { IfOk result (IsNewMember (serving service) tables stops.plan clients) }
    {
        match service {
            Served::BuiltIn(kind) => Member::built_in(alloc, kind, tables, clients, stops),
            Served::Own(description) => {
                Member::own(alloc, place, description, tables, clients, stops)
            }
        }
    }

    // A world of a service that is built in.
    fn built_in(
        alloc: Global,
        kind: ServiceKind,
        tables: Tables,
        clients: u8,
        stops: AtPoints,
    ) -> Result<Member<N>, NoMemory>
        requires its { tables.iface.facts ≡ facts_by kind }
        requires few { clients ≤ last_client }
        requires unasked { stops.asked ≡ 0 }
        requires unstruck { struck_of stops ≡ [] }
        ensures { IfOk result (IsNewMember (built_in kind) tables stops.plan clients) }
    {
        let world = match kind {
            ServiceKind::Locks => {
                AnyWorld::Locks(World::new(alloc, (), tables, clients, stops)?)
            }
            ServiceKind::Events => {
                AnyWorld::Events(World::new(alloc, (), tables, clients, stops)?)
            }
            ServiceKind::Pages => {
                AnyWorld::Pages(World::new(alloc, (), tables, clients, stops)?)
            }
            ServiceKind::Files => {
                AnyWorld::Files(World::new(alloc, (), tables, clients, stops)?)
            }
            ServiceKind::Threads => {
                AnyWorld::Threads(World::new(alloc, (), tables, clients, stops)?)
            }
            ServiceKind::Timers => {
                AnyWorld::Timers(World::new(alloc, (), tables, clients, stops)?)
            }
        };
        Ok(Member { world })
    }

    // A world of the service of a description, which was picked for a place.
    fn own(
        alloc: Global,
        place: usize,
        description: Description,
        tables: Tables,
        clients: u8,
        stops: AtPoints,
    ) -> Result<Member<N>, NoMemory>
        requires there { place < most_places }
        requires picked { described_of description ≡ made_safe (N.descriptions place) }
        requires its { tables.iface.facts ≡ (described_of description).facts }
        requires few { clients ≤ last_client }
        requires unasked { stops.asked ≡ 0 }
        requires unstruck { struck_of stops ≡ [] }
        ensures { IfOk result (IsNewMember (described (described_of description)) tables stops.plan clients) }
    {
        let world = if place == 0 {
            AnyWorld::First(begun(alloc, description, tables, clients, stops)?)
        } else if place == 1 {
            AnyWorld::Second(begun(alloc, description, tables, clients, stops)?)
        } else if place == 2 {
            AnyWorld::Third(begun(alloc, description, tables, clients, stops)?)
        } else if place == 3 {
            AnyWorld::Fourth(begun(alloc, description, tables, clients, stops)?)
        } else if place == 4 {
            AnyWorld::Fifth(begun(alloc, description, tables, clients, stops)?)
        } else {
            AnyWorld::Sixth(begun(alloc, description, tables, clients, stops)?)
        };
        Ok(Member { world })
    }
}

// A world of the service of a description, which was picked for its place.
fn begun<N: Describes, const PLACE: usize>(
    alloc: Global,
    description: Description,
    tables: Tables,
    clients: u8,
    stops: AtPoints,
) -> Result<Through<World<DescribedService<N, PLACE>, AtPoints>>, NoMemory>
    requires picked { described_of description ≡ made_safe (N.descriptions PLACE) }
    requires its { tables.iface.facts ≡ (described_of description).facts }
    requires few { clients ≤ last_client }
    requires unasked { stops.asked ≡ 0 }
    requires unstruck { struck_of stops ≡ [] }
    ensures { IfOk result (λ w. IsNewMember (described (described_of description)) tables stops.plan clients (placed (N.descriptions PLACE) w.world)) }
{
    let image = DescribedImage::new(description);
    Through::begin(alloc, image, tables, clients, stops)
}

impl<N: Describes> ServiceWorld for Member<N> {
    ghost use Rattle.std.specs.Prelude.{◌≡◌};
    ghost use Rattle.sg_multi.specs.Members.{setting_in};

    ghost seen = { λ m. m.world };

    ghost setting = { setting_in };

    ghost of_one = { λ old new. new.service ≡ old.service };

    fn phase(&self, client: u8) -> Phase {
        at_world!(&self.world, world => ServiceWorld::phase(world, client))
    }

    fn call(&self, client: u8) -> &Call {
        at_world!(&self.world, world => ServiceWorld::call(world, client))
    }

    fn seq(&self, client: u8) -> u32 {
        at_world!(&self.world, world => ServiceWorld::seq(world, client))
    }

    fn next_call(
        &self,
        alloc: Global,
        given: &[u64],
        call: &ScriptCall,
    ) -> Result<NextCall, NoMemory> {
        at_world!(&self.world, world => world.next_call(alloc, given, call))
    }

    fn ended(&self, alloc: Global, ends: EndList) -> Result<Ended, NoMemory> {
        at_world!(&self.world, world => world.ended(alloc, ends))
    }

    fn refused(&self) -> u64 {
        at_world!(&self.world, world => ServiceWorld::refused(world))
    }

    fn tell(&self) {
        at_world!(&self.world, world => world.tell())
    }

    fn offer(
        &mut self,
        alloc: Global,
        client: u8,
        fun: u8,
        desc: u64,
        args: Args,
    ) -> Result<(), NoMemory> {
        at_world!(&mut self.world, world => ServiceWorld::offer(world, alloc, client, fun, desc, args))
    }

    fn step(&mut self, alloc: Global, client: u8) -> Result<Did, NoMemory> {
        at_world!(&mut self.world, world => ServiceWorld::step(world, alloc, client))
    }

    fn leave(&mut self, client: u8) {
        at_world!(&mut self.world, world => ServiceWorld::leave(world, client))
    }

    fn end(self) {
        at_world!(self.world, world => world.end())
    }
}
