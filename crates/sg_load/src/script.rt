// The script that is generated for a service from a number.
ghost use Rattle.std.specs.Prelude.{◌≡◌, ◌+◌, ◌<◌, ◌≤◌, OnOk, IfOk};
ghost use Rattle.sg_plain.specs.sg_edge.Stops.{AscendsAbove};
ghost use Rattle.sg_load.specs.Drawn.{after_draws, stops_from};
ghost use Rattle.sg_load.specs.Generated.{clients_from, generated, groups_from};
ghost use Rattle.sg_load.specs.Inside.{calls_of_client, client_count, groups_of, most_setup, setup_of, stop_count};
ghost use Rattle.sg_plain.specs.sg_script.Flaws.{calls_before};
ghost use Rattle.sg_load.specs.Services.{setup_count, standard};
ghost use Rattle.sg_plain.specs.Playing.Playable.{IsPlayable};

use crate::ServiceKind;
use crate::calls::{GroupState, times};
use crate::draws::Draws;
use crate::sizes::{CALLS_EACH, CLIENTS, FIRST_FUN, MOST_DISTANCE, STOPS};
use sg_facts::{NoMemory, PointList};
use sg_plain::{CallList, ClientList, Script, TurnList};
use std::alloc::Global;

/// The script that is generated for a service from a number, on the service's standard interface: 20,000 calls of 8 clients,
/// and 32 stops.
pub fn generate(alloc: Global, service: ServiceKind, number: u64) -> Result<Script, NoMemory>
    ensures script { IfOk result (λ script. script ≡ generated service number) }
    ensures playable { IfOk result (IsPlayable (standard service)) }
    ensures stops { IfOk result (λ script. AscendsAbove 0 script.stops) }
{
    let script = script_of(alloc, service, number)?;
    Ok(script)
}

// The script that is generated for a service from a number, before the script is known to be playable.
fn script_of(alloc: Global, service: ServiceKind, number: u64) -> Result<Script, NoMemory>
    ensures { IfOk result (λ script. script ≡ generated service number) }
{
    let mut draws = Draws::new(number);
    let stops = stops(alloc, &mut draws)?;
    Ok(Script {
        setup: setup(alloc, service)?,
        clients: clients(alloc, service, &mut draws)?,
        schedule: TurnList::new(alloc),
        stops,
    })
}

// The calls of the setup.
fn setup(alloc: Global, service: ServiceKind) -> Result<CallList, NoMemory>
    ensures { IfOk result (λ calls. calls ≡ setup_of service) }
{
    times(alloc, service.setup_count(), FIRST_FUN)
}

// The stops.
#[tactic(auto, using(crate::proofs::Steps::draws_none, crate::proofs::Steps::draws_more, crate::proofs::Steps::stops_none, crate::proofs::Steps::stops_more))]
fn stops(alloc: Global, draws: &mut Draws) -> Result<PointList, NoMemory>
    ensures stops { IfOk result (λ stops. stops ≡ stops_from draws.old 0 stop_count) }
    ensures draws { OnOk result (draws.new ≡ after_draws draws.old stop_count) }
{
    let mut stops = PointList::new(alloc);
    let mut stop = 0;
    'each: for done in 0..STOPS {
        stop += 1 + u64::from(draws.draw() % MOST_DISTANCE);
        stops.push(stop)?;
    }
    Ok(stops)
}

// The clients with their calls.
fn clients(alloc: Global, service: ServiceKind, draws: &mut Draws) -> Result<ClientList, NoMemory>
    ensures { IfOk result (λ clients. clients ≡ clients_from service 1 draws.old client_count) }
{
    let mut clients = ClientList::new(alloc);
    'each: for done in 0..CLIENTS {
        let client = done + 1;
        let calls = calls_of(alloc, service, client, draws)?;
        clients.push((client, calls))?;
    }
    Ok(clients)
}

// The calls of a client but for the setup.
#[tactic(auto, using(crate::proofs::Steps::draws_none, crate::proofs::Steps::draws_more, crate::proofs::Steps::groups_none, crate::proofs::Steps::groups_more))]
fn calls_of(
    alloc: Global,
    service: ServiceKind,
    client: u8,
    draws: &mut Draws,
) -> Result<CallList, NoMemory>
    ensures calls { IfOk result (λ calls. calls ≡ calls_of_client service client draws.old) }
    ensures draws { OnOk result (draws.new ≡ after_draws draws.old (groups_of service client)) }
{
    let mut calls = CallList::new(alloc);
    let mut first = 1 + calls_before(service, client);
    'each: for done in 0..groups_of(service, client) {
        let at = GroupState {
            client,
            first,
            group: done + 1,
        };
        service.add_group(&mut calls, alloc, at, draws.draw())?;
        first += service.group_size();
    }
    Ok(calls)
}

// How many calls a client has before its groups.
fn calls_before(service: ServiceKind, client: u8) -> u32
    ensures count { result ≡ calls_before (setup_count service) client }
    ensures few { result ≤ most_setup }
{
    if client == 1 {
        service.setup_count()
    } else {
        0
    }
}

// How many groups a client makes.
fn groups_of(service: ServiceKind, client: u8) -> u32
    ensures count { result ≡ groups_of service client }
    ensures few { result ≤ CALLS_EACH }
{
    (CALLS_EACH - calls_before(service, client)) / service.group_size()
}
