// The calls of a script's clients.
ghost use Rattle.std.specs.Ordering.{nat_cmp};
ghost use Rattle.std.specs.Prelude.{◌≡◌, length, slice_get};
ghost use Rattle.std.specs.Option.{option_copied};
ghost use Rattle.sg_plain.specs.Calls.{calls_with_setup, most_client, part_of, script_calls};
ghost use Rattle.sg_plain.specs.Playing.Playable.{AreClients};

use sg_facts::{FIRST_CLIENT, ListOf};
use sg_plain::{Script, ScriptCall};
use std::cmp::Ordering;

/// The greatest number of a client that has a part, at least 1.
pub fn most_client<C>(clients: &[(u8, ListOf<C>)]) -> u8
    ensures { result ≡ most_client clients.now }
{
    match clients {
        [] => FIRST_CLIENT,
        [.., (client, _)] => *client,
    }
}

/// The call that a client makes when so many of its calls are done; None where it has no more.
pub fn script_call(script: &Script, client: u8, done: usize) -> Option<&ScriptCall>
    requires { AreClients 0 script.now.clients }
    ensures { option_copied result ≡ slice_get (script_calls script.now client) done }
{
    call_with_setup(
        script.setup.as_slice(),
        script.clients.as_slice(),
        client,
        done,
    )
}

/// The call that a client makes when so many of its calls are done, among the calls of a setup, which client 1 makes first, and those of
/// the clients' parts; None where it has no more.
pub fn call_with_setup<'a, C>(
    setup: &'a [C],
    clients: &'a [(u8, ListOf<C>)],
    client: u8,
    done: usize,
) -> Option<&'a C>
    requires { AreClients 0 clients.now }
    ensures { option_copied result ≡ slice_get (calls_with_setup setup.now clients.now client) done }
{
    let part = part_of(clients, client);
    if client != FIRST_CLIENT {
        return part.get(done);
    }
    if done < setup.len() {
        setup.get(done)
    } else {
        part.get(done - setup.len())
    }
}

// The calls of a client's part, which is found by halving.
fn part_of<C>(clients: &[(u8, ListOf<C>)], client: u8) -> &[C]
    requires { AreClients 0 clients.now }
    ensures { result.now ≡ part_of client clients.now }
{
    match clients.binary_search_by(
        move |part| -> Ordering
            ensures { result ≡ nat_cmp part.now.0 client }
        { part.0.cmp(&client) },
    ) {
        Ok(place) => clients[place].1.as_slice(),
        Err(_) => &[],
    }
}
