// Hand-overs between 64 threads.
ghost use Rattle.std.specs.Prelude.{◌≡◌, ◌+◌, false, All, IfOk};

use crate::clients::note_often;
use crate::tally::Tally;
use sg_turn::{Dealing, Seat, Turn};
use std::alloc::{AllocError, Global};
use std::process::Abort;
use std::sync::Wait;
use std::test::Fail;
use std::thread;
use std::thread::Threads;

// The number of the last client.
const LAST: u8 = 64;

// How often each of the others takes the value.
const OFTEN: u32 = 16;

// One of many clients, with its seat.
#[derive(Drop)]
struct Client {
    number: u8,
    seat: Seat<Tally>,
    ghost own: { seat.number ≡ number },
    ghost free: { seat.holds ≡ false },
}

// The next client.
fn next_client(dealing: &mut Dealing<Tally>, number: u8) -> Client
    requires { dealing.old.next ≡ number }
    ensures turn { result.seat.turn ≡ dealing.old.id }
    ensures next { dealing.new ≡ record dealing.old { next = dealing.old.next + 1 } }
{
    let seat = dealing.deal();
    Client { number, seat }
}

// All clients but the last.
fn other_clients(alloc: Global, dealing: &mut Dealing<Tally>) -> Result<Vec<Client>, AllocError>
    requires { dealing.old.next ≡ 1 }
    ensures id { dealing.new.id ≡ dealing.old.id }
    ensures turns { IfOk result (λ v. All (λ c. c.seat.turn ≡ dealing.old.id) v.items) }
{
    let mut clients = Vec::new(alloc);
    'clients: for number in 1..LAST {
        clients.push(next_client(dealing, number))?;
    }
    Ok(clients)
}

// Each client takes the value in a thread of its own. Whether there was memory each time.
fn note_all<R: Threads + Wait + Sync>(
    rt: &R,
    turn: &Turn<Tally>,
    clients: Vec<Client>,
) -> Result<Vec<bool>, AllocError>
    requires { All (λ c. c.seat.turn ≡ turn.now.id) clients.items }
{
    thread::map_vec(
        rt,
        clients,
        &|client: Client| -> bool
            requires { client.seat.turn ≡ turn.now.id }
        { note_often(rt, turn, client.seat, client.number, OFTEN).1 },
    )
}

// Far more threads wait than can run at a time.
#[test]
fn clients_in_64_threads(rt: HostRuntime) -> Result<(), Fail> {
    let Ok(mut dealing) = Dealing::new(rt.alloc(), Tally::new(rt.alloc())) else {
        panic!(rt; "no memory")
    };
    let clients = other_clients(rt.alloc(), &mut dealing)?;
    let (turn, mut last) = dealing.deal_last();
    let noted = note_all(&rt, &turn, clients)?;
    let told = turn.progress(&mut last);
    let tally = turn.take(&rt, &mut last).value;
    assert!(rt; noted.iter().all(|noted| *noted));
    assert!(rt; told == 1_008 && tally.events == 1_008 && tally.clients.len() == 1_008);
    for number in 1..LAST {
        assert!(rt; tally.count(number) == 16, "client {number}");
    }
    Ok(())
}
