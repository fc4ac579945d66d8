// The clients of a world.
ghost use Rattle.std.specs.Prelude.{◌≡◌, ◌<◌, ◌≤◌, ◌-◌, ◌+◌, ◌^◌, ◌==◌, ◌∷◌, ◌++◌, ℕ, Bool, true, [], length, map, replicate, vec_capacity, IfOk, OnOk, OnErr, slice_set};
ghost use Rattle.sg_clients.specs.Clients.{AnswersBy, IsClient};
ghost use Rattle.std.specs.List.{list_all};
ghost use Rattle.sg_facts.specs.sg_base.Reply.{FitsReplyRoom};
ghost use Rattle.sg_clients.specs.Inside.Waiting.{count_if_waits, waiting_in};
ghost use Rattle.sg_clients.specs.Rooms.{FitsSeatRoom};
ghost use Rattle.sg_facts.specs.Limits.{last_client};
ghost use Rattle.sg_clients.specs.WorldView.{IsFree, is_at_rest, is_left_phase, is_offered, no_reply, no_seat, seat_in, woken_seat};
ghost use Rattle.sg_clients.specs.declared.phase.Phase.TheVariants.{Idle, Asked, Held, Receipted, Blocked, Left};

use crate::seat::{ClientSeat, Returned, SeatRoom};
use crate::{Phase, Withdrawn};
use sg_facts::{Call, Entry, ListOf, NoMemory, Reply};
use std::alloc::Global;
use std::marker::Model;

/// The clients of a world, in ascending numbers from 1. Contracts see the list of their seats. Beside them stands the number of
/// those that wait, so that nobody is looked for where nobody waits.
#[derive(Debug, Drop)]
pub struct Clients {
    seats: Vec<ClientSeat>,
    waiting: usize,
}

impl Model for Clients {
    ghost use Rattle.std.specs.Prelude.{List};
    ghost use Rattle.sg_clients.specs.WorldView.{Seat};

    ghost Value = { List Seat };

    ghost view = { λ s. s.seats.items };

    ghost use Rattle.std.specs.Prelude.{◌≡◌};
    ghost use Rattle.sg_clients.specs.Inside.Waiting.{waiting_in};

    ghost invariant = { λ s. s.waiting ≡ waiting_in s.seats.items };
}

impl Clients {
    /// So many clients that did nothing yet.
    pub fn new(alloc: Global, clients: u8) -> Result<Clients, NoMemory>
        ensures { IfOk result (λ clients_made. clients_made ≡ replicate clients no_seat) }
    {
        Ok(Clients {
            seats: new_seats(alloc, clients)?,
            waiting: 0,
        })
    }

    /// The number of clients.
    pub fn len(&self) -> usize
        ensures { result ≡ length self.now }
    {
        self.seats.len()
    }

    /// How far a client has come with its call.
    pub fn phase(&self, client: u8) -> Phase
        requires client { IsClient (length self.now) client }
        ensures { result ≡ (seat_in self.now client).phase }
    {
        self.seats[usize::from(client) - 1].phase()
    }

    /// Whether a client has left.
    pub fn has_left(&self, client: u8) -> bool
        requires client { IsClient (length self.now) client }
        ensures { result ≡ is_left_phase (seat_in self.now client).phase }
    {
        self.seats[usize::from(client) - 1].has_left()
    }

    /// The number of a client's last entry.
    pub fn seq(&self, client: u8) -> u32
        requires client { IsClient (length self.now) client }
        ensures { result ≡ (seat_in self.now client).seq }
    {
        self.seats[usize::from(client) - 1].seq()
    }

    /// The boot in which the service gave a client's last held reply.
    pub fn boot(&self, client: u8) -> u64
        requires client { IsClient (length self.now) client }
        ensures { result ≡ (seat_in self.now client).boot }
    {
        self.seats[usize::from(client) - 1].boot()
    }

    /// A client's last call, lent.
    pub fn call(&self, client: u8) -> &Call
        requires client { IsClient (length self.now) client }
        ensures { result.now ≡ (seat_in self.now client).call }
    {
        self.seats[usize::from(client) - 1].call()
    }

    /// A client that has no call under way offers its call, and the memory is taken that answering or withdrawing it takes. After
    /// `NoMemory` the clients are as before.
    pub fn offer(&mut self, alloc: Global, call: Call) -> Result<(), NoMemory>
        requires client { IsClient (length self.old) call.client }
        requires free { IsFree (seat_in self.old call.client).phase }
        ensures ok { OnOk result (self.new ≡ slice_set self.old (call.client - 1) (record (seat_in self.old call.client) { phase = Asked; call = call })) }
        ensures err { OnErr result (self.new ≡ self.old) }
    {
        let client = call.client;
        self.seats[usize::from(client) - 1].offer(alloc, call)?;
        Ok(())
    }

    /// A client waits in its call.
    pub fn block(&mut self, client: u8)
        requires client { IsClient (length self.old) client }
        requires offers { is_offered (seat_in self.old client).phase ≡ true }
        ensures { self.new ≡ slice_set self.old (client - 1) (record (seat_in self.old client) { phase = Blocked }) }
    {
        self.waiting = self.waiting_without(client) + 1;
        self.seats[usize::from(client) - 1].block();
    }

    /// A client holds a reply that the service gave in a boot.
    pub fn hold(&mut self, client: u8, boot: u64, reply: Reply)
        requires client { IsClient (length self.old) client }
        requires offers { is_offered (seat_in self.old client).phase ≡ true }
        requires fits { FitsReplyRoom reply }
        ensures { self.new ≡ slice_set self.old (client - 1) (record (seat_in self.old client) { phase = Held; boot = boot; reply = reply }) }
    {
        self.waiting = self.waiting_without(client);
        self.seats[usize::from(client) - 1].hold(boot, reply);
    }

    /// A client loses the reply that it holds, and asks its call again.
    pub fn lose(&mut self, client: u8)
        requires client { IsClient (length self.old) client }
        requires offers { is_offered (seat_in self.old client).phase ≡ true }
        ensures { self.new ≡ slice_set self.old (client - 1) (record (seat_in self.old client) { phase = Asked }) }
    {
        self.waiting = self.waiting_without(client);
        self.seats[usize::from(client) - 1].ask_again();
    }

    /// A client's call is answered, and its reply is to be handed over; gives the entry, whose number is one of 32 bits. It takes no
    /// memory.
    pub fn give(&mut self, client: u8, reply: &Reply) -> Entry
        requires client { IsClient (length self.old) client }
        requires offers { is_offered (seat_in self.old client).phase ≡ true }
        requires fits { FitsReplyRoom reply.now }
        ensures entry { result ≡ record { call = (seat_in self.old client).call; reply = reply.now } }
        ensures number { result.call.seq < 2 ^ 32 }
        ensures seats { let s = seat_in self.old client in self.new ≡ slice_set self.old (client - 1) (record s { phase = Receipted; seq = s.call.seq; reply = reply.now }) }
    {
        self.waiting = self.waiting_without(client);
        self.seats[usize::from(client) - 1].give(reply)
    }

    /// A client's call, whose number is one of 32 bits, is answered, and its reply is to be handed over, where its entry was noted by loan.
    /// It takes no memory.
    pub fn answer(&mut self, client: u8, reply: &Reply)
        requires client { IsClient (length self.old) client }
        requires offers { is_offered (seat_in self.old client).phase ≡ true }
        requires fits { FitsReplyRoom reply.now }
        ensures number { (seat_in self.old client).call.seq < 2 ^ 32 }
        ensures seats { let s = seat_in self.old client in self.new ≡ slice_set self.old (client - 1) (record s { phase = Receipted; seq = s.call.seq; reply = reply.now }) }
    {
        self.waiting = self.waiting_without(client);
        self.seats[usize::from(client) - 1].answer(reply);
    }

    /// A client's call is answered by the reply that it holds, which is handed over at once; the entry's number is one of 32 bits. It
    /// takes no memory.
    pub fn give_back(&mut self, alloc: Global, client: u8) -> Returned
        requires client { IsClient (length self.old) client }
        requires offers { is_offered (seat_in self.old client).phase ≡ true }
        ensures entry { result.entry ≡ record { call = (seat_in self.old client).call; reply = (seat_in self.old client).reply } }
        ensures number { result.entry.call.seq < 2 ^ 32 }
        ensures reply { result.reply ≡ (seat_in self.old client).reply }
        ensures answer { result.answer ≡ (seat_in self.old client).reply }
        ensures seats { let s = seat_in self.old client in self.new ≡ slice_set self.old (client - 1) (record s { phase = Idle; seq = s.call.seq; reply = no_reply }) }
    {
        self.waiting = self.waiting_without(client);
        self.seats[usize::from(client) - 1].give_back(alloc)
    }

    /// A client's call is refused, which it is told at once; gives the call for its entry, whose number is one of 32 bits. It takes no
    /// memory.
    pub fn refuse(&mut self, alloc: Global, client: u8) -> Call
        requires client { IsClient (length self.old) client }
        requires offers { is_offered (seat_in self.old client).phase ≡ true }
        ensures call { result ≡ (seat_in self.old client).call }
        ensures number { result.seq < 2 ^ 32 }
        ensures seats { let s = seat_in self.old client in self.new ≡ slice_set self.old (client - 1) (record s { phase = Idle; seq = s.call.seq; reply = no_reply }) }
    {
        self.waiting = self.waiting_without(client);
        self.seats[usize::from(client) - 1].refuse(alloc)
    }

    /// A client's reply is handed over. It takes no memory.
    pub fn hand_over(&mut self, alloc: Global, client: u8) -> Reply
        requires client { IsClient (length self.old) client }
        requires receipted { (seat_in self.old client).phase ≡ Receipted }
        ensures reply { result ≡ (seat_in self.old client).reply }
        ensures seats { self.new ≡ slice_set self.old (client - 1) (record (seat_in self.old client) { phase = Idle; reply = no_reply }) }
    {
        self.seats[usize::from(client) - 1].hand_over(alloc)
    }

    /// A client withdraws its call, where the history has so many entries, in the memory that was taken for it.
    pub fn withdraw(&mut self, client: u8, at: u64) -> Withdrawn
        requires client { IsClient (length self.old) client }
        requires few { length self.old ≤ last_client }
        requires offers { is_offered (seat_in self.old client).phase ≡ true }
        ensures withdrawn { result ≡ record { call = (seat_in self.old client).call; phases = map (λ s. s.phase) self.old; at = at } }
        ensures seats { self.new ≡ slice_set self.old (client - 1) (record (seat_in self.old client) { phase = Idle }) }
    {
        let was = self.phase(client);
        let room = self.take_room(client);
        let mut phases = with_phases(room.phases, self.seats.as_slice());
        phases[usize::from(client) - 1] = was;
        Withdrawn {
            call: room.call,
            phases: ListOf::from_vec(phases),
            at,
        }
    }

    // A client withdraws its call, and gives what was taken for that.
    fn take_room(&mut self, client: u8) -> SeatRoom
        requires client { IsClient (length self.old) client }
        requires offers { is_offered (seat_in self.old client).phase ≡ true }
        ensures room { FitsSeatRoom (seat_in self.old client).call result }
        ensures seats { self.new ≡ slice_set self.old (client - 1) (record (seat_in self.old client) { phase = Idle }) }
    {
        self.waiting = self.waiting_without(client);
        self.seats[usize::from(client) - 1].withdraw()
    }

    /// A client leaves.
    pub fn leave(&mut self, client: u8)
        requires client { IsClient (length self.old) client }
        ensures { self.new ≡ slice_set self.old (client - 1) (record (seat_in self.old client) { phase = Left }) }
    {
        self.waiting = self.waiting_without(client);
        self.seats[usize::from(client) - 1].leave();
    }

    // The number of who waits, without this client.
    fn waiting_without(&self, client: u8) -> usize
        requires client { IsClient (length self.now) client }
        ensures others { result + count_if_waits (seat_in self.now client) ≡ waiting_in self.now }
        ensures fewer { result < length self.now }
    {
        self.waiting - usize::from(self.seats[usize::from(client) - 1].is_blocked())
    }

    /// Whether every client waits or has left.
    pub fn all_at_rest(&self) -> bool
        ensures { result ≡ list_all is_at_rest self.now }
    {
        self.seats.iter().all(|seat| seat.is_at_rest())
    }

    /// Whoever waits in a call on a descriptor is asked again. Where nobody waits, it looks at no client; else it goes once over all.
    pub fn wake(&mut self, desc: u64)
        ensures { self.new ≡ map (woken_seat (λ call. desc == call.desc)) self.old }
    {
        self.wake_where(
            |waited: u64| -> bool
                ensures { result ≡ (desc == waited) }
            { desc == waited },
        );
    }

    /// Whoever waits in a call on a descriptor that meets a test is asked again. The test is asked once for each client that waits.
    pub fn wake_where<F: Fn(u64) -> bool>(&mut self, test: F)
        requires { F.IsAlwaysCallable test }
        ensures { (meets : ℕ → Bool) → AnswersBy (F.post test) meets → self.new ≡ map (woken_seat (λ call. meets call.desc)) self.old }
    {
        if self.waiting == 0 {
            return;
        }
        self.waiting = wake_those(self.seats.as_mut_slice(), test);
    }

    /// Whoever waits is asked again.
    pub fn wake_all(&mut self)
        ensures { self.new ≡ map (woken_seat (λ call. true)) self.old }
    {
        self.wake_where(
            |_waited: u64| -> bool
                ensures { result ≡ true }
            { true },
        );
    }
}

// Clients that did nothing yet.
fn new_seats(alloc: Global, clients: u8) -> Result<Vec<ClientSeat>, NoMemory>
    ensures { IfOk result (λ seats. seats.items ≡ replicate clients no_seat) }
{
    let mut seats = Vec::with_capacity(alloc, usize::from(clients))?;
    for _ in 0..clients {
        seats.push(ClientSeat::new(alloc))?;
    }
    Ok(seats)
}

// Whoever waits in a call on a descriptor that meets a test is asked again; gives how many still wait.
fn wake_those<F: Fn(u64) -> bool>(seats: &mut [ClientSeat], test: F) -> usize
    requires { F.IsAlwaysCallable test }
    ensures waiting { result ≡ waiting_in seats.new }
    ensures woken { (meets : ℕ → Bool) → AnswersBy (F.post test) meets → seats.new ≡ map (woken_seat (λ call. meets call.desc)) seats.old }
{
    let mut waiting = 0;
    for seat in seats.iter_mut() {
        if seat.is_blocked() {
            let meets = test(seat.call().desc);
            seat.wake(meets);
            waiting += usize::from(!meets);
        }
    }
    waiting
}

// The phases of all seats, in the room that there is, which they give back where they don't need it.
fn with_phases(mut phases: Vec<Phase>, seats: &[ClientSeat]) -> Vec<Phase>
    requires empty { phases.items ≡ [] }
    requires room { length seats.now ≤ vec_capacity phases }
    ensures { result.items ≡ map (λ s. s.phase) seats.now }
{
    for seat in seats {
        phases.push_reserved(seat.phase());
    }
    phases.shrink_to_fit();
    phases
}
