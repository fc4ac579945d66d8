// A play: whose turn it is, and the play to its end.
ghost use Rattle.std.specs.Prelude.{◌≡◌, ◌+◌, ◌≤◌, ◌<◌, ◌++◌, ℕ, List, [], true, false, None, IfOk, IfSome, OnErr, OnOk, length, nat_lt};
ghost use Rattle.sg_play.specs.sg_clients.Clients.{IsClient};
ghost use Rattle.sg_play.specs.sg_plain.Playing.Callers.{handed, is_setting_up};
ghost use Rattle.sg_play.specs.sg_plain.Playing.Ends.{end_of, ends_from};
ghost use Rattle.sg_sim.specs.Inside.Ends.{HasEnded, end_by};
ghost use Rattle.sg_play.specs.sg_plain.Playing.Playable.{IsPlayable};
ghost use Rattle.sg_play.specs.sg_plain.Playing.Turns.{NobodyGoes, is_free_phase, may_go};
ghost use Rattle.sg_facts.specs.Trace.{run_of};
ghost use Rattle.sg_play.specs.sg_plain.Calls.{script_calls};
ghost use Rattle.sg_play.specs.Turning.{StepsInTurn, with_offer};
ghost use Rattle.sg_play.specs.Following.Stages.{IsNextTurn};
ghost use Rattle.sg_play.specs.GoingOn.{MayGoOn};
ghost use Rattle.sg_sim.specs.Inside.Next.{IsFirstAfter, NoneAfter, NoneScheduled, may_go_next, stage_now};
ghost use Rattle.sg_play.specs.sg_clients.WorldView.{is_blocked_phase, seat_of};
ghost use Rattle.sg_sim.specs.Played.{FollowsSchedule, IsOfWorld, IsPlayed};
ghost use Rattle.sg_sim.specs.Playing.{ComesTo, EndsAs, HasMissed, IsTurnOf, can_step, new_of};
ghost use Rattle.sg_play.specs.sg_plain.Answering.{no_query_waits};
ghost use Rattle.sg_play.specs.sg_world.Worlded.{setting_of};
ghost use Rattle.sg_play.specs.sg_world_laws.Setting.{stubs_of};

use crate::given::Given;
use crate::played::Played;
use crate::turn::take_turn;
use sg_discard::discard;
use sg_facts::{FIRST_CLIENT, NoMemory, Service, Stops, Tables, TryCopy};
use sg_play::{End, EndList, Ended, Phase, Script, World, most_client, script_call};
use std::alloc::Global;
use std::marker::Model;

/// The greatest number of turns of a play. Each turn adds to the trace or to the history of its world, so that a play of more turns
/// wants memory.
const MOST_TURNS: u64 = u64::MAX;

/// A play of a script: its clients make their calls, turn by turn, on a world whose service may stop. Contracts see it as plain data.
#[derive(Debug, Drop)]
pub struct Play<S: Service, T: Stops> {
    world: World<S, T>,
    script: Script,
    given: Given,
    // How many turns of the schedule were taken or passed over.
    passed: usize,
    // The client of the last turn, 0 before the first.
    last: u8,
    // Whether each turn so far was that of the play without stops.
    in_order: bool,
}

impl<S: Service, T: Stops> Model for Play<S, T> {
    ghost use Rattle.sg_sim.specs.Inside.Givens.{lists_of};
    ghost use Rattle.sg_sim.specs.Inside.Keeps.{KeepsPlay};
    ghost use Rattle.sg_sim.specs.Playing.{Playing};
    ghost use Rattle.sg_play.specs.sg_world.Worlded.{setting_of};

    ghost Value = { Playing };

    ghost view = { λ p. record { tables = p.world.tables; script = p.script; plan = p.world.plan; view = p.world.view; passed = p.passed; last = p.last; in_order = p.in_order } };

    ghost invariant = { λ p. KeepsPlay (setting_of S.ask S.sound S.parts p.world.tables) p.script p.world.view (lists_of p.given) p.passed p.last p.in_order };
}

// A turn that is to be taken: its client, and how many turns of the schedule are after it.
#[derive(Clone, Copy, Debug)]
struct NextTurn {
    client: u8,
    passed: usize,
}

impl<S: Service, T: Stops> Play<S, T> {
    /// The play of a script, in which nothing was done.
    pub fn new(
        alloc: Global,
        image: S::Image,
        tables: Tables,
        script: Script,
        stops: T,
    ) -> Result<Play<S, T>, NoMemory>
        requires service { tables.iface.facts ≡ S.facts }
        requires playable { IsPlayable tables.iface script }
        requires waits { no_query_waits tables.iface.facts ≡ true }
        requires unasked { T.asked stops ≡ 0 }
        requires unstruck { T.struck stops ≡ [] }
        ensures tables { IfOk result (λ p. p.tables ≡ tables) }
        ensures script { IfOk result (λ p. p.script ≡ script) }
        ensures plan { IfOk result (λ p. p.plan ≡ T.plan stops) }
        ensures view { IfOk result (λ p. p.view ≡ new_of script) }
        ensures passed { IfOk result (λ p. p.passed ≡ 0) }
        ensures last { IfOk result (λ p. p.last ≡ 0) }
        ensures in_order { IfOk result (λ p. p.in_order ≡ true) }
    {
        let clients = most_client(script.clients.as_slice());
        let given = Given::new(alloc, clients)?;
        let world = World::new(alloc, image, tables, clients, stops)?;
        Ok(Play {
            world,
            script,
            given,
            passed: 0,
            last: 0,
            in_order: true,
        })
    }

    /// A play of a script that goes on over a world whose clients have made some of its calls, those of the setup among them. Its turns
    /// are not told to be those of the play without stops. `NoMemory` also where the world has a withdrawn call; it is dropped then.
    pub fn over(alloc: Global, world: World<S, T>, script: Script) -> Result<Play<S, T>, NoMemory>
        requires waits { no_query_waits world.tables.iface.facts ≡ true }
        requires goes { world.view.withdrawn ≡ [] → MayGoOn (setting_of S.ask S.sound S.parts world.tables) script world.view }
        ensures tables { IfOk result (λ p. p.tables ≡ world.tables) }
        ensures script { IfOk result (λ p. p.script ≡ script) }
        ensures plan { IfOk result (λ p. p.plan ≡ world.plan) }
        ensures view { IfOk result (λ p. p.view ≡ world.view) }
        ensures in_order { IfOk result (λ p. p.in_order ≡ false) }
    {
        if !world.withdrawn().is_empty() {
            discard(world);
            return Err(NoMemory);
        }
        let clients = most_client(script.clients.as_slice());
        match Given::told_by(alloc, &world, clients) {
            Ok(given) => Ok(Play {
                world,
                script,
                given,
                passed: 0,
                last: 0,
                in_order: false,
            }),
            Err(NoMemory) => {
                discard(world);
                Err(NoMemory)
            }
        }
    }

    /// Its world and its script, given away. Where the setup is done a play can go on over them.
    pub fn parts(self) -> (World<S, T>, Script)
        ensures tables { result.0.tables ≡ self.tables }
        ensures plan { result.0.plan ≡ self.plan }
        ensures view { result.0.view ≡ self.view }
        ensures script { result.1 ≡ self.script }
        ensures withdrawn { self.view.withdrawn ≡ [] }
        ensures waits { no_query_waits self.tables.iface.facts ≡ true }
        ensures goes { is_setting_up self.script self.view.seats ≡ false → MayGoOn (setting_of S.ask S.sound S.parts self.tables) self.script self.view }
    {
        let Play { world, script, .. } = self;
        (world, script)
    }

    /// Plays the calls of the setup, which client 1 makes, and no other. After `NoMemory` it may be called again.
    pub fn setup(&mut self, alloc: Global) -> Result<(), NoMemory>
        ensures done { OnOk result (is_setting_up self.new.script self.new.view.seats ≡ false) }
        ensures stays { is_setting_up self.old.script self.old.view.seats ≡ false → self.new ≡ self.old }
        ensures calls { is_setting_up self.old.script self.old.view.seats ≡ true → handed (seat_of self.new.view 1) ≤ length self.old.script.setup }
        ensures free { is_setting_up self.old.script self.old.view.seats ≡ true → OnOk result (is_free_phase (seat_of self.new.view 1).phase ≡ true) }
        ensures others { (client : ℕ) → 2 ≤ client → seat_of self.new.view client ≡ seat_of self.old.view client }
        ensures turns { OnOk result (ComesTo (setting_of S.ask S.sound S.parts self.old.tables) self.old.script self.old.view self.new.view) }
        ensures tables { self.new.tables ≡ self.old.tables }
        ensures script { self.new.script ≡ self.old.script }
        ensures plan { self.new.plan ≡ self.old.plan }
        ensures in_order { self.new.in_order ≡ self.old.in_order }
    {
        for _ in 0..MOST_TURNS {
            if !self.is_setting_up() {
                return Ok(());
            }
            let turn = self.setup_turn();
            self.take(alloc, turn)?;
        }
        Err(NoMemory)
    }

    /// The number of its clients, which are numbered from 1.
    pub fn clients(&self) -> u8
        ensures { result ≡ length self.now.view.seats }
    {
        most_client(self.script.clients.as_slice())
    }

    /// The number of the call that a client offers next, where it has none under way and has more calls.
    pub fn next_number(&self, client: u8) -> u32
        requires can { can_step self.now client ≡ true }
        requires free { is_free_phase (seat_of self.now.view client).phase ≡ true }
        ensures { result ≡ (seat_of self.now.view client).seq + 1 }
    {
        self.world.seq(client) + 1
    }

    /// Whether a client is one of the play's.
    pub fn has(&self, client: u8) -> bool
        ensures client { result ≡ true → IsClient (length self.now.view.seats) client }
        ensures beyond { result ≡ false → 1 ≤ client → length self.now.view.seats < client }
    {
        client >= FIRST_CLIENT && client <= self.clients()
    }

    /// Whether a client is one of the play's and can take a turn: it has a call under way that doesn't wait, or it has none and has more
    /// calls.
    pub fn can_step(&self, client: u8) -> bool
        ensures can { result ≡ can_step self.now client }
        ensures client { result ≡ true → IsClient (length self.now.view.seats) client }
    {
        self.can_go(client)
    }

    /// Makes one turn of a client, whatever the schedule says: the client offers its next call where it has none under way, makes a step,
    /// and leaves after its last call. Gives the descriptor of the reply that was handed over, 0 for none; None where no reply was.
    /// After `NoMemory` the turn may be made again.
    pub fn turn(&mut self, alloc: Global, client: u8) -> Result<Option<u64>, NoMemory>
        requires can { can_step self.old client ≡ true }
        requires setup { is_setting_up self.old.script self.old.view.seats ≡ true → client ≡ 1 }
        ensures steps { let z = setting_of S.ask S.sound S.parts self.old.tables in
            IfOk result (λ handed. StepsInTurn z self.old.script (with_offer z.iface.facts self.old.script self.old.view client) client handed self.new.view) }
        ensures missed { OnErr result (HasMissed (setting_of S.ask S.sound S.parts self.old.tables) self.old.script self.old.view client self.new.view) }
        ensures again { OnErr result (can_step self.new client ≡ true) }
        ensures last { OnOk result (self.new.last ≡ client) }
        ensures not_last { OnErr result (self.new.last ≡ self.old.last) }
        ensures passed { self.new.passed ≡ self.old.passed }
        ensures settled { is_setting_up self.old.script self.old.view.seats ≡ false → is_setting_up self.new.script self.new.view.seats ≡ false }
        ensures clients { length self.new.view.seats ≡ length self.old.view.seats }
        ensures in_order { self.new.in_order ≡ false }
        ensures tables { self.new.tables ≡ self.old.tables }
        ensures script { self.new.script ≡ self.old.script }
        ensures plan { self.new.plan ≡ self.old.plan }
    {
        self.in_order = false;
        let handed = take_turn(
            alloc,
            &mut self.world,
            &self.script,
            &mut self.given,
            client,
        )?;
        self.last = client;
        Ok(handed)
    }

    /// Plays all that is left, to the end: until no client can take a turn. Where each turn before was that of the play without stops, so
    /// are these. What it answers has the history and the trace of the play's world. `NoMemory` also where a step of that wanted memory.
    pub fn play(&mut self, alloc: Global) -> Result<Played, NoMemory>
        ensures played { IfOk result (IsPlayed (stubs_of (setting_of S.ask S.sound S.parts self.old.tables)) T.test self.old.script self.old.plan) }
        ensures schedule { self.old.in_order ≡ true → IfOk result (λ ended. FollowsSchedule self.old.tables.iface S.ask self.old.script (run_of ended.trace) ended.history.items) }
        ensures world { IfOk result (IsOfWorld self.new.view) }
        ensures turns { OnOk result (ComesTo (setting_of S.ask S.sound S.parts self.old.tables) self.old.script self.old.view self.new.view) }
        ensures tables { self.new.tables ≡ self.old.tables }
        ensures script { self.new.script ≡ self.old.script }
        ensures plan { self.new.plan ≡ self.old.plan }
        ensures in_order { self.new.in_order ≡ self.old.in_order }
    {
        let ends = self.come_to_end(alloc)?;
        self.copied(alloc, ends)
    }

    /// Plays all that is left, to the end, as `play` does, and ends the play. What it answers has the history and the trace of the world
    /// to which the play's comes by turns of its clients; they are moved out of it.
    pub fn finish(self, alloc: Global) -> Result<Played, NoMemory>
        ensures played { IfOk result (IsPlayed (stubs_of (setting_of S.ask S.sound S.parts self.tables)) T.test self.script self.plan) }
        ensures schedule { self.in_order ≡ true → IfOk result (λ ended. FollowsSchedule self.tables.iface S.ask self.script (run_of ended.trace) ended.history.items) }
        ensures world { IfOk result (EndsAs (setting_of S.ask S.sound S.parts self.tables) self.script self.view) }
    {
        let mut play = self;
        match play.come_to_end(alloc) {
            Ok(ends) => Ok(play.into_played(ends)),
            Err(NoMemory) => {
                play.abandon();
                Err(NoMemory)
            }
        }
    }

    /// Ends the play where it stands.
    pub fn abandon(self) {
        let Play { world, .. } = self;
        discard(world);
    }

    /// Its world, lent.
    pub fn world(&self) -> &World<S, T>
        ensures tables { result.now.tables ≡ self.now.tables }
        ensures view { result.now.view ≡ self.now.view }
        ensures plan { result.now.plan ≡ self.now.plan }
    {
        &self.world
    }

    // Makes the turns that are left, and gives how the clients ended. `NoMemory` also where a step of the world wanted memory.
    fn come_to_end(&mut self, alloc: Global) -> Result<EndList, NoMemory>
        ensures ended { IfOk result (HasEnded self.new) }
        ensures turns { OnOk result (ComesTo (setting_of S.ask S.sound S.parts self.old.tables) self.old.script self.old.view self.new.view) }
        ensures tables { self.new.tables ≡ self.old.tables }
        ensures script { self.new.script ≡ self.old.script }
        ensures plan { self.new.plan ≡ self.old.plan }
        ensures in_order { self.new.in_order ≡ self.old.in_order }
    {
        for _ in 0..MOST_TURNS {
            match self.next_turn() {
                Some(turn) => self.take(alloc, turn)?,
                None => return self.ends_of_all(alloc),
            }
        }
        Err(NoMemory)
    }

    // A client takes its turn, which is the next. After `NoMemory` it has still to take it.
    fn take(&mut self, alloc: Global, turn: NextTurn) -> Result<(), NoMemory>
        requires client { IsClient (length self.old.view.seats) turn.client }
        requires setup { is_setting_up self.old.script self.old.view.seats ≡ true → turn.client ≡ 1 }
        requires next { IsNextTurn self.old.script (stage_now self.old) turn.client turn.passed }
        ensures steps { OnOk result (IsTurnOf (setting_of S.ask S.sound S.parts self.old.tables) self.old.script self.old.view turn.client self.new.view) }
        ensures free { is_setting_up self.old.script self.old.view.seats ≡ true → is_setting_up self.new.script self.new.view.seats ≡ false → is_free_phase (seat_of self.new.view 1).phase ≡ true }
        ensures one { handed (seat_of self.new.view 1) ≤ handed (seat_of self.old.view 1) + 1 }
        ensures others { is_setting_up self.old.script self.old.view.seats ≡ true → (client : ℕ) → 2 ≤ client → seat_of self.new.view client ≡ seat_of self.old.view client }
        ensures tables { self.new.tables ≡ self.old.tables }
        ensures script { self.new.script ≡ self.old.script }
        ensures plan { self.new.plan ≡ self.old.plan }
        ensures in_order { self.new.in_order ≡ self.old.in_order }
    {
        take_turn(
            alloc,
            &mut self.world,
            &self.script,
            &mut self.given,
            turn.client,
        )?;
        self.passed = turn.passed;
        self.last = turn.client;
        Ok(())
    }

    // Whether client 1 is still at the calls of the setup.
    fn is_setting_up(&self) -> bool
        ensures { result ≡ is_setting_up self.now.script self.now.view.seats }
    {
        self.given.of(FIRST_CLIENT).len() < self.script.setup.len()
    }

    // Whose turn it is: client 1's until the setup is done, then who the schedule says and can, then who is next and can; None exactly
    // where nobody can.
    fn next_turn(&self) -> Option<NextTurn>
        ensures first { IfSome result (λ turn. 1 ≤ turn.client) }
        ensures last { IfSome result (λ turn. turn.client ≤ length self.now.view.seats) }
        ensures setup { IfSome result (λ turn. is_setting_up self.now.script self.now.view.seats ≡ true → turn.client ≡ 1) }
        ensures next { IfSome result (λ turn. IsNextTurn self.now.script (stage_now self.now) turn.client turn.passed) }
        ensures settled { result ≡ None → is_setting_up self.now.script self.now.view.seats ≡ false }
        ensures over { result ≡ None → NobodyGoes self.now.script self.now.view.seats }
    {
        if self.is_setting_up() {
            return Some(self.setup_turn());
        }
        match self.next_scheduled() {
            Some(turn) => Some(turn),
            None => self.next_in_circle(),
        }
    }

    // The turn of client 1 while it is at the calls of the setup.
    fn setup_turn(&self) -> NextTurn
        requires { is_setting_up self.now.script self.now.view.seats ≡ true }
        ensures client { result.client ≡ 1 }
        ensures last { result.client ≤ length self.now.view.seats }
        ensures next { IsNextTurn self.now.script (stage_now self.now) result.client result.passed }
    {
        NextTurn {
            client: FIRST_CLIENT,
            passed: self.passed,
        }
    }

    // The next turn of the schedule whose client can take it, after the setup.
    fn next_scheduled(&self) -> Option<NextTurn>
        requires settled { is_setting_up self.now.script self.now.view.seats ≡ false }
        ensures first { IfSome result (λ turn. 1 ≤ turn.client) }
        ensures last { IfSome result (λ turn. turn.client ≤ length self.now.view.seats) }
        ensures next { IfSome result (λ turn. IsNextTurn self.now.script (stage_now self.now) turn.client turn.passed) }
        ensures over { result ≡ None → NoneScheduled self.now (length self.now.script.schedule) }
    {
        let schedule = self.script.schedule.as_slice();
        'turns: for at in self.passed..schedule.len() {
            let client = schedule[at];
            if self.can_go(client) {
                return Some(NextTurn {
                    client,
                    passed: at + 1,
                });
            }
        }
        None
    }

    // The turn of the next client that can take one, where the schedule gives none: in ascending numbers after the client of the last
    // turn, and then from 1 on.
    fn next_in_circle(&self) -> Option<NextTurn>
        requires settled { is_setting_up self.now.script self.now.view.seats ≡ false }
        requires unscheduled { NoneScheduled self.now (length self.now.script.schedule) }
        ensures first { IfSome result (λ turn. 1 ≤ turn.client) }
        ensures last { IfSome result (λ turn. turn.client ≤ length self.now.view.seats) }
        ensures next { IfSome result (λ turn. IsNextTurn self.now.script (stage_now self.now) turn.client turn.passed) }
        ensures over { result ≡ None → NobodyGoes self.now.script self.now.view.seats }
    {
        let passed = self.script.schedule.len();
        if let Some(client) = self.next_after(self.last, self.clients()) {
            return Some(NextTurn { client, passed });
        }
        match self.next_after(0, self.last) {
            Some(client) => Some(NextTurn { client, passed }),
            None => None,
        }
    }

    // The first client after one, and up to another, that can take a turn.
    fn next_after(&self, behind: u8, last: u8) -> Option<u8>
        requires { last ≤ length self.now.view.seats }
        ensures some { IfSome result (IsFirstAfter self.now behind last) }
        ensures none { result ≡ None → NoneAfter self.now behind last }
    {
        'clients: for before in behind..last {
            if self.can_go(before + 1) {
                return Some(before + 1);
            }
        }
        None
    }

    // Whether a client is one of the world, and can take a turn.
    fn can_go(&self, client: u8) -> bool
        ensures client { result ≡ true → IsClient (length self.now.view.seats) client }
        ensures may { 1 ≤ client → result ≡ may_go_next self.now client }
        ensures can { result ≡ can_step self.now client }
    {
        if !self.has(client) {
            return false;
        }
        may_go(self.world.phase(client), self.has_more(client))
    }

    // Whether a client has more calls than it has entries.
    fn has_more(&self, client: u8) -> bool
        requires client { IsClient (length self.now.view.seats) client }
        ensures { result ≡ nat_lt (seat_of self.now.view client).seq (length (script_calls self.now.script client)) }
    {
        let done = self.world.seq(client) as usize;
        script_call(&self.script, client, done).is_some()
    }

    // How the clients ended, where nobody can take a turn.
    fn ends_of_all(&self, alloc: Global) -> Result<EndList, NoMemory>
        requires settled { is_setting_up self.now.script self.now.view.seats ≡ false }
        requires nobody { NobodyGoes self.now.script self.now.view.seats }
        ensures { IfOk result (HasEnded self.now) }
    {
        if self.world.refused() > 0 {
            return Err(NoMemory);
        }
        Ok(self.ends(alloc)?)
    }

    // What the play promises of a run that ends so, for the proof: nothing is done, and it takes what these calls promise.
    fn tell_end(&self, ends: &EndList)
        requires { HasEnded self.now ends.now }
        ensures played { (ended : _) → IsOfWorld self.now.view ended → ended.ends ≡ ends.now
            → IsPlayed (stubs_of (setting_of S.ask S.sound S.parts self.now.tables)) T.test self.now.script self.now.plan ended }
        ensures schedule { (ended : _) → IsOfWorld self.now.view ended → self.now.in_order ≡ true
            → FollowsSchedule self.now.tables.iface S.ask self.now.script (run_of ended.trace) ended.history.items }
    {
        let _ = ends;
        let _ = self.world.interface();
        let _ = self.world.history();
        let _ = self.world.trace();
    }

    // What the play came to, with copies of its history and its trace.
    fn copied(&self, alloc: Global, ends: EndList) -> Result<Played, NoMemory>
        requires { HasEnded self.now ends }
        ensures played { IfOk result (IsPlayed (stubs_of (setting_of S.ask S.sound S.parts self.now.tables)) T.test self.now.script self.now.plan) }
        ensures schedule { self.now.in_order ≡ true → IfOk result (λ ended. FollowsSchedule self.now.tables.iface S.ask self.now.script (run_of ended.trace) ended.history.items) }
        ensures world { IfOk result (IsOfWorld self.now.view) }
    {
        self.tell_end(&ends);
        Ok(Played::new(Ended {
            history: self.world.history().copied(alloc)?,
            trace: self.world.trace().copied(alloc)?,
            ends,
        }))
    }

    // What the play came to, with its history and its trace themselves. It takes no memory.
    fn into_played(self, ends: EndList) -> Played
        requires { HasEnded self ends }
        ensures played { IsPlayed (stubs_of (setting_of S.ask S.sound S.parts self.tables)) T.test self.script self.plan result }
        ensures schedule { self.in_order ≡ true → FollowsSchedule self.tables.iface S.ask self.script (run_of result.trace) result.history.items }
        ensures world { IsOfWorld self.view result }
    {
        self.tell_end(&ends);
        let Play { world, .. } = self;
        let (history, trace) = world.into_run();
        Played::new(Ended {
            history,
            trace,
            ends,
        })
    }

    // How the clients with a call ended.
    fn ends(&self, alloc: Global) -> Result<EndList, NoMemory>
        ensures { IfOk result (λ ends. ends ≡ ends_from self.now.script 1 self.now.view.seats) }
    {
        let mut ends = EndList::new(alloc);
        'clients: for before in 0..self.clients() {
            self.add_end(alloc, before + 1, &mut ends)?;
        }
        Ok(ends)
    }

    // Adds how a client ended, where it has a call.
    fn add_end(&self, alloc: Global, client: u8, ends: &mut EndList) -> Result<(), NoMemory>
        requires client { IsClient (length self.now.view.seats) client }
        ensures { OnOk result (ends.new ≡ ends.old ++ end_by self.now.script client (seat_of self.now.view client)) }
    {
        if script_call(&self.script, client, 0).is_none() {
            return Ok(());
        }
        let end = self.end_of(alloc, client)?;
        ends.push((client, end))?;
        Ok(())
    }

    // How a client ended.
    fn end_of(&self, alloc: Global, client: u8) -> Result<End, NoMemory>
        requires client { IsClient (length self.now.view.seats) client }
        ensures { IfOk result (λ end. end ≡ end_of (seat_of self.now.view client)) }
    {
        if !waits(self.world.phase(client)) {
            return Ok(End::Done);
        }
        Ok(End::Blocked(self.world.call(client).copy(alloc)?))
    }
}

// Whether a client in a phase may take a turn, which may have more calls.
fn may_go(phase: Phase, more: bool) -> bool
    ensures { result ≡ may_go phase more }
{
    match phase {
        Phase::Idle | Phase::Left => more,
        Phase::Asked | Phase::Held | Phase::Receipted => true,
        Phase::Blocked => false,
    }
}

// Whether a client in a phase waits.
fn waits(phase: Phase) -> bool
    ensures { result ≡ is_blocked_phase phase }
{
    matches!(phase, Phase::Blocked)
}
