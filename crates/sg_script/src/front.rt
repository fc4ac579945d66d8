// The parts of a script that were judged, as far as later ones depend on them.
ghost use Rattle.std.specs.Option.{option_map_or};
ghost use Rattle.std.specs.Prelude.{◌≡◌, ◌≤◌, ◌<◌, ◌+◌, ◌++◌, ◌∷◌, ◌^◌, ◌&&◌, [], List, false, length, true, slice_index_or, slice_set};
ghost use Rattle.sg_script_parse.specs.declared.tree.Part.{Part as OnePart};
ghost use Rattle.sg_script.specs.Scripts.{most_members, stop_member};
ghost use Rattle.sg_facts.specs.Interface.{Declared};
ghost use Rattle.sg_script.specs.Inside.Parts.{comes_again};
ghost use Rattle.sg_script.specs.Numbers.{is_known_client};
ghost use Rattle.sg_script.specs.Inside.Fronts.{IsFront};

use crate::names::stop_member;
use crate::numbers::{counts_as, is_known_client};
use sg_facts::{Interface, LAST_CLIENT};
use sg_script_parse::{Part, Spelled};

// A place for each number up to that of the last client.
const CLIENT_PLACES: usize = LAST_CLIENT as usize + 1;

/// The greatest number of members.
pub const MOST_MEMBERS: usize = 64;

/// What is kept of the parts of a script that were judged.
#[derive(Drop)]
pub struct SeenParts {
    /// Whether there was a `setup`.
    pub setup: bool,
    /// Which clients had a part, by their numbers up to the last.
    pub clients: [bool; CLIENT_PLACES],
    /// Whether there was a `schedule`.
    pub schedule: bool,
    /// Which members had a `stop`, from 0.
    pub stops: [bool; MOST_MEMBERS],
    /// The number of the calls of all parts. No sum of lengths is too great for the type.
    pub calls: u128,
}

impl SeenParts {
    /// No part.
    pub fn new() -> Self
        ensures front { (members : List Declared) → IsFront members result [] }
        ensures calls { result.calls ≡ 0 }
    {
        SeenParts {
            setup: false,
            clients: [false; CLIENT_PLACES],
            schedule: false,
            stops: [false; MOST_MEMBERS],
            calls: 0,
        }
    }

    /// Whether a part comes a second time after these parts, in a script for these members.
    pub fn comes_again(&self, members: &[Interface], part: &Part) -> bool
        requires { length members.now ≤ most_members }
        ensures { (parts : List OnePart) → IsFront members.now self.now parts → result ≡ comes_again members.now parts part.now }
    {
        match part {
            Part::Setup { .. } => self.setup,
            Part::Client { number, .. } => self.had(counts_as(number.slice)),
            Part::Schedule { .. } => self.schedule,
            Part::Stop { service, .. } => self.had_stop(members, service),
        }
    }

    // Whether there was a part of the client of a number.
    fn had(&self, number: u64) -> bool
        ensures { result ≡ (is_known_client number && slice_index_or self.now.clients number false) }
    {
        is_known_client(number) && self.clients[number as usize]
    }

    // Whether there was a `stop` for the member of a service.
    fn had_stop(&self, members: &[Interface], service: &Option<Spelled>) -> bool
        requires { length members.now ≤ most_members }
        ensures { result ≡ option_map_or (λ m. slice_index_or self.now.stops m false) (stop_member members.now service.now) false }
    {
        match stop_member(members, service) {
            Some(member) => self.stops[member],
            None => false,
        }
    }

    /// Puts a part after these parts, in a script for these members.
    pub fn add(&mut self, members: &[Interface], part: &Part)
        requires few { length members.now ≤ most_members }
        requires room { self.old.calls + 2 ^ 64 < 2 ^ 128 }
        ensures front { (parts : List OnePart) → IsFront members.now self.old parts → IsFront members.now self.new (parts ++ part.now ∷ []) }
        ensures calls { self.new.calls < self.old.calls + 2 ^ 64 }
    {
        match part {
            Part::Setup { calls, .. } => {
                self.setup = true;
                self.calls += calls.len() as u128;
            }
            Part::Client { number, calls, .. } => {
                self.add_client(counts_as(number.slice));
                self.calls += calls.len() as u128;
            }
            Part::Schedule { .. } => self.schedule = true,
            Part::Stop { service, .. } => self.add_stop(members, service),
        }
    }

    // Notes that there was a part of the client of a number.
    fn add_client(&mut self, number: u64)
        ensures { self.new ≡ record self.old { clients = slice_set self.old.clients number true } }
    {
        if number <= u64::from(LAST_CLIENT) {
            self.clients[number as usize] = true;
        }
    }

    // Notes that there was a `stop` for the member of a service.
    fn add_stop(&mut self, members: &[Interface], service: &Option<Spelled>)
        requires { length members.now ≤ most_members }
        ensures { self.new ≡ option_map_or (λ m. record self.old { stops = slice_set self.old.stops m true }) (stop_member members.now service.now) self.old }
    {
        if let Some(member) = stop_member(members, service) {
            self.stops[member] = true;
        }
    }
}
