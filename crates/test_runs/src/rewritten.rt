// Locks and events that texts describe print what the built-in ones print, on drawn scripts with stops.
use crate::runs::{input_of, played};
use std::alloc::{AllocError, Global};
use std::process::Abort;
use std::sync::Wait;
use std::test::Fail;
use std::thread::Threads;
use test_interfaces::{EVENT2, LOCK};

// Locks, described.
const OWN_LOCK: &[u8] = b"service_global_info = {\n\
\x20   version = 3,\n\
\x20   service = lock,\n\
\x20   desc_has_parent = none,\n\
\x20   desc_close = refuse,\n\
\x20   desc_is_global = true,\n\
\x20   desc_block = true,\n\
\x20   desc_has_data = true,\n\
\x20   resc_has_data = false,\n\
\x20   desc_recover = demand\n\
};\n\
sm_creation(lock_alloc);\n\
sm_terminal(lock_free);\n\
sm_block(lock_take);\n\
sm_wakeup(lock_release);\n\
sm_state(lock_release, lock_alloc);\n\
sm_transition(lock_alloc, lock_take);\n\
sm_transition(lock_alloc, lock_free);\n\
sm_transition(lock_take, lock_take);\n\
sm_transition(lock_take, lock_release);\n\
sm_transition(lock_take, lock_free);\n\
sm_recover(lock_alloc, lock_take);\n\
unsigned long lock_alloc(spdid_t spdid);\n\
int lock_take(spdid_t desc_data(owner), unsigned long desc(id));\n\
int lock_release(spdid_t spdid, unsigned long desc(id));\n\
desc_data_clear(lock_release, owner);\n\
int lock_free(spdid_t spdid, unsigned long desc(id));\n\
sm_answer(lock_take) {\n\
\x20   refuse Held if owner is caller;\n\
\x20   wait if owner above 0;\n\
}\n\
sm_answer(lock_release) {\n\
\x20   refuse NotOwner if owner is not caller;\n\
}\n\
sm_answer(lock_free) {\n\
\x20   refuse Held if owner above 0;\n\
}\n";

// Events, described.
const OWN_EVENT: &[u8] = b"service_global_info = {\n\
\x20   version = 3,\n\
\x20   service = event,\n\
\x20   desc_has_parent = none,\n\
\x20   desc_close = refuse,\n\
\x20   desc_is_global = true,\n\
\x20   desc_block = true,\n\
\x20   desc_has_data = true,\n\
\x20   resc_has_data = false,\n\
\x20   desc_recover = demand\n\
};\n\
sm_creation(evt_split);\n\
sm_terminal(evt_free);\n\
sm_block(evt_wait);\n\
sm_wakeup(evt_trigger);\n\
sm_keep(evt_wait);\n\
sm_keep(evt_trigger);\n\
sm_transition(evt_split, evt_wait);\n\
sm_transition(evt_split, evt_trigger);\n\
sm_transition(evt_split, evt_free);\n\
sm_recover(evt_split, evt_trigger);\n\
unsigned long evt_split(spdid_t spdid);\n\
int evt_wait(spdid_t spdid, unsigned long desc(id));\n\
desc_data_sub(evt_wait, count);\n\
int evt_trigger(spdid_t spdid, unsigned long desc(id), unsigned long desc_data_add(count));\n\
int evt_free(spdid_t spdid, unsigned long desc(id));\n\
sm_keep(evt_take);\n\
sm_transition(evt_split, evt_take);\n\
desc_data_retval_sub(long, count) evt_take(spdid_t spdid, unsigned long desc(id), unsigned long n);\n\
sm_answer(evt_wait) {\n\
\x20   wait if count is 0;\n\
}\n\
sm_answer(evt_take) {\n\
\x20   give $2 least count;\n\
}\n";

// A function on a descriptor that scripts call: its name, and the greatest of a second number, where it takes one.
struct Called {
    name: &'static str,
    most: Option<u64>,
}

// A service that a text describes as one that is built in: the text, the function that makes its descriptors, and the others.
struct Twin {
    own: &'static [u8],
    makes: &'static str,
    called: &'static [Called],
}

static LOCKS: Twin = Twin {
    own: OWN_LOCK,
    makes: "lock_alloc",
    called: &[
        Called {
            name: "lock_take",
            most: None,
        },
        Called {
            name: "lock_release",
            most: None,
        },
        Called {
            name: "lock_free",
            most: None,
        },
    ],
};

static EVENTS: Twin = Twin {
    own: OWN_EVENT,
    makes: "evt_split",
    called: &[
        Called {
            name: "evt_wait",
            most: None,
        },
        Called {
            name: "evt_trigger",
            most: Some(4_294_967_295),
        },
        Called {
            name: "evt_trigger",
            most: Some(2),
        },
        Called {
            name: "evt_free",
            most: None,
        },
        Called {
            name: "evt_take",
            most: Some(3),
        },
    ],
};

// How many scripts are drawn for each service; the descriptors that are made first; clients, calls of each, and stops.
const SCRIPTS: u64 = 500;

const MADE: u64 = 2;

const CLIENTS: u8 = 3;

const CALLS: u8 = 6;

const STOPS: u8 = 3;

// The greatest distance from a stop to the next.
const DISTANCE: u64 = 40;

// Numbers that are drawn one after the other: each is a linear function of the one before, modulo 2^64.
#[derive(Drop)]
struct Draws {
    last: u64,
}

const FACTOR: u64 = 6_364_136_223_846_793_005;

const SUMMAND: u64 = 1_442_695_040_888_963_407;

impl Draws {
    // The next number below one that is above 0, from the upper bits.
    fn below(&mut self, end: u64) -> u64 {
        self.last = self.last.wrapping_mul(FACTOR).wrapping_add(SUMMAND);
        (self.last >> 33) % end.max(1)
    }
}

// Adds the call of a function that is drawn.
fn add_call(
    alloc: Global,
    text: &mut String,
    draws: &mut Draws,
    twin: &Twin,
) -> Result<(), AllocError> {
    let place = draws.below(twin.called.len() as u64);
    let desc = draws.below(MADE + 1).saturating_add(1);
    let Some(called) = twin.called.get(place as usize) else {
        return Ok(());
    };
    let call = match called.most {
        Some(most) => {
            let number = draws.below(most);
            format!(in alloc; " {}({desc}, {number});", called.name)?
        }
        None => format!(in alloc; " {}({desc});", called.name)?,
    };
    text.push_str(&call)
}

// Adds the part of a client.
fn add_client(
    alloc: Global,
    text: &mut String,
    draws: &mut Draws,
    twin: &Twin,
    client: u8,
) -> Result<(), AllocError> {
    let head = format!(in alloc; "client {client} {{ {}();", twin.makes)?;
    text.push_str(&head)?;
    for _ in 0..CALLS {
        add_call(alloc, text, draws, twin)?;
    }
    text.push_str(" }\n")
}

// Adds the stops.
fn add_stops(alloc: Global, text: &mut String, draws: &mut Draws) -> Result<(), AllocError> {
    text.push_str("stop")?;
    let mut point: u64 = 0;
    for _ in 0..STOPS {
        point = draws
            .below(DISTANCE)
            .saturating_add(1)
            .saturating_add(point);
        let stop = format!(in alloc; " {point}")?;
        text.push_str(&stop)?;
    }
    text.push_str(";\n")
}

// The script of a number: descriptors that are made first, the parts of the clients, and stops.
fn drawn(alloc: Global, twin: &Twin, number: u64) -> Result<String, AllocError> {
    let mut draws = Draws { last: number };
    let mut text = String::new(alloc);
    text.push_str("setup {")?;
    for _ in 0..MADE {
        let call = format!(in alloc; " {}();", twin.makes)?;
        text.push_str(&call)?;
    }
    text.push_str(" }\n")?;
    for client in 1..=CLIENTS {
        add_client(alloc, &mut text, &mut draws, twin, client)?;
    }
    add_stops(alloc, &mut text, &mut draws)?;
    Ok(text)
}

// On each drawn script both print the same, byte by byte, with the trace, and end alike.
fn try_each<R: Threads + Wait + Sync + Abort>(
    rt: &R,
    alloc: Global,
    built_in: &[u8],
    twin: &Twin,
) -> Result<(), Fail> {
    for number in 0..SCRIPTS {
        let script = drawn(alloc, twin, number)?;
        let (status, printed) = trace_of(rt, alloc, built_in, &script)?;
        let (own_status, own_printed) = trace_of(rt, alloc, twin.own, &script)?;
        assert!(rt; status == own_status && printed == own_printed, "{script}");
        assert!(rt; status == 0 || status == 3, "{script}");
    }
    Ok(())
}

// What the trace of the play of a script comes to.
fn trace_of<R: Threads + Wait + Sync>(
    rt: &R,
    alloc: Global,
    interface: &[u8],
    script: &str,
) -> Result<(u8, Vec<u8>), Fail> {
    let input = input_of(alloc, interface, script)?;
    Ok(played(rt, alloc, "sim trace", &input)?)
}

#[test]
fn described_locks_print_what_locks_do(rt: HostRuntime) -> Result<(), Fail> {
    try_each(&rt, rt.alloc(), LOCK, &LOCKS)
}

#[test]
fn described_events_print_what_events_do(rt: HostRuntime) -> Result<(), Fail> {
    try_each(&rt, rt.alloc(), EVENT2, &EVENTS)
}
