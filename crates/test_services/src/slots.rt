// What no clause says: that each decision is carried out where there is memory.
use sg_facts::{Code, Outcome, Reply, Stops};
use sg_lock::{Decision, Slot, Slots, carry_out};
use std::alloc::Global;
use std::process::Abort;
use std::test::Fail;
use test_asking::Once;

// The most ids that the calls of a script can give.
const MOST_IDS: u64 = 65_536;

// A seat, with its guest.
#[derive(Clone, Copy, Debug, PartialEq, Eq)]
struct Seat {
    guest: u8,
}

impl Slot for Seat {
    ghost use Rattle.std.specs.Prelude.{[]};

    ghost body = { λ seat. record { made = 1; creator = seat.guest; parent = 0; state = 1; fields = [] } };
}

// Makes a seat through the bound alone.
fn make<T: Stops>(
    rt: &impl Abort,
    slots: &mut Slots<Seat>,
    alloc: Global,
    stops: &mut T,
    guest: u8,
) -> Outcome {
    assert!(rt; slots.given() < MOST_IDS);
    let entry = Seat { guest };
    carry_out(
        slots,
        alloc,
        stops,
        0,
        Decision::Make {
            entry,
            word: Some(70),
        },
    )
}

// Sets a seat that is there.
fn set<T: Stops>(
    rt: &impl Abort,
    slots: &mut Slots<Seat>,
    alloc: Global,
    stops: &mut T,
    id: u64,
    guest: u8,
) -> Outcome {
    assert!(rt; slots.given() < MOST_IDS);
    assert!(rt; slots.get(id).is_some());
    let entry = Seat { guest };
    carry_out(slots, alloc, stops, id, Decision::Set { entry, word: None })
}

// Ends a seat that is there.
fn remove<T: Stops>(
    rt: &impl Abort,
    slots: &mut Slots<Seat>,
    alloc: Global,
    stops: &mut T,
    id: u64,
) -> Outcome {
    assert!(rt; slots.given() <= MOST_IDS);
    assert!(rt; slots.get(id).is_some());
    carry_out(slots, alloc, stops, id, Decision::Remove)
}

// Whether an outcome is an Ok with this descriptor and these words, and without a patch.
fn is_ok(outcome: &Outcome, desc: u64, words: &[u64]) -> bool {
    match outcome {
        Outcome::Replied {
            reply: Reply::Ok(good),
            patch: None,
        } => { good.desc == desc && good.words.as_slice() == words && good.bytes.is_empty() }
        _ => false,
    }
}

// An outcome is an Ok with this descriptor and these words.
fn replies(rt: &impl Abort, outcome: Outcome, desc: u64, words: &[u64]) {
    assert!(rt; is_ok(&outcome, desc, words), "{outcome:?}");
}

// Whether a service stopped.
fn has_stopped(outcome: Outcome) -> bool {
    matches!(outcome, Outcome::Stopped)
}

// Makes a seat, which gets this id.
fn makes<T: Stops>(
    rt: &impl Abort,
    slots: &mut Slots<Seat>,
    alloc: Global,
    stops: &mut T,
    guest: u8,
    id: u64,
) {
    replies(rt, make(rt, slots, alloc, stops, guest), id, &[70]);
}

// Three seats are made, one is set, and one is removed.
fn change_three(rt: &impl Abort, slots: &mut Slots<Seat>, alloc: Global, stops: &mut Once) {
    assert!(rt; slots.get(0).is_none());
    for id in 1..4 {
        makes(rt, slots, alloc, stops, 7, id);
        assert_eq!(rt; stops.asked(), 2 * id);
    }
    replies(rt, set(rt, slots, alloc, stops, 2, 8), 0, &[]);
    replies(rt, remove(rt, slots, alloc, stops, 1), 0, &[]);
    assert_eq!(rt; stops.asked(), 8);
    for (id, want) in [(0, None), (1, None), (2, Some(8)), (3, Some(7)), (4, None)] {
        assert_eq!(rt; slots.get(id).map(|seat| seat.guest), want, "at {id}");
    }
}

#[test]
fn carries_decisions_out(rt: HostRuntime) -> Result<(), Fail> {
    let alloc = rt.alloc();
    let mut slots: Slots<Seat> = Slots::new(alloc);
    let mut stops = Once::new(0);
    change_three(&rt, &mut slots, alloc, &mut stops);
    // no id comes again
    for id in 4..1025 {
        makes(&rt, &mut slots, alloc, &mut stops, 9, id);
    }
    assert_eq!(rt; slots.len(), 1023);
    Ok(())
}

#[test]
fn ids_ascend_after_ended_ones(rt: HostRuntime) -> Result<(), Fail> {
    let alloc = rt.alloc();
    let mut slots: Slots<Seat> = Slots::new(alloc);
    let mut stops = Once::new(0);
    for id in 1..=MOST_IDS - 1 {
        makes(&rt, &mut slots, alloc, &mut stops, 7, id);
        replies(&rt, remove(&rt, &mut slots, alloc, &mut stops, id), 0, &[]);
    }
    makes(&rt, &mut slots, alloc, &mut stops, 7, MOST_IDS);
    assert_eq!(rt; slots.len(), 1);
    Ok(())
}

// Whether an outcome is this refusal, without a patch.
fn is_refusal(outcome: Outcome, wanted: Code) -> bool {
    match outcome {
        Outcome::Replied {
            reply: Reply::Refused(code),
            patch: None,
        } => code == wanted,
        _ => false,
    }
}

// Whether a caller waits.
fn blocks(outcome: Outcome) -> bool {
    matches!(outcome, Outcome::Blocks)
}

#[test]
fn answers_without_a_change(rt: HostRuntime) -> Result<(), Fail> {
    let alloc = rt.alloc();
    let mut slots: Slots<Seat> = Slots::new(alloc);
    let mut stops = Once::new(1);
    let refuse = Decision::Refuse(Code::Gap);
    assert!(rt;
        is_refusal(
            carry_out(&mut slots, alloc, &mut stops, 0, refuse),
            Code::Gap
        )
    );
    assert!(rt; blocks(carry_out(&mut slots, alloc, &mut stops, 0, Decision::Block)));
    let keep = Decision::Keep {
        desc: 5,
        word: Some(6),
    };
    replies(
        &rt,
        carry_out(&mut slots, alloc, &mut stops, 0, keep),
        5,
        &[6],
    );
    assert_eq!(rt; stops.asked(), 0);
    Ok(())
}

// A seat isn't made where one of the parts of that is stopped.
fn stops_while_making(rt: &impl Abort, alloc: Global, point: u64) {
    let mut slots: Slots<Seat> = Slots::new(alloc);
    let mut stops = Once::new(point);
    assert!(rt;
        has_stopped(make(rt, &mut slots, alloc, &mut stops, 7)),
        "at {point}"
    );
    assert_eq!(rt; stops.asked(), point);
}

// A seat that is made isn't set where that is stopped.
fn stops_while_setting(rt: &impl Abort, alloc: Global) {
    let mut slots: Slots<Seat> = Slots::new(alloc);
    let mut stops = Once::new(3);
    makes(rt, &mut slots, alloc, &mut stops, 7, 1);
    assert!(rt; has_stopped(set(rt, &mut slots, alloc, &mut stops, 1, 8)));
}

// A seat that is made and set isn't removed where that is stopped.
fn stops_while_removing(rt: &impl Abort, alloc: Global) {
    let mut slots: Slots<Seat> = Slots::new(alloc);
    let mut stops = Once::new(4);
    makes(rt, &mut slots, alloc, &mut stops, 7, 1);
    replies(rt, set(rt, &mut slots, alloc, &mut stops, 1, 8), 0, &[]);
    assert!(rt; has_stopped(remove(rt, &mut slots, alloc, &mut stops, 1)));
}

#[test]
fn stops_at_each_part(rt: HostRuntime) -> Result<(), Fail> {
    for point in [1, 2] {
        stops_while_making(&rt, rt.alloc(), point);
    }
    stops_while_setting(&rt, rt.alloc());
    stops_while_removing(&rt, rt.alloc());
    Ok(())
}
