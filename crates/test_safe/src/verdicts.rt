// What is found of each service.
ghost use Rattle.std.specs.Prelude.{◌≡◌, ◌≤◌, true, length};
ghost use Rattle.sg_safe.specs.sg_facts.Limits.{most_funs};
ghost use Rattle.sg_safe.specs.sg_described.Described.{described_of};
ghost use Rattle.sg_safe.specs.sg_described.Safe.{is_plain};

use crate::faulty::{
    counter, crate_overfull, forgetful_lock, heap, limited_event, mute_semaphore, tally,
};
use crate::services::{event, lock, semaphore};
use sg_safe::{
    Bounds, Description, FailingCall, FieldState, KnownField, Obstacle, SafeError, Unsafe, safe,
};
use std::alloc::Global;
use std::process::Abort;
use std::test::Fail;

/// A verdict that is expected: that a service can be recovered, or the first reason why it can't.
#[derive(Clone, Copy, Debug)]
pub enum Expected {
    Safe,
    CountsFar {
        field: u8,
    },
    Recounts {
        fun: u8,
        field: u8,
    },
    Overtaken {
        waiter: u8,
        rule: usize,
        by: u8,
    },
    Fails {
        walk: &'static [u8],
        fun: u8,
        obstacle: Obstacle,
        state: u8,
        field: KnownField,
    },
}

/// A number up to 65535.
const SMALL: Bounds = Bounds {
    least: 0,
    most: 65535,
};

/// A field that isn't set, of a row that may have a small number.
const UNSET: KnownField = KnownField {
    mark: FieldState::Unset,
    bounds: Bounds { least: 0, most: 0 },
    own: SMALL,
};

// Whether a call fails so, on a row of one field.
fn is_call(call: &FailingCall, fun: u8, obstacle: Obstacle, state: u8, field: KnownField) -> bool {
    call.fun == fun
        && call.obstacle == obstacle
        && call.spot.state == state
        && call.spot.fields.as_slice() == [field].as_slice()
}

// Whether a reason is the expected one.
fn is_reason(reason: &Unsafe, expected: &Expected) -> bool {
    match (reason, expected) {
        (Unsafe::CountsFar { field }, Expected::CountsFar { field: other }) => *field == *other,
        (
            Unsafe::Recounts { fun, field },
            Expected::Recounts {
                fun: of,
                field: other,
            },
        ) => *fun == *of && *field == *other,
        (
            Unsafe::Overtaken { waiter, rule, by },
            Expected::Overtaken {
                waiter: who,
                rule: which,
                by: whom,
            },
        ) => *waiter == *who && *rule == *which && *by == *whom,
        (
            Unsafe::Fails { walk, call },
            Expected::Fails {
                walk: before,
                fun,
                obstacle,
                state,
                field,
            },
        ) => walk.as_slice() == *before && is_call(call, *fun, *obstacle, *state, *field),
        _ => false,
    }
}

// What is found of a service is what is expected.
fn try_one(
    rt: &impl Abort,
    alloc: Global,
    description: &Description,
    expected: Expected,
) -> Result<(), Fail>
    requires few { length (described_of description.now).facts.funs ≤ most_funs }
    requires plain { is_plain (described_of description.now) ≡ true }
{
    match safe(alloc, description) {
        Ok(()) => assert!(rt; matches!(&expected, Expected::Safe)),
        Err(SafeError::NoMemory) => return Err(Fail::new("no memory")),
        Err(SafeError::Unsafe(reason)) => {
            assert!(rt; is_reason(&reason, &expected), "{reason:?}")
        }
    }
    Ok(())
}

#[test]
fn some_are_safe(rt: HostRuntime) -> Result<(), Fail> {
    let alloc = rt.alloc();
    try_one(&rt, alloc, &lock(), Expected::Safe)?;
    try_one(&rt, alloc, &event(), Expected::Safe)?;
    try_one(&rt, alloc, &semaphore(), Expected::Safe)
}

#[test]
fn a_replayed_call_may_be_refused(rt: HostRuntime) -> Result<(), Fail> {
    let refused = Expected::Fails {
        walk: &[1],
        fun: 3,
        obstacle: Obstacle::ByRule { rule: 1 },
        state: 1,
        field: UNSET,
    };
    try_one(&rt, rt.alloc(), &limited_event(), refused)
}

#[test]
fn a_replayed_call_may_have_no_client(rt: HostRuntime) -> Result<(), Fail> {
    let alone = Expected::Fails {
        walk: &[1],
        fun: 2,
        obstacle: Obstacle::NoClient { field: 0 },
        state: 1,
        field: KnownField {
            own: Bounds { least: 0, most: 64 },
            ..UNSET
        },
    };
    try_one(&rt, rt.alloc(), &forgetful_lock(), alone)
}

#[test]
fn a_wake_up_may_be_missed(rt: HostRuntime) -> Result<(), Fail> {
    let overtaken = Expected::Overtaken {
        waiter: 2,
        rule: 1,
        by: 3,
    };
    try_one(&rt, rt.alloc(), &mute_semaphore(), overtaken)
}

#[test]
fn a_field_may_go_past_its_greatest(rt: HostRuntime) -> Result<(), Fail> {
    let alloc = rt.alloc();
    let twice = Expected::Fails {
        walk: &[1],
        fun: 2,
        obstacle: Obstacle::PastMost { field: 0 },
        state: 1,
        field: KnownField {
            mark: FieldState::Good,
            bounds: SMALL,
            own: SMALL,
        },
    };
    try_one(&rt, alloc, &heap(), twice)?;
    let at_once = Expected::Fails {
        walk: &[],
        fun: 1,
        obstacle: Obstacle::PastMost { field: 0 },
        state: 1,
        field: UNSET,
    };
    try_one(&rt, alloc, &crate_overfull(), at_once)
}

#[test]
fn words_may_count_far(rt: HostRuntime) -> Result<(), Fail> {
    let alloc = rt.alloc();
    try_one(&rt, alloc, &tally(), Expected::CountsFar { field: 0 })?;
    try_one(
        &rt,
        alloc,
        &counter(),
        Expected::Recounts { fun: 2, field: 0 },
    )
}
