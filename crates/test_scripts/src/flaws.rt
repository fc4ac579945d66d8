// What is first wrong with scripts, by the tables of each kind of flaw.
use crate::answers::try_each;
use crate::{calls, numbers, order, parts, syntax};
use std::test::Fail;
use test_tables::{EVENT, LOCK, RAMFS};

#[test]
fn of_scripts_for_locks(rt: HostRuntime) -> Result<(), Fail> {
    for cases in [
        calls::OF_LOCKS.as_slice(),
        calls::BACKS.as_slice(),
        calls::BEHIND_A_SETUP.as_slice(),
        parts::CLIENTS.as_slice(),
        parts::TWICE.as_slice(),
        parts::STOPS.as_slice(),
        numbers::NUMBERS.as_slice(),
        order::ONE_PLACE.as_slice(),
        order::EARLIER.as_slice(),
        order::SYNTAX_FIRST.as_slice(),
        syntax::MARKS.as_slice(),
        syntax::WORDS.as_slice(),
        syntax::ENDS.as_slice(),
        syntax::FAULTLESS.as_slice(),
    ] {
        try_each(&rt, rt.alloc(), LOCK, cases)?;
    }
    Ok(())
}

#[test]
fn of_scripts_for_other_services(rt: HostRuntime) -> Result<(), Fail> {
    try_each(&rt, rt.alloc(), RAMFS, &calls::OF_FILES)?;
    try_each(&rt, rt.alloc(), RAMFS, &numbers::OF_FILES)?;
    try_each(&rt, rt.alloc(), RAMFS, &syntax::BYTES)?;
    try_each(&rt, rt.alloc(), EVENT, &calls::OF_EVENTS)
}
