// What scripts stand for.
use crate::answers::standard;
use sg_script::{Arg, Script, ScriptCall, read};
use std::alloc::Global;
use std::process::Abort;
use std::test::Fail;
use test_tables::{LOCK, RAMFS};

// The script of a text for a standard interface.
fn script_on(alloc: Global, text: &[u8], script: &[u8]) -> Result<Script, Fail> {
    let accepted = standard(alloc, text)?;
    Ok(read(alloc, script, accepted.interface())?)
}

// Whether a call is of this function and has one argument, which is this number.
fn is_number(call: Option<&ScriptCall>, fun: u8, number: u64) -> bool {
    match call {
        Some(call) => {
            call.fun == fun && matches!(call.args.as_slice(), [Arg::Number(n)] if *n == number)
        }
        None => false,
    }
}

// Whether a call is of this function and has one argument, which is `$` and this number.
fn is_back(call: Option<&ScriptCall>, fun: u8, number: u32) -> bool {
    match call {
        Some(call) => {
            call.fun == fun && matches!(call.args.as_slice(), [Arg::Back(n)] if *n == number)
        }
        None => false,
    }
}

static ALL_PARTS: &[u8] = b"stop 3 5; client 9 { lock_take(7); } schedule 9 1 9;\n\
setup { lock_alloc(); lock_free(4); } client 1 { lock_take($1); lock_release($3); } client 2 { }";

// The client at a place has this number and so many calls.
fn assert_client(rt: &impl Abort, script: &Script, at: usize, number: u8, calls: usize) {
    match script.clients.get(at) {
        Some((own, made)) => {
            assert_eq!(rt; *own, number);
            assert_eq!(rt; made.len(), calls);
        }
        None => assert!(rt; false, "a client at {at}"),
    }
}

#[test]
fn of_all_parts(rt: HostRuntime) -> Result<(), Fail> {
    let script = script_on(rt.alloc(), LOCK, ALL_PARTS)?;
    assert_eq!(rt; script.stops.as_slice(), [3, 5].as_slice());
    assert_eq!(rt; script.schedule.as_slice(), [9, 1, 9].as_slice());
    assert_eq!(rt; script.setup.len(), 2);
    assert!(rt; is_number(script.setup.get(1), 4, 4));
    assert_eq!(rt; script.clients.len(), 3);
    assert_client(&rt, &script, 0, 1, 2);
    assert_client(&rt, &script, 1, 2, 0);
    assert_client(&rt, &script, 2, 9, 1);
    if let Some((_, calls)) = script.clients.get(0) {
        assert!(rt; is_back(calls.get(0), 2, 1));
        assert!(rt; is_back(calls.get(1), 3, 3));
    }
    if let Some((_, calls)) = script.clients.get(2) {
        assert!(rt; is_number(calls.get(0), 2, 7));
    }
    Ok(())
}

#[test]
fn of_texts(rt: HostRuntime) -> Result<(), Fail> {
    let script = script_on(
        rt.alloc(),
        RAMFS,
        b"client 1 { tsplit(0, \"a b\"); twrite($1, \"\"); }",
    )?;
    let Some((_, calls)) = script.clients.get(0) else {
        return Err(Fail::new("no client"));
    };
    let texts = [&b"a b"[..], b""];
    for (at, want) in texts.iter().enumerate() {
        let text = calls.get(at).and_then(|call| call.args.as_slice().get(1));
        assert!(rt; matches!(text, Some(Arg::Text(text)) if text.bytes() == *want));
    }
    Ok(())
}

#[test]
fn of_the_greatest_numbers_and_of_nothing(rt: HostRuntime) -> Result<(), Fail> {
    let script = script_on(
        rt.alloc(),
        LOCK,
        b"client 064 { lock_take(18446744073709551615); lock_take(0007); } stop 18446744073709551615;",
    )?;
    assert_eq!(rt; script.stops.as_slice(), [u64::MAX].as_slice());
    assert_client(&rt, &script, 0, 64, 2);
    if let Some((_, calls)) = script.clients.get(0) {
        assert!(rt; is_number(calls.get(0), 2, u64::MAX));
        assert!(rt; is_number(calls.get(1), 2, 7));
    }
    let nothing = script_on(rt.alloc(), LOCK, b" // nothing")?;
    assert!(rt; nothing.setup.is_empty() && nothing.clients.is_empty());
    assert!(rt; nothing.schedule.is_empty() && nothing.stops.is_empty());
    Ok(())
}
