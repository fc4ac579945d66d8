// What no clause says: that entries and ends are taken where there is memory.
use sg_boot::{End, EndList, History};
use sg_facts::{Args, Call, Code, Entry, NoMemory, Reply, TryCopy};
use std::alloc::Global;
use std::process::Abort;
use std::test::Fail;

// As many calls as a script may have.
const MOST_CALLS: u32 = 65_536;

// A call of a client, which makes nothing.
fn call(alloc: Global, client: u8, seq: u32) -> Call {
    Call {
        client,
        seq,
        fun: 1,
        desc: 0,
        args: Args::new(alloc),
    }
}

// A refused call of a client.
fn refused(alloc: Global, client: u8, seq: u32) -> Entry {
    Entry {
        call: call(alloc, client, seq),
        reply: Reply::Refused(Code::Full),
    }
}

// Refused calls of two clients in turn.
fn entries(alloc: Global, count: u32) -> Result<History, NoMemory> {
    let mut history = History::new(alloc);
    history.reserve(1)?;
    for seq in 0..count {
        let client = if seq % 2 == 0 { 1 } else { 2 };
        history.push(refused(alloc, client, seq))?;
    }
    Ok(history)
}

// How many entries of a history are a client's.
fn own_count(alloc: Global, history: &History, client: u8) -> Result<usize, NoMemory> {
    let own = history.of_client(alloc, client)?;
    Ok(own.len())
}

// How many entries are kept of so many.
fn kept_count(alloc: Global, count: u32) -> Result<usize, NoMemory> {
    let history = entries(alloc, count)?;
    Ok(history.len())
}

// A copy of the entry at a place, if there is one.
fn entry_at(alloc: Global, history: &History, at: usize) -> Result<Option<Entry>, NoMemory> {
    match history.get(at) {
        Some(entry) => Ok(Some(entry.copied(alloc)?)),
        None => Ok(None),
    }
}

// Three entries of two clients in turn are told by client and by place.
fn tells_three(rt: &impl Abort, alloc: Global, history: &History) -> Result<(), Fail> {
    for (client, calls) in [(1, 2), (2, 1), (3, 0)] {
        assert_eq!(rt; own_count(alloc, history, client)?, calls);
    }
    assert_eq!(rt; entry_at(alloc, history, 1)?, Some(refused(alloc, 2, 1)));
    assert_eq!(rt; entry_at(alloc, history, 3)?, None);
    assert_eq!(rt; history.len(), 3);
    Ok(())
}

#[test]
fn entries_are_kept(rt: HostRuntime) -> Result<(), Fail> {
    let alloc = rt.alloc();
    assert_eq!(rt; kept_count(alloc, MOST_CALLS)?, 65_536);
    let history = entries(alloc, 3)?;
    tells_three(&rt, alloc, &history)
}

// Client 1 is done, and client 2 waits.
fn two_ends(alloc: Global) -> Result<EndList, NoMemory> {
    let mut ends = EndList::new(alloc);
    ends.push((1, End::Done))?;
    ends.push((2, End::Blocked(call(alloc, 2, 1))))?;
    Ok(ends)
}

// Whether an end is copied.
fn is_copied(alloc: Global, end: &End) -> Result<bool, NoMemory> {
    let copy = end.copy(alloc)?;
    Ok(copy == *end)
}

// Each end is copied.
fn copy_each(rt: &impl Abort, alloc: Global, ends: &[(u8, End)]) -> Result<(), NoMemory> {
    for (_, end) in ends {
        assert!(rt; is_copied(alloc, end)?, "{end:?}");
    }
    Ok(())
}

#[test]
fn ends_are_copied(rt: HostRuntime) -> Result<(), Fail> {
    let ends = two_ends(rt.alloc())?;
    Ok(copy_each(&rt, rt.alloc(), ends.as_slice())?)
}

#[test]
fn ends_are_told_apart(rt: HostRuntime) {
    assert_ne!(rt; End::Done, End::Blocked(call(rt.alloc(), 2, 1)));
}
