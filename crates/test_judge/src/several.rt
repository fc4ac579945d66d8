// Inputs for several services: interfaces, each before a line of `%%` alone, and a script for them.
use crate::cases::changed;
use sg_judge::{AnyMembers, MOST_INTERFACE, MultiScript, Read, read_any_multi};
use sg_load::ServiceKind;
use std::alloc::Global;
use std::process::Abort;
use std::test::Fail;
use test_interfaces::{
    CHANNEL, DEVICE, EVENT, EVENT2, LEASE, LOCK, MM, RAMFS, RWLOCK, SCHED, SEMAPHORE, SOCKETS,
    TIMER,
};

// A text before a line of `%%` alone: an interface, nothing, or a byte of no token.
#[derive(Clone, Copy, Debug)]
enum Given {
    Lock,
    Event,
    Event2,
    Mm,
    Ramfs,
    Sched,
    Timer,
    Semaphore,
    Rwlock,
    Channel,
    Lease,
    Device,
    Sockets,
    // A semaphore with the name of a built-in service.
    OwnLock,
    // A semaphore with a rule about a field that there isn't.
    Flawed,
    Nothing,
    Mark,
}

// Texts, a script, and the line that refuses the input that they make.
type Refused = (&'static [Given], &'static [u8], &'static [u8]);

// The line after each interface.
const DIVIDER: &[u8] = b"%%\n";

static REFUSED: [Refused; 29] = [
    (&[], b"client 1 { }", b"input refused: NoDivider\n"),
    (
        &[Given::Lock, Given::Lock],
        b"",
        b"interface 2 refused at 2:15: DuplicateService\n",
    ),
    (
        &[Given::Nothing],
        b"",
        b"interface 1 refused at 2:1: Syntax\n",
    ),
    (
        &[Given::Lock, Given::Mark],
        b"",
        b"interface 2 refused at 1:1: Lex\n",
    ),
    // Interface by interface, and what is wrong with one before what it shares with others.
    (
        &[Given::Lock, Given::Event, Given::Lock, Given::Mark],
        b"",
        b"interface 3 refused at 2:15: DuplicateService\n",
    ),
    (
        &[Given::Lock, Given::Mark, Given::Lock],
        b"",
        b"interface 2 refused at 1:1: Lex\n",
    ),
    // There are six services.
    (
        &[
            Given::Lock,
            Given::Event,
            Given::Mm,
            Given::Ramfs,
            Given::Sched,
            Given::Timer,
            Given::Event2,
        ],
        b"",
        b"interface 7 refused at 3:15: DuplicateService\n",
    ),
    // Of two texts of one service the later is refused, whoever describes it.
    (
        &[Given::Semaphore, Given::Semaphore],
        b"",
        b"interface 2 refused at 3:15: DuplicateService\n",
    ),
    (
        &[Given::Lock, Given::OwnLock],
        b"",
        b"interface 2 refused at 3:15: DuplicateService\n",
    ),
    (
        &[Given::Semaphore, Given::OwnLock, Given::Lock],
        b"",
        b"interface 3 refused at 2:15: DuplicateService\n",
    ),
    // A text of its own is refused by itself first.
    (
        &[Given::Semaphore, Given::Flawed],
        b"",
        b"interface 2 refused at 28:13: UnknownField\n",
    ),
    (
        &[Given::Lock, Given::Flawed, Given::Lock],
        b"",
        b"interface 2 refused at 28:13: UnknownField\n",
    ),
    // There are six members at the most.
    (
        &[
            Given::Semaphore,
            Given::Rwlock,
            Given::Channel,
            Given::Lease,
            Given::Device,
            Given::Sockets,
            Given::OwnLock,
        ],
        b"",
        b"interface 7 refused at 3:15: Limit\n",
    ),
    (
        &[
            Given::Semaphore,
            Given::Rwlock,
            Given::Channel,
            Given::Lease,
            Given::Device,
            Given::Sockets,
            Given::Event2,
        ],
        b"",
        b"interface 7 refused at 3:15: Limit\n",
    ),
    (
        &[
            Given::Lock,
            Given::Event,
            Given::Mm,
            Given::Ramfs,
            Given::Sched,
            Given::Timer,
            Given::Semaphore,
        ],
        b"",
        b"interface 7 refused at 3:15: Limit\n",
    ),
    (
        &[
            Given::Semaphore,
            Given::Rwlock,
            Given::Channel,
            Given::Lease,
            Given::Device,
            Given::Sockets,
            Given::Semaphore,
        ],
        b"",
        b"interface 7 refused at 3:15: DuplicateService\n",
    ),
    (
        &[
            Given::Semaphore,
            Given::Rwlock,
            Given::Channel,
            Given::Lease,
            Given::Device,
            Given::Sockets,
            Given::Flawed,
        ],
        b"",
        b"interface 7 refused at 28:13: UnknownField\n",
    ),
    // Only then is the script read.
    (
        &[Given::Semaphore, Given::Rwlock],
        b"client 1 { lock_alloc(); }",
        b"script refused at 1:12: UnknownFunction\n",
    ),
    (
        &[Given::Semaphore, Given::Lock],
        b"stop rwlock 1;",
        b"script refused at 1:6: UnknownService\n",
    ),
    (
        &[Given::Lock, Given::Event],
        b"client",
        b"script refused at 1:7: Syntax\n",
    ),
    (
        &[Given::Lock, Given::Event],
        b"client 1 { sched_yield(1); }",
        b"script refused at 1:12: UnknownFunction\n",
    ),
    (
        &[Given::Lock, Given::Event],
        b"client 1 { evt_wait(); }",
        b"script refused at 1:12: BadArgs\n",
    ),
    (
        &[Given::Lock, Given::Event],
        b"client 1 { evt_split(); } client 1 { lock_alloc(); }",
        b"script refused at 1:27: Twice\n",
    ),
    // A stop names a member's service, each once.
    (
        &[Given::Lock, Given::Event],
        b"stop 1;",
        b"script refused at 1:6: Syntax\n",
    ),
    (
        &[Given::Lock, Given::Event],
        b"stop ramfs 1;",
        b"script refused at 1:6: UnknownService\n",
    ),
    (
        &[Given::Lock, Given::Event],
        b"client 1 { f(); } stop door 1;",
        b"script refused at 1:12: UnknownFunction\n",
    ),
    (
        &[Given::Lock, Given::Event],
        b"stop event 1; stop lock 1; stop event 2;",
        b"script refused at 1:28: Twice\n",
    ),
    (
        &[Given::Lock, Given::Event],
        b"stop event 2 2;",
        b"script refused at 1:14: NotAscending\n",
    ),
    // So it does where there is one service.
    (
        &[Given::Lock],
        b"stop 1;",
        b"script refused at 1:6: Syntax\n",
    ),
];

impl Given {
    fn text(self, alloc: Global) -> Result<Vec<u8>, Fail> {
        let text = match self {
            Given::Lock => LOCK,
            Given::Event => EVENT,
            Given::Event2 => EVENT2,
            Given::Mm => MM,
            Given::Ramfs => RAMFS,
            Given::Sched => SCHED,
            Given::Timer => TIMER,
            Given::Semaphore => SEMAPHORE,
            Given::Rwlock => RWLOCK,
            Given::Channel => CHANNEL,
            Given::Lease => LEASE,
            Given::Device => DEVICE,
            Given::Sockets => SOCKETS,
            Given::OwnLock => return Ok(changed(alloc, SEMAPHORE, b"semaphore", b"lock")?),
            Given::Flawed => return Ok(changed(alloc, SEMAPHORE, b"count is 0", b"cuont is 0")?),
            Given::Nothing => b"",
            Given::Mark => b"#",
        };
        Ok(Vec::from_slice(alloc, text)?)
    }
}

// The input that texts and a script make.
fn input_of(alloc: Global, texts: &[Given], script: &[u8]) -> Result<Vec<u8>, Fail> {
    let mut input = Vec::new(alloc);
    'texts: for text in texts {
        add_text(&mut input, &text.text(alloc)?)?;
    }
    input.extend_from_slice(script)?;
    Ok(input)
}

// Adds a text, in lines of its own, and a divider after it.
fn add_text(input: &mut Vec<u8>, text: &[u8]) -> Result<(), Fail> {
    input.extend_from_slice(text)?;
    if !text.ends_with(b"\n") {
        input.push(b'\n')?;
    }
    input.extend_from_slice(DIVIDER)?;
    Ok(())
}

// What an input is, where the six services are built in.
fn read(alloc: Global, input: &[u8]) -> Result<Read<(AnyMembers, MultiScript)>, Fail> {
    Ok(read_any_multi(alloc, input, &ServiceKind::shapes())?)
}

// Whether an input is refused with a line.
fn is_refused(alloc: Global, input: &[u8], line: &[u8]) -> Result<bool, Fail> {
    Ok(match read(alloc, input)? {
        Read::Refused(said) => said.as_slice() == line,
        Read::Ready(_) => false,
    })
}

// Whether an input is ready, with so many members.
fn is_ready(alloc: Global, input: &[u8], count: usize) -> Result<bool, Fail> {
    Ok(match read(alloc, input)? {
        Read::Refused(_line) => false,
        Read::Ready((members, _script)) => members.len() == count,
    })
}

#[test]
fn refused(rt: HostRuntime) -> Result<(), Fail> {
    let alloc = rt.alloc();
    for (texts, script, line) in REFUSED.iter() {
        let input = input_of(alloc, texts, script)?;
        assert!(&rt;
            is_refused(alloc, &input, line)?,
            "{:?}",
            String::from_utf8_lossy(alloc, line)?
        );
    }
    Ok(())
}

// As many bytes as an interface may have, and one more.
#[test]
fn too_long(rt: HostRuntime) -> Result<(), Fail> {
    let alloc = rt.alloc();
    let mut lock = Vec::from_slice(alloc, LOCK)?;
    lock.resize(MOST_INTERFACE, b'\n')?;
    let mut input = input_of(alloc, &[Given::Event], b"")?;
    add_text(&mut input, &lock)?;
    assert!(&rt; is_ready(alloc, &input, 2)?);
    lock.push(b'\n')?;
    let mut input = input_of(alloc, &[Given::Event], b"")?;
    add_text(&mut input, &lock)?;
    assert!(&rt; is_refused(alloc, &input, b"input refused: TooLong\n")?);
    Ok(())
}

#[test]
fn all_six(rt: HostRuntime) -> Result<(), Fail> {
    let alloc = rt.alloc();
    let all = [
        Given::Lock,
        Given::Event,
        Given::Mm,
        Given::Ramfs,
        Given::Sched,
        Given::Timer,
    ];
    let input = input_of(alloc, &all, b"")?;
    assert!(&rt; is_ready(alloc, &input, all.len())?);
    let own = [
        Given::Semaphore,
        Given::Rwlock,
        Given::Channel,
        Given::Lease,
        Given::Device,
        Given::OwnLock,
    ];
    let input = input_of(alloc, &own, b"")?;
    assert!(&rt; is_ready(alloc, &input, own.len())?);
    // The last line may be a divider without its end; the script is empty then.
    let mut input = Vec::from_slice(alloc, LOCK)?;
    input.extend_from_slice(b"\n%%")?;
    assert!(&rt; is_ready(alloc, &input, 1)?);
    Ok(())
}

// A call is of the member that declares its function, and a stop of the member whose service it names.
#[test]
fn members(rt: HostRuntime) -> Result<(), Fail> {
    let alloc = rt.alloc();
    let script =
        b"setup { lock_alloc(); evt_split(); } stop event 4 9; client 3 { evt_wait(1); lock_take(1); } stop lock 2;";
    let input = input_of(alloc, &[Given::Event, Given::Mm, Given::Lock], script)?;
    let Read::Ready((_members, script)) = read(alloc, &input)? else {
        return Err("refused")?;
    };
    let setup = script.setup.as_slice();
    assert!(&rt; setup.iter().map(|call| call.member).eq([3, 1]));
    let clients = script.clients.as_slice();
    assert!(&rt; clients.len() == 1 && clients[0].0 == 3);
    let calls = clients[0].1.as_slice();
    assert!(&rt; calls.iter().map(|call| call.member).eq([1, 3]));
    let stops = script.stops.as_slice();
    assert!(&rt; stops.len() == 3);
    assert!(&rt; stops[0].as_slice() == [4, 9].as_slice() && stops[1].is_empty());
    assert!(&rt; stops[2].as_slice() == [2].as_slice());
    Ok(())
}

// The same of members of which two are described; it is told which.
#[test]
fn own_members(rt: HostRuntime) -> Result<(), Fail> {
    let alloc = rt.alloc();
    let script =
        b"setup { lock_alloc(); sem_make(3); } stop semaphore 4 9; client 3 { sem_down(2); rw_read(3, 1); lock_take(1); } stop lock 2;";
    let texts = [Given::Semaphore, Given::Rwlock, Given::Lock];
    let input = input_of(alloc, &texts, script)?;
    let Read::Ready((members, script)) = read(alloc, &input)? else {
        return Err("refused")?;
    };
    let members = members.as_slice();
    assert!(&rt;
        members
            .iter()
            .map(|member| member.own.is_some())
            .eq([true, true, false])
    );
    let setup = script.setup.as_slice();
    assert!(&rt; setup.iter().map(|call| call.member).eq([3, 1]));
    let clients = script.clients.as_slice();
    assert!(&rt; clients.len() == 1 && clients[0].0 == 3);
    let calls = clients[0].1.as_slice();
    assert!(&rt; calls.iter().map(|call| call.member).eq([1, 2, 3]));
    let stops = script.stops.as_slice();
    assert!(&rt; stops.len() == 3);
    assert!(&rt; stops[0].as_slice() == [4, 9].as_slice() && stops[1].is_empty());
    assert!(&rt; stops[2].as_slice() == [2].as_slice());
    Ok(())
}
