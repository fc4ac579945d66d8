// Plays of one script over several services come out as they are written.
use crate::runs::comes_to;
use sg_top::{MemSink, MemSource, NoMemory, serial};
use std::alloc::Global;
use std::process::Abort;
use std::sync::Wait;
use std::test::Fail;
use std::thread::Threads;
use test_interfaces::{
    CHANNEL, DEVICE, EVENT, LEASE, LOCK, MM, RAMFS, RWLOCK, SCHED, SEMAPHORE, SOCKETS, TIMER,
};

// Plays: words and status; the services, in the order of their interfaces; the script; and what is printed, where two points stand for any
// lines.
const PLAYS: &str = "multi: 0
lock event
setup { lock_alloc(); evt_split(); } client 1 { lock_take($1); evt_trigger($2, 1); lock_release($1); } client 2 { evt_wait(1); lock_take(1); } stop lock 9;
c1.1 lock_alloc() = ok #1
c1.2 evt_split() = ok #1
c1.3 lock_take(1) = ok
c1.4 evt_trigger(1, 1) = ok
c2.1 evt_wait(1) = ok
c1.5 lock_release(1) = ok
c2.2 lock_take(1) = ok
client 1 done
client 2 done
service lock: calls 4 boots 2 replays 2
service event: calls 3 boots 1 replays 0

multi trace: 0
lock event
setup { lock_alloc(); evt_split(); } client 1 { lock_take($1); evt_trigger($2, 1); lock_release($1); } client 2 { evt_wait(1); lock_take(1); } stop lock 9;
..
service event: calls 3 boots 1 replays 0
trace lock
boot 1
call c1.1 lock_alloc() replied
call c1.3 lock_take(1) replied
stop 9
boot 2
walk 1.1 for c2 by c1 lock_alloc() replied
walk 1.2 for c1 by c1 lock_take(1) replied
call c2.2 lock_take(1) blocked
call c1.5 lock_release(1) replied
call c2.2 lock_take(1) replied
points 25
trace event
boot 1
call c1.2 evt_split() replied
call c2.1 evt_wait(1) blocked
call c1.4 evt_trigger(1, 1) replied
call c2.1 evt_wait(1) replied
points 14

multi: 3
lock event
setup { lock_alloc(); evt_split(); } client 1 { lock_take(1); evt_wait(1); } client 2 { lock_take(1); evt_trigger(1, 1); } schedule 1 1;
c1.1 lock_alloc() = ok #1
c1.2 evt_split() = ok #1
c1.3 lock_take(1) = ok
client 1 blocked evt_wait(1)
client 2 blocked lock_take(1)
service lock: calls 2 boots 1 replays 0
service event: calls 1 boots 1 replays 0

multi trace: 3
lock event
setup { lock_alloc(); evt_split(); } client 1 { lock_take(1); evt_wait(1); } client 2 { lock_take(1); evt_trigger(1, 1); } schedule 1 1;
..
trace lock
boot 1
call c1.1 lock_alloc() replied
call c1.3 lock_take(1) replied
call c2.1 lock_take(1) blocked
points 10
trace event
boot 1
call c1.2 evt_split() replied
call c1.4 evt_wait(1) blocked
points 6

multi: 2
lock lock

interface 2 refused at 2:15: DuplicateService

multi trace: 0
lock semaphore channel
setup { lock_alloc(); sem_make(0); ch_make(1); } client 1 { lock_take($1); sem_up($2, 1); ch_send($3, 1); lock_release($1); } client 2 { sem_down(1); lock_take(1); ch_receive(1); lock_release(1); } stop lock 9; stop semaphore 9; stop channel 9;
c1.1 lock_alloc() = ok #1
c1.2 sem_make(0) = ok #1
c1.3 ch_make(1) = ok #1
..
service lock: calls 5 boots 2 replays 2
service semaphore: calls 3 boots 2 replays 1
service channel: calls 3 boots 2 replays 2
..
trace channel
boot 1
call c1.3 ch_make(1) replied
call c1.6 ch_send(1, 1) replied
stop 9
boot 2
walk 1.1 for c2 by c1 ch_make(1) replied
walk 1.2 for c2 by c1 ch_fill(1, 1) replied
call c2.3 ch_receive(1) replied
points 20

multi: 0
semaphore rwlock channel lease device sockets
setup { sem_make(0); rw_make(); ch_make(1); lease_make(); dev_open(3); so_make(); } client 1 { sem_up(1, 2); rw_read(1, 1); ch_send(1, 1); lease_take(1, 5, 9); dev_claim(1); so_bind(1, 80); } client 2 { sem_down(1); rw_unread(1); ch_receive(1); dev_claim(1); so_bind(1, 81); } schedule 1 1 1 1 1 1 1 1; stop semaphore 9; stop rwlock 9; stop channel 9; stop lease 9; stop device 9; stop sockets 9;
c1.1 sem_make(0) = ok #1
c1.2 rw_make() = ok #1
c1.3 ch_make(1) = ok #1
c1.4 lease_make() = ok #1
c1.5 dev_open(3) = ok #1
c1.6 so_make() = ok #1
c1.7 sem_up(1, 2) = ok
c1.8 rw_read(1, 1) = ok
c1.9 ch_send(1, 1) = ok
c1.10 lease_take(1, 5, 9) = ok
c1.11 dev_claim(1) = ok
c2.1 sem_down(1) = ok
c1.12 so_bind(1, 80) = ok
c2.2 rw_unread(1) = ok
c2.3 ch_receive(1) = ok
c2.4 dev_claim(1) = refused Held
c2.5 so_bind(1, 81) = refused BadState
client 1 done
client 2 done
service semaphore: calls 3 boots 2 replays 1
service rwlock: calls 3 boots 2 replays 2
service channel: calls 3 boots 2 replays 2
service lease: calls 2 boots 1 replays 0
service device: calls 3 boots 2 replays 2
service sockets: calls 3 boots 1 replays 0

multi: 2
semaphore rwlock channel lease device sockets lock

interface 7 refused at 2:15: Limit

multi: 2
lock event
client 1 { lock_alloc(); } stop timer 3;
script refused at 1:33: UnknownService

multi: 0
timer
client 1 { tmr_create(5, 7); tmr_tick($1, 22); tmr_wait($1); } stop timer 9;
c1.1 tmr_create(5, 7) = ok #1 5
c1.2 tmr_tick(1, 22) = ok
c1.3 tmr_wait(1) = ok 5
client 1 done
service timer: calls 3 boots 2 replays 2

multi: 0
lock event ramfs
setup { lock_alloc(); evt_split(); } client 1 { lock_take(1); tsplit(0, \"log\"); twrite($4, \"one\"); lock_release(1); evt_trigger(1, 1); } client 2 { evt_wait(1); lock_take(1); tsplit(0, \"log\"); tseek($3, 3); twrite($3, \" two\"); tseek($3, 0); tread($3, 16); lock_release(1); } stop lock 9; stop event 11; stop ramfs 20;
..
c2.7 tread(2, 16) = ok 7 \"one two\"
c2.8 lock_release(1) = ok
client 1 done
client 2 done
service lock: calls 5 boots 2 replays 2
service event: calls 3 boots 2 replays 2
service ramfs: calls 7 boots 2 replays 2

multi: 0
mm ramfs sched

service mm: calls 0 boots 1 replays 0
service ramfs: calls 0 boots 1 replays 0
service sched: calls 0 boots 1 replays 0";

// The interface of a service.
fn interface_of(name: &str) -> Result<&'static [u8], Fail> {
    Ok(match name {
        "lock" => LOCK,
        "event" => EVENT,
        "mm" => MM,
        "ramfs" => RAMFS,
        "sched" => SCHED,
        "timer" => TIMER,
        "semaphore" => SEMAPHORE,
        "rwlock" => RWLOCK,
        "channel" => CHANNEL,
        "lease" => LEASE,
        "device" => DEVICE,
        "sockets" => SOCKETS,
        _ => Err("no service")?,
    })
}

// An input: the interfaces of services, each before the dividing line, and a script.
fn input_of(alloc: Global, services: &str, script: &str) -> Result<Vec<u8>, Fail> {
    let mut input = Vec::new(alloc);
    for name in services.split_whitespace() {
        input.extend_from_slice(interface_of(name)?)?;
        input.extend_from_slice(b"%%\n")?;
    }
    input.extend_from_slice(script.as_bytes())?;
    Ok(input)
}

// Whether the play that a text tells comes out as it is written.
fn comes_out<R: Threads + Wait + Sync>(rt: &R, alloc: Global, told: &str) -> Result<bool, Fail> {
    let (head, rest) = told.split_once("\n").ok_or("no words")?;
    let (words, status) = head.split_once(": ").ok_or("no status")?;
    let (services, rest) = rest.split_once("\n").ok_or("no services")?;
    let (script, printed) = rest.split_once("\n").ok_or("no script")?;
    let status = status.parse::<u8>().ok().ok_or("no number")?;
    let input = input_of(alloc, services, script)?;
    Ok(comes_to(rt, alloc, words, &input, status, printed)?)
}

// Each comes out as it is written.
fn try_each<R: Threads + Wait + Sync + Abort>(
    rt: &R,
    alloc: Global,
    plays: &str,
) -> Result<(), Fail> {
    for told in plays.split("\n\nmulti") {
        let text = if told.starts_with("multi") {
            told.to_string(alloc)?
        } else {
            format!(in alloc; "multi{told}")?
        };
        assert!(rt; comes_out(rt, alloc, &text)?, "{text}");
    }
    Ok(())
}

#[test]
fn plays_over_several_services(rt: HostRuntime) -> Result<(), Fail> {
    try_each(&rt, rt.alloc(), PLAYS)
}

// Whether an answer to a word hands out a run over one service, and one over several.
fn hands_out(alloc: Global, word: &str, input: &[u8]) -> Result<(bool, bool), NoMemory> {
    let mut words = Vec::new(alloc);
    words.push(word.to_string(alloc)?)?;
    let mut source = MemSource::new(alloc, input, 4_096, &[])?;
    let mut sink = MemSink::new(alloc, 4_096, &[])?;
    let answer = serial(alloc, &words, &mut source, &mut sink);
    Ok((answer.ended().is_some(), answer.multi().is_some()))
}

#[test]
fn what_was_run_is_handed_out(rt: HostRuntime) -> Result<(), Fail> {
    let alloc = rt.alloc();
    let one = input_of(alloc, "lock", "client 1 { lock_alloc(); }")?;
    let waits = input_of(
        alloc,
        "lock event",
        "client 1 { evt_split(); evt_wait($1); }",
    )?;
    let refused = input_of(alloc, "lock lock", "")?;
    for (word, input, wanted) in [
        ("sim", &one, (true, false)),
        ("multi", &one, (false, true)),
        ("multi", &waits, (false, true)),
        ("multi", &refused, (false, false)),
        ("check", &one, (false, false)),
    ] {
        assert!(rt; hands_out(alloc, word, input)? == wanted, "{word}");
    }
    Ok(())
}
