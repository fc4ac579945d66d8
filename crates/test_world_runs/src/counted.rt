// Plays of events, event by event.
use std::alloc::Global;
use std::test::Fail;
use test_world::play;
use test_world::tables::{EventService, event_tables};

// A trigger is stored as the service stops: another client gets its count, and it is not added again.
const TRIGGER_NOT_TWICE: &str = "clients 2
stops 9
offer 1 evt_split 0
step 1 served
step 1 ok #1
offer 1 evt_trigger 1 1
step 1 struck
offer 2 evt_wait 1
step 2 booted
step 2 replayed
step 2 replayed
step 2 served
step 2 ok
step 1 ok
leave 1
offer 2 evt_wait 1
step 2 blocked

ends left blocked
up

c1.1 evt_split() = ok #1
c1.2 evt_trigger(1, 1) = ok
c2.1 evt_wait(1) = ok
client 1 done
client 2 blocked evt_wait(1)
calls 3 boots 2 replays 2
boot 1
call c1.1 evt_split() replied
call c1.2 evt_trigger(1, 1) replied
stop 9
boot 2
walk 1.1 for c2 by c1 evt_split() replied
walk 1.2 for c2 by c1 evt_trigger(1, 1) replied
call c2.1 evt_wait(1) replied
call c2.2 evt_wait(1) blocked
points 21
";

// A replayed trigger carries the present count.
const PRESENT_VALUE: &str = "clients 1
stops 18
offer 1 evt_split 0
step 1 served
step 1 ok #1
offer 1 evt_trigger 1 5
step 1 served
step 1 ok
offer 1 evt_wait 1
step 1 served
step 1 ok
offer 1 evt_wait 1
step 1 served
step 1 ok
offer 1 evt_wait 1
step 1 struck
step 1 booted
step 1 replayed
step 1 replayed
step 1 served
step 1 ok
leave 1

ends left
up

c1.1 evt_split() = ok #1
c1.2 evt_trigger(1, 5) = ok
c1.3 evt_wait(1) = ok
c1.4 evt_wait(1) = ok
c1.5 evt_wait(1) = ok
client 1 done
calls 5 boots 2 replays 2
boot 1
call c1.1 evt_split() replied
call c1.2 evt_trigger(1, 5) replied
call c1.3 evt_wait(1) replied
call c1.4 evt_wait(1) replied
stop 18
boot 2
walk 1.1 for c1 by c1 evt_split() replied
walk 1.2 for c1 by c1 evt_trigger(1, 3) replied
call c1.5 evt_wait(1) replied
points 29
";

// A client that waits is asked again at the boot.
const WAITS_AGAIN: &str = "clients 2
stops 7
offer 1 evt_split 0
step 1 served
step 1 ok #1
offer 2 evt_wait 1
step 2 blocked
offer 1 evt_trigger 1 1
step 1 struck
step 1 booted
step 2 replayed
step 1 served
step 2 served
step 1 ok
leave 1
step 2 ok
leave 2

ends left left
up

c1.1 evt_split() = ok #1
c1.2 evt_trigger(1, 1) = ok
c2.1 evt_wait(1) = ok
client 1 done
client 2 done
calls 3 boots 2 replays 1
boot 1
call c1.1 evt_split() replied
call c2.1 evt_wait(1) blocked
stop 7
boot 2
walk 1.1 for c2 by c1 evt_split() replied
call c1.2 evt_trigger(1, 1) replied
call c2.1 evt_wait(1) replied
points 19
";

// An event ends while a client waits for it: the client is asked again, and refused.
const WOKEN_BY_THE_END: &str = "clients 3
stops
offer 1 evt_split 0
step 1 served
step 1 ok #1
offer 1 evt_split 0
step 1 served
step 1 ok #2
offer 2 evt_wait 1
step 2 blocked
offer 3 evt_wait 2
step 3 blocked
offer 1 evt_free 1
step 1 served
step 1 ok
step 2 refused NoDesc
step 3 skipped
leave 1
leave 2

ends left left blocked
up

c1.1 evt_split() = ok #1
c1.2 evt_split() = ok #2
c1.3 evt_free(1) = ok
c2.1 evt_wait(1) = refused NoDesc
client 1 done
client 2 done
client 3 blocked evt_wait(2)
calls 4 boots 1 replays 0
boot 1
call c1.1 evt_split() replied
call c1.2 evt_split() replied
call c2.1 evt_wait(1) blocked
call c3.1 evt_wait(2) blocked
call c1.3 evt_free(1) replied
points 16
";

// Plays a text of events.
fn plays(alloc: Global, text: &str) -> Result<(), Fail> {
    Ok(play::<EventService>(alloc, (), event_tables(alloc)?, text)?)
}

#[test]
fn a_trigger_is_not_added_twice(rt: HostRuntime) -> Result<(), Fail> {
    plays(rt.alloc(), TRIGGER_NOT_TWICE)
}

#[test]
fn a_replayed_trigger_carries_the_present_count(rt: HostRuntime) -> Result<(), Fail> {
    plays(rt.alloc(), PRESENT_VALUE)
}

#[test]
fn who_waits_is_asked_again(rt: HostRuntime) -> Result<(), Fail> {
    plays(rt.alloc(), WAITS_AGAIN)
}

#[test]
fn who_waits_is_woken_by_the_end(rt: HostRuntime) -> Result<(), Fail> {
    plays(rt.alloc(), WOKEN_BY_THE_END)
}
