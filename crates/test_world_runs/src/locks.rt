// Plays of locks, event by event.
use std::alloc::Global;
use std::test::Fail;
use test_world::play;
use test_world::tables::{LockService, lock_tables};

// The service stops once a take is stored: the take is answered, and the lock is rebuilt as it was taken.
const STOP_BEHIND_A_TAKE: &str = "clients 1
stops 9
offer 1 lock_alloc 0
step 1 served
step 1 ok #1
offer 1 lock_take 1
step 1 struck
step 1 ok
offer 1 lock_release 1
step 1 booted
step 1 replayed
step 1 replayed
step 1 served
step 1 ok
offer 1 lock_free 1
step 1 served
step 1 ok
leave 1

ends left
up

c1.1 lock_alloc() = ok #1
c1.2 lock_take(1) = ok
c1.3 lock_release(1) = ok
c1.4 lock_free(1) = ok
client 1 done
calls 4 boots 2 replays 2
boot 1
call c1.1 lock_alloc() replied
call c1.2 lock_take(1) replied
stop 9
boot 2
walk 1.1 for c1 by c1 lock_alloc() replied
walk 1.2 for c1 by c1 lock_take(1) replied
call c1.3 lock_release(1) replied
call c1.4 lock_free(1) replied
points 24
";

// The service stops before a take is stored: its effect is lost, and the call is made again.
const STOP_BEFORE_A_TAKE: &str = "clients 1
stops 8
offer 1 lock_alloc 0
step 1 served
step 1 ok #1
offer 1 lock_take 1
step 1 struck
step 1 booted
step 1 replayed
step 1 served
step 1 ok
offer 1 lock_release 1
step 1 served
step 1 ok
offer 1 lock_free 1
step 1 served
step 1 ok
leave 1

ends left
up

c1.1 lock_alloc() = ok #1
c1.2 lock_take(1) = ok
c1.3 lock_release(1) = ok
c1.4 lock_free(1) = ok
client 1 done
calls 4 boots 2 replays 1
boot 1
call c1.1 lock_alloc() replied
call c1.2 lock_take(1) stopped
stop 8
boot 2
walk 1.1 for c1 by c1 lock_alloc() replied
call c1.2 lock_take(1) replied
call c1.3 lock_release(1) replied
call c1.4 lock_free(1) replied
points 24
";

// The service stops a second time, within the walk that rebuilds the lock, which begins anew.
const STOP_IN_A_WALK: &str = "clients 1
stops 9 15
offer 1 lock_alloc 0
step 1 served
step 1 ok #1
offer 1 lock_take 1
step 1 struck
step 1 ok
offer 1 lock_release 1
step 1 booted
step 1 replayed
step 1 struck
step 1 booted
step 1 replayed
step 1 replayed
step 1 served
step 1 ok
offer 1 lock_free 1
step 1 served
step 1 ok
leave 1

ends left
up

c1.1 lock_alloc() = ok #1
c1.2 lock_take(1) = ok
c1.3 lock_release(1) = ok
c1.4 lock_free(1) = ok
client 1 done
calls 4 boots 3 replays 3
boot 1
call c1.1 lock_alloc() replied
call c1.2 lock_take(1) replied
stop 9
boot 2
walk 1.1 for c1 by c1 lock_alloc() replied
walk 1.2 for c1 by c1 lock_take(1) stopped
stop 15
boot 3
walk 1.1 for c1 by c1 lock_alloc() replied
walk 1.2 for c1 by c1 lock_take(1) replied
call c1.3 lock_release(1) replied
call c1.4 lock_free(1) replied
points 30
";

// The service stops once the last call is stored: the call is answered, and nobody boots the service.
const DOWN_AT_THE_END: &str = "clients 1
stops 9
offer 1 lock_alloc 0
step 1 served
step 1 ok #1
offer 1 lock_take 1
step 1 struck
step 1 ok
leave 1

ends left
down

c1.1 lock_alloc() = ok #1
c1.2 lock_take(1) = ok
client 1 done
calls 2 boots 1 replays 0
boot 1
call c1.1 lock_alloc() replied
call c1.2 lock_take(1) replied
stop 9
points 9
";

// The guard refuses a call while the service is down, and boots nothing; the next call does.
const REFUSED_WHILE_DOWN: &str = "clients 2
stops 5
offer 1 lock_alloc 0
step 1 struck
offer 2 lock_release 1
step 2 refused BadState
offer 2 lock_free 7
step 2 refused NoDesc
step 1 ok #1
offer 2 lock_take 1
step 2 booted
step 2 replayed
step 2 served
step 2 ok
leave 1
leave 2

ends left left
up

c1.1 lock_alloc() = ok #1
c2.1 lock_release(1) = refused BadState
c2.2 lock_free(7) = refused NoDesc
c2.3 lock_take(1) = ok
client 1 done
client 2 done
calls 4 boots 2 replays 1
boot 1
call c1.1 lock_alloc() replied
stop 5
boot 2
walk 1.1 for c2 by c1 lock_alloc() replied
call c2.3 lock_take(1) replied
points 13
";

// Two clients go on with the walk of one lock, each in its turn.
const TWO_TAKE_A_WALK: &str = "clients 2
stops 9
offer 1 lock_alloc 0
step 1 served
step 1 ok #1
offer 1 lock_take 1
step 1 struck
step 1 ok
offer 2 lock_take 1
step 2 booted
step 2 replayed
offer 1 lock_release 1
step 1 replayed
step 2 blocked
step 1 served
step 1 ok
step 2 served
step 2 ok
leave 1
leave 2

ends left left
up

c1.1 lock_alloc() = ok #1
c1.2 lock_take(1) = ok
c1.3 lock_release(1) = ok
c2.1 lock_take(1) = ok
client 1 done
client 2 done
calls 4 boots 2 replays 2
boot 1
call c1.1 lock_alloc() replied
call c1.2 lock_take(1) replied
stop 9
boot 2
walk 1.1 for c2 by c1 lock_alloc() replied
walk 1.2 for c1 by c1 lock_take(1) replied
call c2.1 lock_take(1) blocked
call c1.3 lock_release(1) replied
call c2.1 lock_take(1) replied
points 25
";

// Plays a text of locks.
fn plays(alloc: Global, text: &str) -> Result<(), Fail> {
    Ok(play::<LockService>(alloc, (), lock_tables(alloc)?, text)?)
}

#[test]
fn a_stop_after_a_take(rt: HostRuntime) -> Result<(), Fail> {
    plays(rt.alloc(), STOP_BEHIND_A_TAKE)
}

#[test]
fn a_stop_before_a_take_is_stored(rt: HostRuntime) -> Result<(), Fail> {
    plays(rt.alloc(), STOP_BEFORE_A_TAKE)
}

#[test]
fn a_stop_within_a_walk(rt: HostRuntime) -> Result<(), Fail> {
    plays(rt.alloc(), STOP_IN_A_WALK)
}

#[test]
fn a_run_ends_with_the_service_down(rt: HostRuntime) -> Result<(), Fail> {
    plays(rt.alloc(), DOWN_AT_THE_END)
}

#[test]
fn a_refusal_boots_nothing(rt: HostRuntime) -> Result<(), Fail> {
    plays(rt.alloc(), REFUSED_WHILE_DOWN)
}

#[test]
fn two_clients_rebuild_one_lock(rt: HostRuntime) -> Result<(), Fail> {
    plays(rt.alloc(), TWO_TAKE_A_WALK)
}
