// Plays of threads, event by event.
use std::alloc::Global;
use std::test::Fail;
use test_world::play;
use test_world::tables::{SchedService, sched_tables};

// Threads come back under other ids of the service, with their ranks.
const RANKS_KEPT: &str = "clients 1
stops 24
offer 1 sched_create_thd 0 5
step 1 served
step 1 ok #1 1
offer 1 sched_create_thd 0 5
step 1 served
step 1 ok #2 2
offer 1 sched_create_thd 0 5
step 1 served
step 1 ok #3 3
offer 1 sched_exit 1
step 1 served
step 1 ok
offer 1 sched_yield 2
step 1 served
step 1 ok 4
offer 1 sched_next 0
step 1 struck
step 1 booted
step 1 replayed
step 1 replayed
step 1 replayed
step 1 replayed
step 1 served
step 1 ok #3
leave 1

ends left
up

c1.1 sched_create_thd(5) = ok #1 1
c1.2 sched_create_thd(5) = ok #2 2
c1.3 sched_create_thd(5) = ok #3 3
c1.4 sched_exit(1) = ok
c1.5 sched_yield(2) = ok 4
c1.6 sched_next() = ok #3
client 1 done
calls 6 boots 2 replays 4
boot 1
call c1.1 sched_create_thd(5) replied
call c1.2 sched_create_thd(5) replied
call c1.3 sched_create_thd(5) replied
call c1.4 sched_exit(1) replied
call c1.5 sched_yield(2) replied
stop 24
boot 2
walk 2.1 for c1 by c1 sched_create_thd(5) replied
walk 2.2 for c1 by c1 sched_place(2, 4) replied
walk 3.1 for c1 by c1 sched_create_thd(5) replied
walk 3.2 for c1 by c1 sched_place(3, 3) replied
call c1.6 sched_next() replied
points 41
";

// Two clients go on with one walk.
const ONE_WALK: &str = "clients 2
stops 11
offer 1 sched_create_thd 0 3
step 1 served
step 1 ok #1 1
offer 1 sched_sleep 1
step 1 served
step 1 ok
offer 1 sched_wait 1
step 1 blocked
offer 2 sched_wakeup 1
step 2 struck
step 2 booted
step 1 replayed
step 2 replayed
step 1 replayed
step 2 served
step 1 served
step 2 ok
leave 2
step 1 ok
leave 1

ends left left
up

c1.1 sched_create_thd(3) = ok #1 1
c1.2 sched_sleep(1) = ok
c2.1 sched_wakeup(1) = ok
c1.3 sched_wait(1) = ok
client 1 done
client 2 done
calls 4 boots 2 replays 3
boot 1
call c1.1 sched_create_thd(3) replied
call c1.2 sched_sleep(1) replied
call c1.3 sched_wait(1) blocked
stop 11
boot 2
walk 1.1 for c1 by c1 sched_create_thd(3) replied
walk 1.2 for c2 by c1 sched_place(1, 1) replied
walk 1.3 for c1 by c1 sched_sleep(1) replied
call c2.1 sched_wakeup(1) replied
call c1.3 sched_wait(1) replied
points 28
";

// Plays a text of threads.
fn plays(alloc: Global, text: &str) -> Result<(), Fail> {
    Ok(play::<SchedService>(alloc, (), sched_tables(alloc)?, text)?)
}

#[test]
fn ranks_are_kept(rt: HostRuntime) -> Result<(), Fail> {
    plays(rt.alloc(), RANKS_KEPT)
}

#[test]
fn two_clients_go_on_with_one_walk(rt: HostRuntime) -> Result<(), Fail> {
    plays(rt.alloc(), ONE_WALK)
}
