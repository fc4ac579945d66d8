// Plays of timers, event by event.
use std::alloc::Global;
use std::test::Fail;
use test_world::play;
use test_world::tables::{TimerService, timer_tables};

// A timer comes back with its clock and with when it is due.
const TIME_KEPT: &str = "clients 1
stops 11
offer 1 tmr_create 0 2 7
step 1 served
step 1 ok #1 2
offer 1 tmr_tick 1 3
step 1 served
step 1 ok
offer 1 tmr_wait 1
step 1 struck
step 1 booted
step 1 replayed
step 1 replayed
step 1 replayed
step 1 served
step 1 ok 2
leave 1

ends left
up

c1.1 tmr_create(2, 7) = ok #1 2
c1.2 tmr_tick(1, 3) = ok
c1.3 tmr_wait(1) = ok 2
client 1 done
calls 3 boots 2 replays 3
boot 1
call c1.1 tmr_create(2, 7) replied
call c1.2 tmr_tick(1, 3) replied
stop 11
boot 2
walk 1.1 for c1 by c1 tmr_create(2, 7) replied
walk 1.2 for c1 by c1 tmr_tick(1, 3) replied
walk 1.3 for c1 by c1 tmr_place(1, 2) replied
call c1.3 tmr_wait(1) replied
points 26
";

#[test]
fn time_is_kept(rt: HostRuntime) -> Result<(), Fail> {
    let alloc = rt.alloc();
    Ok(play::<TimerService>(alloc, (), timer_tables(alloc)?, TIME_KEPT)?)
}
