// Each call of a world, at each of the six services: a client makes and uses something, another waits for it or is refused, and
// withdraws its call once; the service stops. All that is seen of the world at the end is told.
use std::test::Fail;
use test_world::play;
use test_world::tables::{
    EventService, LockService, MmService, RamfsService, SchedService, TimerService, event_tables,
    lock_tables, mm_tables, ramfs_tables, sched_tables, timer_tables,
};

// A client takes a lock that another waits for: that one withdraws its call, asks again, and waits anew after a stop.
const LOCKS: &str = "clients 2
stops 11
offer 1 lock_alloc 0
step 1 served
step 1 ok #1
offer 1 lock_take 1
step 1 served
step 1 ok
offer 2 lock_take 1
step 2 blocked
withdraw 2
offer 2 lock_take 1
step 2 struck
step 2 booted
step 2 replayed
step 2 replayed
step 2 blocked
offer 1 lock_release 1
step 1 served
step 1 ok
step 2 served
step 2 ok
leave 1
leave 2

ends left left
up
seqs 3 1
marks 1 offer entry answer offer entry answer 2 offer withdraw offer 1 offer entry answer 2 entry answer 1 leave 2 leave
withdrawn 2 1 2 idle blocked
entries 4
points 27
refused 0

c1.1 lock_alloc() = ok #1
c1.2 lock_take(1) = ok
c1.3 lock_release(1) = ok
c2.1 lock_take(1) = ok
client 1 done
client 2 done
calls 4 boots 2 replays 2
boot 1
call c1.1 lock_alloc() replied
call c1.2 lock_take(1) replied
call c2.1 lock_take(1) blocked
stop 11
boot 2
walk 1.1 for c2 by c1 lock_alloc() replied
walk 1.2 for c2 by c1 lock_take(1) replied
call c2.1 lock_take(1) blocked
call c1.3 lock_release(1) replied
call c2.1 lock_take(1) replied
points 27
";

// A client waits for a count, withdraws its call, asks again, and waits anew after a stop.
const EVENTS: &str = "clients 2
stops 7
offer 1 evt_split 0
step 1 served
step 1 ok #1
offer 2 evt_wait 1
step 2 blocked
withdraw 2
offer 2 evt_wait 1
step 2 struck
step 2 booted
step 2 replayed
step 2 blocked
offer 1 evt_trigger 1 2
step 1 served
step 1 ok
step 2 served
step 2 ok
leave 1
leave 2

ends left left
up
seqs 2 1
marks 1 offer entry answer 2 offer withdraw offer 1 offer entry answer 2 entry answer 1 leave 2 leave
withdrawn 2 1 1 idle blocked
entries 3
points 20
refused 0

c1.1 evt_split() = ok #1
c1.2 evt_trigger(1, 2) = ok
c2.1 evt_wait(1) = ok
client 1 done
client 2 done
calls 3 boots 2 replays 1
boot 1
call c1.1 evt_split() replied
call c2.1 evt_wait(1) blocked
stop 7
boot 2
walk 1.1 for c2 by c1 evt_split() replied
call c2.1 evt_wait(1) blocked
call c1.2 evt_trigger(1, 2) replied
call c2.1 evt_wait(1) replied
points 20
";

// A client asks for a place that is taken, withdraws its call before a step, asks again, and is refused after a stop.
const PAGES: &str = "clients 2
stops 6
offer 1 mman_get_page 0 4096
step 1 served
step 1 ok #1
offer 2 mman_alias_page 1 1 4096
withdraw 2
offer 2 mman_alias_page 1 1 4096
step 2 struck
step 2 booted
step 2 replayed
step 2 served
step 2 refused Occupied
offer 1 mman_release_page 1
step 1 served
step 1 ok
leave 1
leave 2

ends left left
up
seqs 2 1
marks 1 offer entry answer 2 offer withdraw offer entry answer 1 offer entry answer leave 2 leave
withdrawn 2 1 1 idle asked
entries 3
points 18
refused 0

c1.1 mman_get_page(4096) = ok #1
c2.1 mman_alias_page(1, 1, 4096) = refused Occupied
c1.2 mman_release_page(1) = ok
client 1 done
client 2 done
calls 3 boots 2 replays 1
boot 1
call c1.1 mman_get_page(4096) replied
stop 6
boot 2
walk 1.1 for c2 by c1 mman_get_page(4096) replied
call c2.1 mman_alias_page(1, 1, 4096) replied
call c1.2 mman_release_page(1) replied
points 18
";

// A client asks for the descriptor of another, withdraws its call before a step, asks again, and is refused; the other reads after a stop what it wrote.
const FILES: &str = r#"clients 2
stops 11
offer 1 tsplit 0 "a"
step 1 served
step 1 ok #1
offer 1 twrite 1 "hi"
step 1 served
step 1 ok 2
offer 2 tread 1 8
withdraw 2
offer 2 tread 1 8
step 2 refused NoDesc
offer 1 tseek 1 1
step 1 struck
step 1 booted
step 1 replayed
step 1 replayed
step 1 served
step 1 ok
offer 1 tread 1 8
step 1 loaded
step 1 served
step 1 ok 1 "i"
leave 1
leave 2

ends left left
up
seqs 4 1
marks 1 offer entry answer offer entry answer 2 offer withdraw offer entry answer 1 offer entry answer offer entry answer leave 2 leave
withdrawn 2 1 2 idle asked
entries 5
points 26
refused 0

c1.1 tsplit(0, "a") = ok #1
c1.2 twrite(1, "hi") = ok 2
c2.1 tread(1, 8) = refused NoDesc
c1.3 tseek(1, 1) = ok
c1.4 tread(1, 8) = ok 1 "i"
client 1 done
client 2 done
calls 5 boots 2 replays 2
boot 1
call c1.1 tsplit(0, "a") replied
call c1.2 twrite(1, "hi") replied
stop 11
boot 2
walk 1.1 for c1 by c1 tsplit(0, "a") replied
walk 1.2 for c1 by c1 tseek(1, 2) replied
call c1.3 tseek(1, 1) replied
load /a for c1
call c1.4 tread(1, 8) replied
points 26
"#;

// A client waits for a thread that sleeps, withdraws its call, asks again, and waits anew after a stop.
const THREADS: &str = "clients 2
stops 11
offer 1 sched_create_thd 0 3
step 1 served
step 1 ok #1 1
offer 1 sched_sleep 1
step 1 served
step 1 ok
offer 2 sched_wait 1
step 2 blocked
withdraw 2
offer 2 sched_wait 1
step 2 struck
step 2 booted
step 2 replayed
step 2 replayed
step 2 replayed
step 2 blocked
offer 1 sched_wakeup 1
step 1 served
step 1 ok
step 2 served
step 2 ok
leave 1
leave 2

ends left left
up
seqs 3 1
marks 1 offer entry answer offer entry answer 2 offer withdraw offer 1 offer entry answer 2 entry answer 1 leave 2 leave
withdrawn 2 1 2 idle blocked
entries 4
points 29
refused 0

c1.1 sched_create_thd(3) = ok #1 1
c1.2 sched_sleep(1) = ok
c1.3 sched_wakeup(1) = ok
c2.1 sched_wait(1) = ok
client 1 done
client 2 done
calls 4 boots 2 replays 3
boot 1
call c1.1 sched_create_thd(3) replied
call c1.2 sched_sleep(1) replied
call c2.1 sched_wait(1) blocked
stop 11
boot 2
walk 1.1 for c2 by c1 sched_create_thd(3) replied
walk 1.2 for c2 by c1 sched_place(1, 1) replied
walk 1.3 for c2 by c1 sched_sleep(1) replied
call c2.1 sched_wait(1) blocked
call c1.3 sched_wakeup(1) replied
call c2.1 sched_wait(1) replied
points 29
";

// A client waits for a timer that isn't due, withdraws its call, asks again, and waits anew after a stop.
const TIMERS: &str = "clients 2
stops 12
offer 1 tmr_create 0 2 7
step 1 served
step 1 ok #1 2
offer 1 tmr_tick 1 1
step 1 served
step 1 ok
offer 2 tmr_wait 1
step 2 blocked
withdraw 2
offer 2 tmr_wait 1
step 2 struck
step 2 booted
step 2 replayed
step 2 replayed
step 2 replayed
step 2 blocked
offer 1 tmr_tick 1 1
step 1 served
step 1 ok
step 2 served
step 2 ok 2
leave 1
leave 2

ends left left
up
seqs 3 1
marks 1 offer entry answer offer entry answer 2 offer withdraw offer 1 offer entry answer 2 entry answer 1 leave 2 leave
withdrawn 2 1 2 idle blocked
entries 4
points 32
refused 0

c1.1 tmr_create(2, 7) = ok #1 2
c1.2 tmr_tick(1, 1) = ok
c1.3 tmr_tick(1, 1) = ok
c2.1 tmr_wait(1) = ok 2
client 1 done
client 2 done
calls 4 boots 2 replays 3
boot 1
call c1.1 tmr_create(2, 7) replied
call c1.2 tmr_tick(1, 1) replied
call c2.1 tmr_wait(1) blocked
stop 12
boot 2
walk 1.1 for c2 by c1 tmr_create(2, 7) replied
walk 1.2 for c2 by c1 tmr_tick(1, 1) replied
walk 1.3 for c2 by c1 tmr_place(1, 2) replied
call c2.1 tmr_wait(1) blocked
call c1.3 tmr_tick(1, 1) replied
call c2.1 tmr_wait(1) replied
points 32
";

#[test]
fn each_call_at_locks(rt: HostRuntime) -> Result<(), Fail> {
    let alloc = rt.alloc();
    Ok(play::<LockService>(alloc, (), lock_tables(alloc)?, LOCKS)?)
}

#[test]
fn each_call_at_events(rt: HostRuntime) -> Result<(), Fail> {
    let alloc = rt.alloc();
    Ok(play::<EventService>(alloc, (), event_tables(alloc)?, EVENTS)?)
}

#[test]
fn each_call_at_pages(rt: HostRuntime) -> Result<(), Fail> {
    let alloc = rt.alloc();
    Ok(play::<MmService>(alloc, (), mm_tables(alloc)?, PAGES)?)
}

#[test]
fn each_call_at_files(rt: HostRuntime) -> Result<(), Fail> {
    let alloc = rt.alloc();
    Ok(play::<RamfsService>(alloc, (), ramfs_tables(alloc)?, FILES)?)
}

#[test]
fn each_call_at_threads(rt: HostRuntime) -> Result<(), Fail> {
    let alloc = rt.alloc();
    Ok(play::<SchedService>(alloc, (), sched_tables(alloc)?, THREADS)?)
}

#[test]
fn each_call_at_timers(rt: HostRuntime) -> Result<(), Fail> {
    let alloc = rt.alloc();
    Ok(play::<TimerService>(alloc, (), timer_tables(alloc)?, TIMERS)?)
}
