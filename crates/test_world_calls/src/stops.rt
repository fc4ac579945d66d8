// Stops at every point: one client's calls get the replies of a run without stops.
use std::test::Fail;
use test_world::answered;
use test_world::tables::{
    EventService, LockService, MmService, RamfsService, SchedService, TimerService, event_tables,
    lock_tables, mm_tables, ramfs_tables, sched_tables, timer_tables,
};

/// The last point at which a service stops here. Each run asks as many at least.
const LAST: u64 = 40;

/// The point of the first of two stops: what stands after it in a run is rebuilt by walks.
const FIRST: u64 = 20;

// Calls of the only client, and the reply that each is to get.
const LOCKS: &str = "lock_alloc 0 = ok #1
lock_take 1 = ok
lock_alloc 0 = ok #2
lock_take 2 = ok
lock_take 1 = refused Held
lock_release 1 = ok
lock_free 1 = ok
lock_free 2 = refused Held
lock_take 7 = refused NoDesc
lock_release 2 = ok
lock_release 2 = refused BadState
lock_free 2 = ok
lock_alloc 0 = ok #3
lock_take 3 = ok
";

const EVENTS: &str = "evt_split 0 = ok #1
evt_trigger 1 3 = ok
evt_wait 1 = ok
evt_split 0 = ok #2
evt_trigger 2 1 = ok
evt_wait 1 = ok
evt_wait 2 = ok
evt_trigger 1 4294967295 = refused Overflow
evt_free 2 = ok
evt_wait 2 = refused NoDesc
evt_wait 1 = ok
evt_free 1 = ok
";

const PAGES: &str = "mman_get_page 0 4096 = ok #1
mman_alias_page 1 1 8192 = ok #2
mman_alias_page 2 2 4096 = ok #3
mman_find 0 1 8192 = ok #2
mman_get_page 0 4096 = refused Occupied
mman_release_page 2 = ok
mman_find 0 2 4096 = refused NotFound
mman_alias_page 2 2 4096 = refused NoParent
mman_release_page 1 = ok
mman_get_page 0 4096 = ok #4
mman_find 0 1 4096 = ok #4
";

const FILES: &str = r#"tsplit 0 "a" = ok #1
twrite 1 "hello" = ok 5
tseek 1 1 = ok
tread 1 3 = ok 3 "ell"
tsplit 1 "b" = ok #2
twrite 2 "x" = ok 1
trelease 1 = refused HasChildren
tseek 1 0 = ok
tread 1 9 = ok 5 "hello"
trelease 2 = ok
tseek 1 9 = ok
twrite 1 "y" = refused Gap
trelease 1 = ok
"#;

const THREADS: &str = "sched_create_thd 0 5 = ok #1 1
sched_create_thd 0 3 = ok #2 2
sched_next 0 = ok #2
sched_sleep 2 = ok
sched_next 0 = ok #1
sched_yield 2 = refused BadState
sched_wakeup 2 = ok
sched_yield 1 = ok 3
sched_wait 1 = ok
sched_exit 2 = ok
sched_next 0 = ok #1
sched_sleep 1 = ok
";

// Timers.
const TIMERS: &str = "tmr_create 0 3 7 = ok #1 3
tmr_create 0 5 8 = ok #2 5
tmr_create 0 5 7 = refused Occupied
tmr_first 0 = ok #1
tmr_tick 1 3 = ok
tmr_wait 1 = ok 3
tmr_first 0 = ok #1
tmr_tick 1 10 = ok
tmr_skip 1 = ok 9
tmr_tick 2 4 = ok
tmr_first 0 = ok #2
tmr_free 1 = ok
tmr_first 0 = ok #2
";

#[test]
fn locks_stop_anywhere(rt: HostRuntime) -> Result<(), Fail> {
    let alloc = rt.alloc();
    for point in 1..=LAST {
        let made = answered::<LockService>(alloc, (), lock_tables(alloc)?, &[point], LOCKS);
        assert_eq!(rt; made, Ok(()), "at {point}");
    }
    for point in FIRST + 1..=LAST {
        let made = answered::<LockService>(alloc, (), lock_tables(alloc)?, &[FIRST, point], LOCKS);
        assert_eq!(rt; made, Ok(()), "at {point}");
    }
    Ok(())
}

#[test]
fn events_stop_anywhere(rt: HostRuntime) -> Result<(), Fail> {
    let alloc = rt.alloc();
    for point in 1..=LAST {
        let made = answered::<EventService>(alloc, (), event_tables(alloc)?, &[point], EVENTS);
        assert_eq!(rt; made, Ok(()), "at {point}");
    }
    for point in FIRST + 1..=LAST {
        let made = answered::<EventService>(
            alloc,
            (),
            event_tables(alloc)?,
            &[FIRST, point],
            EVENTS,
        );
        assert_eq!(rt; made, Ok(()), "at {point}");
    }
    Ok(())
}

#[test]
fn pages_stop_anywhere(rt: HostRuntime) -> Result<(), Fail> {
    let alloc = rt.alloc();
    for point in 1..=LAST {
        let made = answered::<MmService>(alloc, (), mm_tables(alloc)?, &[point], PAGES);
        assert_eq!(rt; made, Ok(()), "at {point}");
    }
    for point in FIRST + 1..=LAST {
        let made = answered::<MmService>(alloc, (), mm_tables(alloc)?, &[FIRST, point], PAGES);
        assert_eq!(rt; made, Ok(()), "at {point}");
    }
    Ok(())
}

#[test]
fn files_stop_anywhere(rt: HostRuntime) -> Result<(), Fail> {
    let alloc = rt.alloc();
    for point in 1..=LAST {
        let made = answered::<RamfsService>(alloc, (), ramfs_tables(alloc)?, &[point], FILES);
        assert_eq!(rt; made, Ok(()), "at {point}");
    }
    for point in FIRST + 1..=LAST {
        let made = answered::<RamfsService>(
            alloc,
            (),
            ramfs_tables(alloc)?,
            &[FIRST, point],
            FILES,
        );
        assert_eq!(rt; made, Ok(()), "at {point}");
    }
    Ok(())
}

#[test]
fn threads_stop_anywhere(rt: HostRuntime) -> Result<(), Fail> {
    let alloc = rt.alloc();
    for point in 1..=LAST {
        let made = answered::<SchedService>(alloc, (), sched_tables(alloc)?, &[point], THREADS);
        assert_eq!(rt; made, Ok(()), "at {point}");
    }
    for point in FIRST + 1..=LAST {
        let made = answered::<SchedService>(
            alloc,
            (),
            sched_tables(alloc)?,
            &[FIRST, point],
            THREADS,
        );
        assert_eq!(rt; made, Ok(()), "at {point}");
    }
    Ok(())
}

#[test]
fn timers_stop_anywhere(rt: HostRuntime) -> Result<(), Fail> {
    let alloc = rt.alloc();
    for point in 1..=LAST {
        let made = answered::<TimerService>(alloc, (), timer_tables(alloc)?, &[point], TIMERS);
        assert_eq!(rt; made, Ok(()), "at {point}");
    }
    for point in FIRST + 1..=LAST {
        let made = answered::<TimerService>(
            alloc,
            (),
            timer_tables(alloc)?,
            &[FIRST, point],
            TIMERS,
        );
        assert_eq!(rt; made, Ok(()), "at {point}");
    }
    Ok(())
}
