// Want of memory: each event that gets none is made again, and the end is as if nothing had been, but for the points. The gate runs this
// with memory to spare; `rt try --test --fail-alloc N` lets one allocation fail, and one of those that make the tables fails the test.
ghost use Rattle.std.specs.Prelude.{◌≡◌};

use crate::inside::Inside;
use std::alloc::Global;
use std::process::Abort;
use std::test::Fail;
use test_world::tables::{
    EventService, LockService, MmService, RamfsService, SchedService, TimerService, event_tables,
    lock_tables, mm_tables, ramfs_tables, sched_tables, timer_tables,
};
use test_world::{Bytes, Event, Judge, NoMemory, Run, Service, Tables, Unmade, headed, judged};

/// Events of two clients around one stop.
#[derive(Clone, Copy, Debug)]
struct Case<'a> {
    /// Which of the points within steps the stop strikes at.
    stop: u64,
    /// How many marks there are at the end.
    marks: usize,
    /// The events, each on a line.
    events: &'a str,
    /// The printed run.
    printed: &'a str,
}

impl<'a> Case<'a> {
    // The case of a text: `stop 7` and `marks 17` on the first lines, the events, and after an empty line the printed run.
    fn read(text: &'a str) -> Option<Self> {
        let (stop, lines) = headed(text, "stop")?;
        let (marks, lines) = headed(lines, "marks")?;
        let (events, printed) = lines.split_once("\n\n")?;
        let stop = stop.parse().ok()?;
        let marks = marks.parse().ok()?;
        Some(Case {
            stop,
            marks,
            events,
            printed,
        })
    }
}

/// How often an event is made where there is no memory for it.
const TRIES: u8 = 3;

/// The number of clients.
const CLIENTS: u8 = 2;

// What was done, printed, again where there was no memory.
fn printed_again<S: Service>(alloc: Global, run: &Run<S, Inside>) -> Result<Bytes, NoMemory> {
    match run.printed(alloc) {
        Err(NoMemory) => run.printed(alloc),
        Ok(bytes) => Ok(bytes),
    }
}

// Makes an event, again where there was no memory for it, which is counted of steps.
fn persist<S: Service>(
    rt: &impl Abort,
    alloc: Global,
    run: &mut Run<S, Inside>,
    event: &Event,
) -> Result<bool, Unmade> {
    for _ in 0..TRIES {
        let refused = run
            .world()
            .refused()
            .saturating_add(u64::from(is_step(event)));
        match run.make(alloc, event) {
            Err(Unmade::NoMemory) => assert_eq!(rt; run.world().refused(), refused),
            made => return made,
        }
    }
    Err(Unmade::NoMemory)
}

// Makes the events of lines, each again where there was no memory for it.
fn persist_all<S: Service>(
    rt: &impl Abort,
    alloc: Global,
    run: &mut Run<S, Inside>,
    lines: &str,
) -> Result<(), Fail> {
    for line in lines.lines() {
        let event = Event::read(line).ok_or("no event")?;
        assert!(rt; persist(rt, alloc, run, &event)?, "{line}");
    }
    Ok(())
}

// Whether an event is a step.
fn is_step(event: &Event) -> bool {
    matches!(event, Event::Step(..))
}

// A line of a printed run, without the numbers of points.
fn without_points(line: &str) -> &str {
    if line.starts_with("stop ") {
        "stop"
    } else if line.starts_with("points ") {
        "points"
    } else {
        line
    }
}

// Whether two printed runs are the same but for the numbers of points.
fn are_alike(one: &str, other: &str) -> bool {
    one.split('\n')
        .map(without_points)
        .eq(other.split('\n').map(without_points))
}

/// A case, made event by event, each again where there was no memory for it.
#[derive(Drop)]
struct Persisting<'a, R> {
    rt: &'a R,
    case: Case<'a>,
}

impl<R: Abort, S: Service> Judge<S, Inside> for Persisting<'_, R> {
    type Said = Result<(), Fail>;

    fn judge(&self, alloc: Global, run: &mut Run<S, Inside>) -> Result<(), Fail> {
        let rt = self.rt;
        persist_all(rt, alloc, run, self.case.events)?;
        let printed = printed_again(alloc, run)?;
        assert!(rt; are_alike(str::from_utf8(printed.as_slice())?, self.case.printed));
        assert_eq!(rt; run.world().marks().len(), self.case.marks);
        assert!(rt; run.world().service().is_some() && run.world().all_blocked());
        Ok(())
    }
}

// Makes the events of a case, and looks at what they came to; false where there was no memory to begin.
fn persists<S: Service>(
    rt: &impl Abort,
    alloc: Global,
    image: S::Image,
    tables: Tables,
    text: &str,
) -> Result<bool, Fail>
    requires { tables.iface.facts ≡ S.facts }
{
    let case = Case::read(text).ok_or("no case")?;
    let stop = Inside::new(case.stop);
    match judged::<S, _, _>(
        alloc,
        image,
        tables,
        CLIENTS,
        stop,
        &Persisting { rt, case },
    ) {
        Ok(said) => said.map(|()| true),
        Err(Unmade::NoMemory) => Ok(false),
        Err(unmade) => Err(Fail::from(unmade)),
    }
}

// A lock is rebuilt for a client that waits for it.
const LOCKS: &str = "stop 7
marks 17
offer 1 lock_alloc 0
step 1 served
step 1 ok #1
offer 1 lock_take 1
step 1 struck
step 1 ok
offer 2 lock_take 1
step 2 booted
step 2 replayed
step 2 replayed
step 2 blocked
offer 1 lock_release 1
step 1 served
step 1 ok
step 2 served
step 2 ok
offer 1 lock_free 1
step 1 served
step 1 refused Held
leave 1
leave 2

c1.1 lock_alloc() = ok #1
c1.2 lock_take(1) = ok
c1.3 lock_release(1) = ok
c2.1 lock_take(1) = ok
c1.4 lock_free(1) = refused Held
client 1 done
client 2 done
calls 5 boots 2 replays 2
boot 1
call c1.1 lock_alloc() replied
call c1.2 lock_take(1) replied
stop 9
boot 2
walk 1.1 for c2 by c1 lock_alloc() replied
walk 1.2 for c2 by c1 lock_take(1) replied
call c2.1 lock_take(1) blocked
call c1.3 lock_release(1) replied
call c2.1 lock_take(1) replied
call c1.4 lock_free(1) replied
points 28
";

// An event is rebuilt for a trigger that was lost, and for which a client waits.
const EVENTS: &str = "stop 6
marks 14
offer 1 evt_split 0
step 1 served
step 1 ok #1
offer 2 evt_wait 1
step 2 blocked
offer 1 evt_trigger 1 2
step 1 struck
step 1 booted
step 1 replayed
step 1 served
step 2 served
step 2 ok
offer 2 evt_wait 1
step 2 served
step 2 ok
step 1 ok
leave 1
leave 2

c1.1 evt_split() = ok #1
c1.2 evt_trigger(1, 2) = ok
c2.1 evt_wait(1) = ok
c2.2 evt_wait(1) = ok
client 1 done
client 2 done
calls 4 boots 2 replays 1
boot 1
call c1.1 evt_split() replied
call c2.1 evt_wait(1) blocked
call c1.2 evt_trigger(1, 2) stopped
stop 9
boot 2
walk 1.1 for c1 by c1 evt_split() replied
call c1.2 evt_trigger(1, 2) replied
call c2.1 evt_wait(1) replied
call c2.2 evt_wait(1) replied
points 25
";

// A page and its alias are rebuilt, and removed.
const PAGES: &str = "stop 8
marks 14
offer 1 mman_get_page 0 4096
step 1 served
step 1 ok #1
offer 2 mman_alias_page 1 2 8192
step 2 struck
step 2 booted
step 2 replayed
step 2 served
step 2 ok #2
offer 1 mman_find 0 2 8192
step 1 served
step 1 ok #2
offer 1 mman_release_page 1
step 1 served
step 1 ok
leave 1
leave 2

c1.1 mman_get_page(4096) = ok #1
c2.1 mman_alias_page(1, 2, 8192) = ok #2
c1.2 mman_find(2, 8192) = ok #2
c1.3 mman_release_page(1) = ok
client 1 done
client 2 done
calls 4 boots 2 replays 1
boot 1
call c1.1 mman_get_page(4096) replied
call c2.1 mman_alias_page(1, 2, 8192) stopped
stop 10
boot 2
walk 1.1 for c2 by c1 mman_get_page(4096) replied
call c2.1 mman_alias_page(1, 2, 8192) replied
call c1.2 mman_find(2, 8192) replied
call c1.3 mman_release_page(1) replied
points 28
";

// A file is loaded, an offset rebuilt, and a held reply lost.
const FILES: &str = r#"stop 13
marks 17
offer 1 tsplit 0 "a"
step 1 served
step 1 ok #1
offer 1 twrite 1 "hello"
step 1 served
step 1 ok 5
offer 1 tseek 1 1
step 1 served
offer 2 tsplit 0 "b"
step 2 struck
step 1 lost
step 2 booted
step 1 replayed
step 1 replayed
step 1 served
step 1 ok
step 2 served
step 2 ok #2
offer 1 tread 1 3
step 1 loaded
step 1 served
step 1 ok 3 "ell"
leave 1
leave 2

c1.1 tsplit(0, "a") = ok #1
c1.2 twrite(1, "hello") = ok 5
c1.3 tseek(1, 1) = ok
c2.1 tsplit(0, "b") = ok #2
c1.4 tread(1, 3) = ok 3 "ell"
client 1 done
client 2 done
calls 5 boots 2 replays 2
boot 1
call c1.1 tsplit(0, "a") replied
call c1.2 twrite(1, "hello") replied
call c1.3 tseek(1, 1) replied
call c2.1 tsplit(0, "b") stopped
stop 17
boot 2
walk 1.1 for c1 by c1 tsplit(0, "a") replied
walk 1.2 for c1 by c1 tseek(1, 5) replied
call c1.3 tseek(1, 1) replied
call c2.1 tsplit(0, "b") replied
load /a for c1
call c1.4 tread(1, 3) replied
points 37
"#;

// A thread that sleeps is rebuilt, and woken.
const THREADS: &str = "stop 7
marks 14
offer 1 sched_create_thd 0 3
step 1 served
step 1 ok #1 1
offer 1 sched_sleep 1
step 1 struck
step 1 ok
offer 2 sched_wait 1
step 2 booted
offer 1 sched_wakeup 1
step 1 replayed
step 1 replayed
step 2 replayed
step 2 blocked
step 1 served
step 1 ok
step 2 served
step 2 ok
leave 1
leave 2

c1.1 sched_create_thd(3) = ok #1 1
c1.2 sched_sleep(1) = ok
c1.3 sched_wakeup(1) = ok
c2.1 sched_wait(1) = ok
client 1 done
client 2 done
calls 4 boots 2 replays 3
boot 1
call c1.1 sched_create_thd(3) replied
call c1.2 sched_sleep(1) replied
stop 9
boot 2
walk 1.1 for c1 by c1 sched_create_thd(3) replied
walk 1.2 for c1 by c1 sched_place(1, 1) replied
walk 1.3 for c2 by c1 sched_sleep(1) replied
call c2.1 sched_wait(1) blocked
call c1.3 sched_wakeup(1) replied
call c2.1 sched_wait(1) replied
points 27
";

// A timer is rebuilt for a client that waits until it is due, and ticked.
const TIMERS: &str = "stop 8
marks 14
offer 1 tmr_create 0 2 7
step 1 served
step 1 ok #1 2
offer 1 tmr_tick 1 1
step 1 struck
step 1 ok
offer 2 tmr_wait 1
step 2 booted
offer 1 tmr_tick 1 1
step 1 replayed
step 1 replayed
step 2 replayed
step 2 blocked
step 1 served
step 1 ok
step 2 served
step 2 ok 2
leave 1
leave 2

c1.1 tmr_create(2, 7) = ok #1 2
c1.2 tmr_tick(1, 1) = ok
c1.3 tmr_tick(1, 1) = ok
c2.1 tmr_wait(1) = ok 2
client 1 done
client 2 done
calls 4 boots 2 replays 3
boot 1
call c1.1 tmr_create(2, 7) replied
call c1.2 tmr_tick(1, 1) replied
stop 10
boot 2
walk 1.1 for c1 by c1 tmr_create(2, 7) replied
walk 1.2 for c1 by c1 tmr_tick(1, 1) replied
walk 1.3 for c2 by c1 tmr_place(1, 2) replied
call c2.1 tmr_wait(1) blocked
call c1.3 tmr_tick(1, 1) replied
call c2.1 tmr_wait(1) replied
points 30
";

#[test]
fn locks_persist(rt: HostRuntime) -> Result<(), Fail> {
    let alloc = rt.alloc();
    let begun = persists::<LockService>(&rt, alloc, (), lock_tables(alloc)?, LOCKS)?
        || persists::<LockService>(&rt, alloc, (), lock_tables(alloc)?, LOCKS)?;
    assert!(rt; begun);
    Ok(())
}

#[test]
fn events_persist(rt: HostRuntime) -> Result<(), Fail> {
    let alloc = rt.alloc();
    let begun = persists::<EventService>(&rt, alloc, (), event_tables(alloc)?, EVENTS)?
        || persists::<EventService>(&rt, alloc, (), event_tables(alloc)?, EVENTS)?;
    assert!(rt; begun);
    Ok(())
}

#[test]
fn pages_persist(rt: HostRuntime) -> Result<(), Fail> {
    let alloc = rt.alloc();
    let begun = persists::<MmService>(&rt, alloc, (), mm_tables(alloc)?, PAGES)?
        || persists::<MmService>(&rt, alloc, (), mm_tables(alloc)?, PAGES)?;
    assert!(rt; begun);
    Ok(())
}

#[test]
fn files_persist(rt: HostRuntime) -> Result<(), Fail> {
    let alloc = rt.alloc();
    let begun = persists::<RamfsService>(&rt, alloc, (), ramfs_tables(alloc)?, FILES)?
        || persists::<RamfsService>(&rt, alloc, (), ramfs_tables(alloc)?, FILES)?;
    assert!(rt; begun);
    Ok(())
}

#[test]
fn threads_persist(rt: HostRuntime) -> Result<(), Fail> {
    let alloc = rt.alloc();
    let begun = persists::<SchedService>(&rt, alloc, (), sched_tables(alloc)?, THREADS)?
        || persists::<SchedService>(&rt, alloc, (), sched_tables(alloc)?, THREADS)?;
    assert!(rt; begun);
    Ok(())
}

#[test]
fn timers_persist(rt: HostRuntime) -> Result<(), Fail> {
    let alloc = rt.alloc();
    let begun = persists::<TimerService>(&rt, alloc, (), timer_tables(alloc)?, TIMERS)?
        || persists::<TimerService>(&rt, alloc, (), timer_tables(alloc)?, TIMERS)?;
    assert!(rt; begun);
    Ok(())
}
