// What plays cost that were worked out by hand, line by line. For each service one boot needs exactly its bound.
use crate::asking::{Said, costs, text_of};
use sg_top::Status::{self, Done, Refused, Waits};
use sg_top::{NoMemory, ServiceKind};
use std::alloc::Global;
use std::test::Fail;
use test_interfaces::{LOCK, in_version_2};

// A service, a script for it, and the status and the output that they come to.
type Case = (ServiceKind, &'static [u8], Status, &'static [u8]);

static CASES: [Case; 10] = [
    // an event whose count is replayed, too
    (
        ServiceKind::Events,
        b"client 1 { evt_split(); evt_trigger($1, 5); evt_wait($1); evt_wait($1); evt_wait($1); } stop 18;",
        Done,
        b"row 1 walk 2
cost evt_split 0
cost evt_wait 2
cost evt_trigger 2
cost evt_free 2
all 2
boot 1 walks 0 bound 0
boot 2 walks 2 bound 2
",
    ),
    // a function that looks at all threads needs all of them
    (
        ServiceKind::Threads,
        b"client 1 { sched_create_thd(5); sched_create_thd(5); sched_create_thd(5); sched_exit($1); sched_yield($2); sched_next(); } stop 24;",
        Done,
        b"row 2 walk 2
row 3 walk 2
cost sched_create_thd 4
cost sched_yield 4
cost sched_sleep 2
cost sched_wakeup 2
cost sched_wait 2
cost sched_next 4
cost sched_place 2
cost sched_exit 2
all 4
boot 1 walks 0 bound 0
boot 2 walks 4 bound 4
",
    ),
    // a timer, whose clock is advanced and which is placed again
    (
        ServiceKind::Timers,
        b"client 1 { tmr_create(5, 7); tmr_tick($1, 22); tmr_wait($1); tmr_skip($1); tmr_first(); } stop 14;",
        Done,
        b"row 1 walk 3
cost tmr_create 3
cost tmr_tick 3
cost tmr_wait 3
cost tmr_place 3
cost tmr_first 3
cost tmr_skip 3
cost tmr_free 3
all 3
boot 1 walks 0 bound 0
boot 2 walks 3 bound 3
",
    ),
    // a lock that is held when the service stops, and free at the end
    (
        ServiceKind::Locks,
        b"client 1 { lock_alloc(); lock_take($1); lock_release($1); lock_take($1); lock_release($1); } stop 12;",
        Done,
        b"row 1 walk 1
cost lock_alloc 0
cost lock_take 1
cost lock_release 1
cost lock_free 1
all 1
boot 1 walks 0 bound 0
boot 2 walks 2 bound 2
",
    ),
    // one of two locks is used after the stop
    (
        ServiceKind::Locks,
        b"client 1 { lock_alloc(); lock_take($1); lock_alloc(); lock_take($3); lock_release($1); lock_release($3); lock_free($1); } stop 26;",
        Done,
        b"row 2 walk 1
cost lock_alloc 0
cost lock_take 1
cost lock_release 1
cost lock_free 1
all 1
boot 1 walks 0 bound 0
boot 2 walks 1 bound 2
",
    ),
    // an alias, with the pages above it
    (
        ServiceKind::Pages,
        b"client 1 { mman_get_page(4096); mman_alias_page($1, 1, 8192); mman_alias_page($2, 1, 12288); mman_release_page($3); } stop 19;",
        Done,
        b"row 1 walk 1
row 2 walk 1
cost mman_get_page 2
cost mman_alias_page 2
cost mman_release_page 2
cost mman_find 2
all 2
boot 1 walks 0 bound 0
boot 2 walks 3 bound 3
",
    ),
    // a file, with that above it
    (
        ServiceKind::Files,
        b"client 1 { tsplit(0, \"a\"); twrite($1, \"hello\"); tsplit($1, \"b\"); twrite($3, \"x\"); twrite($3, \"yy\"); } stop 23;",
        Done,
        b"row 1 walk 2
row 2 walk 2
cost tsplit 4
cost tread 4
cost twrite 4
cost tseek 4
cost trelease 4
all 4
boot 1 walks 0 bound 0
boot 2 walks 4 bound 4
",
    ),
    // a client that waits at the end
    (
        ServiceKind::Locks,
        b"client 1 { lock_alloc(); lock_take($1); } client 2 { lock_take(1); }",
        Waits,
        b"row 1 walk 2
cost lock_alloc 0
cost lock_take 2
cost lock_release 2
cost lock_free 2
all 2
boot 1 walks 0 bound 0
",
    ),
    // nothing lives
    (
        ServiceKind::Locks,
        b"",
        Done,
        b"cost lock_alloc 0
cost lock_take 0
cost lock_release 0
cost lock_free 0
all 0
boot 1 walks 0 bound 0
",
    ),
    // a script that is refused
    (
        ServiceKind::Locks,
        b"client 1 { lock_alloc() }",
        Refused,
        b"script refused at 1:25: Syntax\n",
    ),
];

// Whether what is said is this.
fn is(said: &Said, status: Status, written: &[u8]) -> bool {
    said.0 == status && said.1.as_slice() == written
}

#[test]
fn tells_costs(rt: HostRuntime) -> Result<(), Fail> {
    for (service, script, status, written) in &CASES {
        let said = costs(rt.alloc(), text_of(*service), script)?;
        assert!(rt; is(&said, *status, written), "{script:?}");
    }
    Ok(())
}

// What a play of two locks under eager recovery costs.
fn eager_costs(alloc: Global) -> Result<Said, NoMemory> {
    let eager = in_version_2(alloc, LOCK, "eager")?;
    costs(
        alloc,
        &eager,
        b"client 1 { lock_alloc(); lock_alloc(); lock_take($1); lock_release($1); } stop 14;",
    )
}

#[test]
fn counts_all_that_lives_under_eager_recovery(rt: HostRuntime) -> Result<(), Fail> {
    let said = eager_costs(rt.alloc())?;
    let written = b"row 1 walk 1
row 2 walk 1
cost lock_alloc 2
cost lock_take 2
cost lock_release 2
cost lock_free 2
all 2
boot 1 walks 0 bound 0
boot 2 walks 3 bound 3
";
    assert!(rt; is(&said, Done, written));
    Ok(())
}
