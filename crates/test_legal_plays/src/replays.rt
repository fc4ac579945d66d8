// Plays in one thread with a stop at each point: each is judged legal.
use crate::judged::plays_legally;
use std::process::Abort;
use std::test::Fail;
use test_interfaces::{LOCK, MM, RAMFS, SCHED};

/// The last point of a stop.
const LAST: u32 = 60;

/// Two clients take one lock, so that one of them waits for the other.
const LOCKS: &str =
    "setup { lock_alloc(); } client 1 { lock_take(1); lock_release(1); lock_free(1); } client 2 { lock_take(1); lock_release(1); } schedule 1 2 1 2 2 2;";

/// Two clients alias, find and remove pages.
const PAGES: &str =
    "setup { mman_get_page(4096); } client 1 { mman_alias_page(1, 2, 8192); mman_find(2, 8192); mman_release_page(1); } client 2 { mman_get_page(4096); mman_find(2, 8192); mman_release_page(2); } schedule 1 2 1 2;";

/// Two clients write and read files.
const FILES: &str =
    "client 1 { tsplit(0, \"a\"); twrite($1, \"hello\"); tseek($1, 9); twrite($1, \"x\"); } client 2 { tsplit(0, \"a\"); tread($1, 16); trelease($1); } schedule 1 1 1 2 2 2 2 2 2;";

/// A client waits for a thread that sleeps, and the other wakes it.
const THREADS: &str =
    "setup { sched_create_thd(3); } client 1 { sched_sleep(1); sched_wait(1); sched_yield(1); } client 2 { sched_wakeup(1); sched_next(); } schedule 1 1 1 2 2;";

#[test]
fn plays_are_legal(rt: HostRuntime) -> Result<(), Fail> {
    for (interface, script) in [(LOCK, LOCKS), (MM, PAGES), (RAMFS, FILES), (SCHED, THREADS)] {
        for point in 1..=LAST {
            let legal = plays_legally(rt.alloc(), interface, script, (point, 0))?;
            assert!(rt; legal, "{script} stop {point}");
        }
    }
    Ok(())
}
