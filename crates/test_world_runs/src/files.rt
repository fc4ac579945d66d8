// Plays of files, event by event.
use std::alloc::Global;
use std::test::Fail;
use test_world::play;
use test_world::tables::{RamfsService, ramfs_tables};

// A file is loaded for a client that reads it, and the offset of another is rebuilt.
const LOADED: &str = r#"clients 2
stops 10
offer 1 tsplit 0 "a"
step 1 served
step 1 ok #1
offer 1 twrite 1 "hello"
step 1 struck
offer 2 tsplit 0 "a"
step 2 booted
step 2 served
step 2 ok #2
offer 2 tread 2 16
step 2 loaded
step 2 served
step 2 ok 5 "hello"
leave 2
step 1 ok 5
offer 1 tseek 1 9
step 1 replayed
step 1 replayed
step 1 served
step 1 ok
offer 1 twrite 1 "x"
step 1 served
step 1 refused Gap
leave 1

ends left left
up

c1.1 tsplit(0, "a") = ok #1
c1.2 twrite(1, "hello") = ok 5
c2.1 tsplit(0, "a") = ok #2
c2.2 tread(2, 16) = ok 5 "hello"
c1.3 tseek(1, 9) = ok
c1.4 twrite(1, "x") = refused Gap
client 1 done
client 2 done
calls 6 boots 2 replays 2
boot 1
call c1.1 tsplit(0, "a") replied
call c1.2 twrite(1, "hello") replied
stop 10
boot 2
call c2.1 tsplit(0, "a") replied
load /a for c2
call c2.2 tread(2, 16) replied
walk 1.1 for c1 by c1 tsplit(0, "a") replied
walk 1.2 for c1 by c1 tseek(1, 5) replied
call c1.3 tseek(1, 9) replied
call c1.4 twrite(1, "x") replied
points 33
"#;

// The reply that a client holds is lost in a stop, and its call is made again.
const HELD_LOST: &str = r#"clients 2
stops 9
offer 1 tsplit 0 "a"
step 1 served
step 1 ok #1
offer 2 tread 1 8
step 2 refused NoDesc
offer 1 tseek 1 4
step 1 served
offer 2 tsplit 0 "b"
step 2 struck
step 1 lost
step 2 booted
step 1 replayed
step 2 served
step 1 served
step 2 ok #2
leave 2
step 1 ok
offer 1 tread 1 8
step 1 served
step 1 ok 0
leave 1

ends left left
up

c1.1 tsplit(0, "a") = ok #1
c2.1 tread(1, 8) = refused NoDesc
c2.2 tsplit(0, "b") = ok #2
c1.2 tseek(1, 4) = ok
c1.3 tread(1, 8) = ok 0 ""
client 1 done
client 2 done
calls 5 boots 2 replays 1
boot 1
call c1.1 tsplit(0, "a") replied
call c1.2 tseek(1, 4) replied
stop 9
boot 2
walk 1.1 for c1 by c1 tsplit(0, "a") replied
call c2.2 tsplit(0, "b") replied
call c1.2 tseek(1, 4) replied
call c1.3 tread(1, 8) replied
points 25
"#;

// The service stops and is booted by another client before a held reply is told: it is lost all the same.
const HELD_IN_ANOTHER_BOOT: &str = r#"clients 2
stops 9
offer 1 tsplit 0 "a"
step 1 served
step 1 ok #1
offer 1 tseek 1 4
step 1 served
offer 2 tsplit 0 "b"
step 2 struck
step 2 booted
step 1 lost
step 1 replayed
step 1 served
step 1 ok
step 2 served
step 2 ok #2
leave 1
leave 2

ends left left
up

c1.1 tsplit(0, "a") = ok #1
c1.2 tseek(1, 4) = ok
c2.1 tsplit(0, "b") = ok #2
client 1 done
client 2 done
calls 3 boots 2 replays 1
boot 1
call c1.1 tsplit(0, "a") replied
call c1.2 tseek(1, 4) replied
stop 9
boot 2
walk 1.1 for c1 by c1 tsplit(0, "a") replied
call c1.2 tseek(1, 4) replied
call c2.1 tsplit(0, "b") replied
points 21
"#;

// Plays a text of files.
fn plays(alloc: Global, text: &str) -> Result<(), Fail> {
    Ok(play::<RamfsService>(alloc, (), ramfs_tables(alloc)?, text)?)
}

#[test]
fn a_file_is_loaded(rt: HostRuntime) -> Result<(), Fail> {
    plays(rt.alloc(), LOADED)
}

#[test]
fn a_held_reply_is_lost(rt: HostRuntime) -> Result<(), Fail> {
    plays(rt.alloc(), HELD_LOST)
}

#[test]
fn a_held_reply_of_another_boot_is_lost(rt: HostRuntime) -> Result<(), Fail> {
    plays(rt.alloc(), HELD_IN_ANOTHER_BOOT)
}
