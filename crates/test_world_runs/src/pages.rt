// Plays of mappings, event by event.
use std::alloc::Global;
use std::test::Fail;
use test_world::play;
use test_world::tables::{MmService, mm_tables};

// A page is rebuilt before its alias, each in the name of its maker.
const PARENT_FIRST: &str = "clients 2
stops 12
offer 1 mman_get_page 0 4096
step 1 served
step 1 ok #1
leave 1
offer 2 mman_alias_page 1 2 8192
step 2 served
step 2 ok #2
offer 2 mman_release_page 2
step 2 struck
step 2 booted
step 2 replayed
step 2 replayed
step 2 served
step 2 ok
leave 2

ends left left
up

c1.1 mman_get_page(4096) = ok #1
c2.1 mman_alias_page(1, 2, 8192) = ok #2
c2.2 mman_release_page(2) = ok
client 1 done
client 2 done
calls 3 boots 2 replays 2
boot 1
call c1.1 mman_get_page(4096) replied
call c2.1 mman_alias_page(1, 2, 8192) replied
stop 12
boot 2
walk 1.1 for c2 by c1 mman_get_page(4096) replied
walk 2.1 for c2 by c2 mman_alias_page(1, 2, 8192) replied
call c2.2 mman_release_page(2) replied
points 26
";

// A page that a stop took still occupies its place.
const OCCUPIED: &str = "clients 1
stops 6
offer 1 mman_get_page 0 4096
step 1 served
step 1 ok #1
offer 1 mman_get_page 0 4096
step 1 struck
step 1 booted
step 1 replayed
step 1 served
step 1 refused Occupied
leave 1

ends left
up

c1.1 mman_get_page(4096) = ok #1
c1.2 mman_get_page(4096) = refused Occupied
client 1 done
calls 2 boots 2 replays 1
boot 1
call c1.1 mman_get_page(4096) replied
stop 6
boot 2
walk 1.1 for c1 by c1 mman_get_page(4096) replied
call c1.2 mman_get_page(4096) replied
points 13
";

// A page is removed with its aliases, of which one was not rebuilt.
const HALF_A_SUBTREE: &str = "clients 2
stops 18
offer 1 mman_get_page 0 4096
step 1 served
step 1 ok #1
offer 1 mman_alias_page 1 1 8192
step 1 served
step 1 ok #2
offer 1 mman_alias_page 1 1 12288
step 1 served
step 1 ok #3
offer 2 mman_find 0 1 8192
step 2 struck
step 2 booted
step 2 replayed
step 2 replayed
offer 1 mman_release_page 1
step 1 served
step 1 ok
step 2 served
offer 1 mman_release_page 2
step 1 refused NoDesc
step 2 refused NotFound
leave 2
offer 1 mman_release_page 3
step 1 refused NoDesc
leave 1

ends left left
up

c1.1 mman_get_page(4096) = ok #1
c1.2 mman_alias_page(1, 1, 8192) = ok #2
c1.3 mman_alias_page(1, 1, 12288) = ok #3
c1.4 mman_release_page(1) = ok
c2.1 mman_find(1, 8192) = refused NotFound
c1.5 mman_release_page(2) = refused NoDesc
c1.6 mman_release_page(3) = refused NoDesc
client 1 done
client 2 done
calls 7 boots 2 replays 2
boot 1
call c1.1 mman_get_page(4096) replied
call c1.2 mman_alias_page(1, 1, 8192) replied
call c1.3 mman_alias_page(1, 1, 12288) replied
stop 18
boot 2
walk 1.1 for c2 by c1 mman_get_page(4096) replied
walk 2.1 for c2 by c1 mman_alias_page(1, 1, 8192) replied
call c1.4 mman_release_page(1) replied
call c2.1 mman_find(1, 8192) replied
points 35
";

// Plays a text of pages.
fn plays(alloc: Global, text: &str) -> Result<(), Fail> {
    Ok(play::<MmService>(alloc, (), mm_tables(alloc)?, text)?)
}

#[test]
fn a_page_is_rebuilt_before_its_alias(rt: HostRuntime) -> Result<(), Fail> {
    plays(rt.alloc(), PARENT_FIRST)
}

#[test]
fn a_lost_page_occupies_its_place(rt: HostRuntime) -> Result<(), Fail> {
    plays(rt.alloc(), OCCUPIED)
}

#[test]
fn a_subtree_that_is_half_rebuilt_is_removed(rt: HostRuntime) -> Result<(), Fail> {
    plays(rt.alloc(), HALF_A_SUBTREE)
}
