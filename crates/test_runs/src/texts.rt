// Runs, a text for each service. A run is its words and its status, its script, and what is printed; a line of two points stands for
// any lines. An empty line divides runs.

/// Locks.
pub const LOCKS: &str = "\
explore: 0
client 1 { lock_alloc(); lock_take($1); lock_release($1); lock_free($1); } stop 9;
points 17
runs 18
stops 17
replays 2 at 9
blocked 0
same

explore 30: 0
setup { lock_alloc(); } client 1 { lock_take($1); lock_release($1); } client 2 { lock_take(1); lock_release(1); }
points 22
runs 430
stops 376
replays 4 at 9 17
blocked 0
differs 78 at 6
c1.1 lock_alloc() = ok #1
c1.2 lock_take(1) = ok
c1.3 lock_release(1) = ok
c2.1 lock_take(1) = ok
c2.2 lock_release(1) = ok
client 1 done
client 2 done
calls 5 boots 2 replays 1

explore: 3
client 1 { lock_alloc(); lock_take($1); } client 2 { lock_take(1); }
points 10
runs 11
stops 10
replays 2 at 9
blocked 7
differs 5 at 1
c2.1 lock_take(1) = refused NoDesc
c1.1 lock_alloc() = ok #1
c1.2 lock_take(1) = ok
client 1 done
client 2 done
calls 3 boots 2 replays 0

explore 5: 0
schedule 1;
points 0
runs 1
stops 0
replays 0
blocked 0
same

run: 0
client 1 { lock_alloc(); lock_take($1); lock_release($1); lock_free($1); }
c1.1 lock_alloc() = ok #1
c1.2 lock_take(1) = ok
c1.3 lock_release(1) = ok
c1.4 lock_free(1) = ok
client 1 done
calls 4 boots 1 replays 0

run trace: 0
client 1 { lock_alloc(); lock_take($1); lock_release($1); lock_free($1); } stop 9;
c1.1 lock_alloc() = ok #1
c1.2 lock_take(1) = ok
c1.3 lock_release(1) = ok
c1.4 lock_free(1) = ok
client 1 done
calls 4 boots 2 replays 2
boot 1
call c1.1 lock_alloc() replied
call c1.2 lock_take(1) replied
stop 9
boot 2
walk 1.1 for c1 by c1 lock_alloc() replied
walk 1.2 for c1 by c1 lock_take(1) replied
call c1.3 lock_release(1) replied
call c1.4 lock_free(1) replied
points 24

sim: 0
client 1 { lock_alloc(); lock_take($1); lock_release($1); lock_free($1); }
c1.1 lock_alloc() = ok #1
c1.2 lock_take(1) = ok
c1.3 lock_release(1) = ok
c1.4 lock_free(1) = ok
client 1 done
calls 4 boots 1 replays 0

sim: 0
setup { lock_alloc(); } client 1 { lock_take(1); lock_release(1); } client 2 { lock_take(1); lock_release(1); } schedule 1 2 1 1;
c1.1 lock_alloc() = ok #1
c1.2 lock_take(1) = ok
c1.3 lock_release(1) = ok
c2.1 lock_take(1) = ok
c2.2 lock_release(1) = ok
client 1 done
client 2 done
calls 5 boots 1 replays 0

sim: 3
setup { lock_alloc(); } client 1 { lock_take(1); } client 2 { lock_take(1); } schedule 1 2;
c1.1 lock_alloc() = ok #1
c1.2 lock_take(1) = ok
client 1 done
client 2 blocked lock_take(1)
calls 2 boots 1 replays 0

sim trace: 0
client 1 { lock_alloc(); lock_take($1); lock_release($1); lock_free($1); } stop 9;
c1.1 lock_alloc() = ok #1
c1.2 lock_take(1) = ok
c1.3 lock_release(1) = ok
c1.4 lock_free(1) = ok
client 1 done
calls 4 boots 2 replays 2
boot 1
call c1.1 lock_alloc() replied
call c1.2 lock_take(1) replied
stop 9
boot 2
walk 1.1 for c1 by c1 lock_alloc() replied
walk 1.2 for c1 by c1 lock_take(1) replied
call c1.3 lock_release(1) replied
call c1.4 lock_free(1) replied
points 24

sim trace: 0
client 1 { lock_alloc(); lock_take($1); lock_release($1); lock_free($1); } stop 8;
c1.1 lock_alloc() = ok #1
c1.2 lock_take(1) = ok
c1.3 lock_release(1) = ok
c1.4 lock_free(1) = ok
client 1 done
calls 4 boots 2 replays 1
boot 1
call c1.1 lock_alloc() replied
call c1.2 lock_take(1) stopped
stop 8
boot 2
walk 1.1 for c1 by c1 lock_alloc() replied
call c1.2 lock_take(1) replied
call c1.3 lock_release(1) replied
call c1.4 lock_free(1) replied
points 24

sim trace: 0
client 1 { lock_alloc(); lock_take($1); lock_release($1); lock_free($1); } stop 9 15;
c1.1 lock_alloc() = ok #1
c1.2 lock_take(1) = ok
c1.3 lock_release(1) = ok
c1.4 lock_free(1) = ok
client 1 done
calls 4 boots 3 replays 3
boot 1
call c1.1 lock_alloc() replied
call c1.2 lock_take(1) replied
stop 9
boot 2
walk 1.1 for c1 by c1 lock_alloc() replied
walk 1.2 for c1 by c1 lock_take(1) stopped
stop 15
boot 3
walk 1.1 for c1 by c1 lock_alloc() replied
walk 1.2 for c1 by c1 lock_take(1) replied
call c1.3 lock_release(1) replied
call c1.4 lock_free(1) replied
points 30

sim: 0
client 1 { lock_free(9); lock_take($1); lock_alloc(); lock_release($3); }
c1.1 lock_free(9) = refused NoDesc
c1.2 lock_take(0) = refused NoDesc
c1.3 lock_alloc() = ok #1
c1.4 lock_release(1) = refused BadState
client 1 done
calls 4 boots 1 replays 0

sim trace: 0
client 1 { lock_free(9); lock_take($1); lock_alloc(); lock_release($3); }
c1.1 lock_free(9) = refused NoDesc
c1.2 lock_take(0) = refused NoDesc
c1.3 lock_alloc() = ok #1
c1.4 lock_release(1) = refused BadState
client 1 done
calls 4 boots 1 replays 0
..
points 5

sim: 0
setup { lock_alloc(); } client 1 { lock_take(1); lock_take(1); lock_free(1); } client 2 { lock_release(1); } schedule 1 1 2 2;
c1.1 lock_alloc() = ok #1
c1.2 lock_take(1) = ok
c2.1 lock_release(1) = refused NotOwner
c1.3 lock_take(1) = refused Held
c1.4 lock_free(1) = refused Held
client 1 done
client 2 done
calls 5 boots 1 replays 0

sim: 2
stop 5 5;
script refused at 1:8: NotAscending

sim: 2
client 65 { }
script refused at 1:8: BadClient

sim: 2
client 1 { lock_free(18446744073709551616); }
script refused at 1:22: Limit

sim: 2
client 1 { lock_take($1); }
script refused at 1:12: BadArgs

sim: 0
stop 1 2 3 4 5 6 7 8 9 10 11 12 13 14 15 16 17 18 19 20 21 22 23 24 25 26 27 28 29 30 31 32 33 34 35 36 37 38 39 40 41 42 43 44 45 46 47 48 49 50 51 52 53 54 55 56 57 58 59 60 61 62 63 64;
calls 0 boots 1 replays 0

sim: 2
stop 1 2 3 4 5 6 7 8 9 10 11 12 13 14 15 16 17 18 19 20 21 22 23 24 25 26 27 28 29 30 31 32 33 34 35 36 37 38 39 40 41 42 43 44 45 46 47 48 49 50 51 52 53 54 55 56 57 58 59 60 61 62 63 64 65;
script refused at 1:189: Limit

sim: 2
setup { lock_take(1); }
script refused at 1:9: Blocking

sim: 2
stop 3; stop 4;
script refused at 1:9: Twice
";

/// Events.
pub const EVENTS: &str = "\
run: 3
client 1 { evt_split(); evt_wait($1); }
c1.1 evt_split() = ok #1
client 1 blocked evt_wait(1)
calls 1 boots 1 replays 0

run: 3
setup { evt_split(); } client 1 { evt_wait(1); } client 3 { evt_wait(1); }
c1.1 evt_split() = ok #1
client 1 blocked evt_wait(1)
client 3 blocked evt_wait(1)
calls 1 boots 1 replays 0

sim: 3
setup { evt_split(); } client 1 { evt_trigger(1, 1); } client 2 { evt_wait(1); evt_wait(1); } schedule 1 2 2 2 2 2 1; stop 9;
c1.1 evt_split() = ok #1
c1.2 evt_trigger(1, 1) = ok
c2.1 evt_wait(1) = ok
client 1 done
client 2 blocked evt_wait(1)
calls 3 boots 2 replays 2

sim trace: 3
setup { evt_split(); } client 1 { evt_trigger(1, 1); } client 2 { evt_wait(1); evt_wait(1); } schedule 1 2 2 2 2 2 1; stop 9;
c1.1 evt_split() = ok #1
c1.2 evt_trigger(1, 1) = ok
c2.1 evt_wait(1) = ok
client 1 done
client 2 blocked evt_wait(1)
calls 3 boots 2 replays 2
..
points 21

sim: 0
client 1 { evt_split(); evt_trigger($1, 5); evt_wait($1); evt_wait($1); evt_wait($1); } stop 18;
c1.1 evt_split() = ok #1
c1.2 evt_trigger(1, 5) = ok
c1.3 evt_wait(1) = ok
c1.4 evt_wait(1) = ok
c1.5 evt_wait(1) = ok
client 1 done
calls 5 boots 2 replays 2

sim trace: 0
client 1 { evt_split(); evt_trigger($1, 5); evt_wait($1); evt_wait($1); evt_wait($1); } stop 18;
c1.1 evt_split() = ok #1
c1.2 evt_trigger(1, 5) = ok
c1.3 evt_wait(1) = ok
c1.4 evt_wait(1) = ok
c1.5 evt_wait(1) = ok
client 1 done
calls 5 boots 2 replays 2
..
boot 2
walk 1.1 for c1 by c1 evt_split() replied
walk 1.2 for c1 by c1 evt_trigger(1, 3) replied
call c1.5 evt_wait(1) replied
points 29

sim trace: 0
setup { evt_split(); } client 1 { evt_trigger(1, 1); } client 2 { evt_wait(1); } schedule 2 1 1; stop 7;
c1.1 evt_split() = ok #1
c1.2 evt_trigger(1, 1) = ok
c2.1 evt_wait(1) = ok
client 1 done
client 2 done
calls 3 boots 2 replays 1
boot 1
call c1.1 evt_split() replied
call c2.1 evt_wait(1) blocked
stop 7
boot 2
walk 1.1 for c2 by c1 evt_split() replied
call c1.2 evt_trigger(1, 1) replied
call c2.1 evt_wait(1) replied
points 19

sim: 0
client 1 { evt_split(); evt_trigger($1, 4294967295); evt_trigger($1, 1); }
c1.1 evt_split() = ok #1
c1.2 evt_trigger(1, 4294967295) = ok
c1.3 evt_trigger(1, 1) = refused Overflow
client 1 done
calls 3 boots 1 replays 0
";

/// Pages.
pub const PAGES: &str = "\
sim: 0
client 1 { mman_get_page(4096); } client 2 { mman_alias_page(1, 2, 8192); mman_release_page($1); } schedule 1 1 2 2; stop 12;
c1.1 mman_get_page(4096) = ok #1
c2.1 mman_alias_page(1, 2, 8192) = ok #2
c2.2 mman_release_page(2) = ok
client 1 done
client 2 done
calls 3 boots 2 replays 2

sim trace: 0
client 1 { mman_get_page(4096); } client 2 { mman_alias_page(1, 2, 8192); mman_release_page($1); } schedule 1 1 2 2; stop 12;
c1.1 mman_get_page(4096) = ok #1
c2.1 mman_alias_page(1, 2, 8192) = ok #2
c2.2 mman_release_page(2) = ok
client 1 done
client 2 done
calls 3 boots 2 replays 2
..
boot 2
walk 1.1 for c2 by c1 mman_get_page(4096) replied
walk 2.1 for c2 by c2 mman_alias_page(1, 2, 8192) replied
call c2.2 mman_release_page(2) replied
points 26

sim: 0
client 1 { mman_get_page(4096); mman_get_page(4096); } stop 6;
c1.1 mman_get_page(4096) = ok #1
c1.2 mman_get_page(4096) = refused Occupied
client 1 done
calls 2 boots 2 replays 1

sim trace: 0
client 1 { mman_get_page(4096); mman_get_page(4096); } stop 6;
c1.1 mman_get_page(4096) = ok #1
c1.2 mman_get_page(4096) = refused Occupied
client 1 done
calls 2 boots 2 replays 1
..
points 13

sim: 0
client 1 { mman_get_page(4096); mman_alias_page($1, 1, 8192); mman_alias_page($1, 1, 12288); mman_release_page($1); mman_release_page($2); mman_release_page($3); } client 2 { mman_find(1, 8192); } schedule 1 1 1 1 1 1 2 2 2 2 1 1; stop 18;
c1.1 mman_get_page(4096) = ok #1
c1.2 mman_alias_page(1, 1, 8192) = ok #2
c1.3 mman_alias_page(1, 1, 12288) = ok #3
c1.4 mman_release_page(1) = ok
c2.1 mman_find(1, 8192) = refused NotFound
c1.5 mman_release_page(2) = refused NoDesc
c1.6 mman_release_page(3) = refused NoDesc
client 1 done
client 2 done
calls 7 boots 2 replays 2

sim trace: 0
client 1 { mman_get_page(4096); mman_alias_page($1, 1, 8192); mman_alias_page($1, 1, 12288); mman_release_page($1); mman_release_page($2); mman_release_page($3); } client 2 { mman_find(1, 8192); } schedule 1 1 1 1 1 1 2 2 2 2 1 1; stop 18;
c1.1 mman_get_page(4096) = ok #1
c1.2 mman_alias_page(1, 1, 8192) = ok #2
c1.3 mman_alias_page(1, 1, 12288) = ok #3
c1.4 mman_release_page(1) = ok
c2.1 mman_find(1, 8192) = refused NotFound
c1.5 mman_release_page(2) = refused NoDesc
c1.6 mman_release_page(3) = refused NoDesc
client 1 done
client 2 done
calls 7 boots 2 replays 2
..
points 35

sim: 0
client 1 { mman_alias_page(0, 1, 4096); mman_find(1, 0); }
c1.1 mman_alias_page(0, 1, 4096) = refused NoParent
c1.2 mman_find(1, 0) = refused NotFound
client 1 done
calls 2 boots 1 replays 0
";

/// Files.
pub const FILES: &str = "\
sim trace: 0
client 1 { tsplit(0, \"a\"); twrite($1, \"hello\"); tseek($1, 9); twrite($1, \"x\"); } client 2 { tsplit(0, \"a\"); tread($1, 16); } schedule 1 1 1 2 2 2 2 2 2; stop 10;
c1.1 tsplit(0, \"a\") = ok #1
c1.2 twrite(1, \"hello\") = ok 5
c2.1 tsplit(0, \"a\") = ok #2
c2.2 tread(2, 16) = ok 5 \"hello\"
c1.3 tseek(1, 9) = ok
c1.4 twrite(1, \"x\") = refused Gap
client 1 done
client 2 done
calls 6 boots 2 replays 2
boot 1
call c1.1 tsplit(0, \"a\") replied
call c1.2 twrite(1, \"hello\") replied
stop 10
boot 2
call c2.1 tsplit(0, \"a\") replied
load /a for c2
call c2.2 tread(2, 16) replied
walk 1.1 for c1 by c1 tsplit(0, \"a\") replied
walk 1.2 for c1 by c1 tseek(1, 5) replied
call c1.3 tseek(1, 9) replied
call c1.4 twrite(1, \"x\") replied
points 33

sim: 0
client 1 { tsplit(0, \"a\"); tseek($1, 4); tread($1, 8); } client 2 { tread(1, 8); tsplit(0, \"b\"); } schedule 1 1 2 1 2 1; stop 9;
c1.1 tsplit(0, \"a\") = ok #1
c2.1 tread(1, 8) = refused NoDesc
c2.2 tsplit(0, \"b\") = ok #2
c1.2 tseek(1, 4) = ok
c1.3 tread(1, 8) = ok 0 \"\"
client 1 done
client 2 done
calls 5 boots 2 replays 1

sim trace: 0
client 1 { tsplit(0, \"a\"); tseek($1, 4); tread($1, 8); } client 2 { tread(1, 8); tsplit(0, \"b\"); } schedule 1 1 2 1 2 1; stop 9;
c1.1 tsplit(0, \"a\") = ok #1
c2.1 tread(1, 8) = refused NoDesc
c2.2 tsplit(0, \"b\") = ok #2
c1.2 tseek(1, 4) = ok
c1.3 tread(1, 8) = ok 0 \"\"
client 1 done
client 2 done
calls 5 boots 2 replays 1
..
points 25

sim: 0
client 1 { tsplit(0, \"\"); tsplit(0, \"a\"); tsplit($2, \"b\"); trelease($2); tsplit(9, \"c\"); tread($2, 257); tseek($2, 65537); }
c1.1 tsplit(0, \"\") = refused BadName
c1.2 tsplit(0, \"a\") = ok #1
c1.3 tsplit(1, \"b\") = ok #2
c1.4 trelease(1) = refused HasChildren
c1.5 tsplit(9, \"c\") = refused NoParent
c1.6 tread(1, 257) = refused TooBig
c1.7 tseek(1, 65537) = refused TooBig
client 1 done
calls 7 boots 1 replays 0
";

/// Threads.
pub const THREADS: &str = "\
sim: 0
client 1 { sched_create_thd(5); sched_create_thd(5); sched_create_thd(5); sched_exit($1); sched_yield($2); sched_next(); } stop 24;
c1.1 sched_create_thd(5) = ok #1 1
c1.2 sched_create_thd(5) = ok #2 2
c1.3 sched_create_thd(5) = ok #3 3
c1.4 sched_exit(1) = ok
c1.5 sched_yield(2) = ok 4
c1.6 sched_next() = ok #3
client 1 done
calls 6 boots 2 replays 4

sim trace: 0
client 1 { sched_create_thd(5); sched_create_thd(5); sched_create_thd(5); sched_exit($1); sched_yield($2); sched_next(); } stop 24;
c1.1 sched_create_thd(5) = ok #1 1
c1.2 sched_create_thd(5) = ok #2 2
c1.3 sched_create_thd(5) = ok #3 3
c1.4 sched_exit(1) = ok
c1.5 sched_yield(2) = ok 4
c1.6 sched_next() = ok #3
client 1 done
calls 6 boots 2 replays 4
..
points 41

sim: 0
client 1 { sched_next(); sched_create_thd(0); sched_place($2, 9); }
c1.1 sched_next() = refused NotFound
c1.2 sched_create_thd(0) = ok #1 1
c1.3 sched_place(1, 9) = refused BadState
client 1 done
calls 3 boots 1 replays 0

sim: 0
setup { sched_create_thd(3); } client 1 { sched_sleep(1); sched_wait(1); } client 2 { sched_wakeup(1); } schedule 1 1 1 2 2; stop 11;
c1.1 sched_create_thd(3) = ok #1 1
c1.2 sched_sleep(1) = ok
c2.1 sched_wakeup(1) = ok
c1.3 sched_wait(1) = ok
client 1 done
client 2 done
calls 4 boots 2 replays 3

sim trace: 0
setup { sched_create_thd(3); } client 1 { sched_sleep(1); sched_wait(1); } client 2 { sched_wakeup(1); } schedule 1 1 1 2 2; stop 11;
c1.1 sched_create_thd(3) = ok #1 1
c1.2 sched_sleep(1) = ok
c2.1 sched_wakeup(1) = ok
c1.3 sched_wait(1) = ok
client 1 done
client 2 done
calls 4 boots 2 replays 3
..
boot 2
walk 1.1 for c1 by c1 sched_create_thd(3) replied
walk 1.2 for c2 by c1 sched_place(1, 1) replied
walk 1.3 for c1 by c1 sched_sleep(1) replied
call c2.1 sched_wakeup(1) replied
call c1.3 sched_wait(1) replied
points 28
";

/// Runs of timers.
pub const TIMERS: &str = "\
sim: 0
client 1 { tmr_create(5, 7); tmr_tick($1, 22); tmr_wait($1); tmr_skip($1); tmr_first(); tmr_free($1); } stop 14;
c1.1 tmr_create(5, 7) = ok #1 5
c1.2 tmr_tick(1, 22) = ok
c1.3 tmr_wait(1) = ok 5
c1.4 tmr_skip(1) = ok 15
c1.5 tmr_first() = ok #1
c1.6 tmr_free(1) = ok
client 1 done
calls 6 boots 2 replays 3

sim trace: 0
client 1 { tmr_create(5, 7); tmr_tick($1, 22); tmr_wait($1); tmr_skip($1); tmr_first(); tmr_free($1); } stop 14;
..
calls 6 boots 2 replays 3
..
boot 2
walk 1.1 for c1 by c1 tmr_create(5, 7) replied
walk 1.2 for c1 by c1 tmr_tick(1, 22) replied
walk 1.3 for c1 by c1 tmr_place(1, 10) replied
..
points 36

sim: 3
setup { tmr_create(3, 1); } client 1 { tmr_create(4, 1); tmr_tick(1, 2); } client 2 { tmr_wait(1); }
c1.1 tmr_create(3, 1) = ok #1 3
c1.2 tmr_create(4, 1) = refused Occupied
c1.3 tmr_tick(1, 2) = ok
client 1 done
client 2 blocked tmr_wait(1)
calls 3 boots 1 replays 0

sim: 0
client 1 { tmr_first(); tmr_create(4294967296, 1); tmr_create(9, 1); tmr_create(2, 5); tmr_create(1, 1); tmr_first(); tmr_tick($3, 8); tmr_first(); tmr_skip($4); tmr_tick($3, 4294967288); tmr_place($3, 1); tmr_free($3); tmr_first(); }
c1.1 tmr_first() = refused NotFound
c1.2 tmr_create(4294967296, 1) = refused TooBig
c1.3 tmr_create(9, 1) = ok #1 9
c1.4 tmr_create(2, 5) = ok #2 2
c1.5 tmr_create(1, 1) = refused Occupied
c1.6 tmr_first() = ok #2
c1.7 tmr_tick(1, 8) = ok
c1.8 tmr_first() = ok #1
c1.9 tmr_skip(2) = ok 0
c1.10 tmr_tick(1, 4294967288) = refused Overflow
c1.11 tmr_place(1, 1) = refused BadState
c1.12 tmr_free(1) = ok
c1.13 tmr_first() = ok #2
client 1 done
calls 13 boots 1 replays 0
";
