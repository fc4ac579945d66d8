// The tables of the standard interfaces, and their text.
use crate::answers::accepted;
use crate::shapes::standard_shapes;
use sg_input::{Read, Tables, compile, compiled};
use std::alloc::Global;
use std::process::Abort;
use std::test::Fail;
use test_interfaces::{EVENT, LOCK, MM, RAMFS, SCHED, TIMER};

// A creation, a state, the number of a set of fields, and the walk.
type Line = (u8, u8, u8, &'static [u8]);

// A standard text, the lines of its tables, and their text.
type Table = (&'static [u8], &'static [Line], &'static [u8]);

static LOCK_LINES: [Line; 2] = [(1, 1, 0, &[1]), (1, 2, 1, &[1, 2])];

static EVENT_LINES: [Line; 2] = [(1, 1, 0, &[1]), (1, 1, 1, &[1, 3])];

static MM_LINES: [Line; 6] = [
    (1, 1, 1, &[1]),
    (1, 1, 3, &[1]),
    (2, 2, 0, &[2]),
    (2, 2, 1, &[2]),
    (2, 2, 2, &[2]),
    (2, 2, 3, &[2]),
];

static RAMFS_LINES: [Line; 4] = [
    (1, 1, 0, &[1]),
    (1, 1, 1, &[1]),
    (1, 1, 2, &[1, 4]),
    (1, 1, 3, &[1, 4]),
];

static SCHED_LINES: [Line; 8] = [
    (1, 1, 0, &[1, 7]),
    (1, 1, 1, &[1, 7]),
    (1, 1, 2, &[1, 7]),
    (1, 1, 3, &[1, 7]),
    (1, 3, 0, &[1, 7, 3]),
    (1, 3, 1, &[1, 7, 3]),
    (1, 3, 2, &[1, 7, 3]),
    (1, 3, 3, &[1, 7, 3]),
];

// A timer has an owner always; its clock is advanced where it had ticks, and when it is due is set in any case.
static TIMER_LINES: [Line; 16] = [
    (1, 1, 1, &[1, 4]),
    (1, 1, 3, &[1, 4]),
    (1, 1, 5, &[1, 4]),
    (1, 1, 7, &[1, 4]),
    (1, 1, 9, &[1, 2, 4]),
    (1, 1, 11, &[1, 2, 4]),
    (1, 1, 13, &[1, 2, 4]),
    (1, 1, 15, &[1, 2, 4]),
    (1, 1, 17, &[1, 4]),
    (1, 1, 19, &[1, 4]),
    (1, 1, 21, &[1, 4]),
    (1, 1, 23, &[1, 4]),
    (1, 1, 25, &[1, 2, 4]),
    (1, 1, 27, &[1, 2, 4]),
    (1, 1, 29, &[1, 2, 4]),
    (1, 1, 31, &[1, 2, 4]),
];

static LOCK_TEXT: &[u8] = b"service lock
facts parent=none close=refuse global=true block=true desc_data=true resc_data=false
fun 1 lock_alloc creation -> lock_alloc
fun 2 lock_take desc block -> lock_take owner=caller
fun 3 lock_release desc wakeup -> lock_alloc owner=0
fun 4 lock_free desc terminal -> end
move lock_alloc lock_take
move lock_alloc lock_free
move lock_take lock_take
move lock_take lock_release
move lock_take lock_free
step lock_alloc lock_take
walk lock_alloc lock_alloc - : lock_alloc
walk lock_alloc lock_take owner : lock_alloc lock_take
";

static EVENT_TEXT: &[u8] = b"service event
facts parent=none close=refuse global=true block=true desc_data=true resc_data=false
fun 1 evt_split creation -> evt_split
fun 2 evt_wait desc block -> same count-1
fun 3 evt_trigger desc word wakeup -> same count+arg2
fun 4 evt_free desc terminal -> end
move evt_split evt_wait
move evt_split evt_trigger
move evt_split evt_free
step evt_split evt_trigger
walk evt_split evt_split - : evt_split
walk evt_split evt_split count : evt_split evt_trigger
";

static MM_TEXT: &[u8] = b"service mm
facts parent=cross close=subtree global=true block=false desc_data=true resc_data=false
fun 1 mman_get_page word creation all -> mman_get_page space=caller addr=arg1
fun 2 mman_alias_page parent word word creation all -> mman_alias_page space=arg2 addr=arg3
fun 3 mman_release_page desc terminal -> end
fun 4 mman_find word word query all -> none
move mman_get_page mman_release_page
move mman_alias_page mman_release_page
walk mman_get_page mman_get_page space : mman_get_page
walk mman_get_page mman_get_page space,addr : mman_get_page
walk mman_alias_page mman_alias_page - : mman_alias_page
walk mman_alias_page mman_alias_page space : mman_alias_page
walk mman_alias_page mman_alias_page addr : mman_alias_page
walk mman_alias_page mman_alias_page space,addr : mman_alias_page
";

static RAMFS_TEXT: &[u8] = b"service ramfs
facts parent=same close=refuse global=false block=false desc_data=true resc_data=true
fun 1 tsplit parent text creation -> tsplit name=arg2
fun 2 tread desc word data -> same offset+ret
fun 3 twrite desc text data -> same offset+ret
fun 4 tseek desc word -> same offset=arg2
fun 5 trelease desc terminal -> end
move tsplit tread
move tsplit twrite
move tsplit tseek
move tsplit trelease
step tsplit tseek
walk tsplit tsplit - : tsplit
walk tsplit tsplit name : tsplit
walk tsplit tsplit offset : tsplit tseek
walk tsplit tsplit name,offset : tsplit tseek
";

static SCHED_TEXT: &[u8] = b"service sched
facts parent=none close=refuse global=true block=true desc_data=true resc_data=false
fun 1 sched_create_thd word creation all -> sched_create_thd prio=arg1 rank=ret
fun 2 sched_yield desc all -> same rank=ret
fun 3 sched_sleep desc -> sched_sleep
fun 4 sched_wakeup desc wakeup -> sched_create_thd
fun 5 sched_wait desc block -> same
fun 6 sched_next query all -> none
fun 7 sched_place desc word -> same rank=arg2
fun 8 sched_exit desc terminal -> end
move sched_create_thd sched_yield
move sched_create_thd sched_sleep
move sched_create_thd sched_wait
move sched_create_thd sched_exit
move sched_sleep sched_wakeup
move sched_sleep sched_wait
move sched_sleep sched_exit
step sched_create_thd sched_sleep
step sched_create_thd sched_place
walk sched_create_thd sched_create_thd - : sched_create_thd sched_place
walk sched_create_thd sched_create_thd prio : sched_create_thd sched_place
walk sched_create_thd sched_create_thd rank : sched_create_thd sched_place
walk sched_create_thd sched_create_thd prio,rank : sched_create_thd sched_place
walk sched_create_thd sched_sleep - : sched_create_thd sched_place sched_sleep
walk sched_create_thd sched_sleep prio : sched_create_thd sched_place sched_sleep
walk sched_create_thd sched_sleep rank : sched_create_thd sched_place sched_sleep
walk sched_create_thd sched_sleep prio,rank : sched_create_thd sched_place sched_sleep
";

static TIMER_TEXT: &[u8] = b"service timer
facts parent=none close=refuse global=true block=true desc_data=true resc_data=false recover=demand
fun 1 tmr_create word word creation all -> tmr_create owner=caller period=arg1 tag=arg2 due=ret
fun 2 tmr_tick desc word wakeup -> same now+arg2
fun 3 tmr_wait desc block -> same due+ret
fun 4 tmr_place desc word -> same due=arg2
fun 5 tmr_first query all -> none
fun 6 tmr_skip desc -> same due+ret
fun 7 tmr_free desc terminal -> end
move tmr_create tmr_tick
move tmr_create tmr_wait
move tmr_create tmr_skip
move tmr_create tmr_free
step tmr_create tmr_tick
step tmr_create tmr_place
walk tmr_create tmr_create owner : tmr_create tmr_place
walk tmr_create tmr_create owner,period : tmr_create tmr_place
walk tmr_create tmr_create owner,tag : tmr_create tmr_place
walk tmr_create tmr_create owner,period,tag : tmr_create tmr_place
walk tmr_create tmr_create owner,now : tmr_create tmr_tick tmr_place
walk tmr_create tmr_create owner,period,now : tmr_create tmr_tick tmr_place
walk tmr_create tmr_create owner,tag,now : tmr_create tmr_tick tmr_place
walk tmr_create tmr_create owner,period,tag,now : tmr_create tmr_tick tmr_place
walk tmr_create tmr_create owner,due : tmr_create tmr_place
walk tmr_create tmr_create owner,period,due : tmr_create tmr_place
walk tmr_create tmr_create owner,tag,due : tmr_create tmr_place
walk tmr_create tmr_create owner,period,tag,due : tmr_create tmr_place
walk tmr_create tmr_create owner,now,due : tmr_create tmr_tick tmr_place
walk tmr_create tmr_create owner,period,now,due : tmr_create tmr_tick tmr_place
walk tmr_create tmr_create owner,tag,now,due : tmr_create tmr_tick tmr_place
walk tmr_create tmr_create owner,period,tag,now,due : tmr_create tmr_tick tmr_place
";

// Whether a line stands at a place of tables, from 0.
fn stands_at(tables: &Tables, at: usize, line: Line) -> bool {
    let (made, state, mask, walk) = line;
    match tables.lines().get(at) {
        Some(own) => {
            own.made == made
                && own.state == state
                && own.mask == mask
                && own.walk.as_slice() == walk
        }
        None => false,
    }
}

// Whether its walk is found.
fn is_found(tables: &Tables, line: Line) -> bool {
    let (made, state, mask, walk) = line;
    match tables.walk(made, state, mask) {
        Some(found) => found.as_slice() == walk,
        None => false,
    }
}

// The tables of a standard text.
fn tables_of(alloc: Global, text: &[u8]) -> Result<Tables, Fail> {
    let accepted = accepted(alloc, text, &standard_shapes())?;
    Ok(compile(alloc, &accepted)?)
}

// Tables have just these lines, and each is found.
fn have_lines(rt: &impl Abort, tables: &Tables, want: &'static [Line]) {
    assert_eq!(rt; tables.lines().len(), want.len());
    for (at, line) in want.iter().enumerate() {
        assert!(rt; stands_at(tables, at, *line));
        assert!(rt; is_found(tables, *line));
    }
    assert!(rt; tables.walk(0, 0, 0).is_none());
    assert!(rt; tables.walk(1, 2, 2).is_none());
    assert!(rt; tables.walk(255, 255, 255).is_none());
}

// The tables of a text have just these lines, and each is found.
fn has_lines(
    rt: &impl Abort,
    alloc: Global,
    text: &[u8],
    want: &'static [Line],
) -> Result<(), Fail> {
    let tables = tables_of(alloc, text)?;
    have_lines(rt, &tables, want);
    Ok(())
}

// Whether the tables of a text are printed so.
fn prints(alloc: Global, text: &[u8], want: &[u8]) -> Result<bool, Fail> {
    match compiled(alloc, text, &standard_shapes())? {
        Read::Ready(printed) => Ok(printed.as_slice() == want),
        Read::Refused(_) => Ok(false),
    }
}

#[test]
fn tables_of_the_standard_interfaces(rt: HostRuntime) -> Result<(), Fail> {
    let tables: [Table; 6] = [
        (LOCK, &LOCK_LINES, LOCK_TEXT),
        (EVENT, &EVENT_LINES, EVENT_TEXT),
        (MM, &MM_LINES, MM_TEXT),
        (RAMFS, &RAMFS_LINES, RAMFS_TEXT),
        (SCHED, &SCHED_LINES, SCHED_TEXT),
        (TIMER, &TIMER_LINES, TIMER_TEXT),
    ];
    for (text, lines, printed) in tables {
        has_lines(&rt, rt.alloc(), text, lines)?;
        assert!(rt; prints(rt.alloc(), text, printed)?);
    }
    Ok(())
}
