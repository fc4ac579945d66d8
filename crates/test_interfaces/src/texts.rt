// The interfaces of the standard services.
use std::alloc::{AllocError, Global};

/// A standard interface as a text of version 2, in canonical form, under which descriptors are rebuilt as this word says: `demand`
/// or `eager`.
pub fn in_version_2(alloc: Global, text: &[u8], recover: &str) -> Result<Vec<u8>, AllocError> {
    let mut newer = Vec::new(alloc);
    for line in text.split(|byte| *byte == b'\n') {
        newer.extend_from_slice(line)?;
        if line == b"service_global_info = {".as_slice() {
            newer.extend_from_slice(b"\n    version = 2,")?;
        }
        if line.starts_with(b"    resc_has_data") {
            newer.extend_from_slice(b",\n    desc_recover = ")?;
            newer.extend_from_slice(recover.as_bytes())?;
        }
        newer.push(b'\n')?;
    }
    // what stands after the last line end is no line
    newer.pop();
    Ok(newer)
}

pub static LOCK: &[u8] = b"service_global_info = {\n\
\x20   service = lock,\n\
\x20   desc_has_parent = none,\n\
\x20   desc_close = refuse,\n\
\x20   desc_is_global = true,\n\
\x20   desc_block = true,\n\
\x20   desc_has_data = true,\n\
\x20   resc_has_data = false\n\
};\n\
sm_creation(lock_alloc);\n\
sm_terminal(lock_free);\n\
sm_block(lock_take);\n\
sm_wakeup(lock_release);\n\
sm_state(lock_release, lock_alloc);\n\
sm_transition(lock_alloc, lock_take);\n\
sm_transition(lock_alloc, lock_free);\n\
sm_transition(lock_take, lock_take);\n\
sm_transition(lock_take, lock_release);\n\
sm_transition(lock_take, lock_free);\n\
sm_recover(lock_alloc, lock_take);\n\
unsigned long lock_alloc(spdid_t spdid);\n\
int lock_take(spdid_t desc_data(owner), unsigned long desc(id));\n\
int lock_release(spdid_t spdid, unsigned long desc(id));\n\
desc_data_clear(lock_release, owner);\n\
int lock_free(spdid_t spdid, unsigned long desc(id));\n";

pub static EVENT: &[u8] = b"service_global_info = {\n\
\x20   service = event,\n\
\x20   desc_has_parent = none,\n\
\x20   desc_close = refuse,\n\
\x20   desc_is_global = true,\n\
\x20   desc_block = true,\n\
\x20   desc_has_data = true,\n\
\x20   resc_has_data = false\n\
};\n\
sm_creation(evt_split);\n\
sm_terminal(evt_free);\n\
sm_block(evt_wait);\n\
sm_wakeup(evt_trigger);\n\
sm_keep(evt_wait);\n\
sm_keep(evt_trigger);\n\
sm_transition(evt_split, evt_wait);\n\
sm_transition(evt_split, evt_trigger);\n\
sm_transition(evt_split, evt_free);\n\
sm_recover(evt_split, evt_trigger);\n\
unsigned long evt_split(spdid_t spdid);\n\
int evt_wait(spdid_t spdid, unsigned long desc(id));\n\
desc_data_sub(evt_wait, count);\n\
int evt_trigger(spdid_t spdid, unsigned long desc(id), unsigned long desc_data_add(count));\n\
int evt_free(spdid_t spdid, unsigned long desc(id));\n";

pub static MM: &[u8] = b"service_global_info = {\n\
\x20   service = mm,\n\
\x20   desc_has_parent = cross,\n\
\x20   desc_close = subtree,\n\
\x20   desc_is_global = true,\n\
\x20   desc_block = false,\n\
\x20   desc_has_data = true,\n\
\x20   resc_has_data = false\n\
};\n\
sm_creation(mman_get_page);\n\
sm_creation(mman_alias_page);\n\
sm_terminal(mman_release_page);\n\
sm_query(mman_find);\n\
sm_needs_all(mman_get_page);\n\
sm_needs_all(mman_alias_page);\n\
sm_needs_all(mman_find);\n\
sm_transition(mman_get_page, mman_release_page);\n\
sm_transition(mman_alias_page, mman_release_page);\n\
unsigned long mman_get_page(spdid_t desc_data(space), unsigned long desc_data(addr));\n\
unsigned long mman_alias_page(spdid_t spdid, unsigned long parent_desc(parent), unsigned long desc_data(space), unsigned long desc_data(addr));\n\
int mman_release_page(spdid_t spdid, unsigned long desc(id));\n\
unsigned long mman_find(spdid_t spdid, unsigned long space, unsigned long addr);\n";

pub static RAMFS: &[u8] = b"service_global_info = {\n\
\x20   service = ramfs,\n\
\x20   desc_has_parent = same,\n\
\x20   desc_close = refuse,\n\
\x20   desc_is_global = false,\n\
\x20   desc_block = false,\n\
\x20   desc_has_data = true,\n\
\x20   resc_has_data = true\n\
};\n\
sm_creation(tsplit);\n\
sm_terminal(trelease);\n\
sm_keep(tread);\n\
sm_keep(twrite);\n\
sm_keep(tseek);\n\
resc_data(tread);\n\
resc_data(twrite);\n\
sm_transition(tsplit, tread);\n\
sm_transition(tsplit, twrite);\n\
sm_transition(tsplit, tseek);\n\
sm_transition(tsplit, trelease);\n\
sm_recover(tsplit, tseek);\n\
unsigned long tsplit(spdid_t spdid, unsigned long parent_desc(parent), char *desc_data(name));\n\
desc_data_retval_add(long, offset) tread(spdid_t spdid, unsigned long desc(td), unsigned long n);\n\
desc_data_retval_add(long, offset) twrite(spdid_t spdid, unsigned long desc(td), char *bytes);\n\
int tseek(spdid_t spdid, unsigned long desc(td), unsigned long desc_data(offset));\n\
int trelease(spdid_t spdid, unsigned long desc(td));\n";

pub static SCHED: &[u8] = b"service_global_info = {\n\
\x20   service = sched,\n\
\x20   desc_has_parent = none,\n\
\x20   desc_close = refuse,\n\
\x20   desc_is_global = true,\n\
\x20   desc_block = true,\n\
\x20   desc_has_data = true,\n\
\x20   resc_has_data = false\n\
};\n\
sm_creation(sched_create_thd);\n\
sm_terminal(sched_exit);\n\
sm_block(sched_wait);\n\
sm_wakeup(sched_wakeup);\n\
sm_query(sched_next);\n\
sm_needs_all(sched_create_thd);\n\
sm_needs_all(sched_yield);\n\
sm_needs_all(sched_next);\n\
sm_keep(sched_yield);\n\
sm_keep(sched_wait);\n\
sm_keep(sched_place);\n\
sm_state(sched_wakeup, sched_create_thd);\n\
sm_transition(sched_create_thd, sched_yield);\n\
sm_transition(sched_create_thd, sched_sleep);\n\
sm_transition(sched_create_thd, sched_wait);\n\
sm_transition(sched_create_thd, sched_exit);\n\
sm_transition(sched_sleep, sched_wait);\n\
sm_transition(sched_sleep, sched_wakeup);\n\
sm_transition(sched_sleep, sched_exit);\n\
sm_recover(sched_create_thd, sched_place);\n\
sm_recover(sched_create_thd, sched_sleep);\n\
desc_data_retval(long, rank) sched_create_thd(spdid_t spdid, unsigned long desc_data(prio));\n\
desc_data_retval(long, rank) sched_yield(spdid_t spdid, unsigned long desc(tid));\n\
int sched_sleep(spdid_t spdid, unsigned long desc(tid));\n\
int sched_wakeup(spdid_t spdid, unsigned long desc(tid));\n\
int sched_wait(spdid_t spdid, unsigned long desc(tid));\n\
int sched_next(spdid_t spdid);\n\
int sched_place(spdid_t spdid, unsigned long desc(tid), unsigned long desc_data(rank));\n\
int sched_exit(spdid_t spdid, unsigned long desc(tid));\n";

/// Events with `evt_take`, which only a text of version 2 can declare.
pub static EVENT2: &[u8] = b"service_global_info = {\n\
\x20   version = 2,\n\
\x20   service = event,\n\
\x20   desc_has_parent = none,\n\
\x20   desc_close = refuse,\n\
\x20   desc_is_global = true,\n\
\x20   desc_block = true,\n\
\x20   desc_has_data = true,\n\
\x20   resc_has_data = false,\n\
\x20   desc_recover = demand\n\
};\n\
sm_creation(evt_split);\n\
sm_terminal(evt_free);\n\
sm_block(evt_wait);\n\
sm_wakeup(evt_trigger);\n\
sm_keep(evt_wait);\n\
sm_keep(evt_trigger);\n\
sm_transition(evt_split, evt_wait);\n\
sm_transition(evt_split, evt_trigger);\n\
sm_transition(evt_split, evt_free);\n\
sm_recover(evt_split, evt_trigger);\n\
unsigned long evt_split(spdid_t spdid);\n\
int evt_wait(spdid_t spdid, unsigned long desc(id));\n\
desc_data_sub(evt_wait, count);\n\
int evt_trigger(spdid_t spdid, unsigned long desc(id), unsigned long desc_data_add(count));\n\
int evt_free(spdid_t spdid, unsigned long desc(id));\n\
sm_keep(evt_take);\n\
sm_transition(evt_split, evt_take);\n\
desc_data_retval_sub(long, count) evt_take(spdid_t spdid, unsigned long desc(id), unsigned long n);\n";

/// Timers, which have five fields; their text is one of version 2.
pub static TIMER: &[u8] = b"service_global_info = {\n\
\x20   version = 2,\n\
\x20   service = timer,\n\
\x20   desc_has_parent = none,\n\
\x20   desc_close = refuse,\n\
\x20   desc_is_global = true,\n\
\x20   desc_block = true,\n\
\x20   desc_has_data = true,\n\
\x20   resc_has_data = false,\n\
\x20   desc_recover = demand\n\
};\n\
sm_creation(tmr_create);\n\
sm_terminal(tmr_free);\n\
sm_block(tmr_wait);\n\
sm_wakeup(tmr_tick);\n\
sm_query(tmr_first);\n\
sm_needs_all(tmr_create);\n\
sm_needs_all(tmr_first);\n\
sm_keep(tmr_tick);\n\
sm_keep(tmr_wait);\n\
sm_keep(tmr_place);\n\
sm_keep(tmr_skip);\n\
sm_transition(tmr_create, tmr_tick);\n\
sm_transition(tmr_create, tmr_wait);\n\
sm_transition(tmr_create, tmr_skip);\n\
sm_transition(tmr_create, tmr_free);\n\
sm_recover(tmr_create, tmr_tick);\n\
sm_recover(tmr_create, tmr_place);\n\
desc_data_retval(long, due) tmr_create(spdid_t desc_data(owner), unsigned long desc_data(period), unsigned long desc_data(tag));\n\
int tmr_tick(spdid_t spdid, unsigned long desc(id), unsigned long desc_data_add(now));\n\
desc_data_retval_add(long, due) tmr_wait(spdid_t spdid, unsigned long desc(id));\n\
int tmr_place(spdid_t spdid, unsigned long desc(id), unsigned long desc_data(due));\n\
int tmr_first(spdid_t spdid);\n\
desc_data_retval_add(long, due) tmr_skip(spdid_t spdid, unsigned long desc(id));\n\
int tmr_free(spdid_t spdid, unsigned long desc(id));\n";
