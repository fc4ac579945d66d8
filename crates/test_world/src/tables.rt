//! The tables of the standard interfaces and their services, passed on.
pub use test_tables::{
    EVENT, EventService, LOCK, LockService, MM, MmService, RAMFS, RamfsService, SCHED,
    SchedService, TIMER, TimerService, event_tables, in_version_2, lock_tables, mm_tables,
    ramfs_tables, sched_tables, timer_tables,
};
