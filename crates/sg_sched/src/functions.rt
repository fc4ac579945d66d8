//! The numbers of the functions of the thread service.

/// `sched_create_thd`: makes a thread.
pub const CREATE: u8 = 1;

/// `sched_yield`: puts a thread at the end of the queue.
pub const YIELD: u8 = 2;

/// `sched_sleep`: puts a thread to sleep.
pub const SLEEP: u8 = 3;

/// `sched_wakeup`: makes a thread ready again.
pub const WAKEUP: u8 = 4;

/// `sched_wait`: waits until a thread is ready.
pub const WAIT: u8 = 5;

/// `sched_next`: tells which thread is next.
pub const NEXT: u8 = 6;

/// `sched_place`: sets the rank of a thread.
pub const PLACE: u8 = 7;

/// `sched_exit`: ends a thread.
pub const EXIT: u8 = 8;
