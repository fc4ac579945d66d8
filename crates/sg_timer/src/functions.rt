//! The numbers of the functions of the timer service.

/// `tmr_create`: makes a timer.
pub const CREATE: u8 = 1;

/// `tmr_tick`: advances the clock of a timer.
pub const TICK: u8 = 2;

/// `tmr_wait`: waits until a timer is due.
pub const WAIT: u8 = 3;

/// `tmr_place`: sets when a timer is due.
pub const PLACE: u8 = 4;

/// `tmr_first`: tells which timer has the least left.
pub const FIRST: u8 = 5;

/// `tmr_skip`: puts a timer off by as many whole periods as take it past its clock.
pub const SKIP: u8 = 6;

/// `tmr_free`: ends a timer.
pub const FREE: u8 = 7;
