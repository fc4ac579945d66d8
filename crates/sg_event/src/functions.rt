//! The numbers of the functions of the event service.

/// `evt_split`: makes an event of count 0.
pub const SPLIT: u8 = 1;

/// `evt_wait`: takes one from the count of an event.
pub const WAIT: u8 = 2;

/// `evt_trigger`: adds to the count of an event.
pub const TRIGGER: u8 = 3;

/// `evt_free`: ends an event.
pub const FREE: u8 = 4;

/// `evt_take`: takes as many from the count of an event as it is given, or as there are.
pub const TAKE: u8 = 5;
