//! The numbers of the functions of the lock service.

/// `lock_alloc`: makes a free lock.
pub const ALLOC: u8 = 1;

/// `lock_take`: makes the caller the owner of a lock.
pub const TAKE: u8 = 2;

/// `lock_release`: takes the owner off a lock.
pub const RELEASE: u8 = 3;

/// `lock_free`: ends a lock.
pub const FREE: u8 = 4;
