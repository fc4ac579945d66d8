// The limits of every run that code speaks of.

/// The greatest number of functions of a service.
pub const MOST_FUNS: u8 = 32;

/// The first number after those of functions.
pub const END_OF_FUNS: u8 = MOST_FUNS + 1;

/// The greatest number of fields of a row.
pub const MOST_FIELDS: usize = 8;

/// The number of the first client, which makes the calls of a script's setup too.
pub const FIRST_CLIENT: u8 = 1;

/// The greatest number of a client.
pub const LAST_CLIENT: u8 = 64;

/// The greatest number of live rows.
pub const MOST_LIVE: usize = 1024;

/// The greatest number of bytes of a file's path.
pub const MOST_PATH: usize = 256;

/// The greatest number of bytes of a file.
pub const MOST_FILE: u64 = 65_536;

/// The greatest number of bytes that a call writes into a file.
pub const MOST_WRITTEN: usize = 256;
