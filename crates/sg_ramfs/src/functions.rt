//! The numbers of the functions of the file service.

/// `tsplit`: makes a descriptor.
pub const SPLIT: u8 = 1;

/// `tread`: reads from the file of a descriptor.
pub const READ: u8 = 2;

/// `twrite`: writes into the file of a descriptor.
pub const WRITE: u8 = 3;

/// `tseek`: sets the place of a descriptor.
pub const SEEK: u8 = 4;

/// `trelease`: ends a descriptor.
pub const RELEASE: u8 = 5;
