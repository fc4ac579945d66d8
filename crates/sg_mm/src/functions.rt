//! The numbers of the functions of the memory-mapping service.

/// `mman_get_page`: makes a page of the caller's space at an address.
pub const GET: u8 = 1;

/// `mman_alias_page`: makes a page below another, in a space at an address.
pub const ALIAS: u8 = 2;

/// `mman_release_page`: ends a page with all below it.
pub const RELEASE: u8 = 3;

/// `mman_find`: tells which page is at an address of a space.
pub const FIND: u8 = 4;
