// One page, and its place.
ghost use Rattle.std.specs.Prelude.{◌≡◌};

use sg_slots::Slot;

/// A page.
#[derive(Clone, Copy, Debug, PartialEq, Eq)]
pub struct Page {
    /// The number of the function that made it.
    pub made: u8,
    /// The client that made it.
    pub creator: u8,
    /// The id of the page that it was made from; 0 for a page of its own.
    pub parent: u64,
    /// The space that it is in.
    pub space: u64,
    /// Its address there.
    pub addr: u64,
}

/// A place for a page: an address in a space.
#[derive(Clone, Copy, Debug, PartialEq, Eq, PartialOrd, Ord)]
pub struct PageKey {
    pub space: u64,
    pub addr: u64,
}

impl Page {
    /// Its place.
    pub fn place(&self) -> PageKey
        ensures space { result.space ≡ self.now.space }
        ensures addr { result.addr ≡ self.now.addr }
    {
        PageKey {
            space: self.space,
            addr: self.addr,
        }
    }
}

impl Slot for Page {
    ghost use Rattle.sg_mm.specs.MmRow.{page_body};

    ghost body = { page_body };
}
