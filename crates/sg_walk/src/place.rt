// What a descriptor can come to.

/// A state of a descriptor, and the set of its fields that aren't 0 or empty: bit i for field i.
#[derive(Clone, Copy, Debug, PartialEq, Eq, Hash)]
pub struct Place {
    pub state: u8,
    pub mask: u8,
}

/// The function that made a descriptor, with a state and a set of fields that it can come to.
#[derive(Clone, Copy, Debug, PartialEq, Eq, PartialOrd, Ord)]
pub struct Triple {
    pub made: u8,
    pub state: u8,
    /// The set of its fields that aren't 0 or empty: bit i for field i.
    pub mask: u8,
}
