// What a described service keeps of one descriptor.
use sg_described::MOST_FIELDS;

/// What a described service keeps of one descriptor.
#[derive(Clone, Copy, Debug, PartialEq, Eq)]
pub struct DescribedEntry {
    /// The function that made it.
    pub made: u8,
    /// The client that made it.
    pub creator: u8,
    /// Its state, as the number of the function that names it.
    pub state: u8,
    /// Its fields. Those past the last of the service mean nothing.
    pub fields: [u64; MOST_FIELDS],
}
