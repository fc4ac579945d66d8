// Where an entry stands.

/// Where an entry stands in an order: by the first number, then by the second. Where two stand alike, the one of the less id
/// goes first.
#[derive(Clone, Copy, Debug, PartialEq, Eq)]
pub struct Standing {
    pub first: u64,
    pub second: u64,
}
