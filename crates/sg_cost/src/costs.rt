// What calls can cost after a stop.
use sg_facts::ListOf;

/// A live descriptor.
#[derive(Clone, Copy, Debug, PartialEq, Eq)]
pub struct RowCost {
    pub id: u64,
    /// The number of calls of its walk.
    pub walk: u64,
}

/// A function.
#[derive(Clone, Copy, Debug, PartialEq, Eq)]
pub struct FunCost {
    /// Its number, from 1.
    pub fun: u8,
    /// The greatest number of replayed calls that one of its calls can need in a boot.
    pub cost: u64,
}

/// A boot.
#[derive(Clone, Copy, Debug, PartialEq, Eq)]
pub struct BootCost {
    /// The number of replayed calls in it that were answered.
    pub walks: u64,
    /// The number of calls of the walks of all descriptors that were live when it began.
    pub bound: u64,
}

/// Live descriptors, ascending.
pub type RowCostList = ListOf<RowCost>;
/// Declared functions, ascending.
pub type FunCostList = ListOf<FunCost>;
/// Boots, in their order.
pub type BootCostList = ListOf<BootCost>;

/// What calls can cost after a stop, in replayed calls.
#[derive(Debug, Drop)]
pub struct Costs {
    pub rows: RowCostList,
    pub functions: FunCostList,
    /// The sum over the rows.
    pub all: u64,
    pub boots: BootCostList,
}
