// A script for several interfaces, its members.
use crate::script::{ScriptCall, TurnList};
use sg_facts::{ListOf, PointList};

/// A call of a script for several interfaces.
#[derive(Debug, Drop)]
pub struct MultiCall {
    /// The number of the member that declares its function, from 1.
    pub member: u8,
    pub call: ScriptCall,
}

/// Calls, in their order.
pub type MultiCallList = ListOf<MultiCall>;
/// Numbers of clients with their calls, in ascending numbers.
pub type MultiClientList = ListOf<(u8, MultiCallList)>;
/// The stops of each member.
pub type StopsList = ListOf<PointList>;

/// A script for several interfaces.
#[derive(Debug, Drop)]
pub struct MultiScript {
    /// The first calls of client 1, which come before all others.
    pub setup: MultiCallList,
    /// The calls of each client that has a part, 1 to 64.
    pub clients: MultiClientList,
    /// Who takes the turns after the setup, each 1 to 64.
    pub schedule: TurnList,
    /// The points at which the service of each member stops, at most 64, ascending from 1.
    pub stops: StopsList,
}
