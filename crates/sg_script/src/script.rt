// A script for an interface.
use crate::args::ArgList;
use sg_facts::{ListOf, PointList, Text};

/// The greatest number of calls of a script.
pub const MOST_CALLS: u64 = 65_536;

/// What a call is given in place of a descriptor, a parent, a number or a text.
#[derive(Debug, Drop)]
pub enum Arg {
    /// A number.
    Number(u64),
    /// A text.
    Text(Text),
    /// `$k`: the descriptor that this client's k-th call was given, counted from 1; 0 where it was given none.
    Back(u32),
}

/// A call of a script.
#[derive(Debug, Drop)]
pub struct ScriptCall {
    /// The number of its function, from 1.
    pub fun: u8,
    pub args: ArgList,
}

/// Calls, in their order.
pub type CallList = ListOf<ScriptCall>;
/// Numbers of clients with their calls, in ascending numbers.
pub type ClientList = ListOf<(u8, CallList)>;
/// Numbers of clients, turn by turn.
pub type TurnList = ListOf<u8>;

/// A script.
#[derive(Debug, Drop)]
pub struct Script {
    /// The first calls of client 1, which come before all others.
    pub setup: CallList,
    /// The calls of each client that has a part, 1 to 64.
    pub clients: ClientList,
    /// Who takes the turns after the setup, each 1 to 64.
    pub schedule: TurnList,
    /// The points at which the service stops, at most 64, ascending from 1.
    pub stops: PointList,
}
