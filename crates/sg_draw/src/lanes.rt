// The clients' lanes, and who waits in them.
ghost use Rattle.std.specs.Prelude.{◌≡◌, ◌<◌, IfOk, IfSome, length};

use sg_facts::{ListOf, NoMemory};
use sg_report::End;
use std::alloc::Global;

/// The lane of a client.
#[derive(Debug, Clone, Copy, PartialEq, Eq)]
pub(crate) struct Lane {
    pub client: u8,
    /// The row from which the client waits, where it does.
    pub since: Option<usize>,
}

/// Lanes from left to right.
pub(crate) type LaneList = ListOf<Lane>;

/// A lane for each client that has an end, and nobody waits.
pub(crate) fn lanes_of(alloc: Global, ends: &[(u8, End)]) -> Result<LaneList, NoMemory>
    ensures { IfOk result (λ lanes. length lanes ≡ length ends.now) }
{
    let mut lanes = LaneList::new(alloc);
    for (client, _) in ends {
        lanes.push(Lane {
            client: *client,
            since: None,
        })?;
    }
    Ok(lanes)
}

/// The lane of a client, counted from 0 from the left.
pub(crate) fn lane_of(lanes: &[Lane], client: u8) -> Option<usize>
    ensures { IfSome result (λ at. at < length lanes.now) }
{
    lanes.iter().position(|lane| lane.client == client)
}

/// Notes from which row on the client of a lane waits now, and gives from which it waited before.
pub(crate) fn take_turn(lanes: &mut LaneList, at: usize, since: Option<usize>) -> Option<usize>
    ensures { length lanes.new ≡ length lanes.old }
{
    let lane = *lanes.get(at)?;
    lanes.set(
        at,
        Lane {
            client: lane.client,
            since,
        },
    );
    lane.since
}
