// One thread.
use sg_slots::{Queued, Slot, Standing};

/// A thread.
#[derive(Clone, Copy, Debug, PartialEq, Eq)]
pub struct Thread {
    /// The client that made it.
    pub creator: u8,
    /// Its priority; the least goes first.
    pub prio: u64,
    /// Its rank among threads of one priority; the least goes first.
    pub rank: u64,
    /// Whether it is ready; else it is asleep.
    pub ready: bool,
}

impl Slot for Thread {
    ghost use Rattle.sg_sched.specs.SchedRow.{thread_body};

    ghost body = { thread_body };
}

impl Queued for Thread {
    ghost use Rattle.sg_sched.specs.Inside.SchedOrders.{in_queue, by_rank};

    ghost first_order = { in_queue };

    ghost second_order = { by_rank };

    /// Ready threads stand in the queue, by priority, then by rank.
    fn first_order(&self) -> Option<Standing> {
        if !self.ready {
            return None;
        }
        Some(Standing {
            first: self.prio,
            second: self.rank,
        })
    }

    /// All threads stand by rank.
    fn second_order(&self) -> Standing {
        Standing {
            first: self.rank,
            second: self.prio,
        }
    }
}
