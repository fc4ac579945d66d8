// One timer.
ghost use Rattle.std.specs.Prelude.{◌≡◌, ◌-◌};

use sg_slots::{Queued, Slot, Standing};

/// A timer, with a clock of its own.
#[derive(Clone, Copy, Debug, PartialEq, Eq)]
pub struct Timer {
    /// The client that made it, and that alone may end it.
    pub owner: u8,
    /// How many ticks lie between two times at which it is due; 0 where it is due once.
    pub period: u32,
    /// Its tag, which no other live timer has.
    pub tag: u64,
    /// How many ticks its clock has had.
    pub time: u32,
    /// At which tick of its clock it is due.
    pub due: u64,
}

impl Timer {
    /// How many ticks are left until it is due; 0 once it is.
    pub fn left(&self) -> u64
        ensures { result ≡ self.now.due - self.now.time }
    {
        self.due.saturating_sub(u64::from(self.time))
    }
}

impl Slot for Timer {
    ghost use Rattle.sg_timer.specs.TimerRow.{timer_body};

    ghost body = { timer_body };
}

impl Queued for Timer {
    ghost use Rattle.sg_timer.specs.Inside.TimerOrders.{by_left, by_tag};

    ghost first_order = { by_left };

    ghost second_order = { by_tag };

    /// Timers stand by what is left of them, then by their tags.
    fn first_order(&self) -> Option<Standing> {
        Some(Standing {
            first: self.left(),
            second: self.tag,
        })
    }

    /// Timers stand by their tags.
    fn second_order(&self) -> Standing {
        Standing {
            first: self.tag,
            second: 0,
        }
    }
}
