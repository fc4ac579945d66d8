// What stands in a queue.
ghost use Rattle.std.specs.Prelude.{◌≡◌};
ghost use Rattle.std.specs.declared.option.Option.{Option as Maybe};
ghost use Rattle.sg_slots.specs.declared.standing.Standing.{Standing as IsStanding};

use crate::{Slot, Standing};

/// An entry that stands in two orders.
pub trait Queued: Slot + Copy {
    /// Where it stands in the first order; None where it isn't in it.
    ghost first_order: { Self → Maybe IsStanding };

    /// Where it stands in the second order, in which each entry is.
    ghost second_order: { Self → IsStanding };

    /// Where it stands in the first order; None where it isn't in it.
    fn first_order(&self) -> Option<Standing>
        ensures { result ≡ first_order self.now };

    /// Where it stands in the second order.
    fn second_order(&self) -> Standing
        ensures { result ≡ second_order self.now };
}
