// The points of a run, and who says at which of them the service stops.
ghost use Rattle.std.specs.Prelude.{◌≡◌, ◌+◌, ◌≤◌, ℕ, List, [], false};
ghost use Rattle.sg_base.specs.Counts.{last_count};
ghost use Rattle.sg_base.specs.Stops.{asked_after, struck_after};

/// A point of a run at which a service may stop.
#[derive(Clone, Copy, Debug, PartialEq, Eq)]
pub enum Point {
    /// The start of a step that is about to use the running service.
    Idle,
    /// Before a part of an effect; the parts count from 1.
    Part(u8),
    /// After the service replied, a refusal too, and before storage; also after a replayed call.
    Effect,
    /// After the commit of a visible call.
    Stored,
}

/// Who says at which points the service stops. The points are numbered from 1 over the whole run, in the order in
/// which they are asked.
pub trait Stops: Drop {
    /// The number of points asked.
    ghost asked: { Self → ℕ };

    /// The numbers of the points at which it struck, in their order.
    ghost struck: { Self → List ℕ };

    /// Numbers that no call changes.
    ghost plan: { Self → List ℕ };

    /// What always holds of the number asked, the strikes and the plan.
    ghost test: { ℕ → List ℕ → List ℕ → Type 0 };

    /// Whether the service stops at this point, which is the next. Once as many points were asked as can be
    /// counted the answer is false, and nothing changes.
    fn strikes(&mut self, point: Point) -> bool
        ensures asked { asked self.new ≡ asked_after (asked self.old) 1 }
        ensures struck { struck self.new ≡ struck_after (struck self.old) (asked self.new) result }
        ensures last { last_count ≤ asked self.old → result ≡ false }
        ensures plan { plan self.new ≡ plan self.old }
        ensures test { test (asked self.old) (struck self.old) (plan self.old) → test (asked self.new) (struck self.new) (plan self.new) };

    /// The number of points asked.
    fn asked(&self) -> u64
        ensures { result ≡ asked self.now };

    /// Before any point is asked the test holds.
    ghost starts: { (numbers : List ℕ) → test 0 [] numbers };
}
