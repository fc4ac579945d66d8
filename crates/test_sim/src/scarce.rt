// Locks that have no memory for one of their calls.
use sg_facts::{Call, NoMemory, Outcome, Path, Service, Stops};
use sg_lock::LockService;
use std::alloc::Global;

/// Which of its calls gets no memory.
const SCARCE: u32 = 2;

/// Locks that have no memory for their second call.
#[derive(Debug, Drop)]
pub struct Scarce {
    locks: LockService,
    asked: u32,
}

impl Service for Scarce {
    ghost use Rattle.sg_lock.specs.Laws.LockAlikeLaw.{lock_answers_alike};
    ghost use Rattle.sg_lock.specs.Laws.LockBlockedLaw.{lock_blocked_stays};
    ghost use Rattle.sg_lock.specs.LockFacts.{lock_facts};
    ghost use Rattle.sg_lock.specs.LockRow.{lock_body};
    ghost use Rattle.sg_lock.specs.Laws.LockShapeLaw.{lock_counts_slowly, lock_shape_allows};
    ghost use Rattle.sg_lock.specs.LockSound.{IsLockSound};
    ghost use Rattle.sg_lock.specs.Laws.LockSoundLaw.{lock_answers_and_keeps};
    ghost use Rattle.sg_lock.specs.LockTable.{lock_parts, lock_table};
    ghost use Rattle.sg_lock.specs.Laws.LockWalkLaw.{lock_walk_goes_on};
    ghost use Rattle.sg_lock.specs.sg_slots.Slots.{object_of};

    type Image = ();

    ghost facts = { lock_facts };

    ghost object = { λ scarce. object_of lock_body scarce.locks.slots };

    ghost ask = { lock_table };

    ghost parts = { lock_parts };

    ghost sound = { IsLockSound };

    ghost answers_and_keeps = { lock_answers_and_keeps };

    ghost answers_alike = { lock_answers_alike };

    ghost walk_goes_on = { lock_walk_goes_on };

    ghost blocked_stays = { lock_blocked_stays };

    ghost shape_allows = { lock_shape_allows };

    ghost counts_slowly = { lock_counts_slowly };

    fn fresh(alloc: Global, _: ()) -> Self {
        Scarce {
            locks: LockService::fresh(alloc, ()),
            asked: 0,
        }
    }

    fn invoke<T: Stops>(&mut self, alloc: Global, stops: &mut T, call: &Call) -> Outcome {
        self.asked = self.asked.saturating_add(1);
        if self.asked == SCARCE {
            return Outcome::NoMemory;
        }
        self.locks.invoke(alloc, stops, call)
    }

    fn load(&mut self, alloc: Global, key: &Path, bytes: &[u8]) -> Result<(), NoMemory> {
        self.locks.load(alloc, key, bytes)
    }
}
