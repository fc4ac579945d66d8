// The shapes of all standard services.
ghost use Rattle.std.specs.Prelude.{◌≡◌, true, [], ◌∷◌, map};
ghost use Rattle.sg_input.specs.sg_facts.Facts.{facts_of};
ghost use Rattle.sg_load.specs.Services.sg_lock.LockFacts.{lock_facts};
ghost use Rattle.sg_load.specs.Services.sg_event.EventFacts.{event_facts};
ghost use Rattle.sg_load.specs.Services.sg_mm.MmFacts.{mm_facts};
ghost use Rattle.sg_load.specs.Services.sg_ramfs.RamfsFacts.{ramfs_facts};
ghost use Rattle.sg_load.specs.Services.sg_sched.SchedFacts.{sched_facts};
ghost use Rattle.sg_load.specs.Services.sg_timer.TimerFacts.{timer_facts};
ghost use Rattle.sg_input.specs.sg_check_statements.Shapes.{are_shapes};

use sg_input::Shape;
use sg_load::kind::{
    EventService, LockService, MmService, RamfsService, SchedService, TimerService,
};

/// The shapes of all standard services. A text may be checked against them.
pub fn standard_shapes() -> [Shape; 6]
    ensures facts { map facts_of result ≡ lock_facts ∷ event_facts ∷ mm_facts ∷ ramfs_facts ∷ sched_facts ∷ timer_facts ∷ [] }
    ensures shapes { are_shapes (map facts_of result) ≡ true }
{
    [
        LockService::shape(),
        EventService::shape(),
        MmService::shape(),
        RamfsService::shape(),
        SchedService::shape(),
        TimerService::shape(),
    ]
}
