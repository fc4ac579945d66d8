// The shapes of the services that scripts are read for.
ghost use Rattle.std.specs.Prelude.{◌≡◌, [], ◌∷◌, true, map};
ghost use Rattle.sg_facts.specs.Facts.{facts_of};
ghost use Rattle.sg_check.specs.Shapes.{are_shapes};
ghost use Rattle.test_tables.specs.sg_lock.LockFacts.{lock_facts};
ghost use Rattle.test_tables.specs.sg_event.EventFacts.{event_facts};
ghost use Rattle.test_tables.specs.sg_ramfs.RamfsFacts.{ramfs_facts};

use sg_facts::Shape;
use test_tables::{EventService, LockService, RamfsService};

/// The shapes of locks, events and files. A text may be checked against them.
pub fn known_shapes() -> [Shape; 3]
    ensures facts { map facts_of result ≡ lock_facts ∷ event_facts ∷ ramfs_facts ∷ [] }
    ensures shapes { are_shapes (map facts_of result) ≡ true }
{
    [
        LockService::shape(),
        EventService::shape(),
        RamfsService::shape(),
    ]
}
