// The shape of each standard interface is its service's, by computing.
#![tactic(auto, unfolding(sg_shape::specs::ShapeOfText::shape_of_text))]

ghost use Rattle.std.specs.Prelude.{◌≡◌};
ghost use Rattle.sg_load.specs.Services.{facts_by};
ghost use Rattle.sg_load.specs.declared.kind.ServiceKind.TheVariants.{Locks, Events, Pages, Files, Threads, Timers};
ghost use Rattle.sg_shape.specs.ShapeOfText.{shape_of_text};
ghost use Rattle.test_own.specs.Standard.{event_tree, lock_tree, mm_tree, ramfs_tree, sched_tree, timer_tree};

/// The shape of the standard interface of locks is that of the service.
pub fn lock_shape()
    ensures { shape_of_text lock_tree ≡ facts_by Locks }
{}

/// The shape of the standard interface of events is that of the service.
pub fn event_shape()
    ensures { shape_of_text event_tree ≡ facts_by Events }
{}

/// The shape of the standard interface of pages is that of the service.
pub fn mm_shape()
    ensures { shape_of_text mm_tree ≡ facts_by Pages }
{}

/// The shape of the standard interface of files is that of the service.
pub fn ramfs_shape()
    ensures { shape_of_text ramfs_tree ≡ facts_by Files }
{}

/// The shape of the standard interface of threads is that of the service.
pub fn sched_shape()
    ensures { shape_of_text sched_tree ≡ facts_by Threads }
{}

/// The shape of the standard interface of timers is that of the service.
pub fn timer_shape()
    ensures { shape_of_text timer_tree ≡ facts_by Timers }
{}
