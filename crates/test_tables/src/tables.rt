// The tables of the standard interfaces.
ghost use Rattle.std.specs.Prelude.{◌≡◌, true, IfOk};
ghost use Rattle.sg_facts.specs.Facts.{facts_of};
ghost use Rattle.sg_stub.specs.sg_check_statements.Shapes.{is_shape};
ghost use Rattle.sg_load.specs.Services.sg_lock.LockFacts.{lock_facts};
ghost use Rattle.sg_load.specs.Services.sg_event.EventFacts.{event_facts};
ghost use Rattle.sg_load.specs.Services.sg_mm.MmFacts.{mm_facts};
ghost use Rattle.sg_load.specs.Services.sg_ramfs.RamfsFacts.{ramfs_facts};
ghost use Rattle.sg_load.specs.Services.sg_sched.SchedFacts.{sched_facts};
ghost use Rattle.sg_load.specs.Services.sg_timer.TimerFacts.{timer_facts};

use sg_facts::{Shape, Tables};
use sg_load::kind::{
    EventService, LockService, MmService, RamfsService, SchedService, TimerService,
};
use sg_stub::{check, compile, parse};
use std::alloc::Global;
use std::test::Fail;
use test_interfaces::{EVENT, LOCK, MM, RAMFS, SCHED, TIMER};

/// The tables of locks.
pub fn lock_tables(alloc: Global) -> Result<Tables, Fail>
    ensures { IfOk result (λ tables. tables.iface.facts ≡ lock_facts) }
{
    tables_of(alloc, LOCK, LockService::shape())
}

/// The tables of events.
pub fn event_tables(alloc: Global) -> Result<Tables, Fail>
    ensures { IfOk result (λ tables. tables.iface.facts ≡ event_facts) }
{
    tables_of(alloc, EVENT, EventService::shape())
}

/// The tables of mappings.
pub fn mm_tables(alloc: Global) -> Result<Tables, Fail>
    ensures { IfOk result (λ tables. tables.iface.facts ≡ mm_facts) }
{
    tables_of(alloc, MM, MmService::shape())
}

/// The tables of files.
pub fn ramfs_tables(alloc: Global) -> Result<Tables, Fail>
    ensures { IfOk result (λ tables. tables.iface.facts ≡ ramfs_facts) }
{
    tables_of(alloc, RAMFS, RamfsService::shape())
}

/// The tables of threads.
pub fn sched_tables(alloc: Global) -> Result<Tables, Fail>
    ensures { IfOk result (λ tables. tables.iface.facts ≡ sched_facts) }
{
    tables_of(alloc, SCHED, SchedService::shape())
}

/// The tables of timers.
pub fn timer_tables(alloc: Global) -> Result<Tables, Fail>
    ensures { IfOk result (λ tables. tables.iface.facts ≡ timer_facts) }
{
    tables_of(alloc, TIMER, TimerService::shape())
}

// The tables of an interface text for a shape. A text that is refused fails, as want of memory does.
fn tables_of(alloc: Global, text: &[u8], shape: Shape) -> Result<Tables, Fail>
    requires { is_shape (facts_of shape) ≡ true }
    ensures { IfOk result (λ tables. tables.iface.facts ≡ facts_of shape) }
{
    let tree = parse(alloc, text)?;
    let accepted = check(alloc, &tree, &[shape])?;
    Ok(compile(alloc, &accepted)?)
}
