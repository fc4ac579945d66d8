// A stop, a boot, and what an engine tells then.
ghost use Rattle.std.specs.Prelude.{◌≡◌, ◌≤◌, None, IsSome, OnOk};

use crate::ending::discard;
use sg_replay::Engine;
use std::alloc::Global;
use std::process::Abort;
use std::test::Fail;
use test_asking::call;
use test_tables::facts::{Call, NoMemory, Service, Tables};
use test_tables::{
    EventService, LockService, MmService, RamfsService, SchedService, TimerService, event_tables,
    lock_tables, mm_tables, ramfs_tables, sched_tables, timer_tables,
};

// Whether an engine is up in a boot, after so many points, with nothing of the first descriptor and the first client.
fn is_empty_in<S: Service>(engine: &Engine<S>, boot: u64, points: u64) -> bool {
    engine.is_up()
        && engine.boot_number() == boot
        && engine.trace().points == points
        && engine.row(1).is_none()
        && engine.receipt(1).is_none()
}

// Whether an engine has failed at a point.
fn failed_at<S: Service>(engine: &Engine<S>, point: u64) -> bool {
    !engine.is_up() && engine.service().is_none() && engine.trace().points == point
}

// Whether a call may be served at once: the guard lets it pass, and nothing is missing.
fn may_be_served<S: Service>(
    alloc: Global,
    engine: &mut Engine<S>,
    call: &Call,
) -> Result<bool, NoMemory>
    ensures { engine.new ≡ engine.old }
{
    let file = engine.file_needed(alloc, call)?;
    Ok(engine.guard(call).is_none() && engine.missing(call, &file).is_none())
}

// Takes the room for a call, and stops the service at the third point.
fn stop<S: Service>(alloc: Global, engine: &mut Engine<S>, call: &Call) -> Result<(), NoMemory>
    requires { IsSome engine.old.cell.running }
    ensures failed { OnOk result (engine.new.cell.running ≡ None) }
    ensures room { OnOk result (1 ≤ engine.new.cell.room) }
{
    let file = engine.file_needed(alloc, call)?;
    engine.reserve(alloc, call, &file)?;
    engine.strike(3);
    Ok(())
}

// An engine that was just made stops once and boots again. The first call makes a descriptor.
fn round<S: Service>(
    rt: &impl Abort,
    alloc: Global,
    engine: &mut Engine<S>,
    first: &Call,
) -> Result<(), Fail>
    requires { IsSome engine.old.cell.running }
{
    assert!(rt; is_empty_in(engine, 1, 0));
    assert!(rt; may_be_served(alloc, engine, first)?);
    stop(alloc, engine, first)?;
    assert!(rt; failed_at(engine, 3));
    engine.boot(alloc);
    engine.count(4);
    assert!(rt; is_empty_in(engine, 2, 4));
    assert!(rt; may_be_served(alloc, engine, first)?);
    Ok(())
}

// A round of a service under its tables.
fn stops_and_boots<S: Service>(
    rt: &impl Abort,
    alloc: Global,
    image: S::Image,
    tables: Tables,
) -> Result<(), Fail>
    requires { tables.iface.facts ≡ S.facts }
{
    let mut engine = Engine::<S>::new(alloc, image, tables, 2)?;
    let done = round(rt, alloc, &mut engine, &call(alloc, 1, 1, 0));
    discard(engine);
    done
}

#[test]
fn locks_stop_and_boot(rt: HostRuntime) -> Result<(), Fail> {
    let tables = lock_tables(rt.alloc())?;
    stops_and_boots::<LockService>(&rt, rt.alloc(), (), tables)
}

#[test]
fn events_stop_and_boot(rt: HostRuntime) -> Result<(), Fail> {
    let tables = event_tables(rt.alloc())?;
    stops_and_boots::<EventService>(&rt, rt.alloc(), (), tables)
}

#[test]
fn pages_stop_and_boot(rt: HostRuntime) -> Result<(), Fail> {
    let tables = mm_tables(rt.alloc())?;
    stops_and_boots::<MmService>(&rt, rt.alloc(), (), tables)
}

#[test]
fn files_stop_and_boot(rt: HostRuntime) -> Result<(), Fail> {
    let tables = ramfs_tables(rt.alloc())?;
    stops_and_boots::<RamfsService>(&rt, rt.alloc(), (), tables)
}

#[test]
fn threads_stop_and_boot(rt: HostRuntime) -> Result<(), Fail> {
    let tables = sched_tables(rt.alloc())?;
    stops_and_boots::<SchedService>(&rt, rt.alloc(), (), tables)
}

#[test]
fn timers_stop_and_boot(rt: HostRuntime) -> Result<(), Fail> {
    let tables = timer_tables(rt.alloc())?;
    stops_and_boots::<TimerService>(&rt, rt.alloc(), (), tables)
}
