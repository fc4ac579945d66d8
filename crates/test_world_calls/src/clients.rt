// Clients that leave.
use std::alloc::Global;
use std::process::Abort;
use std::test::Fail;
use test_world::tables::{
    EventService, LockService, MmService, RamfsService, SchedService, TimerService, event_tables,
    lock_tables, mm_tables, ramfs_tables, sched_tables, timer_tables,
};
use test_world::{Judge, Never, Phase, Run, Service, Stops, World, judged};

// Whether nothing was done in a world: the service is up in its first boot, and no point was asked.
fn is_quiet<S: Service, T: Stops>(world: &World<S, T>) -> bool {
    world.service().is_some()
        && world.history().is_empty()
        && world.trace().points == 0
        && world.withdrawn().is_empty()
        && world.refused() == 0
}

/// Two clients leave, one of them twice, of which the second time is nothing to mark.
#[derive(Drop)]
struct Leaving<'a, R> {
    rt: &'a R,
}

impl<R: Abort, S: Service, T: Stops> Judge<S, T> for Leaving<'_, R> {
    type Said = Result<(), Fail>;

    fn judge(&self, _alloc: Global, run: &mut Run<S, T>) -> Result<(), Fail> {
        let rt = self.rt;
        assert!(rt; is_quiet(run.world()));
        assert!(rt; run.phase(1) == Some(Phase::Idle) && !run.world().all_blocked());
        run.leave(1)?;
        run.leave(1)?;
        assert!(rt; run.phase(1) == Some(Phase::Left) && !run.world().all_blocked());
        run.leave(2)?;
        assert!(rt; run.world().all_blocked());
        assert!(rt;
            run.world()
                .marks()
                .iter()
                .map(|mark| mark.client)
                .eq([1, 2])
        );
        assert!(rt; is_quiet(run.world()));
        Ok(())
    }
}

#[test]
fn clients_leave(rt: HostRuntime) -> Result<(), Fail> {
    let alloc = rt.alloc();
    let leaving = Leaving { rt: &rt };
    judged::<LockService, _, _>(alloc, (), lock_tables(alloc)?, 2, Never::new(), &leaving)??;
    judged::<EventService, _, _>(alloc, (), event_tables(alloc)?, 2, Never::new(), &leaving)??;
    judged::<MmService, _, _>(alloc, (), mm_tables(alloc)?, 2, Never::new(), &leaving)??;
    judged::<RamfsService, _, _>(alloc, (), ramfs_tables(alloc)?, 2, Never::new(), &leaving)??;
    judged::<SchedService, _, _>(alloc, (), sched_tables(alloc)?, 2, Never::new(), &leaving)??;
    judged::<TimerService, _, _>(alloc, (), timer_tables(alloc)?, 2, Never::new(), &leaving)?
}
