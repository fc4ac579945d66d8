// Steps of clients that have no call under way, and events that may not be made.
use std::alloc::Global;
use std::process::Abort;
use std::test::Fail;
use test_world::tables::{EventService, LockService, event_tables, lock_tables};
use test_world::{Asked, Did, Judge, Never, Phase, Run, Service, Stops, Unmade, judged};

/// The first client is idle, the second waits, and the third has left.
const RESTING: &str = "offer 1 lock_alloc 0
step 1 served
step 1 ok #1
offer 1 lock_take 1
step 1 served
step 1 ok
offer 2 lock_take 1
step 2 blocked
leave 3
";

// A client's step is skipped, and nothing that is seen of the world changes.
fn skips<S: Service, T: Stops>(
    rt: &impl Abort,
    alloc: Global,
    run: &mut Run<S, T>,
    client: u8,
    phase: Phase,
) -> Result<(), Fail> {
    let before = run.printed(alloc)?;
    let marks = run.world().marks().len();
    assert_eq!(rt; run.phase(client), Some(phase));
    assert_eq!(rt; run.step(alloc, client)?, Did::Skipped);
    assert_eq!(rt; run.phase(client), Some(phase));
    assert!(rt; run.printed(alloc)? == before);
    assert_eq!(rt; run.world().marks().len(), marks);
    Ok(())
}

/// Steps of clients that have no call under way are skipped.
#[derive(Drop)]
struct Resting<'a, R> {
    rt: &'a R,
}

impl<R: Abort, S: Service, T: Stops> Judge<S, T> for Resting<'_, R> {
    type Said = Result<(), Fail>;

    fn judge(&self, alloc: Global, run: &mut Run<S, T>) -> Result<(), Fail> {
        let rt = self.rt;
        run.make_all(alloc, RESTING)?;
        skips(rt, alloc, run, 1, Phase::Idle)?;
        skips(rt, alloc, run, 2, Phase::Blocked)?;
        skips(rt, alloc, run, 3, Phase::Left)?;
        assert_eq!(rt; run.leave(1), Ok(()));
        assert!(rt; run.world().all_blocked());
        Ok(())
    }
}

#[test]
fn a_step_without_a_call_changes_nothing(rt: HostRuntime) -> Result<(), Fail> {
    let alloc = rt.alloc();
    let resting = Resting { rt: &rt };
    judged::<LockService, _, _>(alloc, (), lock_tables(alloc)?, 3, Never::new(), &resting)?
}

/// Calls on events that no client may offer: of a function that there isn't, on a descriptor where none is taken, and with other
/// arguments.
const UNFIT: &str = r#"0 0
9 0
evt_split 1
evt_split 0 1
evt_trigger 1
evt_trigger 1 "1"
evt_trigger 1 1 1
"#;

/// Events that may not be made are refused.
#[derive(Drop)]
struct Unfit<'a, R> {
    rt: &'a R,
}

impl<R: Abort, S: Service, T: Stops> Judge<S, T> for Unfit<'_, R> {
    type Said = Result<(), Fail>;

    fn judge(&self, alloc: Global, run: &mut Run<S, T>) -> Result<(), Fail> {
        let rt = self.rt;
        unfit_are_refused(rt, alloc, run)?;
        let split = Asked::read("evt_split 0").ok_or("no call")?;
        for client in [0, 2] {
            assert_eq!(rt; run.offer(alloc, client, &split), Err(Unmade::NotAllowed));
            assert_eq!(rt; run.step(alloc, client), Err(Unmade::NotAllowed));
        }
        assert_eq!(rt; run.withdraw(1), Err(Unmade::NotAllowed));
        assert_eq!(rt; run.offer(alloc, 1, &split), Ok(()));
        assert_eq!(rt; run.offer(alloc, 1, &split), Err(Unmade::NotAllowed));
        assert_eq!(rt; run.leave(1), Err(Unmade::NotAllowed));
        Ok(())
    }
}

// No client may offer the unfit calls.
fn unfit_are_refused<S: Service, T: Stops>(
    rt: &impl Abort,
    alloc: Global,
    run: &mut Run<S, T>,
) -> Result<(), Fail> {
    for line in UNFIT.lines() {
        let asked = Asked::read(line).ok_or("no call")?;
        let offered = run.offer(alloc, 1, &asked);
        assert_eq!(rt; offered, Err(Unmade::NotAllowed), "{line}");
    }
    Ok(())
}

#[test]
fn unfit_calls_are_not_offered(rt: HostRuntime) -> Result<(), Fail> {
    let alloc = rt.alloc();
    let unfit = Unfit { rt: &rt };
    judged::<EventService, _, _>(alloc, (), event_tables(alloc)?, 1, Never::new(), &unfit)?
}
