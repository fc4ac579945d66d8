// The standard interfaces are those that the texts declare.
ghost use Rattle.std.specs.Prelude.{◌≡◌, true};
ghost use Rattle.sg_top.specs.sg_load.sg_check_statements.Shapes.{is_shape};
ghost use Rattle.sg_top.specs.sg_load.Services.{facts_by};

use sg_top::ServiceKind::{Events, Files, Locks, Pages, Threads, Timers};
use sg_top::{Interface, MOST_FUNS, ServiceKind, check, parse, standard};
use std::alloc::Global;
use std::process::Abort;
use std::test::Fail;
use test_interfaces::{EVENT, LOCK, MM, RAMFS, SCHED, TIMER};

// Whether two interfaces declare the same of a function.
fn agree_on(one: &Interface, other: &Interface, fun: u8) -> bool {
    one.declares(fun) == other.declares(fun)
        && (0..=MOST_FUNS).all(|state| {
            one.moves_on(state, fun) == other.moves_on(state, fun)
                && one.steps_on(state, fun) == other.steps_on(state, fun)
        })
}

// The standard interface of a service is the one that a text declares.
fn is_declared(
    rt: &impl Abort,
    alloc: Global,
    service: ServiceKind,
    text: &[u8],
) -> Result<(), Fail>
    requires { is_shape (facts_by service) ≡ true }
{
    let tree = parse(alloc, text)?;
    let declared = check(alloc, &tree, &[service.shape()])?;
    let made = standard(alloc, service)?;
    let (declared, made) = (declared.interface(), made.interface());
    assert!(rt; declared.shape.name == made.shape.name);
    for fun in 0..=MOST_FUNS {
        assert!(rt; agree_on(declared, made, fun), "{service:?} {fun}");
    }
    Ok(())
}

#[test]
fn standard_interfaces_are_declared(rt: HostRuntime) -> Result<(), Fail> {
    let alloc = rt.alloc();
    is_declared(&rt, alloc, Locks, LOCK)?;
    is_declared(&rt, alloc, Events, EVENT)?;
    is_declared(&rt, alloc, Pages, MM)?;
    is_declared(&rt, alloc, Files, RAMFS)?;
    is_declared(&rt, alloc, Threads, SCHED)?;
    is_declared(&rt, alloc, Timers, TIMER)
}
