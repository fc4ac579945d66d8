// The shape that is read of each standard interface.
use sg_load::ServiceKind;
use sg_shape::{Service, Shape, parse, shape_of};
use std::alloc::Global;
use std::process::Abort;
use std::test::Fail;
use test_interfaces::{EVENT2, LOCK, MM, RAMFS, SCHED, TIMER};

// The shape of a text is printed as this one is.
fn same(rt: &impl Abort, alloc: Global, text: &[u8], shape: &Shape) -> Result<(), Fail> {
    let tree = parse(alloc, text)?;
    let own = shape_of(alloc, &tree)?;
    let read = format!(in alloc; "{own:?}")?;
    let known = format!(in alloc; "{shape:?}")?;
    assert_eq!(rt; read.as_str(), known.as_str());
    Ok(())
}

#[test]
fn shapes_are_the_services(rt: HostRuntime) -> Result<(), Fail> {
    let alloc = rt.alloc();
    let texts = [LOCK, EVENT2, MM, RAMFS, SCHED, TIMER];
    for (text, shape) in texts.iter().zip(ServiceKind::shapes().iter()) {
        same(&rt, alloc, text, shape)?;
    }
    Ok(())
}
