// Who says where a service stops, and the open gate.
use sg_base::{Point, PointList, Stops};
use sg_edge::{AtPoints, Gate, Never, OpenGate};
use std::process::Abort;
use std::test::Fail;

// Asks the points from 1 to 6 through the trait alone, and says at how many of the first of them it struck.
fn judge<T: Stops>(rt: &impl Abort, stops: &mut T, listed: &[u64]) {
    for point in 1u64..7 {
        let struck = stops.strikes(Point::Idle);
        assert!(rt; struck == listed.contains(&point), "at point {point}");
        assert!(rt; stops.asked() == point, "at point {point}");
    }
}

#[test]
fn strikes_at_its_points(rt: HostRuntime) -> Result<(), Fail> {
    let points = PointList::from_slice(rt.alloc(), &[2, 3, 5])?;
    judge(&rt, &mut AtPoints::new(points), &[2, 3, 5]);
    judge(&rt, &mut AtPoints::new(PointList::new(rt.alloc())), &[]);
    judge(&rt, &mut Never::new(), &[]);
    Ok(())
}

// Passes a gate through the trait alone.
fn pass<G: Gate>(gate: &G) {
    gate.before(1, 1);
    gate.after(1, 1);
}

#[test]
fn passes_the_open_gate(_: HostRuntime) {
    pass(&OpenGate);
}
