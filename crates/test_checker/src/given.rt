// Against which shapes a text is checked.
ghost use Rattle.std.specs.Prelude.{◌≡◌, true};
ghost use Rattle.sg_input.specs.sg_facts.Facts.{facts_of};
ghost use Rattle.sg_input.specs.sg_check_statements.Shapes.{is_shape};

use crate::answers::answer;
use sg_input::CheckKind::{UnknownFunction, UnknownService};
use sg_input::Shape;
use sg_load::kind::{EventService, LockService};
use std::test::Fail;
use test_interfaces::{EVENT, LOCK};

// The shape of events, under the name of locks.
fn events_as_locks() -> Shape
    ensures { is_shape (facts_of result) ≡ true }
{
    Shape {
        name: b"lock",
        ..EventService::shape()
    }
}

#[test]
fn the_first_shape_of_a_name_counts(rt: HostRuntime) -> Result<(), Fail> {
    let alloc = rt.alloc();
    let locks = LockService::shape();
    assert_eq!(rt; answer(alloc, LOCK, &[locks])?, None);
    let unknown = Some((UnknownService, 2, 15));
    assert_eq!(rt; answer(alloc, EVENT, &[locks])?, unknown);
    assert_eq!(rt; answer(alloc, LOCK, &[])?, unknown);
    assert_eq!(rt; answer(alloc, LOCK, &[locks, events_as_locks()])?, None);
    let other = Some((UnknownFunction, 21, 15));
    assert_eq!(rt; answer(alloc, LOCK, &[events_as_locks(), locks])?, other);
    Ok(())
}
