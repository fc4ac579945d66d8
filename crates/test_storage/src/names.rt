// Service ids in both directions.
ghost use Rattle.std.specs.Prelude.{◌≡◌, ℕ, Some, IsTrue};
ghost use Rattle.sg_name.specs.Names.{real_at, real_of};

use sg_name::{Named, Names};
use std::test::Fail;
use test_tables::facts::NoMemory;

// A change of the names.
#[derive(Clone, Copy, Debug)]
enum Step {
    Set(u64, Named),
    Drop(u64),
    Clear,
}

// The service id in a name.
fn real_in(named: Named) -> Option<u64>
    ensures { result ≡ real_of named }
{
    match named {
        Named::Unnamed => None,
        Named::Partial { real, done: _ } => Some(real),
        Named::Live { real } => Some(real),
    }
}

// Whether no id but this one has a service id.
fn is_free(names: &Names, id: u64, real: u64) -> bool
    ensures { IsTrue result → (other : ℕ) → real_at names.now.known other ≡ Some real → other ≡ id }
{
    match names.back(real) {
        Some(other) => other == id,
        None => true,
    }
}

// Whether no id but this one has the service id in a name.
fn may_set(names: &Names, id: u64, named: Named) -> bool
    ensures { IsTrue result → (other real : ℕ) → real_of named ≡ Some real → real_at names.now.known other ≡ Some real → other ≡ id }
{
    match real_in(named) {
        Some(real) => is_free(names, id, real),
        None => true,
    }
}

// Makes a change in both, where no other id has the service id.
fn take(names: &mut Names, list: &mut [Named], step: Step) -> Result<(), NoMemory> {
    names.reserve()?;
    match step {
        Step::Set(id, named) => {
            if may_set(names, id, named) {
                names.set(id, named);
                put(list, id, named);
            }
        }
        Step::Drop(id) => {
            names.drop_id(id);
            put(list, id, Named::Unnamed);
        }
        Step::Clear => {
            names.clear();
            list.fill(Named::Unnamed);
        }
    }
    Ok(())
}

// Sets what stands for an id in a list by ids.
fn put(list: &mut [Named], id: u64, named: Named) {
    let at = id as usize;
    if at < list.len() {
        list[at] = named;
    }
}

// The id that has a service id in a list by ids.
fn holder(list: &[Named], real: u64) -> Option<u64> {
    for (id, named) in list.iter().enumerate() {
        if real_in(*named) == Some(real) {
            return Some(id as u64);
        }
    }
    None
}

// Whether both say the same of each id in the list and of each service id below a limit.
fn agree(names: &Names, list: &[Named], reals: u64) -> bool {
    for (id, named) in list.iter().enumerate() {
        if names.get(id as u64) != *named {
            return false;
        }
    }
    for real in 0..reals {
        if names.back(real) != holder(list, real) {
            return false;
        }
    }
    true
}

#[test]
fn steps(rt: HostRuntime) -> Result<(), Fail> {
    let live = |real| Named::Live { real };
    let partial = |real, done| Named::Partial { real, done };
    let steps = [
        Step::Drop(1),
        Step::Set(1, partial(5, 0)),
        Step::Set(2, live(6)),
        Step::Set(1, partial(5, 1)),
        Step::Set(1, live(5)),
        Step::Set(4, live(5)),
        Step::Set(2, live(8)),
        Step::Set(3, live(6)),
        Step::Drop(1),
        Step::Set(4, live(5)),
        Step::Set(3, Named::Unnamed),
        Step::Set(2, partial(8, 255)),
        Step::Set(5, partial(0, 3)),
        Step::Drop(9),
        Step::Clear,
        Step::Set(2, live(5)),
        Step::Set(0, live(8)),
    ];
    let mut names = Names::new(rt.alloc());
    let mut list = [Named::Unnamed; 6];
    for step in steps {
        take(&mut names, &mut list, step)?;
        assert!(rt; agree(&names, &list, 10), "after {step:?}");
    }
    assert_eq!(rt; names.get(2), live(5));
    assert_eq!(rt; names.back(8), Some(0));
    Ok(())
}

// Each of a hundred ids has a name, then another service id, then none.
#[test]
fn hundred(rt: HostRuntime) -> Result<(), Fail> {
    let mut names = Names::new(rt.alloc());
    let mut list = [Named::Unnamed; 100];
    for id in 0..100 {
        take(
            &mut names,
            &mut list,
            Step::Set(id, Named::Live { real: id }),
        )?;
    }
    assert!(rt; agree(&names, &list, 200));
    for id in 0..100 {
        take(
            &mut names,
            &mut list,
            Step::Set(
                id,
                Named::Partial {
                    real: id + 100,
                    done: 1,
                },
            ),
        )?;
    }
    assert!(rt; agree(&names, &list, 200));
    assert_eq!(rt; names.back(199), Some(99));
    for id in 0..100 {
        take(&mut names, &mut list, Step::Drop(id))?;
    }
    assert!(rt; agree(&names, &list, 200));
    assert_eq!(rt; names.get(99), Named::Unnamed);
    Ok(())
}
