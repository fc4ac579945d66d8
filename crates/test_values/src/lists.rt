// Lists, and lists that take memory ahead.
use sg_base::{IdList, ListOf, ListRoom, NoMemory, RoomyList, SpareList};
use std::alloc::Global;
use std::process::Abort;
use std::test::Fail;

// Numbers are kept in a list that is empty, and one is changed.
fn keep_in_order(rt: &impl Abort, list: &mut IdList) -> Result<(), NoMemory> {
    assert!(rt; list.is_empty());
    assert_eq!(rt; list.pop(), None);
    list.push(7)?;
    list.extend_from_slice(&[8, 9, 10])?;
    assert_eq!(rt; list.len(), 4);
    assert_eq!(rt; list.get(2).copied(), Some(9));
    assert_eq!(rt; list.get(4).copied(), None);
    assert_eq!(rt; list.pop(), Some(10));
    assert!(rt; list.len() > 1);
    list.set(1, 12);
    Ok(())
}

// Whether a list is equal to one of these numbers that is made from a slice.
fn is_slice(alloc: Global, list: &IdList, numbers: &[u64]) -> Result<bool, NoMemory> {
    let other = IdList::from_slice(alloc, numbers)?;
    Ok(*list == other)
}

// Whether a list is equal to one of three numbers that is made from others.
fn is_vec(alloc: Global, list: &IdList) -> Result<bool, NoMemory> {
    let other = ListOf::from_vec(vec![in alloc; 7, 12, 9]?);
    Ok(*list == other)
}

// A list that is empty is filled and compared.
fn fill_and_compare(rt: &impl Abort, alloc: Global, list: &mut IdList) -> Result<(), NoMemory> {
    keep_in_order(rt, list)?;
    assert!(rt; is_slice(alloc, list, &[7, 12, 9])?);
    assert!(rt; is_vec(alloc, list)?);
    assert!(rt; !is_slice(alloc, list, &[7, 12, 8])?);
    Ok(())
}

#[test]
fn keeps_lists_in_order(rt: HostRuntime) -> Result<(), Fail> {
    let mut list = IdList::new(rt.alloc());
    Ok(fill_and_compare(&rt, rt.alloc(), &mut list)?)
}

// Numbers are added where there is room for them.
fn add_three(rt: &impl Abort, list: &mut RoomyList<u64>) -> Result<(), NoMemory> {
    assert!(rt; list.is_empty());
    list.reserve(2)?;
    list.add(7);
    list.add(8);
    assert_eq!(rt; list.len(), 2);
    assert_eq!(rt; list.get(1).copied(), Some(8));
    assert_eq!(rt; list.pop(), Some(8));
    list.add(9);
    assert_eq!(rt; list.as_slice(), [7, 9].as_slice());
    Ok(())
}

#[test]
fn keeps_lists_that_take_memory_ahead(rt: HostRuntime) -> Result<(), Fail> {
    let mut list = RoomyList::new(rt.alloc());
    Ok(add_three(&rt, &mut list)?)
}

#[test]
fn fills_the_room_of_a_list(rt: HostRuntime) -> Result<(), Fail> {
    let room = ListRoom::new(rt.alloc(), 3)?;
    let filled = room.fill(&[4u64, 5, 6]);
    assert_eq!(rt; filled.as_slice(), [4, 5, 6].as_slice());
    Ok(())
}

#[test]
fn keeps_room_from_one_list_to_the_next(rt: HostRuntime) -> Result<(), Fail> {
    let mut room = SpareList::<u64>::new(rt.alloc());
    room.reserve(rt.alloc(), 3)?;
    assert!(rt; room.fill(&[]).is_empty());
    assert_eq!(rt; room.fill(&[4, 5, 6]).as_slice(), [4, 5, 6].as_slice());
    room.reserve(rt.alloc(), 2)?;
    assert!(rt; room.take().is_empty());
    Ok(())
}
