//! An entry is carried by pair from one list to the next, and the old list comes back.

use dem_hist::Contacts;
use dem_list::PairList;
use dem_model::{OutOfMemory, Pair};
use dem_num::Vec3;
use std::alloc::Global;
use std::test::Fail;

const SEVEN: Option<Vec3> = Some(Vec3 { x: 7, y: 0, z: 0 });

/// Takes the list of the pairs of sphere 0 with these three into use.
fn carry(
    contacts: &mut Contacts,
    alloc: Global,
    second: [u32; 3],
) -> Result<PairList, OutOfMemory> {
    let mut pairs = PairList::empty(alloc).raw(1);
    pairs.add(Pair { a: 0, b: second[0] })?;
    pairs.add(Pair { a: 0, b: second[1] })?;
    pairs.add(Pair { a: 0, b: second[2] })?;
    match contacts.carry(pairs.settle()) {
        Ok(old) => Ok(old),
        Err((_, fault)) => Err(fault),
    }
}

#[test]
fn carries_by_pair(rt: HostRuntime) -> Result<(), Fail> {
    let mut contacts = Contacts::new(rt.alloc());
    carry(&mut contacts, rt.alloc(), [1, 3, 3])?;
    assert_eq!(rt; contacts.list().len(), 2);
    contacts.set(0, SEVEN);
    let old = carry(&mut contacts, rt.alloc(), [1, 2, 3])?;
    assert_eq!(rt; old.len(), 2);
    assert_eq!(rt; contacts.list().len(), 3);
    assert_eq!(rt; contacts.held(0), SEVEN);
    assert_eq!(rt; contacts.held(1), None);
    assert_eq!(rt; contacts.held(2), None);
    carry(&mut contacts, rt.alloc(), [2, 2, 2])?;
    assert_eq!(rt; contacts.list().len(), 1);
    assert_eq!(rt; contacts.held(0), None);
    Ok(())
}

#[test]
fn exchanges_its_entries(rt: HostRuntime) -> Result<(), Fail> {
    let mut contacts = Contacts::new(rt.alloc());
    carry(&mut contacts, rt.alloc(), [5, 5, 5])?;
    assert_eq!(rt; contacts.list().len(), 1);
    let mut entries = vec![in rt.alloc(); SEVEN; 2]?;
    contacts.exchange(&mut entries);
    assert_eq!(rt; contacts.held(0), SEVEN);
    assert_eq!(rt; entries.as_slice(), [None].as_slice());
    Ok(())
}
