//! A list settles into the added pairs, each once, and finds each at its place.

use dem_list::PairList;
use dem_model::Pair;
use std::test::Fail;

#[test]
fn settles_into_each_pair_once(rt: HostRuntime) -> Result<(), Fail> {
    let mut raw = PairList::empty(rt.alloc()).raw(7);
    raw.add(Pair { a: 0, b: 3 })?;
    raw.add(Pair { a: 0, b: 1 })?;
    raw.add(Pair { a: 0, b: 3 })?;
    let list = raw.settle();
    assert_eq!(rt; list.from(), 7);
    assert_eq!(rt; list.len(), 2);
    assert_eq!(rt; list.get(0), Pair { a: 0, b: 1 });
    assert_eq!(rt; list.get(1), Pair { a: 0, b: 3 });
    assert_eq!(rt; list.place(Pair { a: 0, b: 3 }), Some(1));
    assert_eq!(rt; list.place(Pair { a: 0, b: 2 }), None);
    Ok(())
}

#[test]
fn goes_round_as_a_buffer(rt: HostRuntime) -> Result<(), Fail> {
    let mut raw = PairList::empty(rt.alloc()).raw(1);
    raw.add(Pair { a: 2, b: 9 })?;
    raw.add(Pair { a: 1, b: 12 })?;
    let mut again = raw.settle().raw(4);
    again.add(Pair { a: 5, b: 6 })?;
    let list = again.settle();
    assert_eq!(rt; list.from(), 4);
    assert_eq!(rt; list.len(), 1);
    assert_eq!(rt; list.get(0), Pair { a: 5, b: 6 });
    Ok(())
}

#[test]
fn gathers_and_settles(rt: HostRuntime) -> Result<(), Fail> {
    let mut raw = PairList::empty(rt.alloc()).raw(3);
    raw.add(Pair { a: 2, b: 9 })?;
    raw.add(Pair { a: 0, b: 4 })?;
    raw.add(Pair { a: 2, b: 5 })?;
    raw.gather(rt.alloc(), 3)?;
    let list = raw.settle();
    assert_eq!(rt; list.len(), 3);
    assert_eq!(rt; list.get(0), Pair { a: 0, b: 4 });
    assert_eq!(rt; list.get(1), Pair { a: 2, b: 5 });
    assert_eq!(rt; list.get(2), Pair { a: 2, b: 9 });
    Ok(())
}
