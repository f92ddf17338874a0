//! A list keeps what was pushed, in order.

use dem_model::List;
use std::test::Fail;

#[test]
fn keeps_what_was_pushed(rt: HostRuntime) -> Result<(), Fail> {
    let mut list = List::new(rt.alloc());
    list.push(3u32)?;
    list.push(5)?;
    assert_eq!(rt; list.len(), 2);
    assert_eq!(rt; list.as_slice(), [3, 5].as_slice());
    assert_eq!(rt; *list.get(1), 5);
    list.set(0, 7);
    assert_eq!(rt; list.as_slice(), [7, 5].as_slice());
    list.clear();
    assert_eq!(rt; list.len(), 0);
    Ok(())
}
