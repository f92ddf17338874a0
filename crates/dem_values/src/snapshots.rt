//! A snapshot has room for the bodies that it was made for.

use dem_shape::Snapshot;
use std::test::Fail;

#[test]
fn snapshot_has_its_bodies(rt: HostRuntime) -> Result<(), Fail> {
    let snap = Snapshot::new(rt.alloc(), 2)?;
    assert_eq!(rt; snap.step, 0);
    assert_eq!(rt; snap.bodies.len(), 2);
    assert_eq!(rt; snap.bodies.get(1).q.a, 1 << 30);
    Ok(())
}
