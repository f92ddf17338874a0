//! Stored forms in the corner of the largest box.

use dem_model::MAX_VOXELS;
use dem_num::Vec3;
use dem_voxel::{VoxelPos, moved, pack, unpack};
use std::test::Fail;

/// A stored form in the fourth voxel on x and the last on z.
const CORNER: VoxelPos = VoxelPos {
    id: 1_152_920_405_095_219_203,
    ox: 5,
    oy: 0,
    oz: 65_535,
};

#[test]
fn packs_a_corner(rt: HostRuntime) -> Result<(), Fail> {
    assert_eq!(rt;
        pack(Vec3 {
            x: 196_613,
            y: 0,
            z: 68_719_476_735
        }),
        CORNER
    );
    assert_eq!(rt;
        unpack(CORNER),
        Vec3 {
            x: 196_613,
            y: 0,
            z: 68_719_476_735
        }
    );
    Ok(())
}

#[test]
fn moves_within_the_box(rt: HostRuntime) -> Result<(), Fail> {
    assert_eq!(rt;
        moved(
            CORNER,
            Vec3 { x: 0, y: 0, z: 1 },
            MAX_VOXELS,
            MAX_VOXELS,
            MAX_VOXELS
        ),
        None
    );
    let back = moved(
        CORNER,
        Vec3 { x: -6, y: 0, z: 0 },
        MAX_VOXELS,
        MAX_VOXELS,
        MAX_VOXELS,
    );
    let Some(back) = back else {
        panic!(rt; "it stays in the box")
    };
    assert_eq!(rt;
        unpack(back),
        Vec3 {
            x: 196_607,
            y: 0,
            z: 68_719_476_735
        }
    );
    Ok(())
}
