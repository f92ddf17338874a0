//! A made scene, against values that another program computed by SplitMix64.

use dem_gen::made_scene;
use dem_num::Vec3;
use std::test::Fail;

#[test]
fn makes_the_scene_of_a_seed(rt: HostRuntime) -> Result<(), Fail> {
    let scene = made_scene(rt.alloc(), 7, 300).expect(&rt, "a scene");
    assert_eq!(rt; scene.nx, 288);
    assert_eq!(rt; scene.nz, 288);
    assert_eq!(rt; scene.steps, 100);
    assert_eq!(rt; scene.templates.len(), 4);
    let template = scene.templates.get(1);
    assert_eq!(rt; template.balls.len(), 1);
    assert_eq!(rt; template.balls.get(0).r, 1_026_140);
    assert_eq!(rt; scene.clumps.len(), 300);
    let clump = scene.clumps.get(299);
    assert_eq!(rt; clump.t, 0);
    assert_eq!(rt;
        clump.body.p,
        Vec3 {
            x: 13_640_337,
            y: 3_148_558,
            z: 15_733_639
        }
    );
    assert_eq!(rt;
        clump.body.v,
        Vec3 {
            x: 4_399_904,
            y: -4_679_799,
            z: -1_730_185
        }
    );
    Ok(())
}

#[test]
fn makes_the_largest_scene(rt: HostRuntime) -> Result<(), Fail> {
    let scene = made_scene(rt.alloc(), 18_446_744_073_709_551_615, 16_384).expect(&rt, "a scene");
    assert_eq!(rt; scene.ny, 896);
    assert_eq!(rt; scene.clumps.len(), 16_384);
    let clump = scene.clumps.get(16_383);
    assert_eq!(rt; clump.t, 0);
    assert_eq!(rt;
        clump.body.p,
        Vec3 {
            x: 9_447_198,
            y: 15_744_816,
            z: 53_483_053
        }
    );
    assert_eq!(rt;
        clump.body.v,
        Vec3 {
            x: 1_768_331,
            y: 5_772_476,
            z: 898_086
        }
    );
    Ok(())
}
