//! Worked values of mixing and of contacts.

ghost use Rattle.std.specs.Prelude.{◌^◌};
ghost use Rattle.dem_num.specs.Numbers.{AtMost};
ghost use Rattle.dem_model.specs.Ranges.{IsFirst, IsLaw};
ghost use Rattle.dem_model.specs.Sound.{IsFrom};

use dem_force::*;
use dem_model::Material;
use dem_num::{Vec3, Wide3};

const ONE: i64 = 1 << 30;

const NONE: Vec3 = Vec3 { x: 0, y: 0, z: 0 };

const STILL: Wide3 = Wide3 { x: 0, y: 0, z: 0 };

/// A sphere of radius 1000 without spin, at its clump's position.
fn sphere(mass: u64, vx: i64) -> Side
    requires mass { IsFrom 1 (2 ^ 40) mass }
    requires speed { AtMost vx (2 ^ 40) }
    ensures { IsFirst result }
{
    Side {
        v: Vec3 { x: vx, y: 0, z: 0 },
        spin: NONE,
        lever: NONE,
        r: 1000,
        mass,
        wall: false,
    }
}

/// The law between two pieces of the same rough material.
fn rough() -> Law
    ensures { IsLaw result }
{
    let material = Material {
        kn: 16777216,
        kt: 16777216,
        bn: 0,
        bt: 0,
        mu: 32768,
        mr: 0,
    };
    mix(&material, &material)
}

#[test]
fn mixes_as_springs_in_a_row(rt: HostRuntime) {
    let law = rough();
    assert_eq!(rt; law.kn, 8388608);
    assert_eq!(rt; law.kt, 8388608);
    assert_eq!(rt; law.mu, 32768);
}

/// Two spheres that overlap by 1 are pushed apart by 33.
#[test]
fn pushes_two_spheres_apart(rt: HostRuntime) {
    let law = Law {
        kn: 100000,
        kt: 0,
        bn: 0,
        bt: 0,
        mu: 0,
        mr: 0,
    };
    let touch = Touch {
        n: Vec3 {
            x: -ONE,
            y: 0,
            z: 0,
        },
        delta: 1,
    };
    let push = contact(&law, &sphere(1, 0), &sphere(1, 0), touch, NONE);
    assert_eq!(rt; push.force, Wide3 { x: -33, y: 0, z: 0 });
    assert_eq!(rt; push.torque_a, STILL);
    assert_eq!(rt; push.h, NONE);
}

/// A sphere slides on a floor: friction bounds the force, and the displacement shrinks with it.
#[test]
fn slides_on_a_floor(rt: HostRuntime) {
    let floor = Touch {
        n: Vec3 { x: 0, y: 0, z: ONE },
        delta: 1,
    };
    let push = contact(&rough(), &sphere(64, 65536), &wall_side(), floor, NONE);
    assert_eq!(rt;
        push.force,
        Wide3 {
            x: -1984,
            y: 0,
            z: 3968
        }
    );
    assert_eq!(rt;
        push.torque_a,
        Wide3 {
            x: 0,
            y: 1984000,
            z: 0
        }
    );
    assert_eq!(rt; push.torque_b, STILL);
    assert_eq!(rt;
        push.h,
        Vec3 {
            x: 32768,
            y: 0,
            z: 0
        }
    );
}

/// The sphere sticks: the force is that of the displacement, which is kept whole.
#[test]
fn sticks_to_a_floor(rt: HostRuntime) {
    let floor = Touch {
        n: Vec3 { x: 0, y: 0, z: ONE },
        delta: 1,
    };
    let held = Vec3 {
        x: 32768,
        y: 0,
        z: 0,
    };
    let push = contact(&rough(), &sphere(64, -100), &wall_side(), floor, held);
    assert_eq!(rt;
        push.force,
        Wide3 {
            x: -1977,
            y: 0,
            z: 3968
        }
    );
    assert_eq!(rt;
        push.h,
        Vec3 {
            x: 32668,
            y: 0,
            z: 0
        }
    );
}
