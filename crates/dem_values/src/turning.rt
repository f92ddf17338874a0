//! Worked values of each call.

use dem_num::{Quat, Vec3, Wide3};
use dem_turn::*;

const ONE: i64 = 1 << 30;

#[test]
#[tactic(auto, unfolding(dem_num::specs::Rotations::quat_norm2_of))]
fn matrix_of_no_turn(rt: HostRuntime) {
    let m = matrix(Quat {
        a: ONE,
        b: 0,
        c: 0,
        d: 0,
    });
    assert_eq!(rt; m.x, Vec3 { x: ONE, y: 0, z: 0 });
    assert_eq!(rt; m.y, Vec3 { x: 0, y: ONE, z: 0 });
    assert_eq!(rt; m.z, Vec3 { x: 0, y: 0, z: ONE });
}

/// A quarter turn about z takes x to y, and back again.
#[test]
#[tactic(auto, unfolding(dem_num::specs::Rotations::quat_norm2_of))]
fn turns_a_quarter(rt: HostRuntime) {
    let m = matrix(Quat {
        a: ONE,
        b: 0,
        c: 0,
        d: ONE,
    });
    assert_eq!(rt;
        turned(&m, Vec3 { x: 500, y: 0, z: 7 }),
        Vec3 { x: 0, y: 500, z: 7 }
    );
    assert_eq!(rt;
        turned_back(&m, Wide3 { x: 0, y: 500, z: 7 }),
        Wide3 { x: 500, y: 0, z: 7 }
    );
}

#[test]
fn limits_the_swing(rt: HostRuntime) {
    assert_eq!(rt;
        arm(Vec3 {
            x: -300,
            y: 400,
            z: 0
        }),
        501
    );
    assert_eq!(rt; arm(Vec3 { x: 0, y: 0, z: 0 }), 0);
    assert_eq!(rt; swing_limit(1000, 501), 8);
    assert_eq!(rt; swing_limit(1 << 28, 1 << 26), 33554444);
    assert_eq!(rt; swing_limit(1 << 28, 1048577), 524296);
}

#[test]
#[tactic(auto, unfolding(dem_num::specs::Rotations::quat_norm2_of))]
fn spins_about_z(rt: HostRuntime) {
    let q = Quat {
        a: ONE,
        b: 0,
        c: 0,
        d: 0,
    };
    let slow = Vec3 {
        x: 0,
        y: 0,
        z: 1000,
    };
    assert_eq!(rt;
        turn_step(q, slow),
        Quat {
            a: 1073741823,
            b: 0,
            c: 0,
            d: 499
        }
    );
    let fast = Vec3 {
        x: 0,
        y: 0,
        z: 268435456,
    };
    assert_eq!(rt;
        turn_step(q, fast),
        Quat {
            a: 1065450257,
            b: 0,
            c: 0,
            d: 133181282
        }
    );
    let rest = Vec3 { x: 0, y: 0, z: 0 };
    assert_eq!(rt; turn_step(q, rest), q);
}

#[test]
#[tactic(auto, unfolding(dem_num::specs::Rotations::quat_norm2_of))]
fn turns_a_spin_a_quarter(rt: HostRuntime) {
    let m = matrix(Quat {
        a: ONE,
        b: 0,
        c: 0,
        d: ONE,
    });
    assert_eq!(rt;
        turned_spin(
            &m,
            Vec3 {
                x: 1 << 28,
                y: 0,
                z: -7
            }
        ),
        Vec3 {
            x: 0,
            y: 1 << 28,
            z: -7
        }
    );
}
