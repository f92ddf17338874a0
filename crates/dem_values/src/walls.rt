//! Worked values of the unit normal and of both forms of wall.

use dem_model::{Axis, Form, Touch, Wall};
use dem_num::Vec3;
use dem_wall::*;

const ONE: i64 = 1 << 30;

#[test]
fn unit_of_a_diagonal(rt: HostRuntime) {
    assert_eq!(rt;
        unit(Vec3 { x: 1, y: 1, z: 0 }),
        Vec3 {
            x: 759250124,
            y: 759250124,
            z: 0
        }
    );
}

/// A sphere of radius 1000 whose center is 999 over a floor overlaps it by 1; at 1000 it doesn't touch.
#[test]
fn floor_is_touched_below_the_radius(rt: HostRuntime) {
    let floor = Wall {
        form: Form::Plane {
            at: Vec3 { x: 0, y: 0, z: 0 },
            dir: Vec3 { x: 0, y: 0, z: 1 },
        },
        mat: 0,
    };
    let up = Vec3 { x: 0, y: 0, z: ONE };
    let low = Vec3 {
        x: 20000,
        y: 20000,
        z: 999,
    };
    let high = Vec3 {
        x: 20000,
        y: 20000,
        z: 1000,
    };
    assert_eq!(rt;
        wall_touch(&floor, low, 1000),
        Some(Touch { n: up, delta: 1 })
    );
    assert_eq!(rt; wall_touch(&floor, high, 1000), None);
    assert_eq!(rt; wall_near(&floor, high, 1000, 0), false);
    assert_eq!(rt; wall_near(&floor, high, 1000, 1), true);
}

/// A sphere of radius 1000 in a pipe of radius 3000 is pushed toward the axis once it is more than 2000 from it.
#[test]
fn pipe_pushes_inward(rt: HostRuntime) {
    let pipe = Wall {
        form: Form::Cylinder {
            axis: Axis::Z,
            at: Vec3 {
                x: 5000,
                y: 5000,
                z: 0,
            },
            r: 3000,
        },
        mat: 0,
    };
    let left = Vec3 {
        x: -ONE,
        y: 0,
        z: 0,
    };
    let out = Vec3 {
        x: 7010,
        y: 5000,
        z: 400,
    };
    let edge = Vec3 {
        x: 7000,
        y: 5000,
        z: 400,
    };
    assert_eq!(rt;
        wall_touch(&pipe, out, 1000),
        Some(Touch { n: left, delta: 10 })
    );
    assert_eq!(rt; wall_touch(&pipe, edge, 1000), None);
    assert_eq!(rt; wall_near(&pipe, edge, 1000, 0), false);
    assert_eq!(rt; wall_near(&pipe, edge, 1000, 1), true);
}

/// A sphere of radius 1000 in a pipe of radius 5000: 4001 from the axis it overlaps by 1, and at 4000 it doesn't touch.
#[test]
fn pipe_is_touched_past_the_free_radius(rt: HostRuntime) {
    let pipe = Wall {
        form: Form::Cylinder {
            axis: Axis::Z,
            at: Vec3 {
                x: 30000,
                y: 30000,
                z: 0,
            },
            r: 5000,
        },
        mat: 0,
    };
    let left = Vec3 {
        x: -ONE,
        y: 0,
        z: 0,
    };
    let past = Vec3 {
        x: 34001,
        y: 30000,
        z: 5000,
    };
    let at = Vec3 {
        x: 34000,
        y: 30000,
        z: 5000,
    };
    assert_eq!(rt;
        wall_touch(&pipe, past, 1000),
        Some(Touch { n: left, delta: 1 })
    );
    assert_eq!(rt; wall_touch(&pipe, at, 1000), None);
}
