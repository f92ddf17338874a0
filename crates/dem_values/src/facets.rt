//! Worked values of touches with a triangle facet: on its face from both sides, on an edge, on a corner, and none.

use dem_facet::*;
use dem_model::Touch;
use dem_num::Vec3;

const ONE: i64 = 1 << 30;

/// A corner, and the two others, 20000 along x and along y.
const A: Vec3 = Vec3 {
    x: 10000,
    y: 10000,
    z: 0,
};

const B: Vec3 = Vec3 {
    x: 30000,
    y: 10000,
    z: 0,
};

const C: Vec3 = Vec3 {
    x: 10000,
    y: 30000,
    z: 0,
};

/// A triangle with two corners at one place has no area, so it is no good facet.
#[test]
fn facet_without_area_is_not_good(rt: HostRuntime) {
    assert_eq!(rt; facet_good(A, B, C), true);
    assert_eq!(rt; facet_good(A, B, B), false);
}

#[test]
fn unit_of_a_level_facet(rt: HostRuntime) {
    assert!(rt; facet_good(A, B, C));
    assert_eq!(rt; facet_unit(A, B, C), Vec3 { x: 0, y: 0, z: ONE });
}

/// A sphere of radius 1000 whose center is 999 over the face overlaps it by 1; at 1000 it doesn't touch.
#[test]
fn face_is_touched_from_above(rt: HostRuntime) {
    let low = Vec3 {
        x: 15000,
        y: 15000,
        z: 999,
    };
    let high = Vec3 {
        x: 15000,
        y: 15000,
        z: 1000,
    };
    let up = Vec3 { x: 0, y: 0, z: ONE };
    assert!(rt; facet_good(A, B, C));
    assert_eq!(rt;
        facet_touch(A, B, C, low, 1000),
        Some(Touch { n: up, delta: 1 })
    );
    assert_eq!(rt; facet_touch(A, B, C, high, 1000), None);
    assert_eq!(rt; facet_near(A, B, C, high, 1000, 0), true);
}

/// Below the face it is pushed down.
#[test]
fn face_is_touched_from_below(rt: HostRuntime) {
    let below = Vec3 {
        x: 15000,
        y: 15000,
        z: -999,
    };
    let down = Vec3 {
        x: 0,
        y: 0,
        z: -ONE,
    };
    assert!(rt; facet_good(A, B, C));
    assert_eq!(rt;
        facet_touch(A, B, C, below, 1000),
        Some(Touch { n: down, delta: 1 })
    );
}

/// Beside the edge from A to B, 599 out and 800 up, the distance is 999 rounded down; 600 out it is 1000, and there is no touch.
#[test]
fn edge_is_touched_from_beside(rt: HostRuntime) {
    let close = Vec3 {
        x: 15000,
        y: 9401,
        z: 800,
    };
    let far = Vec3 {
        x: 15000,
        y: 9400,
        z: 800,
    };
    let out = Vec3 {
        x: 0,
        y: -643815167,
        z: 859853312,
    };
    assert!(rt; facet_good(A, B, C));
    assert_eq!(rt;
        facet_touch(A, B, C, close, 1000),
        Some(Touch { n: out, delta: 1 })
    );
    assert_eq!(rt; facet_touch(A, B, C, far, 1000), None);
}

/// Beyond the corner A, 600 out and 799 up.
#[test]
fn corner_is_touched_from_beyond(rt: HostRuntime) {
    let beyond = Vec3 {
        x: 9400,
        y: 10000,
        z: 799,
    };
    let out = Vec3 {
        x: -644889984,
        y: 0,
        z: 858778495,
    };
    assert!(rt; facet_good(A, B, C));
    assert_eq!(rt;
        facet_touch(A, B, C, beyond, 1000),
        Some(Touch { n: out, delta: 1 })
    );
}
