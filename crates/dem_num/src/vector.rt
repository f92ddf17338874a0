//! The plain vectors, the quaternion and the matrix of the engine.

/// Three components of at most 64 bits: a position or offset in u, a velocity, a spin, a normal, a displacement.
#[derive(Clone, Copy, PartialEq, Debug)]
pub struct Vec3 {
    pub x: i64,
    pub y: i64,
    pub z: i64,
}

/// Three components of at most 128 bits: a force, a torque, a difference.
#[derive(Clone, Copy, PartialEq, Debug)]
pub struct Wide3 {
    pub x: i128,
    pub y: i128,
    pub z: i128,
}

/// A quaternion `a + bi + cj + dk`; a component is the number times 2^30.
#[derive(Clone, Copy, PartialEq, Debug)]
pub struct Quat {
    pub a: i64,
    pub b: i64,
    pub c: i64,
    pub d: i64,
}

/// The three rows of a rotation matrix; an entry is the number times 2^30.
#[derive(Clone, Copy, PartialEq, Debug)]
pub struct Rows {
    pub x: Vec3,
    pub y: Vec3,
    pub z: Vec3,
}

/// The vector of zeros.
pub const ZERO: Vec3 = Vec3 { x: 0, y: 0, z: 0 };
/// The wide vector of zeros.
pub const WIDE_ZERO: Wide3 = Wide3 { x: 0, y: 0, z: 0 };
