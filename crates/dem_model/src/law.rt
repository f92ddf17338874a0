//! What the contact law takes and gives.

use dem_num::{Vec3, Wide3};

/// Where two things touch: the normal `n`, times 2^30, which pushes the first along it, and the overlap `delta` in u.
#[derive(Clone, Copy, PartialEq, Debug)]
pub struct Touch {
    pub n: Vec3,
    pub delta: i64,
}

/// The mixed numbers of two materials.
#[derive(Clone, Copy, PartialEq, Debug)]
pub struct Law {
    pub kn: u32,
    pub kt: u32,
    pub bn: u32,
    pub bt: u32,
    pub mu: u32,
    pub mr: u32,
}

/// One side of a contact: the clump's velocity `v`, its spin in world axes, the turned offset of the sphere (`lever`), the sphere's radius, the clump's mass; a wall is at rest and has none of these.
#[derive(Clone, Copy, PartialEq, Debug)]
pub struct Side {
    pub v: Vec3,
    pub spin: Vec3,
    pub lever: Vec3,
    pub r: u32,
    pub mass: u64,
    pub wall: bool,
}

/// What a contact does: the force on the first, the torques on both, the new tangential displacement.
#[derive(Clone, Copy, PartialEq, Debug)]
pub struct Push {
    pub force: Wide3,
    pub torque_a: Wide3,
    pub torque_b: Wide3,
    pub h: Vec3,
}

/// What a clump feels in a step: the sums of its forces and of its torques.
#[derive(Clone, Copy, PartialEq, Debug)]
pub struct Load {
    pub force: Wide3,
    pub torque: Wide3,
}
