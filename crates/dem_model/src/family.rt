//! Families of clumps: motions that are prescribed, and families that are off with each other.

use dem_num::Vec3;

/// The motion of a family: each of its clumps has the velocity `v` after each step, in u per step times 2^16, and the spin `w`, in body axes in radians per step times 2^30. `id` is the family's number, at most 15.
#[derive(Clone, Copy, PartialEq, Debug)]
pub struct Motion {
    pub id: u32,
    pub v: Vec3,
    pub w: Vec3,
}

/// Two families, in either order, whose clumps pass through each other; both may be the same one.
#[derive(Clone, Copy, PartialEq, Debug)]
pub struct Off {
    pub f: u32,
    pub g: u32,
}
