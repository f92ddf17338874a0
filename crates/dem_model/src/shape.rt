//! What a scene is made of: materials, spheres, templates and walls.

use crate::list::List;
use dem_num::Vec3;

/// A material: stiffness `kn` (normal) and `kt` (tangential), damping `bn` and `bt`, friction `mu`, rolling resistance `mr`, the last four times 2^16.
#[derive(Clone, Copy, PartialEq, Debug)]
pub struct Material {
    pub kn: u32,
    pub kt: u32,
    pub bn: u32,
    pub bt: u32,
    pub mu: u32,
    pub mr: u32,
}

/// A sphere of a template: its offset from the clump's position in u, its radius in u, the number of its material.
#[derive(Clone, Copy, PartialEq, Debug)]
pub struct Ball {
    pub at: Vec3,
    pub r: u32,
    pub mat: u32,
}

/// A kind of clump: its mass, its moments of inertia about its principal axes, its spheres.
#[derive(Drop)]
pub struct Template {
    pub mass: u64,
    pub moments: Vec3,
    pub balls: List<Ball>,
}

/// An axis of the box.
#[derive(Clone, Copy, PartialEq, Debug)]
pub enum Axis {
    X,
    Y,
    Z,
}

/// The form of a wall: a plane through a point, with the direction in which it pushes, or a cylinder along an axis, with the spheres inside.
#[derive(Clone, Copy, PartialEq, Debug)]
pub enum Form {
    Plane { at: Vec3, dir: Vec3 },
    Cylinder { axis: Axis, at: Vec3, r: u64 },
}

/// A wall: its form and the number of its material.
#[derive(Clone, Copy, PartialEq, Debug)]
pub struct Wall {
    pub form: Form,
    pub mat: u32,
}
