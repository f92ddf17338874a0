//! A scene within its ranges: the box, the limits, the materials, the templates, the walls, the clumps and their families.

use crate::family::{Motion, Off};
use crate::list::List;
use crate::shape::{Material, Template, Wall};
use crate::state::Clump;
use dem_num::Vec3;
use std::marker::Model;

/// All that a run starts from. Each Scene meets every range, index and count of the scene text, and no clump is over a limit or outside the box.
#[derive(Drop)]
pub struct Scene {
    /// Voxels of the box on the axis x; a voxel's edge is 2^16 u.
    pub nx: u32,
    /// Voxels of the box on the axis y.
    pub ny: u32,
    /// Voxels of the box on the axis z.
    pub nz: u32,
    /// The number of steps.
    pub steps: u32,
    /// A frame is written each `every` steps.
    pub every: u32,
    /// The speed limit on each axis, in u per step times 2^16.
    pub speed: u64,
    /// The spin limit on each axis, in radians per step times 2^30.
    pub spin: u64,
    /// What gravity adds to each velocity at each step.
    pub gravity: Vec3,
    pub materials: List<Material>,
    pub templates: List<Template>,
    pub walls: List<Wall>,
    pub clumps: List<Clump>,
    /// The motions of families, in ascending order of families.
    pub motions: List<Motion>,
    /// The families that are off with each other.
    pub off: List<Off>,
}

impl Model for Scene {
    ghost use Rattle.dem_model.specs.SceneValue.{SceneValue};

    ghost Value = { SceneValue };

    ghost use Rattle.dem_model.specs.Sound.{IsSound};

    ghost view = { λ a. record {
      nx = a.nx;
      ny = a.ny;
      nz = a.nz;
      steps = a.steps;
      every = a.every;
      speed = a.speed;
      spin = a.spin;
      gravity = a.gravity;
      materials = a.materials;
      templates = a.templates;
      walls = a.walls;
      clumps = a.clumps;
      motions = a.motions;
      off = a.off;
    } };

    ghost invariant = { λ a. IsSound (record {
      nx = a.nx;
      ny = a.ny;
      nz = a.nz;
      steps = a.steps;
      every = a.every;
      speed = a.speed;
      spin = a.spin;
      gravity = a.gravity;
      materials = a.materials;
      templates = a.templates;
      walls = a.walls;
      clumps = a.clumps;
      motions = a.motions;
      off = a.off;
    }) };
}
