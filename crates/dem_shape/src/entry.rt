//! What the table keeps of one sphere.

ghost use Rattle.std.specs.Prelude.{◌≡◌, ◌≤◌, length};
ghost use Rattle.dem_model.specs.Sound.{IsBall};
ghost use Rattle.dem_model.specs.Spheres.{sphere_of};
ghost use Rattle.dem_shape.specs.Kin.{IsKin};
ghost use Rattle.dem_shape.specs.Table.{table_entry_of};

use crate::families::Kin;
use dem_model::{Ball, Scene, VELOCITY_UNIT};
use dem_turn::{arm, swing_limit};

/// A sphere: its clump, what its template says of it, its arm and its movement bound, in u, its family and those that are off with it.
#[derive(Clone, Copy)]
pub struct Entry {
    pub clump: u32,
    pub ball: Ball,
    pub arm: u64,
    pub per_step: u64,
    pub family: u32,
    pub offs: u32,
}

impl Entry {
    /// What the table keeps of a sphere of this clump.
    #[tactic(auto, unfolding(dem_model::specs::Motion::per_step_of))]
    pub fn new(scene: &Scene, clump: u32, kin: Kin, ball: Ball) -> Entry
        requires ball { IsBall (length scene.now.materials) ball }
        requires kin { IsKin scene.now clump kin }
        ensures { result ≡ table_entry_of scene.now (sphere_of clump ball) }
    {
        let arm = arm(ball.at);
        let per_step = scene.speed.div_ceil(VELOCITY_UNIT) + swing_limit(scene.spin, arm);
        Entry {
            clump,
            ball,
            arm,
            per_step,
            family: kin.family,
            offs: kin.offs,
        }
    }
}
