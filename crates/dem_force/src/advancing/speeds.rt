//! The new velocity and the new spin of a clump: those of its load, or those that a motion prescribes.

ghost use Rattle.std.specs.Prelude.{◌≡◌, length, ◌^◌};
ghost use Rattle.dem_num.specs.Rotations.{EntriesWithin, matrix_of};
ghost use Rattle.dem_num.specs.Vectors.{Within};
ghost use Rattle.dem_model.specs.Advance.{velocity_after, body_torque_of, spin_after};
ghost use Rattle.dem_model.specs.Families.{velocity_by, spin_by};
ghost use Rattle.dem_model.specs.Sound.{IsSound, IsTemplate, IsBody};

use crate::advancing::body::{next_spin, velocity};
use dem_model::{Body, Motion, Scene, Template};
use dem_num::{Rows, Wide3, widen};

/// A velocity and a spin, before any limit is tested.
#[derive(Clone, Copy, PartialEq, Debug)]
pub struct Speeds {
    pub v: Wide3,
    pub w: Wide3,
}

/// The new velocity and the new spin: those of the motion, where one is prescribed, and force and torque don't count; else
/// those of the load.
pub fn new_speeds(
    scene: &Scene,
    template: &Template,
    motion: Option<Motion>,
    rows: &Rows,
    body: &Body,
    force: Wide3,
    torque: Wide3,
) -> Speeds
    requires scene { IsSound scene.now }
    requires template { IsTemplate (length scene.now.materials) template.now }
    requires rows { rows.now ≡ matrix_of body.now.q }
    requires entries { EntriesWithin rows.now (2 ^ 30) }
    requires body { IsBody scene.now body.now }
    requires force { Within force (2 ^ 84) }
    ensures velocity { result.v ≡ velocity_by motion (velocity_after scene.now.gravity template.now.mass body.now.v force) }
    ensures spin { result.w ≡ spin_by motion (spin_after template.now.moments body.now.w (body_torque_of body.now torque)) }
{
    match motion {
        Some(m) => Speeds {
            v: widen(m.v),
            w: widen(m.w),
        },
        None => Speeds {
            v: velocity(scene.gravity, template.mass, body.v, force),
            w: next_spin(template.moments, body, rows, torque),
        },
    }
}
