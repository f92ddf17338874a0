//! One clump's step as a whole: its body after the step, or the limit that it passes.

ghost use Rattle.std.specs.Prelude.{◌≡◌, ◌≢◌, ◌<◌, ◌^◌, IfOk, IfErr, Some, length, slice_get};
ghost use Rattle.dem_num.specs.Rotations.{EntriesWithin, matrix_of};
ghost use Rattle.dem_num.specs.Vectors.{Within};
ghost use Rattle.dem_model.specs.Advance.{
  velocity_after,
  body_torque_of,
  spin_after,
  limited,
  advance_of,
};
ghost use Rattle.dem_model.specs.Families.{velocity_by, spin_by};
ghost use Rattle.dem_model.specs.Sound.{IsSound, IsTemplate, IsBody, IsBodyOf};
ghost use Rattle.dem_model.specs.Step.{clump_at};
ghost use Rattle.dem_force.specs.Placed.{IsPlaced};

use crate::advancing::limits::within_limits;
use crate::advancing::speeds::new_speeds;
use dem_model::{Body, Clump, EndKind, Motion, Scene, Template};
use dem_num::{Rows, Wide3};
use dem_shape::Shapes;
use dem_turn::matrix;

/// The body of a clump after a step under the sums of its forces and of its torques in world axes, or the first limit
/// that it passes: speed, spin, domain. No step passes the fourth, the swing limit. A clump whose family has a motion takes
/// its new velocity and its new spin from that, whatever its load; position, quaternion and limits are as for each clump.
pub fn advance(
    shapes: &Shapes,
    clump: u32,
    body: &Body,
    force: Wide3,
    torque: Wide3,
) -> Result<Body, EndKind>
    requires clump { clump < length shapes.now.clumps }
    requires body { IsBodyOf shapes.now (clump_at shapes.now clump) body.now }
    requires force { Within force (2 ^ 84) }
    requires torque { Within torque (2 ^ 114) }
    ensures value { result ≡ advance_of shapes.now (clump_at shapes.now clump) body.now (record { force = force; torque = torque }) }
    ensures sound { IfOk result (IsBodyOf shapes.now (clump_at shapes.now clump)) }
    ensures unswung { IfErr result (λ e. e ≢ EndKind.Swing) }
{
    advance_by(shapes, clump, &matrix(body.q), body, force, torque)
}

/// The same, from the rows of the body's matrix.
pub fn advance_by(
    shapes: &Shapes,
    clump: u32,
    rows: &Rows,
    body: &Body,
    force: Wide3,
    torque: Wide3,
) -> Result<Body, EndKind>
    requires clump { clump < length shapes.now.clumps }
    requires rows { rows.now ≡ matrix_of body.now.q }
    requires entries { EntriesWithin rows.now (2 ^ 30) }
    requires body { IsBodyOf shapes.now (clump_at shapes.now clump) body.now }
    requires force { Within force (2 ^ 84) }
    requires torque { Within torque (2 ^ 114) }
    ensures value { result ≡ advance_of shapes.now (clump_at shapes.now clump) body.now (record { force = force; torque = torque }) }
    ensures sound { IfOk result (IsBodyOf shapes.now (clump_at shapes.now clump)) }
    ensures unswung { IfErr result (λ e. e ≢ EndKind.Swing) }
{
    let scene = shapes.scene();
    let t = template_number(scene, clump);
    let motion = shapes.motion(clump);
    advance_as(
        scene,
        template_at(scene, t),
        motion,
        rows,
        body,
        force,
        torque,
    )
}

/// The number of a clump's template.
fn template_number(scene: &Scene, clump: u32) -> u32
    requires scene { IsSound scene.now }
    requires clump { clump < length scene.now.clumps }
    ensures value { result ≡ (clump_at scene.now clump).t }
    ensures there { result < length scene.now.templates }
{
    clump_in(scene, clump).t
}

/// A clump by its number.
fn clump_in(scene: &Scene, clump: u32) -> &Clump
    requires { clump < length scene.now.clumps }
    ensures { slice_get scene.now.clumps clump ≡ Some result.now }
{
    scene.clumps.get(clump as usize)
}

/// A template by its number.
fn template_at(scene: &Scene, t: u32) -> &Template
    requires { t < length scene.now.templates }
    ensures value { slice_get scene.now.templates t ≡ Some result.now }
    ensures sound { IsTemplate (length scene.now.materials) result.now }
{
    scene.templates.get(t as usize)
}

/// The step of a clump of this template, whose family has this motion.
fn advance_as(
    scene: &Scene,
    template: &Template,
    motion: Option<Motion>,
    rows: &Rows,
    body: &Body,
    force: Wide3,
    torque: Wide3,
) -> Result<Body, EndKind>
    requires scene { IsSound scene.now }
    requires template { IsTemplate (length scene.now.materials) template.now }
    requires rows { rows.now ≡ matrix_of body.now.q }
    requires entries { EntriesWithin rows.now (2 ^ 30) }
    requires body { IsBody scene.now body.now }
    requires force { Within force (2 ^ 84) }
    ensures value { result ≡ limited scene.now template.now.balls body.now (velocity_by motion (velocity_after scene.now.gravity template.now.mass body.now.v force)) (spin_by motion (spin_after template.now.moments body.now.w (body_torque_of body.now torque))) }
    ensures placed { IfOk result (IsPlaced scene.now template.now.balls) }
    ensures unswung { IfErr result (λ e. e ≢ EndKind.Swing) }
{
    let speeds = new_speeds(scene, template, motion, rows, body, force, torque);
    within_limits(scene, template.balls.as_slice(), body, speeds.v, speeds.w)
}
