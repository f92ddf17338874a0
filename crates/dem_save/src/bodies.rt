//! Whether the body of a clump is one that a run of the scene may have.
ghost use Rattle.std.specs.Prelude.{◌≡◌, ◌<◌, ◌≤◌, ◌^◌, ◌&&◌, true, All, IsTrue, length};
ghost use Rattle.dem_num.specs.Vectors.{widened, Within};
ghost use Rattle.dem_num.specs.Rotations.{EntriesWithin, IsOrientation, matrix_of};
ghost use Rattle.dem_model.specs.Centers.{body_at};
ghost use Rattle.dem_model.specs.Position.{in_box as in_box_of};
ghost use Rattle.dem_model.specs.Reading.{at_most};
ghost use Rattle.dem_model.specs.ReadingScene.{centers_inside as centers_inside_of, in_limits as in_limits_of, is_inside as is_inside_of};
ghost use Rattle.dem_model.specs.ReadingVectors.{each_is, is_bounded as is_bounded_of, is_long as is_long_of};
ghost use Rattle.dem_model.specs.Sound.{IsBall, IsSound};
ghost use Rattle.dem_model.specs.Spheres.{balls_of, center_of};
ghost use Rattle.dem_model.specs.Step.{clump_at};
ghost use Rattle.dem_save.specs.Loaded.{is_body_of};

use dem_force::in_box;
use dem_model::{Ball, Body, MAX_NORM2, MIN_NORM2, Scene};
use dem_num::{Quat, Rows, Vec3, quat_norm2};
use dem_shape::{Shapes, sphere_center};
use dem_turn::matrix;

/// The greatest component of a quaternion, in size.
const MAX_COMPONENT: u64 = 2_147_483_648;

/// Whether the body of a clump is sound for it: within the limits, of a length that turns, inside the box with the centers of its spheres.
#[tactic(auto, unfolding(crate::specs::Loaded::is_body_of))]
pub(crate) fn is_sound(shapes: &Shapes, bodies: &[Body], clump: usize) -> bool
    requires count { length bodies.now ≡ length shapes.now.clumps }
    requires there { clump < length shapes.now.clumps }
    ensures { result ≡ is_body_of shapes.now (clump_at shapes.now clump) (body_at bodies.now clump) }
{
    let scene = shapes.scene();
    let balls = balls(scene, template(scene, clump));
    is_body(scene, bodies[clump], balls)
}

// Whether a body is sound for a clump with these spheres.
fn is_body(scene: &Scene, body: Body, balls: &[Ball]) -> bool
    requires scene { IsSound scene.now }
    requires balls { All (IsBall (length scene.now.materials)) balls.now }
    ensures { result ≡ (in_limits_of scene.now body && (is_long_of body.q && is_inside_of scene.now body balls.now)) }
{
    in_limits(scene, body) && (is_long(body.q) && is_inside(scene, body, balls))
}

// The number of a clump's template.
fn template(scene: &Scene, clump: usize) -> u32
    requires scene { IsSound scene.now }
    requires clump { clump < length scene.now.clumps }
    ensures value { result ≡ (clump_at scene.now clump).t }
    ensures there { result < length scene.now.templates }
{
    scene.clumps.get(clump).t
}

// The spheres of a template.
#[tactic(auto, unfolding(dem_model::specs::Spheres::balls_of))]
fn balls(scene: &Scene, t: u32) -> &[Ball]
    requires { t < length scene.now.templates }
    ensures value { result.now ≡ balls_of scene.now.templates t }
    ensures range { All (IsBall (length scene.now.materials)) result.now }
{
    scene.templates.get(t as usize).balls.as_slice()
}

// Whether a number is at most `m` in size.
#[tactic(auto, unfolding(dem_model::specs::Reading::at_most))]
fn is_at_most(z: i64, m: u64) -> bool
    ensures { result ≡ at_most m z }
{
    z.unsigned_abs() <= m
}

// Whether each component is at most `m` in size.
fn is_sized(v: Vec3, m: u64) -> bool
    ensures { result ≡ each_is (at_most m) v }
{
    is_at_most(v.x, m) && is_at_most(v.y, m) && is_at_most(v.z, m)
}

// Whether a body is within the limits of the scene.
#[tactic(auto, unfolding(dem_model::specs::ReadingScene::in_limits))]
fn in_limits(scene: &Scene, body: Body) -> bool
    ensures { result ≡ in_limits_of scene.now body }
{
    is_sized(body.v, scene.speed) && is_sized(body.w, scene.spin)
}

// Whether each component of a quaternion is at most 2^31 in size.
fn is_bounded(q: Quat) -> bool
    ensures { result ≡ is_bounded_of q }
{
    is_at_most(q.a, MAX_COMPONENT)
        && is_at_most(q.b, MAX_COMPONENT)
        && is_at_most(q.c, MAX_COMPONENT)
        && is_at_most(q.d, MAX_COMPONENT)
}

// Whether the squared length of a quaternion is in its range: none is that has a component above 2^31.
#[tactic(auto, using(crate::proofs::CheckFacts::unbounded_long, crate::proofs::CheckFacts::long_orientation))]
fn is_long(q: Quat) -> bool
    ensures value { result ≡ is_long_of q }
    ensures orientation { IsTrue result → IsOrientation q }
{
    is_bounded(q) && is_in_range(q)
}

// The same where no component is above 2^31.
#[tactic(auto, using(crate::proofs::CheckFacts::bounded_small))]
fn is_in_range(q: Quat) -> bool
    requires { is_bounded_of q ≡ true }
    ensures { result ≡ is_long_of q }
{
    let length = quat_norm2(q);
    u128::from(MIN_NORM2) <= length && length <= u128::from(MAX_NORM2)
}

// Whether a body and the center of each sphere lie in the box.
#[tactic(auto, unfolding(dem_model::specs::ReadingScene::is_inside))]
fn is_inside(scene: &Scene, body: Body, balls: &[Ball]) -> bool
    requires scene { IsSound scene.now }
    requires orientation { IsOrientation body.q }
    requires balls { All (IsBall (length scene.now.materials)) balls.now }
    ensures { result ≡ is_inside_of scene.now body balls.now }
{
    in_box(scene, body.p) && centers_inside(scene, &matrix(body.q), body, balls)
}

// Whether the center of each sphere lies in the box.
#[tactic(auto, unfolding(dem_model::specs::ReadingScene::centers_inside))]
fn centers_inside(scene: &Scene, rows: &Rows, body: Body, balls: &[Ball]) -> bool
    requires rows { rows.now ≡ matrix_of body.q }
    requires entries { EntriesWithin rows.now (2 ^ 30) }
    requires place { Within (widened body.p) (2 ^ 37) }
    requires balls { All (IsBall (length scene.now.materials)) balls.now }
    ensures { result ≡ centers_inside_of scene.now body balls.now }
{
    for ball in balls {
        if !is_center_inside(scene, rows, body, *ball) {
            return false;
        }
    }
    true
}

// Whether the center of a sphere lies in the box.
#[tactic(auto, unfolding(dem_model::specs::Spheres::center_of))]
fn is_center_inside(scene: &Scene, rows: &Rows, body: Body, ball: Ball) -> bool
    requires rows { rows.now ≡ matrix_of body.q }
    requires entries { EntriesWithin rows.now (2 ^ 30) }
    requires place { Within (widened body.p) (2 ^ 37) }
    requires offset { Within (widened ball.at) (2 ^ 26) }
    ensures { result ≡ in_box_of scene.now (center_of body ball) }
{
    in_box(scene, sphere_center(body.p, rows, ball.at))
}
