//! The limits of a step: speed, spin and the box. No step passes the swing limit, so nothing tests it.

ghost use Rattle.std.specs.Prelude.{◌≡◌, ◌≢◌, ◌+◌, ◌*◌, ◌^◌, ◌<◌, ◌≤◌, ◌+ℤ◌, false, All, IfOk, IfErr, length, not, if◌then◌else◌, unsigned_abs};
ghost use Rattle.dem_num.specs.Numbers.{AtMost};
ghost use Rattle.std.specs.List.{list_any};
ghost use Rattle.dem_num.specs.Vectors.{widened, narrowed, sum_of, is_zero, Within};
ghost use Rattle.dem_num.specs.Rotations.{
  EntriesWithin,
  IsOrientation,
  matrix_of,
};
ghost use Rattle.dem_model.specs.Advance.{is_over, leaves_box, limited};
ghost use Rattle.dem_model.specs.Position.{in_voxels, in_box};
ghost use Rattle.dem_model.specs.Sound.{IsBall};
ghost use Rattle.dem_model.specs.Spheres.{center_of};
ghost use Rattle.dem_force.specs.Placed.{IsInside, IsPlaced};

use crate::advancing::body::moved;
use dem_model::{Ball, Body, EndKind, Scene, VOXEL};
use dem_num::{Rows, Vec3, Wide3, narrow3};
use dem_shape::sphere_center;
use dem_turn::{is_zero, matrix};

/// Whether some component is greater in size than the limit; a component at the limit is not.
#[tactic(auto, unfolding(dem_model::specs::Advance::is_over))]
pub fn is_over(limit: u64, a: Wide3) -> bool
    ensures { result ≡ is_over limit a }
{
    let limit = limit as u128;
    limit < a.x.unsigned_abs() || limit < a.y.unsigned_abs() || limit < a.z.unsigned_abs()
}

/// Whether a velocity is over the scene's speed limit.
fn is_too_fast(scene: &Scene, v: Wide3) -> bool
    ensures value { result ≡ is_over scene.now.speed v }
    ensures small { result ≡ false → Within v (2 ^ 40) }
{
    is_over(scene.speed, v)
}

/// Whether a spin is over the scene's spin limit.
fn spins_too_fast(scene: &Scene, w: Wide3) -> bool
    ensures value { result ≡ is_over scene.now.spin w }
    ensures small { result ≡ false → Within w (2 ^ 28) }
{
    is_over(scene.spin, w)
}

/// Whether a component lies in the box, on an axis of `n` voxels.
#[tactic(auto, unfolding(dem_model::specs::Position::in_voxels))]
fn in_voxels(n: u32, z: i64) -> bool
    ensures { result ≡ in_voxels n z }
{
    z >= 0 && (z as u64) < n as u64 * VOXEL
}

/// Whether a place lies in the scene's box.
#[tactic(auto, unfolding(dem_model::specs::Position::in_box))]
pub fn in_box(scene: &Scene, place: Vec3) -> bool
    ensures { result ≡ in_box scene.now (widened place) }
{
    in_voxels(scene.nx, place.x) && in_voxels(scene.ny, place.y) && in_voxels(scene.nz, place.z)
}

/// Whether the center of a sphere lies outside the box.
#[tactic(auto, unfolding(dem_model::specs::Spheres::center_of))]
fn is_outside(scene: &Scene, body: &Body, rows: &Rows, ball: Ball) -> bool
    requires rows { rows.now ≡ matrix_of body.now.q }
    requires entries { EntriesWithin rows.now (2 ^ 30) }
    requires place { Within (widened body.now.p) (2 ^ 37) }
    requires offset { Within (widened ball.at) (2 ^ 26) }
    ensures { result ≡ not (in_box scene.now (center_of body.now ball)) }
{
    !in_box(scene, sphere_center(body.p, rows, ball.at))
}

/// Whether the center of some sphere lies outside the box.
fn some_outside(scene: &Scene, body: &Body, rows: &Rows, balls: &[Ball]) -> bool
    requires rows { rows.now ≡ matrix_of body.now.q }
    requires entries { EntriesWithin rows.now (2 ^ 30) }
    requires place { Within (widened body.now.p) (2 ^ 37) }
    requires offsets { All (IsBall (length scene.now.materials)) balls.now }
    ensures { result ≡ list_any (λ x. not (in_box scene.now (center_of body.now x))) balls.now }
{
    for ball in balls {
        if is_outside(scene, body, rows, *ball) {
            return true;
        }
    }
    false
}

/// Whether a body or the center of one of its spheres lies outside the box.
#[tactic(auto, unfolding(dem_model::specs::Advance::leaves_box))]
fn leaves(scene: &Scene, body: &Body, rows: &Rows, balls: &[Ball]) -> bool
    requires rows { rows.now ≡ matrix_of body.now.q }
    requires entries { EntriesWithin rows.now (2 ^ 30) }
    requires place { Within (widened body.now.p) (2 ^ 37) }
    requires offsets { All (IsBall (length scene.now.materials)) balls.now }
    ensures { result ≡ leaves_box scene.now balls.now body.now }
{
    !in_box(scene, body.p) || some_outside(scene, body, rows, balls)
}

/// Whether some sphere stands elsewhere than its clump.
fn some_off_center(balls: &[Ball]) -> bool
    ensures { result ≡ list_any (λ x. not (is_zero (widened x.at))) balls.now }
{
    for ball in balls {
        if !is_zero(ball.at) {
            return true;
        }
    }
    false
}

/// The new body, unless it or a sphere of it leaves the box: by the turned offsets.
fn turned_in(scene: &Scene, balls: &[Ball], new: Body) -> Result<Body, EndKind>
    requires new_orientation { IsOrientation new.q }
    requires place { Within (widened new.p) (2 ^ 37) }
    requires offsets { All (IsBall (length scene.now.materials)) balls.now }
    ensures value { result ≡ (if leaves_box scene.now balls.now new then Err EndKind.Domain else Ok new) }
    ensures same { IfOk result (λ b. b ≡ new) }
    ensures inside { IfOk result (IsInside scene.now balls.now) }
    ensures unswung { IfErr result (λ e. e ≢ EndKind.Swing) }
{
    let rows = matrix(new.q);
    if leaves(scene, &new, &rows, balls) {
        return Err(EndKind::Domain);
    }
    Ok(new)
}

/// The new body, unless it leaves the box: where no sphere stands elsewhere than its clump, none leaves it alone.
#[tactic(auto, using(crate::proofs::CenteredFacts::own_leaves))]
fn centered_in(scene: &Scene, balls: &[Ball], new: Body) -> Result<Body, EndKind>
    requires centered { list_any (λ x. not (is_zero (widened x.at))) balls.now ≡ false }
    ensures value { result ≡ (if leaves_box scene.now balls.now new then Err EndKind.Domain else Ok new) }
    ensures same { IfOk result (λ b. b ≡ new) }
    ensures inside { IfOk result (IsInside scene.now balls.now) }
    ensures unswung { IfErr result (λ e. e ≢ EndKind.Swing) }
{
    if in_box(scene, new.p) {
        Ok(new)
    } else {
        Err(EndKind::Domain)
    }
}

/// The new body, unless it or a sphere of it leaves the box.
fn kept_in(scene: &Scene, balls: &[Ball], new: Body) -> Result<Body, EndKind>
    requires new_orientation { IsOrientation new.q }
    requires place { Within (widened new.p) (2 ^ 37) }
    requires offsets { All (IsBall (length scene.now.materials)) balls.now }
    ensures value { result ≡ (if leaves_box scene.now balls.now new then Err EndKind.Domain else Ok new) }
    ensures same { IfOk result (λ b. b ≡ new) }
    ensures inside { IfOk result (IsInside scene.now balls.now) }
    ensures unswung { IfErr result (λ e. e ≢ EndKind.Swing) }
{
    if some_off_center(balls) {
        turned_in(scene, balls, new)
    } else {
        centered_in(scene, balls, new)
    }
}

/// The body after a step with this new velocity and new spin, or the first limit that it passes.
#[tactic(auto, unfolding(dem_model::specs::Advance::limited))]
pub fn within_limits(
    scene: &Scene,
    balls: &[Ball],
    body: &Body,
    v: Wide3,
    w: Wide3,
) -> Result<Body, EndKind>
    requires orientation { IsOrientation body.now.q }
    requires place { Within (widened body.now.p) (2 ^ 36) }
    requires offsets { All (IsBall (length scene.now.materials)) balls.now }
    ensures value { result ≡ limited scene.now balls.now body.now v w }
    ensures placed { IfOk result (IsPlaced scene.now balls.now) }
    ensures unswung { IfErr result (λ e. e ≢ EndKind.Swing) }
{
    if is_too_fast(scene, v) {
        return Err(EndKind::Speed);
    }
    if spins_too_fast(scene, w) {
        return Err(EndKind::Spin);
    }
    kept_in(scene, balls, moved(body, narrow3(v), narrow3(w)))
}
