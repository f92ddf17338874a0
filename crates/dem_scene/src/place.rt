//! After the table: each clump within the limits of the scene, and inside its box.

ghost use Rattle.std.specs.Prelude.{◌≡◌, ◌<◌, ◌^◌, true, All, IsTrue, OnOk, length};
ghost use Rattle.std.specs.List.{list_all};
ghost use Rattle.dem_num.specs.Vectors.{widened, sum_of, Within};
ghost use Rattle.dem_num.specs.Rotations.{EntriesWithin, IsOrientation, matrix_of, turned_by, turned_of};
ghost use Rattle.dem_model.specs.Position.{in_voxels, in_box};
ghost use Rattle.dem_model.specs.Spheres.{balls_of, center_of};
ghost use Rattle.dem_model.specs.ReadingScene.{in_limits, centers_inside, is_inside, check_clump, check_clumps};
ghost use Rattle.dem_model.specs.Sound.{IsBall, IsTemplate, IsClump};
ghost use Rattle.dem_scene.specs.Clumps.{IsClumpRead};
ghost use Rattle.dem_scene.specs.Table.{KeepsTable};

use crate::draft::Draft;
use crate::vector::is_sized;
use dem_model::{Ball, Body, Clump, SceneFault, VOXEL};
use dem_num::{Rows, Vec3, Wide3, add3, widen};
use dem_turn::{matrix, turned};

/// Whether a component lies in the box, on an axis of `n` voxels.
#[tactic(auto, unfolding(dem_model::specs::Position::in_voxels))]
fn in_voxels(n: u32, z: i128) -> bool
    ensures { result ≡ in_voxels n z }
{
    z >= 0 && z < i128::from(u64::from(n) * VOXEL)
}

/// Whether a place lies in the box.
#[tactic(auto, unfolding(dem_model::specs::Position::in_box))]
fn in_box(draft: &Draft, p: Wide3) -> bool
    ensures { result ≡ in_box draft.now p }
{
    in_voxels(draft.nx, p.x) && in_voxels(draft.ny, p.y) && in_voxels(draft.nz, p.z)
}

/// Whether a body is within the limits of the scene.
#[tactic(auto, unfolding(dem_model::specs::ReadingScene::in_limits))]
fn in_limits(draft: &Draft, body: Body) -> bool
    ensures value { result ≡ in_limits draft.now body }
    ensures v { IsTrue result → Within (widened body.v) draft.now.speed }
    ensures w { IsTrue result → Within (widened body.w) draft.now.spin }
{
    is_sized(body.v, draft.speed) && is_sized(body.w, draft.spin)
}

/// Where the center of a sphere is, `m` being the matrix of the body's quaternion.
#[tactic(auto, unfolding(dem_model::specs::Spheres::center_of))]
fn center(m: &Rows, body: Body, ball: Ball) -> Wide3
    requires entries { EntriesWithin m.now (2 ^ 30) }
    requires matrix { m.now ≡ matrix_of body.q }
    requires offset { Within (widened ball.at) (2 ^ 26) }
    ensures { result ≡ center_of body ball }
{
    add3(widen(body.p), widen(turned(m, ball.at)))
}

/// Whether the center of each sphere lies in the box.
fn centers_inside(draft: &Draft, m: &Rows, body: Body, balls: &[Ball]) -> bool
    requires entries { EntriesWithin m.now (2 ^ 30) }
    requires matrix { m.now ≡ matrix_of body.q }
    requires balls { All (IsBall (length draft.now.materials)) balls.now }
    ensures { result ≡ centers_inside draft.now body balls.now }
{
    for ball in balls {
        if !in_box(draft, center(m, body, *ball)) {
            return false;
        }
    }
    true
}

/// Whether a body and the center of each sphere lie in the box.
#[tactic(auto, using(crate::proofs::PlaceFacts::centers_in_box), unfolding(dem_model::specs::ReadingScene::is_inside))]
fn is_inside(draft: &Draft, body: Body, balls: &[Ball]) -> bool
    requires orientation { IsOrientation body.q }
    requires balls { All (IsBall (length draft.now.materials)) balls.now }
    ensures value { result ≡ is_inside draft.now body balls.now }
    ensures position { IsTrue result → IsTrue (in_box draft.now (widened body.p)) }
    ensures centers { IsTrue result → All (λ ball. IsTrue (in_box draft.now (center_of body ball))) balls.now }
{
    in_box(draft, widen(body.p)) && centers_inside(draft, &matrix(body.q), body, balls)
}

/// The spheres of a template.
#[tactic(auto, using(crate::proofs::PlaceFacts::balls_in_range), unfolding(dem_model::specs::Spheres::balls_of))]
fn balls(draft: &Draft, t: u32) -> &[Ball]
    requires table { KeepsTable draft.now }
    requires there { t < length draft.now.templates }
    ensures value { result.now ≡ balls_of draft.now.templates t }
    ensures range { All (IsBall (length draft.now.materials)) result.now }
{
    draft.templates.get(t as usize).balls.as_slice()
}

/// A clump within the limits, and then inside the box.
#[tactic(auto, unfolding(dem_model::specs::ReadingScene::check_clump))]
fn check_clump(draft: &Draft, i: u32, clump: Clump) -> Result<(), SceneFault>
    requires table { KeepsTable draft.now }
    requires read { IsClumpRead draft.now.templates clump }
    ensures value { result ≡ check_clump draft.now i clump }
    ensures sound { OnOk result (IsClump draft.now clump) }
{
    if !in_limits(draft, clump.body) {
        return Err(SceneFault::OverLimit { clump: i });
    }
    let balls = balls(draft, clump.t);
    if is_inside(draft, clump.body, balls) {
        Ok(())
    } else {
        Err(SceneFault::OutsideBox { clump: i })
    }
}

/// Some clumps, one after the other.
fn check_each(draft: &Draft, clumps: &[Clump]) -> Result<(), SceneFault>
    requires table { KeepsTable draft.now }
    requires read { All (IsClumpRead draft.now.templates) clumps.now }
    requires few { length clumps.now < 2 ^ 32 }
    ensures value { result ≡ check_clumps draft.now 0 clumps.now }
    ensures sound { OnOk result (All (IsClump draft.now) clumps.now) }
{
    for (i, clump) in clumps.iter().enumerate() {
        check_clump(draft, i as u32, *clump)?;
    }
    Ok(())
}

/// Each clump of a scene.
pub(crate) fn check_clumps(draft: &Draft) -> Result<(), SceneFault>
    requires { KeepsTable draft.now }
    ensures value { result ≡ check_clumps draft.now 0 draft.now.clumps }
    ensures sound { OnOk result (All (IsClump draft.now) draft.now.clumps) }
{
    check_each(draft, draft.clumps.as_slice())
}
