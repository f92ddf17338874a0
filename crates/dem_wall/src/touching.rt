//! Whether and how a sphere touches a wall, of either form, and whether it is near it.

ghost use Rattle.std.specs.Prelude.{◌≡◌, pos, ◌^◌, ◌<◌, ◌≤◌, IfSome};
ghost use Rattle.dem_model.specs.Sound.{EachBetween};
ghost use Rattle.dem_model.specs.Touch.{wall_touch_of};
ghost use Rattle.dem_model.specs.Near.{wall_near_of};
ghost use Rattle.dem_model.specs.Ranges.{IsWallFor, IsTouch};
ghost use Rattle.dem_num.specs.Vectors.{widened, Within};
ghost use Rattle.dem_wall.specs.Normal.{wall_normal_of, HasDirection};

use crate::cylinder::{cylinder_near, cylinder_touch};
use crate::plane::{plane_near, plane_touch, unit};
use dem_model::{Form, MAX_POINT, Touch, Wall};
use dem_num::{Vec3, ZERO};

/// The unit normal of a wall, times 2^30; zeros for a cylinder, whose normal changes from place to place.
#[tactic(auto, unfolding(crate::specs::Normal::wall_normal_of))]
pub fn wall_normal(wall: &Wall) -> Vec3
    requires { HasDirection wall.now.form }
    ensures value { result ≡ wall_normal_of wall.now }
    ensures size { Within (widened result) (2 ^ 30) }
{
    match wall.form {
        Form::Plane { dir, .. } => unit(dir),
        Form::Cylinder { .. } => ZERO,
    }
}

/// How a sphere with center `c` and radius `r`, in u, touches a wall; None where it doesn't.
pub fn wall_touch(wall: &Wall, c: Vec3, r: u32) -> Option<Touch>
    requires wall { IsWallFor r wall.now.form }
    requires center { EachBetween (pos 0) (pos MAX_POINT) c }
    ensures value { result ≡ wall_touch_of wall.now c r }
    ensures size { IfSome result IsTouch }
{
    wall_touch_by(wall, wall_normal(wall), c, r)
}

/// The same, from the wall's unit normal.
#[tactic(auto, unfolding(dem_model::specs::Touch::wall_touch_of, crate::specs::Normal::wall_normal_of))]
pub fn wall_touch_by(wall: &Wall, normal: Vec3, c: Vec3, r: u32) -> Option<Touch>
    requires wall { IsWallFor r wall.now.form }
    requires normal { normal ≡ wall_normal_of wall.now }
    requires normal_small { Within (widened normal) (2 ^ 30) }
    requires center { EachBetween (pos 0) (pos MAX_POINT) c }
    ensures value { result ≡ wall_touch_of wall.now c r }
    ensures size { IfSome result IsTouch }
{
    match wall.form {
        Form::Plane { at, dir } => plane_touch(at, dir, normal, c, r),
        Form::Cylinder {
            axis,
            at,
            r: radius,
        } => cylinder_touch(axis, at, radius, c, r),
    }
}

/// Whether a sphere with center `c` and radius `r` is near a wall: whether it may touch it after moving at most `extra` u per axis.
pub fn wall_near(wall: &Wall, c: Vec3, r: u32, extra: u64) -> bool
    requires wall { IsWallFor r wall.now.form }
    requires center { EachBetween (pos 0) (pos MAX_POINT) c }
    requires extra_small { extra ≤ 2 ^ 37 }
    ensures { result ≡ wall_near_of wall.now c r extra }
{
    wall_near_by(wall, wall_normal(wall), c, r, extra)
}

/// The same, from the wall's unit normal.
#[tactic(auto, unfolding(dem_model::specs::Near::wall_near_of, crate::specs::Normal::wall_normal_of))]
pub fn wall_near_by(wall: &Wall, normal: Vec3, c: Vec3, r: u32, extra: u64) -> bool
    requires wall { IsWallFor r wall.now.form }
    requires normal { normal ≡ wall_normal_of wall.now }
    requires normal_small { Within (widened normal) (2 ^ 30) }
    requires center { EachBetween (pos 0) (pos MAX_POINT) c }
    requires extra_small { extra ≤ 2 ^ 37 }
    ensures { result ≡ wall_near_of wall.now c r extra }
{
    match wall.form {
        Form::Plane { at, dir } => plane_near(at, dir, normal, c, r, extra),
        Form::Cylinder {
            axis,
            at,
            r: radius,
        } => cylinder_near(axis, at, radius, c, r, extra),
    }
}
