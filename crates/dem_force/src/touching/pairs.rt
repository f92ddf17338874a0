//! Whether and how a pair touches: two spheres, or a sphere and a wall.

ghost use Rattle.std.specs.Prelude.{◌≡◌, pos, ◌+◌, ◌^◌, ◌<◌, ◌≤◌, IfSome, length};
ghost use Rattle.dem_num.specs.Vectors.{widened, difference_of, Within};
ghost use Rattle.dem_model.specs.Centers.{touch_of, center_at};
ghost use Rattle.dem_model.specs.Motion.{AreInside, IsPair};
ghost use Rattle.dem_model.specs.Pairs.{sphere_count, limit_of, sphere_at, wall_at};
ghost use Rattle.dem_model.specs.Ranges.{IsTouch, IsWallFor};
ghost use Rattle.dem_model.specs.Sound.{EachBetween, IsWall};
ghost use Rattle.dem_model.specs.declared.limits.TheConstants.{MAX_POINT};

use crate::touching::spheres::spheres_touch;
use dem_model::{Pair, Steps, Touch, Wall};
use dem_num::{Vec3, place_difference};
use dem_shape::{Centers, Shapes};
use dem_wall::wall_touch_by;
use std::sync::ledger::Ledger;

/// Whether a pair touches, where the centers are these: the normal, which pushes the first along it, and the overlap in u. It counts one test.
pub fn touch<L: Ledger>(
    shapes: &Shapes,
    centers: &Centers,
    pair: Pair,
    tests: &mut Steps<L>,
) -> Option<Touch>
    requires pair { IsPair shapes.now pair }
    requires centers { AreInside shapes.now centers.now }
    ensures value { result ≡ touch_of shapes.now centers.now pair }
    ensures ranges { IfSome result IsTouch }
    ensures counted { tests.new ≡ tests.old + 1 }
{
    tests.tick();
    pair_touch(shapes, centers, pair)
}

/// Whether and how a pair touches.
#[tactic(auto, unfolding(dem_model::specs::Centers::touch_of))]
pub fn pair_touch(shapes: &Shapes, centers: &Centers, pair: Pair) -> Option<Touch>
    requires pair { IsPair shapes.now pair }
    requires centers { AreInside shapes.now centers.now }
    ensures value { result ≡ touch_of shapes.now centers.now pair }
    ensures ranges { IfSome result IsTouch }
{
    let first = center(shapes, centers, pair.a);
    if pair.b < shapes.spheres() {
        let second = center(shapes, centers, pair.b);
        spheres_touch(place_difference(first, second), radii(shapes, pair))
    } else {
        let wall = wall_beside(shapes, pair);
        wall_touch_by(
            &wall,
            shapes.wall_normal(pair.b),
            first,
            shapes.ball_of(pair.a).r,
        )
    }
}

/// The radii of a pair of spheres together, in u.
fn radii(shapes: &Shapes, pair: Pair) -> u64
    requires first { pair.a < sphere_count shapes.now }
    requires second { pair.b < sphere_count shapes.now }
    ensures value { result ≡ (sphere_at shapes.now pair.a).ball.r + (sphere_at shapes.now pair.b).ball.r }
    ensures size { result ≤ 2 ^ 27 }
{
    shapes.ball_of(pair.a).r as u64 + shapes.ball_of(pair.b).r as u64
}

/// The center of a sphere, in the box.
pub fn center(shapes: &Shapes, centers: &Centers, s: u32) -> Vec3
    requires sphere { s < sphere_count shapes.now }
    requires centers { AreInside shapes.now centers.now }
    ensures value { result ≡ center_at centers.now s }
    ensures size { Within (widened result) (2 ^ 36) }
    ensures place { EachBetween (pos 0) (pos MAX_POINT) result }
{
    let _scene = shapes.scene();
    centers.get(s)
}

/// The wall of a pair, which is one that the pair's sphere may meet.
pub fn wall_beside(shapes: &Shapes, pair: Pair) -> Wall
    requires pair { IsPair shapes.now pair }
    requires wall { sphere_count shapes.now ≤ pair.b }
    ensures value { result ≡ wall_at shapes.now pair.b }
    ensures fits { IsWallFor (sphere_at shapes.now pair.a).ball.r result.form }
{
    let _scene = shapes.scene();
    wall_of(shapes, pair.b)
}

/// A wall, by its number after the spheres.
#[tactic(auto, unfolding(dem_model::specs::Pairs::wall_at, dem_model::specs::Pairs::limit_of))]
pub fn wall_of(shapes: &Shapes, b: u32) -> Wall
    requires later { sphere_count shapes.now ≤ b }
    requires there { b < limit_of shapes.now }
    ensures value { result ≡ wall_at shapes.now b }
    ensures sound { IsWall (length shapes.now.materials) shapes.now.templates result }
{
    *shapes.scene().walls.get((b - shapes.spheres()) as usize)
}
