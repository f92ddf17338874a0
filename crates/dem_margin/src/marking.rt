//! Whether a pair may still touch before its list is too old.

ghost use Rattle.std.specs.Prelude.{◌≡◌, ◌+◌, ◌^◌, ◌<◌, ◌≤◌};
ghost use Rattle.dem_num.specs.Numbers.{AtMost};
ghost use Rattle.dem_num.specs.Vectors.{Within};
ghost use Rattle.dem_model.specs.Motion.{AreInside, IsPair};
ghost use Rattle.dem_model.specs.Pairs.{sphere_count, sphere_at};
ghost use Rattle.dem_model.specs.declared.limits.TheConstants.{MAX_DRIFT};
ghost use Rattle.dem_margin.specs.Marks.{left_of, spheres_may, may_touch as may};

use crate::margin::{beside, moved};
use dem_force::center;
use dem_model::Pair;
use dem_num::{Wide3, narrow, place_difference};
use dem_shape::{Centers, Shapes};

/// Whether a pair may touch within `steps` steps after these centers. It counts no test.
#[tactic(auto, unfolding(crate::specs::Marks::may_touch))]
pub fn may_touch(shapes: &Shapes, centers: &Centers, pair: Pair, steps: u32) -> bool
    requires pair { IsPair shapes.now pair }
    requires centers { AreInside shapes.now centers.now }
    requires steps { steps ≤ MAX_DRIFT }
    ensures { result ≡ may shapes.now steps centers.now pair }
{
    if pair.b < shapes.spheres() {
        let first = center(shapes, centers, pair.a);
        let second = center(shapes, centers, pair.b);
        let moves = moved(shapes, steps, pair.a) + moved(shapes, steps, pair.b);
        is_within(place_difference(first, second), moves, radii(shapes, pair))
    } else {
        beside(shapes, centers, pair, steps)
    }
}

/// The radii of a pair of spheres together, in u.
fn radii(shapes: &Shapes, pair: Pair) -> u64
    requires first { pair.a < sphere_count shapes.now }
    requires second { pair.b < sphere_count shapes.now }
    ensures value { result ≡ (sphere_at shapes.now pair.a).ball.r + (sphere_at shapes.now pair.b).ball.r }
    ensures size { result ≤ 2 ^ 27 }
{
    shapes.ball_of(pair.a).r as u64 + shapes.ball_of(pair.b).r as u64
}

/// Whether what is left of a distance, once it has shrunk by `moves` on each axis, is less than these radii.
#[tactic(auto, unfolding(crate::specs::Marks::spheres_may))]
fn is_within(d: Wide3, moves: u64, radii: u64) -> bool
    requires close { Within d (2 ^ 37) }
    requires radii_small { radii ≤ 2 ^ 27 }
    ensures { result ≡ spheres_may d moves radii }
{
    left(d.x, moves) + left(d.y, moves) + left(d.z, moves) < radii as u128 * radii as u128
}

/// The square of what is left of a distance along one axis.
#[tactic(auto, unfolding(crate::specs::Marks::left_of))]
fn left(e: i128, moves: u64) -> u128
    requires { AtMost e (2 ^ 37) }
    ensures value { result ≡ left_of e moves }
    ensures size { result ≤ 2 ^ 74 }
{
    let rest = narrow(e).unsigned_abs().saturating_sub(moves) as u128;
    rest * rest
}
