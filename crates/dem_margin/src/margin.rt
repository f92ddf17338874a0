//! How far a sphere may reach before a list is too old, and whether a pair is near.

ghost use Rattle.std.specs.Prelude.{◌≡◌, ◌+◌, ◌^◌, ◌<◌, ◌≤◌, not, nat_lt, unsigned_abs};
ghost use Rattle.dem_num.specs.Numbers.{AtMost};
ghost use Rattle.dem_num.specs.Vectors.{Within};
ghost use Rattle.dem_model.specs.Motion.{AreInside, IsPair};
ghost use Rattle.dem_model.specs.Centers.{center_at};
ghost use Rattle.dem_model.specs.Near.{drift_of, reach_of, spheres_near, wall_near_of, near as is_near};
ghost use Rattle.dem_model.specs.Pairs.{sphere_count, sphere_at, wall_at};
ghost use Rattle.dem_model.specs.declared.limits.TheConstants.{MAX_DRIFT};

use dem_force::{center, wall_beside};
use dem_model::{Pair, Steps};
use dem_num::{Wide3, narrow, place_difference};
use dem_shape::{Centers, Shapes};
use dem_wall::wall_near_by;
use std::sync::ledger::Ledger;

/// How far a sphere may reach in `drift` steps, in u per axis: its radius and how far it may move.
#[tactic(auto, unfolding(dem_model::specs::Near::reach_of))]
pub fn reach(shapes: &Shapes, drift: u32, sphere: u32) -> u64
    requires drift { drift ≤ MAX_DRIFT }
    requires sphere { sphere < sphere_count shapes.now }
    ensures value { result ≡ reach_of shapes.now drift sphere }
    ensures size { result ≤ 2 ^ 38 }
{
    shapes.ball_of(sphere).r as u64 + moved(shapes, drift, sphere)
}

/// How far a sphere may move in `drift` steps, in u per axis.
#[tactic(auto, unfolding(dem_model::specs::Near::drift_of))]
pub fn moved(shapes: &Shapes, drift: u32, sphere: u32) -> u64
    requires drift { drift ≤ MAX_DRIFT }
    requires sphere { sphere < sphere_count shapes.now }
    ensures value { result ≡ drift_of shapes.now drift sphere }
    ensures size { result ≤ 2 ^ 37 }
{
    drift as u64 * shapes.per_step(sphere)
}

/// Whether a pair is near: whether it may touch within `drift` steps after these centers. It counts one test.
pub fn near<L: Ledger>(
    shapes: &Shapes,
    centers: &Centers,
    pair: Pair,
    drift: u32,
    tests: &mut Steps<L>,
) -> bool
    requires pair { IsPair shapes.now pair }
    requires centers { AreInside shapes.now centers.now }
    requires drift { drift ≤ MAX_DRIFT }
    ensures value { result ≡ is_near shapes.now drift centers.now pair }
    ensures counted { tests.new ≡ tests.old + 1 }
{
    tests.tick();
    tested(shapes, centers, pair, drift)
}

/// Whether a pair is near, for a caller that counts the test itself.
#[tactic(auto, unfolding(dem_model::specs::Near::near))]
pub fn tested(shapes: &Shapes, centers: &Centers, pair: Pair, drift: u32) -> bool
    requires pair { IsPair shapes.now pair }
    requires centers { AreInside shapes.now centers.now }
    requires drift { drift ≤ MAX_DRIFT }
    ensures { result ≡ is_near shapes.now drift centers.now pair }
{
    if pair.b < shapes.spheres() {
        let first = center(shapes, centers, pair.a);
        let second = center(shapes, centers, pair.b);
        let reach = reach(shapes, drift, pair.a) + reach(shapes, drift, pair.b);
        within(place_difference(first, second), reach)
    } else {
        beside(shapes, centers, pair, drift)
    }
}

/// Whether a sphere is near a wall: whether it may touch it within `drift` steps after these centers.
pub fn beside(shapes: &Shapes, centers: &Centers, pair: Pair, drift: u32) -> bool
    requires pair { IsPair shapes.now pair }
    requires wall { sphere_count shapes.now ≤ pair.b }
    requires centers { AreInside shapes.now centers.now }
    requires drift { drift ≤ MAX_DRIFT }
    ensures { result ≡ wall_near_of (wall_at shapes.now pair.b) (center_at centers.now pair.a) (sphere_at shapes.now pair.a).ball.r (drift_of shapes.now drift pair.a) }
{
    let wall = wall_beside(shapes, pair);
    let normal = shapes.wall_normal(pair.b);
    let extra = moved(shapes, drift, pair.a);
    let place = center(shapes, centers, pair.a);
    wall_near_by(&wall, normal, place, shapes.ball_of(pair.a).r, extra)
}

/// Whether no component of a difference is greater than this reach in size.
#[tactic(auto, unfolding(dem_model::specs::Near::spheres_near))]
fn within(d: Wide3, reach: u64) -> bool
    requires { Within d (2 ^ 37) }
    ensures { result ≡ spheres_near d reach }
{
    within_axis(d.x, reach) && within_axis(d.y, reach) && within_axis(d.z, reach)
}

/// Whether a component is no greater than this reach in size.
fn within_axis(component: i128, reach: u64) -> bool
    requires { AtMost component (2 ^ 37) }
    ensures { result ≡ not (nat_lt reach (unsigned_abs component)) }
{
    !(reach < narrow(component).unsigned_abs())
}
