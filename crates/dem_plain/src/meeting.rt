//! One pair of the plain step: what is held for it, and what it does where it touches.

ghost use Rattle.std.specs.Prelude.{◌≡◌, ◌<◌, ◌≤◌, ◌^◌, IfSome, All};
ghost use Rattle.std.specs.Option.{option_map};
ghost use Rattle.dem_num.specs.Vectors.{widened, Within};
ghost use Rattle.dem_model.specs.Centers.{touch_of};
ghost use Rattle.dem_model.specs.Motion.{AreInside, IsPair};
ghost use Rattle.dem_model.specs.Ranges.{IsSmall, IsTouch};
ghost use Rattle.dem_model.specs.Step.{held_at, meeting, same_pair};
ghost use Rattle.dem_force.specs.Places.{meeting_with};
ghost use Rattle.dem_force.specs.Sides.{AreSides};
ghost use Rattle.dem_force.specs.Stored.{AreStored, IsStored};

use dem_force::{Spheres, push_at, touch};
use dem_model::{Body, Held, Pair, Push, Steps, Touch};
use dem_num::Vec3;
use dem_shape::{Centers, Shapes};
use std::marker::Brand;
use std::sync::ledger::{Blank, Ledger};

/// What a pair does where it touches. What is held is looked up after the test, since few of all pairs touch.
pub fn push_of(
    shapes: &Shapes,
    spheres: &Spheres,
    bodies: &[Body],
    held: &[Held],
    pair: Pair,
) -> Option<Push>
    requires pair { IsPair shapes.now pair }
    requires centers { AreInside shapes.now spheres.now.centers }
    requires sides { AreSides shapes.now bodies.now spheres.now.sides }
    requires stored { AreStored held.now }
    ensures value { option_map (meeting_with pair) result ≡ meeting shapes.now bodies.now spheres.now.centers pair (held_at held.now pair) }
    ensures small { IfSome result IsSmall }
{
    match uncounted::<Brand>(shapes, &spheres.centers, pair, Blank::new(1)) {
        Some(touch) => Some(push_at(
            shapes,
            spheres,
            bodies,
            pair,
            touch,
            displacement(held, pair),
        )),
        None => None,
    }
}

/// Whether and how a pair touches; the test is counted on a counter that nobody reads.
fn uncounted<L: Ledger>(
    shapes: &Shapes,
    centers: &Centers,
    pair: Pair,
    blank: Blank,
) -> Option<Touch>
    requires name { blank.name ≡ L.name }
    requires parts { blank.parts ≡ L.parts }
    requires some { 0 < L.parts }
    requires pair { IsPair shapes.now pair }
    requires centers { AreInside shapes.now centers.now }
    ensures value { result ≡ touch_of shapes.now centers.now pair }
    ensures ranges { IfSome result IsTouch }
{
    let mut tests = Steps::<L>::new(blank);
    touch(shapes, centers, pair, &mut tests)
}

/// The displacement that is held for a pair, where there is one.
pub fn displacement(held: &[Held], pair: Pair) -> Option<Vec3>
    requires { AreStored held.now }
    ensures value { result ≡ held_at held.now pair }
    ensures small { IsStored result }
{
    for entry in held {
        if is_same(entry.pair, pair) {
            return Some(entry.h);
        }
    }
    None
}

/// Whether two pairs are one.
#[tactic(auto, unfolding(dem_model::specs::Step::same_pair))]
fn is_same(p: Pair, q: Pair) -> bool
    ensures { result ≡ same_pair p q }
{
    p.a == q.a && p.b == q.b
}
