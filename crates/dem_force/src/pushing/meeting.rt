//! One pair of a step: whether it touches, and what it does then.

ghost use Rattle.std.specs.Prelude.{◌≡◌, ◌+◌, ◌^◌, ◌<◌, ◌≤◌, IfSome, Some};
ghost use Rattle.std.specs.Option.{option_map, unwrap_or};
ghost use Rattle.dem_num.specs.Vectors.{widened, narrowed, no_vector, Within};
ghost use Rattle.dem_model.specs.Centers.{touch_of};
ghost use Rattle.dem_model.specs.Motion.{AreInside, IsPair};
ghost use Rattle.dem_model.specs.Ranges.{IsSmall, IsTouch};
ghost use Rattle.dem_model.specs.Step.{meeting};
ghost use Rattle.dem_model.specs.declared.limits.TheConstants.{MAX_DISPLACEMENT};
ghost use Rattle.dem_force.specs.Places.{meeting_with};
ghost use Rattle.dem_force.specs.Sides.{AreSides};
ghost use Rattle.dem_force.specs.Stored.{IsStored};

use crate::pushing::pairwise::pushed_uncounted;
use crate::pushing::side_list::push_from;
use crate::pushing::spheres::Spheres;
use dem_model::{Body, Pair, Push, Steps, Touch};
use dem_num::{Vec3, ZERO};
use dem_shape::Shapes;
use std::sync::ledger::Ledger;

/// What a pair does where it touches, from what is held of it. It counts one test.
pub fn pushed<L: Ledger>(
    shapes: &Shapes,
    spheres: &Spheres,
    bodies: &[Body],
    pair: Pair,
    held: Option<Vec3>,
    tests: &mut Steps<L>,
) -> Option<Push>
    requires pair { IsPair shapes.now pair }
    requires centers { AreInside shapes.now spheres.now.centers }
    requires sides { AreSides shapes.now bodies.now spheres.now.sides }
    requires held { IsStored held }
    ensures value { option_map (meeting_with pair) result ≡ meeting shapes.now bodies.now spheres.now.centers pair held }
    ensures small { IfSome result IsSmall }
    ensures counted { tests.new ≡ tests.old + 1 }
{
    tests.tick();
    pushed_uncounted(shapes, spheres, bodies, pair, held)
}

/// What a pair does that touches so, from what is held of it.
pub fn push_at(
    shapes: &Shapes,
    spheres: &Spheres,
    bodies: &[Body],
    pair: Pair,
    touch: Touch,
    held: Option<Vec3>,
) -> Push
    requires pair { IsPair shapes.now pair }
    requires sides { AreSides shapes.now bodies.now spheres.now.sides }
    requires touches { touch_of shapes.now spheres.now.centers pair ≡ Some touch }
    requires ranges { IsTouch touch }
    requires held { IsStored held }
    ensures value { Some (meeting_with pair result) ≡ meeting shapes.now bodies.now spheres.now.centers pair held }
    ensures small { IsSmall result }
{
    push_from(shapes, bodies, &spheres.sides, pair, touch, or_none(held))
}

/// A displacement, or none.
fn or_none(held: Option<Vec3>) -> Vec3
    requires { IsStored held }
    ensures value { result ≡ unwrap_or held (narrowed no_vector) }
    ensures size { Within (widened result) MAX_DISPLACEMENT }
{
    match held {
        Some(h) => h,
        None => ZERO,
    }
}
