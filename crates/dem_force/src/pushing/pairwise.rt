//! The contact of one pair by itself: from the bodies of its clumps alone, or from what was made ahead; no test is counted.

ghost use Rattle.std.specs.Prelude.{◌≡◌, IfSome, Option, Some, None};
ghost use Rattle.std.specs.Option.{option_map};
ghost use Rattle.dem_num.specs.Vectors.{widened, Within};
ghost use Rattle.dem_model.specs.Centers.{touch_of};
ghost use Rattle.dem_model.specs.Motion.{AreInside, IsPair};
ghost use Rattle.dem_model.specs.Ranges.{IsSecond, IsSmall};
ghost use Rattle.dem_model.specs.Sound.{IsBodyOf};
ghost use Rattle.dem_model.specs.Step.{clump_of_sphere, meeting};
ghost use Rattle.dem_model.specs.declared.limits.TheConstants.{MAX_DISPLACEMENT};
ghost use Rattle.dem_force.specs.Contact.{contact_between, lent, second_side_with, IsSecondBody};
ghost use Rattle.dem_force.specs.Places.{meeting_with};
ghost use Rattle.dem_force.specs.Sides.{AreSides};
ghost use Rattle.dem_force.specs.Stored.{IsStored};

use crate::pushing::law::contact;
use crate::pushing::meeting::push_at;
use crate::pushing::mixing::wall_side;
use crate::pushing::sides::{law_between, side_of};
use crate::pushing::spheres::Spheres;
use crate::touching::pairs::pair_touch;
use dem_model::{Body, Pair, Push, Side};
use dem_num::Vec3;
use dem_shape::{Centers, Shapes};

/// What a pair does, or None where it doesn't touch. `a` is the body of the clump of the pair's first, `b` that of its
/// second, None where that is a wall; `h0` is the stored displacement, zero where none is.
#[tactic(auto, unfolding(crate::specs::Contact::contact_between))]
pub fn pair_contact(
    shapes: &Shapes,
    centers: &Centers,
    a: &Body,
    b: Option<&Body>,
    pair: Pair,
    h0: Vec3,
) -> Option<Push>
    requires pair { IsPair shapes.now pair }
    requires centers { AreInside shapes.now centers.now }
    requires first { IsBodyOf shapes.now (clump_of_sphere shapes.now pair.a) a.now }
    requires second { IsSecondBody shapes.now pair (lent b) }
    requires stored { Within (widened h0) MAX_DISPLACEMENT }
    ensures value { result ≡ option_map (contact_between shapes.now a.now (lent b.entry) pair h0) (touch_of shapes.now centers.now pair) }
    ensures small { IfSome result IsSmall }
{
    let touch = pair_touch(shapes, centers, pair)?;
    let law = law_between(shapes, pair);
    let first = side_of(shapes, a, pair.a);
    let second = second_side(shapes, pair, b);
    Some(contact(&law, &first, &second, touch, h0))
}

/// The second side of a pair, from the body of its clump, or a wall's where there is none.
#[tactic(auto, unfolding(crate::specs::Contact::second_side_with))]
fn second_side(shapes: &Shapes, pair: Pair, b: Option<&Body>) -> Side
    requires { IsSecondBody shapes.now pair (lent b) }
    ensures value { result ≡ second_side_with shapes.now pair (lent b.entry) }
    ensures second { IsSecond result }
{
    match b {
        Some(body) => side_of(shapes, body, pair.b),
        None => wall_side(),
    }
}

/// What a pair does where it touches, from what is held of it.
pub fn pushed_uncounted(
    shapes: &Shapes,
    spheres: &Spheres,
    bodies: &[Body],
    pair: Pair,
    held: Option<Vec3>,
) -> Option<Push>
    requires pair { IsPair shapes.now pair }
    requires centers { AreInside shapes.now spheres.now.centers }
    requires sides { AreSides shapes.now bodies.now spheres.now.sides }
    requires held { IsStored held }
    ensures value { option_map (meeting_with pair) result ≡ meeting shapes.now bodies.now spheres.now.centers pair held }
    ensures small { IfSome result IsSmall }
{
    match pair_touch(shapes, &spheres.centers, pair) {
        Some(touch) => Some(push_at(shapes, spheres, bodies, pair, touch, held)),
        None => None,
    }
}
