//! The sides of all spheres in a state, made once for all contacts of a step.

ghost use Rattle.std.specs.Prelude.{◌≡◌, ◌<◌, ◌≤◌, ◌^◌, length, IfOk, slice_index_or};
ghost use Rattle.dem_num.specs.Vectors.{widened, Within};
ghost use Rattle.dem_model.specs.Motion.{AreSound, IsPair};
ghost use Rattle.dem_model.specs.Pairs.{sphere_count};
ghost use Rattle.dem_model.specs.declared.limits.TheConstants.{MAX_DISPLACEMENT};
ghost use Rattle.dem_model.specs.Ranges.{IsTouch, IsSecond, IsSmall, wall_side_of};
ghost use Rattle.dem_model.specs.Step.{push_of, second_side_of};
ghost use Rattle.dem_force.specs.Sides.{AreSides};
ghost use Rattle.dem_shape.specs.Matrices.{AreMatrices};

use crate::pushing::law::contact;
use crate::pushing::mixing::wall_side;
use crate::pushing::sides::{law_between, side_by};
use dem_model::{Body, OutOfMemory, Pair, Push, Side, Touch};
use dem_num::Vec3;
use dem_shape::{Matrices, Shapes};
use std::alloc::Global;
use std::marker::Model;

/// A side per sphere, in the order of the spheres' numbers.
#[derive(Drop)]
pub struct Sides {
    items: Vec<Side>,
}

impl Model for Sides {
    ghost use Rattle.std.specs.Prelude.{List};
    ghost use Rattle.dem_model.specs.declared.law.Side.{Side};

    ghost Value = { List Side };

    ghost view = { λ a. a.items.items };
}

impl Sides {
    /// Room for the sides of these shapes.
    pub fn new(alloc: Global, shapes: &Shapes) -> Result<Sides, OutOfMemory>
        ensures { IfOk result (λ x. length x ≡ sphere_count shapes.now) }
    {
        let mut items = Vec::new(alloc);
        for _ in 0..shapes.spheres() {
            if items.push(wall_side()).is_err() {
                return Err(OutOfMemory);
            }
        }
        Ok(Sides { items })
    }

    /// Sets every side to what the bodies make it, of which these are the matrices.
    pub fn fill(&mut self, shapes: &Shapes, bodies: &[Body], matrices: &Matrices)
        requires made { length self.old ≡ sphere_count shapes.now }
        requires sound { AreSound shapes.now bodies.now }
        requires matrices { AreMatrices shapes.now bodies.now matrices.now }
        ensures { AreSides shapes.now bodies.now self.new }
    {
        for s in 0..shapes.spheres() {
            self.items[s as usize] = side_by(shapes, bodies, matrices, s);
        }
    }

    /// The side of a sphere.
    fn get(&self, s: u32) -> &Side
        requires { s < length self.now }
        ensures { slice_index_or self.now s wall_side_of ≡ result.now }
    {
        &self.items[s as usize]
    }
}

/// What a touching pair does, from sides that were made from these bodies, with the displacement that is stored for it.
/// The bodies aren't looked at again: they stand here for what is promised.
#[tactic(auto, unfolding(dem_model::specs::Step::push_of))]
pub fn push_from(
    shapes: &Shapes,
    bodies: &[Body],
    sides: &Sides,
    pair: Pair,
    touch: Touch,
    h: Vec3,
) -> Push
    requires pair { IsPair shapes.now pair }
    requires sides { AreSides shapes.now bodies.now sides.now }
    requires touch { IsTouch touch }
    requires stored { Within (widened h) MAX_DISPLACEMENT }
    ensures value { result ≡ push_of shapes.now bodies.now pair touch h }
    ensures size { IsSmall result }
{
    let law = law_between(shapes, pair);
    let first = sides.get(pair.a);
    let wall = wall_side();
    let second = second_of(shapes, bodies, sides, &wall, pair);
    contact(&law, first, second, touch, h)
}

/// The second side of a pair: that of its sphere, or this one, which is a wall's.
#[tactic(auto, unfolding(dem_model::specs::Step::second_side_of))]
fn second_of<'a>(
    shapes: &Shapes,
    bodies: &[Body],
    sides: &'a Sides,
    wall: &'a Side,
    pair: Pair,
) -> &'a Side
    requires pair { IsPair shapes.now pair }
    requires sides { AreSides shapes.now bodies.now sides.now }
    requires wall { wall.now ≡ wall_side_of }
    requires second { IsSecond wall.now }
    ensures value { result.now ≡ second_side_of shapes.now bodies.now pair }
    ensures second { IsSecond result.now }
{
    let _made_from = bodies;
    if pair.b < shapes.spheres() {
        sides.get(pair.b)
    } else {
        wall
    }
}
