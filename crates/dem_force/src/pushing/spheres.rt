//! Where all spheres are in a state, and how they move: made once a step.

ghost use Rattle.std.specs.Prelude.{◌≡◌, IfOk};
ghost use Rattle.dem_model.specs.Centers.{centers_of};
ghost use Rattle.dem_model.specs.Motion.{AreSound};
ghost use Rattle.dem_force.specs.Sides.{AreSides};
ghost use Rattle.dem_force.specs.Places.{HasPlaces};
ghost use Rattle.dem_shape.specs.Matrices.{AreMatrices};

use crate::pushing::side_list::Sides;
use dem_model::{Body, OutOfMemory};
use dem_shape::{Centers, Matrices, Shapes};
use std::alloc::Global;

/// A matrix per clump, and a center and a side per sphere.
#[derive(Drop)]
pub struct Spheres {
    pub matrices: Matrices,
    pub centers: Centers,
    pub sides: Sides,
}

impl Spheres {
    /// Room for the spheres of these shapes.
    pub fn new(alloc: Global, shapes: &Shapes) -> Result<Spheres, OutOfMemory>
        ensures { IfOk result (HasPlaces shapes.now) }
    {
        Ok(Spheres {
            matrices: Matrices::new(alloc, shapes)?,
            centers: Centers::new(alloc, shapes)?,
            sides: Sides::new(alloc, shapes)?,
        })
    }

    /// Sets all of it to what the bodies make it.
    pub fn fill(&mut self, shapes: &Shapes, bodies: &[Body])
        requires made { HasPlaces shapes.now self.old }
        requires sound { AreSound shapes.now bodies.now }
        ensures matrices { AreMatrices shapes.now bodies.now self.new.matrices }
        ensures centers { self.new.centers ≡ centers_of shapes.now bodies.now }
        ensures sides { AreSides shapes.now bodies.now self.new.sides }
    {
        self.matrices.fill(shapes, bodies);
        self.centers.fill_by(shapes, bodies, &self.matrices);
        self.sides.fill(shapes, bodies, &self.matrices);
    }
}
