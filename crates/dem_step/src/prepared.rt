//! What a step needs of the bodies alone, made ahead of it or at its start.

ghost use Rattle.std.specs.Prelude.{◌≡◌, true, false, length, IfOk};
ghost use Rattle.dem_model.specs.Motion.{AreSound};
ghost use Rattle.dem_step.specs.Prepared.{ArePrepared, CanPrepare, IsUnprepared};

use crate::stored::StoredBodies;
use dem_force::Spheres;
use dem_model::{Body, List, OutOfMemory};
use dem_shape::{Shapes, first_bodies};
use std::alloc::Global;

/// The bodies unpacked, and where all spheres are and how they move; whether that is so for the bodies as they are now.
#[derive(Drop)]
pub struct Prepared {
    pub ready: bool,
    pub unpacked: List<Body>,
    pub spheres: Spheres,
}

impl Prepared {
    /// Room for it, not ready.
    pub fn new(alloc: Global, shapes: &Shapes) -> Result<Prepared, OutOfMemory>
        ensures { IfOk result (IsUnprepared shapes.now) }
    {
        Ok(Prepared {
            ready: false,
            unpacked: first_bodies(alloc, shapes.scene())?,
            spheres: Spheres::new(alloc, shapes)?,
        })
    }

    /// Makes it, unless it is ready.
    pub fn make(&mut self, shapes: &Shapes, bodies: &StoredBodies)
        requires sound { AreSound shapes.now bodies.now }
        requires may { CanPrepare shapes.now bodies.now self.old }
        ensures { ArePrepared shapes.now bodies.now self.new.unpacked self.new.spheres }
    {
        if !self.ready {
            bodies.unpack_into(&mut self.unpacked);
            self.spheres.fill(shapes, self.unpacked.as_slice());
            self.ready = true;
        }
    }
}
