//! The bodies of all clumps after a step, or the first limit that one of them passes.

ghost use Rattle.std.specs.Prelude.{◌≡◌, ◌<◌, ◌≤◌, ◌^◌, length};
ghost use Rattle.dem_model.specs.Motion.{AreSound};
ghost use Rattle.dem_model.specs.Step.{no_load};
ghost use Rattle.dem_force.specs.Loads.{AreLoads};
ghost use Rattle.dem_plain.specs.Inside.{Advances};

use crate::stop::Stop;
use dem_force::advance;
use dem_model::{Body, End, EndKind, List, Load};
use dem_shape::Shapes;
use std::alloc::Global;

/// The bodies after the step of this number under these loads, or the first limit that a clump passes.
pub fn advanced(
    alloc: Global,
    shapes: &Shapes,
    bodies: &[Body],
    loads: &[Load],
    step: u32,
) -> Result<List<Body>, Stop>
    requires sound { AreSound shapes.now bodies.now }
    requires loads { AreLoads shapes.now loads.now }
    ensures { Advances shapes.now step bodies.now loads.now result }
{
    let mut next = List::new(alloc);
    for k in 0..shapes.scene().clumps.len() {
        let load = loads[k];
        match advance(shapes, k as u32, &bodies[k], load.force, load.torque) {
            Ok(body) => next.push(body)?,
            Err(kind) => {
                return Err(Stop::Ended(End {
                    step,
                    kind,
                    clump: k as u32,
                }));
            }
        }
    }
    Ok(next)
}
