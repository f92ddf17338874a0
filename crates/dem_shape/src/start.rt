//! The bodies in which a run starts.

ghost use Rattle.std.specs.Prelude.{◌≡◌, IfOk};
ghost use Rattle.dem_model.specs.Plain.{first_state};

use dem_model::{Body, List, OutOfMemory, Scene};
use std::alloc::Global;

/// The bodies of the clumps at the start.
pub fn first_bodies(alloc: Global, scene: &Scene) -> Result<List<Body>, OutOfMemory>
    ensures { IfOk result (λ bodies. bodies ≡ (first_state scene.now).bodies) }
{
    let mut bodies = List::new(alloc);
    for clump in scene.clumps.as_slice() {
        bodies.push(clump.body)?;
    }
    Ok(bodies)
}
