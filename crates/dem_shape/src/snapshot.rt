//! The bodies of all clumps at a step, as one thread hands them to another.

ghost use Rattle.std.specs.Prelude.{◌≡◌, IfOk, replicate};
ghost use Rattle.dem_model.specs.Centers.{still_body};

use dem_model::{Body, List, OutOfMemory, UNIT};
use dem_num::{Quat, ZERO};
use std::alloc::Global;

/// The number of a step, and the body of each clump there.
#[derive(Drop)]
pub struct Snapshot {
    pub step: u32,
    pub bodies: List<Body>,
}

impl Snapshot {
    /// Room for this many bodies: step 0, and each body at rest at the origin with the default quaternion.
    pub fn new(alloc: Global, clumps: u32) -> Result<Snapshot, OutOfMemory>
        ensures step { IfOk result (λ snap. snap.step ≡ 0) }
        ensures bodies { IfOk result (λ snap. snap.bodies ≡ replicate clumps still_body) }
    {
        let mut bodies = List::new(alloc);
        for _ in 0..clumps {
            bodies.push(at_rest())?;
        }
        Ok(Snapshot { step: 0, bodies })
    }
}

/// A body at rest at the origin.
fn at_rest() -> Body
    ensures { result ≡ still_body }
{
    let q = Quat {
        a: UNIT as i64,
        b: 0,
        c: 0,
        d: 0,
    };
    Body {
        p: ZERO,
        q,
        v: ZERO,
        w: ZERO,
    }
}
