//! The rest of a run, made from a state and written.
ghost use Rattle.dem_model.specs.Fit.{IsFit};
ghost use Rattle.dem_save.specs.Resting.{WritesRest};

use crate::fault::RestFault;
use dem_model::{Last, Scene, State};
use dem_output::{RunFault, write_rest};
use dem_outside::Sink;
use dem_plain::PlainRun;
use std::alloc::Global;

/// Makes the run from a fit state and writes what follows its frame, each row as it comes: the frames that are due after
/// it, and the end row. Answers how the run ended; where a put fails or memory is refused, `out` gained a prefix of that.
pub fn rest<K: Sink>(
    alloc: Global,
    scene: &Scene,
    state: State,
    out: &mut K,
) -> Result<Last, RestFault>
    requires fit { IsFit scene.now state }
    ensures { WritesRest scene.now state (K.held out.old) (K.held out.new) (K.faults out.old) (K.faults out.new) result }
{
    let run = PlainRun::resume(alloc, scene, state)?;
    match write_rest(scene, run, out) {
        Ok(last) => Ok(last),
        Err(RunFault::WriteFault) => Err(RestFault::WriteFault),
        Err(RunFault::OutOfMemory) => Err(RestFault::OutOfMemory),
    }
}
