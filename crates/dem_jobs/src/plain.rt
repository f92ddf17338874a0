//! The job `plain`: a scene is read, and its plain run is made and written.
ghost use Rattle.std.specs.Prelude.{◌≡◌, ◌+◌};
ghost use Rattle.dem_outside.specs.Change.{change, LosesAtMost};
ghost use Rattle.dem_model.specs.declared.limits.TheConstants as limits;
ghost use Rattle.dem_jobs.specs.Jobs.{plain_job};
ghost use Rattle.dem_jobs.specs.Parts.{DoesQuietly};

use crate::outcome::{NotDone, Outcome};
use crate::reading::read_one_scene;
use dem_output::write_run;
use dem_outside::{Sink, Source};
use std::alloc::Global;

/// Reads a scene and writes its output.
pub(crate) fn plain<S: Source, K: Sink>(
    alloc: Global,
    source: &mut S,
    out: &mut K,
) -> Result<Outcome, NotDone>
    ensures does { DoesQuietly plain_job (change S.left S.faults source.old source.new) (change K.held K.faults out.old out.new) result }
    ensures taken { LosesAtMost (limits.MAX_TEXT + 1) (change S.left S.faults source.old source.new) }
{
    let scene = read_one_scene(alloc, source)?;
    Ok(Outcome::from(write_run(alloc, &scene, out)?))
}
