//! The job `sched`: a scene is read, and its run is made on lists by the given turns, and written.
ghost use Rattle.std.specs.Prelude.{◌≡◌, ◌+◌};
ghost use Rattle.dem_outside.specs.Change.{change, LosesAtMost};
ghost use Rattle.dem_model.specs.declared.limits.TheConstants as limits;
ghost use Rattle.dem_jobs.specs.Jobs.{sched_job};
ghost use Rattle.dem_jobs.specs.Parts.{Does, Comes};
ghost use Rattle.dem_jobs.specs.Verdicts.{sched_of};

use crate::outcome::{NotDone, Outcome};
use crate::reading::read_one_scene;
use crate::turns::write_by_turns;
use dem_bins::Grid;
use dem_model::Scene;
use dem_outside::{BlankSink, Sink, Source};
use dem_shape::Shapes;
use dem_words::Order;
use std::alloc::Global;

/// Reads a scene and writes its output, and its notes where the order asks for them.
pub(crate) fn sched<S: Source, K: Sink, N: Sink>(
    alloc: Global,
    order: &Order,
    source: &mut S,
    out: &mut K,
    note: &mut N,
) -> Result<Outcome, NotDone>
    ensures does { Does (sched_job order.now) (change S.left S.faults source.old source.new) (change K.held K.faults out.old out.new)
        (change N.held N.faults note.old note.new) result }
    ensures taken { LosesAtMost (limits.MAX_TEXT + 1) (change S.left S.faults source.old source.new) }
{
    let scene = read_one_scene(alloc, source)?;
    run_scene(alloc, order, &scene, out, note)
}

// Makes the run of a scene and writes it.
fn run_scene<K: Sink, N: Sink>(
    alloc: Global,
    order: &Order,
    scene: &Scene,
    out: &mut K,
    note: &mut N,
) -> Result<Outcome, NotDone>
    ensures { Comes (sched_of order.now scene.now) (change K.held K.faults out.old out.new) (change N.held N.faults note.old note.new) result }
{
    let shapes = Shapes::new(alloc, scene)?;
    let grid = Grid::check(&shapes, order.drift, order.bin)?;
    let turns = order.turns.as_slice();
    if order.report {
        let last = write_by_turns(alloc, &shapes, &grid, turns, out, note)?;
        return Ok(Outcome::from(last));
    }
    let last = write_by_turns(alloc, &shapes, &grid, turns, out, &mut BlankSink)?;
    Ok(Outcome::from(last))
}
