//! The job `run`: a scene is read, and its run is made on lists by two threads, and written.
ghost use Rattle.std.specs.Prelude.{◌≡◌, ◌+◌};
ghost use Rattle.dem_outside.specs.Change.{change, LosesAtMost};
ghost use Rattle.dem_model.specs.declared.limits.TheConstants as limits;
ghost use Rattle.dem_jobs.specs.Jobs.{run_job};
ghost use Rattle.dem_jobs.specs.Parts.{Does, Comes};
ghost use Rattle.dem_jobs.specs.Verdicts.{threads_of};

use crate::threads::write_by_threads;
use dem_bins::Grid;
use dem_jobs::{NotDone, Outcome, read_one_scene};
use dem_model::Scene;
use dem_outside::{BlankSink, Gate, Sink, Source};
use dem_shape::Shapes;
use dem_words::Order;
use std::alloc::Global;
use std::sync::Wait;
use std::thread::Threads;

/// Reads a scene and writes its output, and its notes where the order asks for them.
pub(crate) fn run<R: Threads + Wait + Sync, S: Source, K: Sink, N: Sink, G: Gate>(
    rt: &R,
    alloc: Global,
    order: &Order,
    source: &mut S,
    out: &mut K,
    note: &mut N,
    gate: &G,
) -> Result<Outcome, NotDone>
    ensures does { Does (run_job order.now) (change S.left S.faults source.old source.new) (change K.held K.faults out.old out.new)
        (change N.held N.faults note.old note.new) result }
    ensures taken { LosesAtMost (limits.MAX_TEXT + 1) (change S.left S.faults source.old source.new) }
{
    let scene = read_one_scene(alloc, source)?;
    run_scene(rt, alloc, order, &scene, out, note, gate)
}

// Makes the run of a scene and writes it.
fn run_scene<R: Threads + Wait + Sync, K: Sink, N: Sink, G: Gate>(
    rt: &R,
    alloc: Global,
    order: &Order,
    scene: &Scene,
    out: &mut K,
    note: &mut N,
    gate: &G,
) -> Result<Outcome, NotDone>
    ensures { Comes (threads_of order.now scene.now) (change K.held K.faults out.old out.new) (change N.held N.faults note.old note.new) result }
{
    let shapes = Shapes::new(alloc, scene)?;
    let grid = Grid::check(&shapes, order.drift, order.bin)?;
    if order.report {
        let last = write_by_threads(rt, alloc, &shapes, &grid, order.split, out, note, gate)?;
        return Ok(Outcome::from(last));
    }
    let last = write_by_threads(
        rt,
        alloc,
        &shapes,
        &grid,
        order.split,
        out,
        &mut BlankSink,
        gate,
    )?;
    Ok(Outcome::from(last))
}
