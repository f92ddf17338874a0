//! The job `gen`: a scene is made from a seed and a number of clumps, its run is made on lists, and four rows tell what it came to.
ghost use Rattle.std.specs.Prelude.{◌≡◌};
ghost use Rattle.dem_outside.specs.Change.{Stream, change};
ghost use Rattle.dem_jobs.specs.Parts.{Comes, idle};
ghost use Rattle.dem_jobs.specs.Summaries.{gen_of, gen_verdict};

use crate::made_rows::write_summary;
use crate::outcome::{NotDone, Outcome};
use crate::summary::sum_up;
use dem_bins::Grid;
use dem_gen::made_scene;
use dem_model::Scene;
use dem_outside::Sink;
use dem_shape::Shapes;
use dem_words::Order;
use std::alloc::Global;

/// Makes a scene and its run, and writes what it came to. It reads nothing.
pub(crate) fn summarize<K: Sink>(
    alloc: Global,
    order: &Order,
    out: &mut K,
) -> Result<Outcome, NotDone>
    ensures { (note : Stream) → Comes (gen_verdict order.now) (change K.held K.faults out.old out.new) (idle note) result }
{
    let scene = made_scene(alloc, order.seed, order.count)?;
    run_made(alloc, order, &scene, out)
}

// Makes the run of a scene and writes what it came to.
fn run_made<K: Sink>(
    alloc: Global,
    order: &Order,
    scene: &Scene,
    out: &mut K,
) -> Result<Outcome, NotDone>
    ensures { (note : Stream) → Comes (gen_of order.now scene.now) (change K.held K.faults out.old out.new) (idle note) result }
{
    let shapes = Shapes::new(alloc, scene)?;
    let grid = Grid::check(&shapes, order.drift, order.bin)?;
    let summary = sum_up(alloc, &shapes, &grid)?;
    write_summary(out, order.seed, order.count, &summary)?;
    Ok(Outcome::from(summary.last))
}
