//! The run of a scene on lists, made by given turns and then to its end, and written while it is made.
ghost use Rattle.std.specs.Prelude.{◌≡◌, ◌<◌, false};
ghost use Rattle.dem_outside.specs.Change.{change};
ghost use Rattle.dem_outside.specs.Faults.{Counts};
ghost use Rattle.dem_outside.specs.Known.{PutAppends};
ghost use Rattle.dem_model.specs.Frames.{tests_text};
ghost use Rattle.dem_bins.specs.Bins.{IsGridOf};
ghost use Rattle.dem_jobs.specs.Parts.{RunsTurns, RunsFrom};

use dem_bins::Grid;
use dem_core::{World, WorldStop};
use dem_frame::{WriteFault, write_tests};
use dem_model::{Last, Steps, Turn};
use dem_outside::Sink;
use dem_shape::Shapes;
use std::alloc::Global;
use std::marker::Brand;
use std::sync::ledger::{Blank, Ledger};

/// Makes the run of a scene by these turns and then to its end, with lists by this grid; its output goes to
/// `out`, the rows of its lists and its tests to `note`.
pub(crate) fn write_by_turns<K: Sink, N: Sink>(
    alloc: Global,
    shapes: &Shapes,
    grid: &Grid,
    turns: &[Turn],
    out: &mut K,
    note: &mut N,
) -> Result<Last, WorldStop>
    requires { IsGridOf shapes.now grid.now }
    ensures { RunsTurns shapes.now grid.now.drift turns.now (change K.held K.faults out.old out.new) (change N.held N.faults note.old note.new) result }
{
    counted::<Brand, K, N>(alloc, shapes, grid, turns, out, note, Blank::new(1))
}

// The same with a counter of tests that nobody reads.
fn counted<L: Ledger, K: Sink, N: Sink>(
    alloc: Global,
    shapes: &Shapes,
    grid: &Grid,
    turns: &[Turn],
    out: &mut K,
    note: &mut N,
    blank: Blank,
) -> Result<Last, WorldStop>
    requires name { blank.name ≡ L.name }
    requires parts { blank.parts ≡ L.parts }
    requires some { 0 < L.parts }
    requires grid { IsGridOf shapes.now grid.now }
    ensures { RunsTurns shapes.now grid.now.drift turns.now (change K.held K.faults out.old out.new) (change N.held N.faults note.old note.new) result }
{
    let mut tests = Steps::<L>::new(blank);
    match World::new(alloc, shapes, grid, out) {
        Ok(mut world) => {
            let answer = turn_by_turn(&mut world, turns, out, note, &mut tests);
            drop(world);
            answer
        }
        Err(stop) => Err(stop),
    }
}

// Makes these turns of a world that stands at its beginning, and those that are left; and writes the row of its tests.
fn turn_by_turn<L: Ledger, K: Sink, N: Sink>(
    world: &mut World,
    turns: &[Turn],
    out: &mut K,
    note: &mut N,
    tests: &mut Steps<L>,
) -> Result<Last, WorldStop>
    requires { world.old.stopped ≡ false }
    ensures { RunsFrom world.old turns.now (change K.held K.faults out.old out.new) (change N.held N.faults note.old note.new) result }
{
    for turn in turns {
        world.turn(*turn, out, note, tests)?;
    }
    let last = world.finish(out, note, tests)?;
    write_end(note, world)?;
    Ok(last)
}

// Writes the row of the tests of a world.
fn write_end<N: Sink>(note: &mut N, world: &World) -> Result<(), WriteFault>
    ensures count { Counts (N.faults note.old) (N.faults note.new) result }
    ensures written { PutAppends (N.held note.old) (N.held note.new) result (tests_text world.now.world.course.tests) }
{
    write_tests(note, world.tests_made())
}
