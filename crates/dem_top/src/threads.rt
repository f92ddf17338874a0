//! The run of a scene on lists, made by two threads, and written while it is made.
ghost use Rattle.std.specs.Prelude.{◌≡◌, ◌<◌};
ghost use Rattle.dem_outside.specs.Change.{change};
ghost use Rattle.dem_bins.specs.Bins.{IsGridOf};
ghost use Rattle.dem_jobs.specs.Parts.{RunsThreads, stop_by};

use dem_bins::Grid;
use dem_core::WorldStop;
use dem_crew::run_two;
use dem_model::{Last, Steps};
use dem_output::RunFault;
use dem_outside::{Gate, Sink};
use dem_shape::Shapes;
use std::alloc::Global;
use std::marker::Brand;
use std::sync::Wait;
use std::sync::ledger::{Blank, Ledger};
use std::thread::Threads;

/// Makes the run of a scene by two threads, with lists by this grid, and the contacts of a step by several threads where it is to be split; its output goes to `out`, the rows of its lists and its
/// tests to `note`.
pub(crate) fn write_by_threads<R: Threads + Wait + Sync, K: Sink, N: Sink, G: Gate>(
    rt: &R,
    alloc: Global,
    shapes: &Shapes,
    grid: &Grid,
    split: bool,
    out: &mut K,
    note: &mut N,
    gate: &G,
) -> Result<Last, WorldStop>
    requires { IsGridOf shapes.now grid.now }
    ensures { RunsThreads shapes.now grid.now.drift (change K.held K.faults out.old out.new) (change N.held N.faults note.old note.new) result }
{
    counted::<Brand, R, K, N, G>(
        rt,
        alloc,
        shapes,
        grid,
        split,
        out,
        note,
        gate,
        Blank::new(1),
    )
}

// The same with a counter of tests that nobody reads.
fn counted<L: Ledger, R: Threads + Wait + Sync, K: Sink, N: Sink, G: Gate>(
    rt: &R,
    alloc: Global,
    shapes: &Shapes,
    grid: &Grid,
    split: bool,
    out: &mut K,
    note: &mut N,
    gate: &G,
    blank: Blank,
) -> Result<Last, WorldStop>
    requires name { blank.name ≡ L.name }
    requires parts { blank.parts ≡ L.parts }
    requires some { 0 < L.parts }
    requires grid { IsGridOf shapes.now grid.now }
    ensures { RunsThreads shapes.now grid.now.drift (change K.held K.faults out.old out.new) (change N.held N.faults note.old note.new) result }
{
    let mut tests = Steps::<L>::new(blank);
    match run_two(rt, alloc, shapes, grid, split, out, note, gate, &mut tests) {
        Ok(ran) => Ok(ran.last),
        Err(fault) => Err(stop_of(fault)),
    }
}

// Why a run stopped, by the fault of one by two threads.
fn stop_of(fault: RunFault) -> WorldStop
    ensures { result ≡ stop_by fault }
{
    match fault {
        RunFault::WriteFault => WorldStop::WriteFault,
        RunFault::OutOfMemory => WorldStop::OutOfMemory,
    }
}
