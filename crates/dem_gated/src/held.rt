//! A run by two threads through a gate.

ghost use Rattle.std.specs.Prelude.{◌≡◌, ◌<◌};
ghost use Rattle.dem_bins.specs.Bins.{IsGridOf};

use crate::report::Report;
use dem_bins::Grid;
use dem_crew::{Ran, run_two};
use dem_model::{List, OutOfMemory, Scene, Steps};
use dem_output::RunFault;
use dem_outside::{HoldGate, MemSink, Point};
use dem_shape::Shapes;
use std::alloc::Global;
use std::marker::Brand;
use std::sync::Wait;
use std::sync::ledger::{Blank, Ledger};
use std::thread::Threads;

/// The drift limit, in steps.
const DRIFT: u32 = 20;

/// The room of each sink, in bytes.
const ROOM: u32 = 1 << 22;

/// Makes the run of a scene by two threads, of which one waits at its fourth step or its second list for the other. A scene for which
/// the grid is refused has no run.
pub fn held_run<R: Threads + Wait + Sync>(
    rt: &R,
    alloc: Global,
    scene: &Scene,
) -> Result<Report, RunFault> {
    let shapes = Shapes::new(alloc, scene)?;
    let Ok(grid) = Grid::check(&shapes, DRIFT, 0) else {
        return Err(RunFault::OutOfMemory);
    };
    let gate = HoldGate::meet(Point::Step, 4, Point::Deliver, 2);
    let mut out = sink(alloc)?;
    let mut note = sink(alloc)?;
    let ran = through::<R, Brand>(
        rt,
        alloc,
        &shapes,
        &grid,
        &mut out,
        &mut note,
        &gate,
        Blank::new(1),
    )?;
    Ok(Report {
        ran,
        bytes: out.held().len(),
        sum: checksum(out.held()),
        arrived: gate.arrived(),
        gave_up: gate.gave_up(),
        note,
    })
}

/// Makes the run through the gate, with its tests counted on a counter that nobody reads.
fn through<R: Threads + Wait + Sync, L: Ledger>(
    rt: &R,
    alloc: Global,
    shapes: &Shapes,
    grid: &Grid,
    out: &mut MemSink,
    note: &mut MemSink,
    gate: &HoldGate,
    blank: Blank,
) -> Result<Ran, RunFault>
    requires name { blank.name ≡ L.name }
    requires parts { blank.parts ≡ L.parts }
    requires some { 0 < L.parts }
    requires grid { IsGridOf shapes.now grid.now }
{
    let mut tests = Steps::<L>::new(blank);
    run_two(rt, alloc, shapes, grid, false, out, note, gate, &mut tests)
}

/// A sink at which no put fails while it has room.
fn sink(alloc: Global) -> Result<MemSink, OutOfMemory> {
    MemSink::new(alloc, ROOM, List::new(alloc))
}

/// A number that other bytes hardly have: the hash of Fowler, Noll and Vo, of 64 bits.
fn checksum(bytes: &[u8]) -> u64 {
    let mut sum: u64 = 14_695_981_039_346_656_037;
    for &byte in bytes {
        sum = (sum ^ u64::from(byte)).wrapping_mul(1_099_511_628_211);
    }
    sum
}
