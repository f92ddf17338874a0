//! Dynamics: makes a run on the lists that come to it through the exchange.

ghost use Rattle.std.specs.Prelude.{◌≡◌, ◌+◌, ◌≤◌, [], Some, true, length, IfOk, OnErr};
ghost use Rattle.dem_outside.specs.Known.{AppendsPrefix};
ghost use Rattle.dem_model.specs.Exchange.{terms_of};
ghost use Rattle.dem_model.specs.Output.{output_of};
ghost use Rattle.dem_bins.specs.Bins.{IsGridOf};
ghost use Rattle.dem_core.specs.Worlds.{HasFaults};
ghost use Rattle.dem_crew.specs.Running.{HasRun, HasNoted, HasRunFaults};

use crate::ran::Ran;
use crate::work::Work;
use dem_bins::Grid;
use dem_core::{Course, WorldStop};
use dem_model::Steps;
use dem_output::RunFault;
use dem_outside::{Gate, Sink};
use dem_shape::Shapes;
use dem_swap::{DynSeat, Parcel, Swap};
use std::alloc::Global;
use std::sync::Wait;
use std::sync::ledger::Ledger;
use std::thread::Threads;

/// Makes the run: posts its states, takes the lists that come back into use, and steps as long as the list in use isn't too old.
/// Writes the output to `out`, and to `note` a row for each list and one for the tests. Raises the stop before it leaves, however
/// that is. `tests` counts the pairs that the steps test. Where a put fails or memory is refused, `out` and `note` have prefixes of
/// such.
pub fn dynamics<R: Threads + Wait + Sync, K: Sink, N: Sink, G: Gate, L: Ledger>(
    rt: &R,
    alloc: Global,
    swap: &Swap,
    seat: &mut DynSeat,
    parcel: Parcel,
    shapes: &Shapes,
    grid: &Grid,
    split: bool,
    out: &mut K,
    note: &mut N,
    gate: &G,
    tests: &mut Steps<L>,
) -> Result<Ran, RunFault>
    requires grid { IsGridOf shapes.now grid.now }
    requires seat { seat.old.table ≡ swap.now }
    requires terms { seat.old.view.terms ≡ Some (terms_of shapes.now grid.now.drift) }
    requires none_posted { seat.old.view.posted ≡ [] }
    requires none_collected { seat.old.view.collected ≡ 0 }
    requires room { length parcel.snap.bodies ≡ length shapes.now.clumps }
    ensures raised { seat.new.view.raised ≡ true }
    ensures ran { IfOk result (HasRun shapes.now grid.now.drift (K.held out.old) (K.held out.new) (N.held note.old) (N.held note.new)) }
    ensures so_far { OnErr result (AppendsPrefix (K.held out.old) (K.held out.new) (output_of shapes.now)) }
    ensures noted { OnErr result (HasNoted shapes.now grid.now.drift (N.held note.old) (N.held note.new)) }
    ensures faults { HasRunFaults (K.faults out.old) (K.faults out.new) (N.faults note.old) (N.faults note.new) result }
    ensures counted { IfOk result (λ ran. tests.new ≤ tests.old + ran.tests) }
{
    let answer = make_run(
        rt, alloc, swap, seat, parcel, shapes, grid, split, out, note, gate, tests,
    );
    swap.raise(seat);
    match answer {
        Ok(ran) => Ok(ran),
        Err(stop) => Err(RunFault::from(stop)),
    }
}

/// Makes the run, and leaves the stop as it is.
fn make_run<R: Threads + Wait + Sync, K: Sink, N: Sink, G: Gate, L: Ledger>(
    rt: &R,
    alloc: Global,
    swap: &Swap,
    seat: &mut DynSeat,
    parcel: Parcel,
    shapes: &Shapes,
    grid: &Grid,
    split: bool,
    out: &mut K,
    note: &mut N,
    gate: &G,
    tests: &mut Steps<L>,
) -> Result<Ran, WorldStop>
    requires grid { IsGridOf shapes.now grid.now }
    requires seat { seat.old.table ≡ swap.now }
    requires terms { seat.old.view.terms ≡ Some (terms_of shapes.now grid.now.drift) }
    requires none_posted { seat.old.view.posted ≡ [] }
    requires none_collected { seat.old.view.collected ≡ 0 }
    requires room { length parcel.snap.bodies ≡ length shapes.now.clumps }
    ensures seat { seat.new.table ≡ swap.now }
    ensures ran { IfOk result (HasRun shapes.now grid.now.drift (K.held out.old) (K.held out.new) (N.held note.old) (N.held note.new)) }
    ensures so_far { OnErr result (AppendsPrefix (K.held out.old) (K.held out.new) (output_of shapes.now)) }
    ensures noted { OnErr result (HasNoted shapes.now grid.now.drift (N.held note.old) (N.held note.new)) }
    ensures faults { HasFaults (K.faults out.old) (K.faults out.new) (N.faults note.old) (N.faults note.new) result }
    ensures counted { IfOk result (λ ran. tests.new ≤ tests.old + ran.tests) }
{
    match Work::new(alloc, shapes, grid, parcel, out) {
        Ok(mut work) => {
            let answer = work.run(rt, split, swap, seat, out, note, gate, tests);
            drop(work);
            answer
        }
        Err(stop) => Err(stop),
    }
}
