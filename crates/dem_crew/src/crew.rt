//! A run by two threads, or by one where a second one can't be started.

ghost use Rattle.std.specs.Prelude.{◌≡◌, ◌+◌, ◌<◌, ◌≤◌, Ok, Err, length, IfOk, IfErr, OnErr, replicate};
ghost use denote.Param.Send.{IsSync};
ghost use Rattle.std.specs.Io.KnownBytes.{Keeps};
ghost use Rattle.dem_outside.specs.Known.{AppendsPrefix};
ghost use Rattle.dem_model.specs.Exchange.{terms_of};
ghost use Rattle.dem_model.specs.ExchangeKinds.{first_dynamics, first_kinematics};
ghost use Rattle.dem_model.specs.Output.{output_of};
ghost use Rattle.dem_bins.specs.Bins.{IsGridOf};
ghost use Rattle.dem_crew.specs.Running.{HasRun, HasNoted, HasRunFaults, Started};

use crate::alone::run_alone;
use crate::finding::kinematics;
use crate::ran::Ran;
use crate::side::dynamics;
use dem_bins::Grid;
use dem_model::{OutOfMemory, Steps};
use dem_output::RunFault;
use dem_outside::{Gate, Sink};
use dem_shape::Shapes;
use dem_swap::{DynSeat, KinSeat, Parcel, Swap};
use std::alloc::Global;
use std::marker::Brand;
use std::sync::Wait;
use std::sync::ledger::{Blank, Ledger};
use std::thread;
use std::thread::Threads;

/// Makes the run of a scene: kinematics finds pairs in a thread of its own while dynamics steps in this one. Where no thread can be
/// started, this one makes all turns, with the same promise. Writes the output to `out`, and to `note` a row for each list that
/// was taken into use and one for the tests. `tests` counts the pairs that the steps test. Where a put fails or memory is refused,
/// `out` and `note` have prefixes of such.
pub fn run_two<R: Threads + Wait + Sync, K: Sink, N: Sink, G: Gate, L: Ledger>(
    rt: &R,
    alloc: Global,
    shapes: &Shapes,
    grid: &Grid,
    split: bool,
    out: &mut K,
    note: &mut N,
    gate: &G,
    tests: &mut Steps<L>,
) -> Result<Ran, RunFault>
    requires grid { IsGridOf shapes.now grid.now }
    ensures ran { IfOk result (HasRun shapes.now grid.now.drift (K.held out.old) (K.held out.new) (N.held note.old) (N.held note.new)) }
    ensures so_far { OnErr result (AppendsPrefix (K.held out.old) (K.held out.new) (output_of shapes.now)) }
    ensures noted { OnErr result (HasNoted shapes.now grid.now.drift (N.held note.old) (N.held note.new)) }
    ensures faults { HasRunFaults (K.faults out.old) (K.faults out.new) (N.faults note.old) (N.faults note.new) result }
    ensures counted { IfOk result (λ ran. tests.new ≤ tests.old + ran.tests) }
{
    match Swap::new(alloc, shapes, grid.drift()) {
        Ok((swap, first, second, parcel)) => {
            match beside(
                &*rt, alloc, &swap, first, second, parcel, &*shapes, &*grid, split, out, note,
                &*gate, tests,
            ) {
                Ok(answer) => answer,
                Err(parcel) => {
                    let blank = Blank::new(1);
                    match run_alone::<R, K, N, G, L, Brand>(
                        &*rt, alloc, parcel, &*shapes, &*grid, split, out, note, &*gate, tests,
                        blank,
                    ) {
                        Ok(ran) => Ok(ran),
                        Err(stop) => Err(RunFault::from(stop)),
                    }
                }
            }
        }
        Err(OutOfMemory) => Err(RunFault::OutOfMemory),
    }
}

/// Starts kinematics in a thread of its own, and then dynamics in this one; the parcel comes back where none could be started.
fn beside<'a, R: Threads + Wait + Sync, K: Sink, N: Sink, G: Gate, L: Ledger>(
    rt: &'a R,
    alloc: Global,
    swap: &'a Swap,
    first: DynSeat,
    second: KinSeat,
    parcel: Parcel,
    shapes: &'a Shapes<'a>,
    grid: &'a Grid,
    split: bool,
    out: &mut K,
    note: &mut N,
    gate: &'a G,
    tests: &mut Steps<L>,
) -> Result<Result<Ran, RunFault>, Parcel>
    requires grid { IsGridOf shapes.now grid.now }
    requires first { first ≡ record { table = swap.now; view = first_dynamics (terms_of shapes.now grid.now.drift) } }
    requires second { second ≡ record { table = swap.now; view = first_kinematics (terms_of shapes.now grid.now.drift) } }
    requires room { length parcel.snap.bodies ≡ length shapes.now.clumps }
    ensures started { IfOk result (Started shapes.now grid.now.drift (K.held out.old) (K.held out.new) (N.held note.old) (N.held note.new) (K.faults out.old) (K.faults out.new) (N.faults note.old) (N.faults note.new) tests.old tests.new) }
    ensures refused { IfErr result (λ p. p ≡ parcel) }
    ensures out { OnErr result (out.new ≡ out.old) }
    ensures note { OnErr result (note.new ≡ note.old) }
    ensures tests { OnErr result (tests.new ≡ tests.old) }
{
    let (answer, out, note, tests) = thread::scope(
        thread::scope_env(),
        rt,
        |scope| -> (
            Result<Result<Ran, RunFault>, Parcel>,
            &mut K,
            &mut N,
            &mut Steps<L>,
        )
            requires shared { IsSync R.row × IsSync G.row }
            requires grid { IsGridOf shapes.now grid.now }
            requires first { first ≡ record { table = swap.now; view = first_dynamics (terms_of shapes.now grid.now.drift) } }
            requires second { second ≡ record { table = swap.now; view = first_kinematics (terms_of shapes.now grid.now.drift) } }
            requires room { length parcel.snap.bodies ≡ length shapes.now.clumps }
            ensures names { (result.1.ghost_name ≡ out.entry.ghost_name) × (result.2.ghost_name ≡ note.entry.ghost_name) × (result.3.ghost_name ≡ tests.entry.ghost_name) }
            ensures started { IfOk result.0 (Started shapes.entry.now grid.entry.now.drift (K.held out.entry.now) (K.held result.1.now) (N.held note.entry.now) (N.held result.2.now) (K.faults out.entry.now) (K.faults result.1.now) (N.faults note.entry.now) (N.faults result.2.now) tests.entry.now result.3.now) }
            ensures refused { IfErr result.0 (λ p. p ≡ parcel) }
            ensures out { OnErr result.0 (result.1.now ≡ out.entry.now) }
            ensures note { OnErr result.0 (result.2.now ≡ note.entry.now) }
            ensures tests { OnErr result.0 (result.3.now ≡ tests.entry.now) }
        {
            let mut first = first;
            let mut second = second;
            let started = scope.spawn(
                move ||
                    requires grid { IsGridOf shapes.now grid.now }
                    requires second { second ≡ record { table = swap.now; view = first_kinematics (terms_of shapes.now grid.now.drift) } }
                { kinematics(rt, alloc, swap, &mut second, shapes, grid, gate) },
            );
            match started {
                Ok(_) => {
                    let answer = dynamics(
                        rt, alloc, swap, &mut first, parcel, shapes, grid, split, out, note, gate,
                        tests,
                    );
                    (Ok(answer), out, note, tests)
                }
                Err(_) => (Err(parcel), out, note, tests),
            }
        },
    );
    take_back(out);
    take_back(note);
    take_back(tests);
    answer
}

/// Takes a reference back whose value is known.
fn take_back<T>(back: &mut T)
    ensures { back.new ≡ back.old }
{}
