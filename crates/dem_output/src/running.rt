//! The plain run of a scene, written while it is made: the frames that are due, and then the end row.
ghost use Rattle.std.specs.Prelude.{◌≡◌, ◌≤◌, ◌<◌, true, length, IfOk};
ghost use Rattle.dem_outside.specs.Faults.{Counts};
ghost use Rattle.dem_outside.specs.Known.{PutAppends};
ghost use Rattle.dem_model.specs.Output.{due_text, is_due as is_due_of};
ghost use Rattle.dem_model.specs.Frames.{last_text};
ghost use Rattle.dem_model.specs.Plain.{first_state};
ghost use Rattle.dem_output.specs.Running.{MakesStep, WritesRest, WritesRun};
ghost use Rattle.dem_output.specs.declared.running.RunFault.TheVariants as faults;

use dem_frame::{WriteFault, write_end, write_state};
use dem_model::{End, Last, OutOfMemory, Scene, State};
use dem_outside::Sink;
use dem_plain::{PlainRun, Stop};
use std::alloc::Global;

/// Why a run stopped before its output was written.
#[derive(Clone, Copy, PartialEq, Debug)]
pub enum RunFault {
    /// A put failed; the sink's count of faults says so.
    WriteFault,
    /// Memory was refused.
    OutOfMemory,
}

impl From<WriteFault> for RunFault {
    ghost from_gives = { λ _ f. f ≡ faults.WriteFault };

    fn from(_fault: WriteFault) -> RunFault {
        RunFault::WriteFault
    }
}

impl From<OutOfMemory> for RunFault {
    ghost from_gives = { λ _ f. f ≡ faults.OutOfMemory };

    fn from(_fault: OutOfMemory) -> RunFault {
        RunFault::OutOfMemory
    }
}

/// Makes the plain run of a scene and writes its output; answers how the run ended.
pub fn write_run<K: Sink>(alloc: Global, scene: &Scene, out: &mut K) -> Result<Last, RunFault>
    ensures { WritesRun scene.now (K.held out.old) (K.held out.new) (K.faults out.old) (K.faults out.new) result }
{
    match PlainRun::new(alloc, scene) {
        Ok(mut run) => {
            let answer = write_whole(scene, &mut run, out);
            drop(run);
            answer
        }
        Err(OutOfMemory) => Err(RunFault::OutOfMemory),
    }
}

// The same with a run of the scene that stands at its first state.
fn write_whole<K: Sink>(scene: &Scene, run: &mut PlainRun, out: &mut K) -> Result<Last, RunFault>
    requires { run.old ≡ record { scene = scene.now; state = first_state scene.now; from_first = true } }
    ensures { WritesRun scene.now (K.held out.old) (K.held out.new) (K.faults out.old) (K.faults out.new) result }
{
    write_due(scene, run.state(), out)?;
    write_on(scene, run, out)
}

/// Goes on with a run of a scene to its end, and writes what follows the frame of its state: the frames that are due of the states
/// after it, and the end row. Answers how the run ended; where a put fails or memory is refused, `out` gained a prefix of that.
pub fn write_rest<K: Sink>(scene: &Scene, mut run: PlainRun, out: &mut K) -> Result<Last, RunFault>
    requires same { run.scene ≡ scene.now }
    requires in_range { run.state.step ≤ scene.now.steps }
    ensures { WritesRest scene.now run.entry.state (K.held out.old) (K.held out.new) (K.faults out.old) (K.faults out.new) result }
{
    let answer = write_on(scene, &mut run, out);
    drop(run);
    answer
}

// The same with a run that is lent.
fn write_on<K: Sink>(scene: &Scene, run: &mut PlainRun, out: &mut K) -> Result<Last, RunFault>
    requires same { run.old.scene ≡ scene.now }
    requires in_range { run.old.state.step ≤ scene.now.steps }
    ensures { WritesRest scene.now run.old.state (K.held out.old) (K.held out.new) (K.faults out.old) (K.faults out.new) result }
{
    while run.state().step < scene.steps {
        if let Some(end) = step_on(scene, run, out)? {
            return Ok(close(Last::Passed(end), out)?);
        }
    }
    Ok(close(Last::Done { step: scene.steps }, out)?)
}

// Makes one step and writes the frame of its state, where it is due; answers the limit that the step passes.
fn step_on<K: Sink>(scene: &Scene, run: &mut PlainRun, out: &mut K) -> Result<Option<End>, RunFault>
    requires same { run.old.scene ≡ scene.now }
    requires goes_on { run.old.state.step < scene.now.steps }
    ensures { MakesStep run.old run.new (K.held out.old) (K.held out.new) (K.faults out.old) (K.faults out.new) result }
{
    match run.step() {
        Ok(()) => {
            write_due(scene, run.state(), out)?;
            Ok(None)
        }
        Err(Stop::Ended(end)) => Ok(Some(end)),
        Err(Stop::OutOfMemory) => Err(RunFault::OutOfMemory),
    }
}

// Writes the frame of a state, where it is due.
#[tactic(auto, unfolding(dem_model::specs::Output::due_text))]
fn write_due<K: Sink>(scene: &Scene, state: &State, out: &mut K) -> Result<(), WriteFault>
    requires { length state.now.bodies ≤ 16384 }
    ensures count { Counts (K.faults out.old) (K.faults out.new) result }
    ensures written { PutAppends (K.held out.old) (K.held out.new) result (due_text scene.now state.now) }
{
    if is_due(scene, state.step) {
        write_state(out, state)
    } else {
        Ok(())
    }
}

/// Whether the frame of state `step` is due: the step is a multiple of `every`, or the last.
#[tactic(auto, unfolding(dem_model::specs::Output::is_due))]
pub fn is_due(scene: &Scene, step: u32) -> bool
    ensures { result ≡ is_due_of scene.now step }
{
    step % scene.every == 0 || step == scene.steps
}

// Writes the end row, and answers how the run ended.
fn close<K: Sink>(last: Last, out: &mut K) -> Result<Last, WriteFault>
    ensures value { IfOk result (λ answer. answer ≡ last) }
    ensures count { Counts (K.faults out.old) (K.faults out.new) result }
    ensures written { PutAppends (K.held out.old) (K.held out.new) result (last_text last) }
{
    write_end(out, &last)?;
    Ok(last)
}
