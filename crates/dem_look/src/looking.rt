//! The plain run of a scene, seen while it is made: a row for each frame that is due, and then the end row.
ghost use Rattle.std.specs.Prelude.{◌≡◌, ◌<◌, Option, None, length, true, IfOk};
ghost use Rattle.dem_outside.specs.Faults.{Counts};
ghost use Rattle.dem_outside.specs.Known.{PutAppends};
ghost use Rattle.dem_model.specs.Frames.{last_text};
ghost use Rattle.dem_model.specs.Plain.{first_state};
ghost use Rattle.dem_model.specs.declared.state.State.{State as StateValue};
ghost use Rattle.dem_look.specs.Looker.{Shows};
ghost use Rattle.dem_look.specs.Looking.{shown_after, due_look, MakesLook, WritesLook};
ghost use Rattle.dem_look.specs.declared.looking.LookFault.TheVariants as faults;

use crate::looker::Looker;
use crate::writing::write_look;
use dem_frame::{WriteFault, write_end};
use dem_model::{End, Last, OutOfMemory, Scene};
use dem_output::is_due;
use dem_outside::Sink;
use dem_plain::{PlainRun, Stop};
use dem_save::fit_law;
use dem_shape::Shapes;
use std::alloc::Global;

/// Why a run was left before all its rows were written.
#[derive(Clone, Copy, PartialEq, Debug)]
pub enum LookFault {
    /// A put failed; the sink's count of faults says so.
    WriteFault,
    /// Memory was refused.
    OutOfMemory,
}

impl From<WriteFault> for LookFault {
    ghost from_gives = { λ _ f. f ≡ faults.WriteFault };

    fn from(_fault: WriteFault) -> LookFault {
        LookFault::WriteFault
    }
}

impl From<OutOfMemory> for LookFault {
    ghost from_gives = { λ _ f. f ≡ faults.OutOfMemory };

    fn from(_fault: OutOfMemory) -> LookFault {
        LookFault::OutOfMemory
    }
}

/// Makes the plain run of a scene and writes what is seen of it: a row for each frame of its output, and the end row; answers how
/// the run ended. Where a put fails or memory is refused, `out` gained a prefix of that.
pub fn look<K: Sink>(alloc: Global, scene: &Scene, out: &mut K) -> Result<Last, LookFault>
    ensures { WritesLook scene.now (K.held out.old) (K.held out.new) (K.faults out.old) (K.faults out.new) result }
{
    let mut run = PlainRun::new(alloc, scene)?;
    let shapes = Shapes::new(alloc, scene)?;
    let mut looker = Looker::new(alloc, &shapes)?;
    look_on(&shapes, &mut looker, &mut run, out)
}

// Makes a run from its first state and writes what is seen of it; answers how it ended.
fn look_on<K: Sink>(
    shapes: &Shapes,
    looker: &mut Looker,
    run: &mut PlainRun,
    out: &mut K,
) -> Result<Last, LookFault>
    requires made { looker.old.clumps ≡ length shapes.now.clumps }
    requires fresh { Shows shapes.now looker.old None }
    requires starts { run.old ≡ record { scene = shapes.now; state = first_state shapes.now; from_first = true } }
    ensures { WritesLook shapes.now (K.held out.old) (K.held out.new) (K.faults out.old) (K.faults out.new) result }
{
    look_at(shapes, looker, run, out)?;
    let steps = shapes.scene().steps;
    while run.state().step < steps {
        if let Some(end) = step_on(shapes, looker, run, out)? {
            return Ok(close(Last::Passed(end), out)?);
        }
    }
    Ok(close(Last::Done { step: steps }, out)?)
}

// Makes one step and looks at its state; answers the limit that the step passes.
fn step_on<K: Sink>(
    shapes: &Shapes,
    looker: &mut Looker,
    run: &mut PlainRun,
    out: &mut K,
) -> Result<Option<End>, LookFault>
    requires made { looker.old.clumps ≡ length shapes.now.clumps }
    requires same { run.old.scene ≡ shapes.now }
    requires from_first { run.old.from_first ≡ true }
    requires goes_on { run.old.state.step < shapes.now.steps }
    ensures step { MakesLook shapes.now run.old run.new looker.old looker.new (K.held out.old) (K.held out.new) (K.faults out.old) (K.faults out.new) result }
    ensures made { looker.new.clumps ≡ looker.old.clumps }
{
    match run.step() {
        Ok(()) => {
            look_at(shapes, looker, run, out)?;
            Ok(None)
        }
        Err(Stop::Ended(end)) => Ok(Some(end)),
        Err(Stop::OutOfMemory) => Err(LookFault::OutOfMemory),
    }
}

// Sees the state of a run and writes its row, where its frame is due.
#[tactic(auto, unfolding(crate::specs::Looking::due_look, crate::specs::Looking::shown_after))]
fn look_at<K: Sink>(
    shapes: &Shapes,
    looker: &mut Looker,
    run: &PlainRun,
    out: &mut K,
) -> Result<(), WriteFault>
    requires made { looker.old.clumps ≡ length shapes.now.clumps }
    requires same { run.now.scene ≡ shapes.now }
    requires from_first { run.now.from_first ≡ true }
    ensures count { Counts (K.faults out.old) (K.faults out.new) result }
    ensures written { (before : Option StateValue) → Shows shapes.now looker.old before → PutAppends (K.held out.old) (K.held out.new) result (due_look shapes.now before run.now.state) }
    ensures shows { (before : Option StateValue) → Shows shapes.now looker.old before → Shows shapes.now looker.new (shown_after shapes.now before run.now.state) }
    ensures made { looker.new.clumps ≡ looker.old.clumps }
{
    let state = run.state();
    if is_due(shapes.scene(), state.step) {
        fit_law(shapes.scene());
        write_look(out, looker.see(shapes, state))
    } else {
        Ok(())
    }
}

// Writes the end row, and answers how the run ended.
fn close<K: Sink>(last: Last, out: &mut K) -> Result<Last, WriteFault>
    ensures value { IfOk result (λ answer. answer ≡ last) }
    ensures count { Counts (K.faults out.old) (K.faults out.new) result }
    ensures written { PutAppends (K.held out.old) (K.held out.new) result (last_text last) }
{
    write_end(out, &last)?;
    Ok(last)
}
