//! The job `resume`: a scene and a frame are read, and what follows the frame is written.
ghost use Rattle.std.specs.Prelude.{◌≡◌, ℕ, ◌≤◌, ◌+◌, true, List, length, Some};
ghost use Rattle.dem_model.specs.Output.{is_due};
ghost use Rattle.dem_model.specs.Plain.{plain_at};
ghost use Rattle.dem_model.specs.declared.state.State.{State as StateValue};
ghost use Rattle.dem_outside.specs.Change.{Stream, change, LosesAtMost};
ghost use Rattle.dem_jobs.specs.Jobs.{resume_job};
ghost use Rattle.dem_jobs.specs.Marks.{mark_in as mark_of, by_mark};
ghost use Rattle.dem_jobs.specs.Parts.{Comes, DoesQuietly, idle};
ghost use Rattle.dem_jobs.specs.Resumed.{frame_mark, no_frame_text, resumed, TakesFrame, GoesOn};
ghost use Rattle.dem_jobs.specs.declared.reading.TheConstants as limits;

use crate::mark::{behind, mark_in};
use crate::outcome::{NotDone, Outcome};
use crate::reading::read_input;
use crate::refusal::Refusal;
use dem_model::Scene;
use dem_output::rest_law;
use dem_outside::{Sink, Source};
use dem_save::{fit_law, load, load_law, rest};
use dem_scene::read_scene;
use dem_shape::Shapes;
use std::alloc::Global;

/// The line between a scene and its frame.
const MARK: &[u8] = b"--frame--";

/// Reads a scene and a frame, and writes what follows the frame in the run from its state.
pub(crate) fn resume<S: Source, K: Sink>(
    alloc: Global,
    source: &mut S,
    out: &mut K,
) -> Result<Outcome, NotDone>
    ensures does { DoesQuietly resume_job (change S.left S.faults source.old source.new) (change K.held K.faults out.old out.new) result }
    ensures taken { LosesAtMost (limits.MAX_INPUT + 1) (change S.left S.faults source.old source.new) }
{
    let input = read_input(alloc, source)?;
    resume_input(alloc, input.as_slice(), out)
}

// Goes on from the frame of an input.
fn resume_input<K: Sink>(alloc: Global, input: &[u8], out: &mut K) -> Result<Outcome, NotDone>
    requires { length input.now ≤ limits.MAX_INPUT }
    ensures { (note : Stream) → Comes (by_mark frame_mark no_frame_text (λ text rows. resumed rows) input.now (mark_of frame_mark input.now))
        (change K.held K.faults out.old out.new) (idle note) result }
{
    let Some(at) = mark_in(MARK, input) else {
        return Err(NotDone::Refused(Refusal::NoFrame));
    };
    let scene = read_scene(alloc, &input[..at])?;
    go_on(alloc, &scene, behind(MARK, input, at), out)
}

// Makes the run of a scene from the state that these rows have, and writes it.
fn go_on<K: Sink>(
    alloc: Global,
    scene: &Scene,
    rows: &[u8],
    out: &mut K,
) -> Result<Outcome, NotDone>
    requires { length rows.now ≤ limits.MAX_INPUT }
    ensures { (note : Stream) → Comes (resumed rows.now scene.now) (change K.held K.faults out.old out.new) (idle note) result }
{
    let shapes = Shapes::new(alloc, scene)?;
    let state = load(alloc, &shapes, rows)?;
    Ok(Outcome::from(rest(alloc, scene, state, out)?))
}

/// The law of a run that was cut short: from a frame of a scene's output `resume` writes what follows that frame there, and its status is that of the whole run.
pub fn resume_law(scene: &Scene)
    ensures { (n : ℕ) (st : StateValue) (text : List ℕ) → plain_at scene.now n ≡ Some st → n ≤ scene.now.steps → is_due scene.now n ≡ true
        → TakesFrame scene.now st text → GoesOn scene.now st text }
{
    fit_law(scene);
    load_law(scene);
    rest_law(scene);
}
