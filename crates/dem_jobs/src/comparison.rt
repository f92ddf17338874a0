//! The job `check`: a scene and rows are read, and the rows are compared with the scene's output.
ghost use Rattle.dem_outside.specs.Change.{Stream, change, LosesAtMost};
ghost use Rattle.dem_jobs.specs.Compared.{frames_mark, compared};
ghost use Rattle.dem_jobs.specs.Jobs.{check_job};
ghost use Rattle.dem_jobs.specs.Marks.{mark_in as mark_of, by_mark};
ghost use Rattle.dem_jobs.specs.Parts.{Comes, DoesQuietly, idle};
ghost use Rattle.dem_jobs.specs.Verdicts.{no_frames_text};
ghost use Rattle.dem_jobs.specs.declared.reading.TheConstants as limits;
ghost use Rattle.std.specs.Prelude.{◌+◌};

use crate::difference::write_verdict;
use crate::mark::{behind, mark_in};
use crate::outcome::{NotDone, Outcome};
use crate::reading::read_input;
use crate::refusal::Refusal;
use dem_check::check;
use dem_outside::{Sink, Source};
use dem_scene::read_scene;
use std::alloc::Global;

/// The line between a scene and its rows.
const MARK: &[u8] = b"--frames--";

/// Reads a scene and rows, and writes whether the rows are the scene's output.
pub(crate) fn compare<S: Source, K: Sink>(
    alloc: Global,
    source: &mut S,
    out: &mut K,
) -> Result<Outcome, NotDone>
    ensures does { DoesQuietly check_job (change S.left S.faults source.old source.new) (change K.held K.faults out.old out.new) result }
    ensures taken { LosesAtMost (limits.MAX_INPUT + 1) (change S.left S.faults source.old source.new) }
{
    let input = read_input(alloc, source)?;
    judge(alloc, input.as_slice(), out)
}

// Compares the rows of an input with the output of its scene.
fn judge<K: Sink>(alloc: Global, input: &[u8], out: &mut K) -> Result<Outcome, NotDone>
    ensures { (note : Stream) → Comes (by_mark frames_mark no_frames_text (λ text rows. compared rows) input.now (mark_of frames_mark input.now))
        (change K.held K.faults out.old out.new) (idle note) result }
{
    let Some(at) = mark_in(MARK, input) else {
        return Err(NotDone::Refused(Refusal::NoFrames));
    };
    let scene = read_scene(alloc, &input[..at])?;
    let verdict = check(alloc, &scene, behind(MARK, input, at))?;
    Ok(write_verdict(out, &verdict)?)
}
