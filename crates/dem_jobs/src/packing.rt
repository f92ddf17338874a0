//! The job `pack`: a scene and a row are read, and the scene's text is written with the clumps that the row asks for.
ghost use Rattle.std.specs.Prelude.{◌≡◌, ◌+◌, Ok};
ghost use Rattle.dem_model.specs.ReadingScene.{scene_from};
ghost use Rattle.dem_outside.specs.Change.{Stream, change, LosesAtMost};
ghost use Rattle.dem_pack.specs.Asks.{IsAsk, answer_of};
ghost use Rattle.dem_jobs.specs.Jobs.{pack_job};
ghost use Rattle.dem_jobs.specs.Marks.{mark_in as mark_of, by_mark};
ghost use Rattle.dem_jobs.specs.Packed.{pack_mark, no_pack_text, packed, by_stands};
ghost use Rattle.dem_jobs.specs.Parts.{Comes, DoesQuietly, idle};
ghost use Rattle.dem_jobs.specs.declared.reading.TheConstants as limits;

use crate::difference::write_line;
use crate::mark::{behind, mark_in};
use crate::outcome::{NotDone, Outcome};
use crate::reading::read_input;
use crate::refusal::Refusal;
use dem_model::Scene;
use dem_outside::{Sink, Source};
use dem_pack::{Ask, pack, read_ask};
use dem_scene::{read_scene, with_clumps};
use dem_words::Order;
use std::alloc::Global;

/// The line between a scene and its row.
const MARK: &[u8] = b"--pack--";

/// Reads a scene and a row, and writes the scene with the clumps that the row asks for.
pub(crate) fn fill<S: Source, K: Sink>(
    alloc: Global,
    order: &Order,
    source: &mut S,
    out: &mut K,
) -> Result<Outcome, NotDone>
    ensures does { DoesQuietly (pack_job order.now) (change S.left S.faults source.old source.new) (change K.held K.faults out.old out.new) result }
    ensures taken { LosesAtMost (limits.MAX_INPUT + 1) (change S.left S.faults source.old source.new) }
{
    let input = read_input(alloc, source)?;
    fill_input(alloc, order, input.as_slice(), out)
}

// Writes the scene of an input with the clumps that its row asks for.
fn fill_input<K: Sink>(
    alloc: Global,
    order: &Order,
    input: &[u8],
    out: &mut K,
) -> Result<Outcome, NotDone>
    ensures { (note : Stream) → Comes (by_mark pack_mark no_pack_text (packed order.now.count) input.now (mark_of pack_mark input.now))
        (change K.held K.faults out.old out.new) (idle note) result }
{
    let Some(at) = mark_in(MARK, input) else {
        return Err(NotDone::Refused(Refusal::NoPack));
    };
    let text = &input[..at];
    let scene = read_scene(alloc, text)?;
    let Some(ask) = read_ask(behind(MARK, input, at), order.count) else {
        return Err(NotDone::Refused(Refusal::NoRow));
    };
    write_filled(alloc, text, &scene, &ask, out)
}

// Writes the text of a scene with the clumps that are asked for.
fn write_filled<K: Sink>(
    alloc: Global,
    text: &[u8],
    scene: &Scene,
    ask: &Ask,
    out: &mut K,
) -> Result<Outcome, NotDone>
    requires scene { scene_from text.now ≡ Ok scene.now }
    requires ask { IsAsk ask.now }
    ensures { (note : Stream) → Comes (by_stands text.now (answer_of scene.now ask.now)) (change K.held K.faults out.old out.new) (idle note) result }
{
    let stands = pack(alloc, scene, ask)?;
    let filled = with_clumps(alloc, text, stands.as_slice())?;
    write_line(out, filled.as_slice())?;
    Ok(Outcome::Reached)
}
