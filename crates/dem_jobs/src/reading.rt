//! Reading the source to its end, or past the longest input; the scene that it has, or the input of a scene and more.
ghost use Rattle.std.specs.Prelude.{◌≡◌, ◌+◌, ◌<◌, ◌^◌};
ghost use Rattle.dem_outside.specs.Change.{change, LosesAtMost};
ghost use Rattle.dem_model.specs.declared.limits.TheConstants as limits;
ghost use Rattle.dem_jobs.specs.Parts.{ReadsAll, ReadsInput, ReadsScene};
ghost use Rattle.dem_jobs.specs.declared.reading.TheConstants as inputs;
ghost use Rattle.dem_jobs.specs.declared.reading.ReadFault.TheVariants as faults;

use crate::outcome::NotDone;
use crate::refusal::Refusal;
use dem_model::{MAX_TEXT, Scene};
use dem_outside::{Failed, Source};
use dem_scene::read_scene;
use std::alloc::{AllocError, Global};

/// Why the source wasn't read.
#[derive(Clone, Copy, PartialEq, Debug)]
pub(crate) enum ReadFault {
    Failed,
    OutOfMemory,
}

impl From<Failed> for ReadFault {
    ghost from_gives = { λ _ f. f ≡ faults.Failed };

    fn from(_failed: Failed) -> ReadFault {
        ReadFault::Failed
    }
}

impl From<AllocError> for ReadFault {
    ghost from_gives = { λ _ f. f ≡ faults.OutOfMemory };

    fn from(_error: AllocError) -> ReadFault {
        ReadFault::OutOfMemory
    }
}

/// The longest input of a scene and more, in bytes.
pub(crate) const MAX_INPUT: usize = 268_435_456;

/// The most bytes of one read.
const PIECE: usize = 4096;

/// Reads the source to its end, or to one byte past the longest input of this length.
pub(crate) fn read_all<S: Source>(
    alloc: Global,
    source: &mut S,
    limit: usize,
) -> Result<Vec<u8>, ReadFault>
    requires { limit < 2 ^ 32 }
    ensures read { ReadsAll limit (change S.left S.faults source.old source.new) result }
    ensures taken { LosesAtMost (limit + 1) (change S.left S.faults source.old source.new) }
{
    let mut bytes = Vec::new(alloc);
    let mut buf = [0u8; PIECE];
    while bytes.len() <= limit {
        let piece = &mut buf[..PIECE.min(limit + 1 - bytes.len())];
        let count = source.read(piece)?;
        if count == 0 {
            return Ok(bytes);
        }
        bytes.extend_from_slice(&piece[..count])?;
    }
    Ok(bytes)
}

/// The scene whose text the source has.
pub fn read_one_scene<S: Source>(alloc: Global, source: &mut S) -> Result<Scene, NotDone>
    ensures read { ReadsScene (change S.left S.faults source.old source.new) result }
    ensures taken { LosesAtMost (limits.MAX_TEXT + 1) (change S.left S.faults source.old source.new) }
{
    let bytes = read_all(alloc, source, MAX_TEXT)?;
    Ok(read_scene(alloc, bytes.as_slice())?)
}

/// The input of a scene and more that the source has, where it isn't too long.
pub(crate) fn read_input<S: Source>(alloc: Global, source: &mut S) -> Result<Vec<u8>, NotDone>
    ensures read { ReadsInput (change S.left S.faults source.old source.new) result }
    ensures taken { LosesAtMost (inputs.MAX_INPUT + 1) (change S.left S.faults source.old source.new) }
{
    let input = read_all(alloc, source, MAX_INPUT)?;
    if input.len() > MAX_INPUT {
        return Err(NotDone::Refused(Refusal::TooLong));
    }
    Ok(input)
}
