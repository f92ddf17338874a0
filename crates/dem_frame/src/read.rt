//! A frame read back from its text.
ghost use Rattle.std.specs.Prelude.{◌<◌, ◌≤◌, length};
ghost use Rattle.dem_frame.specs.PartialFrames.{Gives, frame_of};
ghost use Rattle.dem_frame.specs.ReadBack.{ReadsBack};

use crate::partial::{FrameFault, PartialFrame};
use csv::ReaderBuilder;
use dem_model::State;
use std::alloc::Global;

/// Reads one frame of so many clumps, from 1 to 16,384, to the end of the bytes, which are at most 268,435,456.
pub fn read_frame(alloc: Global, bytes: &[u8], clumps: u32) -> Result<State, FrameFault>
    requires some { 0 < clumps }
    requires clumps { clumps ≤ 16384 }
    requires size { length bytes.now ≤ 268435456 }
    ensures value { Gives result (frame_of clumps bytes.now) }
    ensures back { ReadsBack clumps bytes.now result }
{
    let reader = ReaderBuilder::new()
        .has_headers(false)
        .flexible(true)
        .from_reader(alloc, bytes);
    let mut frame = PartialFrame::new(alloc);
    let mut rows: u32 = 0;
    for row in reader.into_byte_records() {
        // A read from memory doesn't fail, and records may differ in length, so there was no memory.
        let Ok(row) = row else {
            return Err(FrameFault::OutOfMemory);
        };
        // Never past its type: there are no more records than bytes.
        let Some(number) = rows.checked_add(1) else {
            return Err(FrameFault::OutOfMemory);
        };
        rows = number;
        match frame.take(&row, clumps) {
            Ok(true) => {}
            Ok(false) => return Err(FrameFault::Bad { row: rows }),
            Err(_) => return Err(FrameFault::OutOfMemory),
        }
    }
    match frame.finish(clumps) {
        Some(state) => Ok(state),
        None => Err(FrameFault::Short { rows }),
    }
}
