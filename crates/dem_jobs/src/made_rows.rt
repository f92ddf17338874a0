//! The four rows that `gen` writes, each with one put.
ghost use Rattle.std.specs.Prelude.{◌≡◌, ◌++◌};
ghost use Rattle.dem_num.specs.Vectors.{widened};
ghost use Rattle.dem_outside.specs.Faults.{Counts};
ghost use Rattle.dem_outside.specs.Known.{PutAppends};
ghost use Rattle.dem_model.specs.Frames.{last_text};
ghost use Rattle.dem_jobs.specs.Summaries.{made_row, sum_row, touch_row, summary_text};

use crate::summary::Summary;
use arrayvec::ArrayVec;
use dem_frame::{WriteFault, write_end};
use dem_num::Vec3;
use dem_outside::{Failed, Sink};
use itoa::Buffer;

/// The longest row has 67 bytes: `sum`, three numbers of 20 behind a comma each, and a newline.
const ROW_ROOM: usize = 80;

type Line = ArrayVec<u8, ROW_ROOM>;

/// Writes what the run of a scene comes to that was made from these numbers.
pub(crate) fn write_summary<K: Sink>(
    out: &mut K,
    seed: u64,
    count: u32,
    summary: &Summary,
) -> Result<(), Failed>
    ensures count { Counts (K.faults out.old) (K.faults out.new) result }
    ensures written { PutAppends (K.held out.old) (K.held out.new) result (summary_text seed count summary.now) }
{
    out.put(made_line(seed, count).as_slice())?;
    write_state_rows(out, summary)
}

// Writes the rows of the last state and the end row.
fn write_state_rows<K: Sink>(out: &mut K, summary: &Summary) -> Result<(), Failed>
    ensures count { Counts (K.faults out.old) (K.faults out.new) result }
    ensures written { PutAppends (K.held out.old) (K.held out.new) result (sum_row (widened summary.now.sum) ++ (touch_row summary.now.touching ++ last_text summary.now.last)) }
{
    out.put(sum_line(summary.sum).as_slice())?;
    write_last_rows(out, summary)
}

// Writes the row of the pairs that touch and the end row.
fn write_last_rows<K: Sink>(out: &mut K, summary: &Summary) -> Result<(), Failed>
    ensures count { Counts (K.faults out.old) (K.faults out.new) result }
    ensures written { PutAppends (K.held out.old) (K.held out.new) result (touch_row summary.now.touching ++ last_text summary.now.last) }
{
    out.put(touch_line(summary.touching).as_slice())?;
    match write_end(out, &summary.last) {
        Ok(()) => Ok(()),
        Err(WriteFault) => Err(Failed),
    }
}

// The row of the numbers that a scene was made from.
#[tactic(auto, unfolding(crate::specs::Summaries::made_row))]
fn made_line(seed: u64, count: u32) -> Line
    ensures { result.items ≡ made_row seed count }
{
    let mut digits = Buffer::new();
    let mut line = ArrayVec::new();
    line.try_extend_from_slice(b"gen,").unwrap();
    line.try_extend_from_slice(digits.format(seed).as_bytes())
        .unwrap();
    line.try_extend_from_slice(b",").unwrap();
    line.try_extend_from_slice(digits.format(count).as_bytes())
        .unwrap();
    line.try_extend_from_slice(b"\n").unwrap();
    line
}

// The row of a sum of positions.
#[tactic(auto, unfolding(crate::specs::Summaries::sum_row))]
fn sum_line(sum: Vec3) -> Line
    ensures { result.items ≡ sum_row (widened sum) }
{
    let mut digits = Buffer::new();
    let mut line = ArrayVec::new();
    line.try_extend_from_slice(b"sum,").unwrap();
    line.try_extend_from_slice(digits.format(sum.x).as_bytes())
        .unwrap();
    line.try_extend_from_slice(b",").unwrap();
    line.try_extend_from_slice(digits.format(sum.y).as_bytes())
        .unwrap();
    line.try_extend_from_slice(b",").unwrap();
    line.try_extend_from_slice(digits.format(sum.z).as_bytes())
        .unwrap();
    line.try_extend_from_slice(b"\n").unwrap();
    line
}

// The row of a number of pairs that touch.
#[tactic(auto, unfolding(crate::specs::Summaries::touch_row))]
fn touch_line(touching: u64) -> Line
    ensures { result.items ≡ touch_row touching }
{
    let mut digits = Buffer::new();
    let mut line = ArrayVec::new();
    line.try_extend_from_slice(b"touch,").unwrap();
    line.try_extend_from_slice(digits.format(touching).as_bytes())
        .unwrap();
    line.try_extend_from_slice(b"\n").unwrap();
    line
}
