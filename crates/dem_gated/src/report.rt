//! What came of a run through the gate, and how it is told.

use dem_crew::Ran;
use dem_model::Last;
use dem_outside::MemSink;
use std::fmt::{self, Display, Formatter};

/// What came of a run through the gate.
#[derive(Drop)]
pub struct Report {
    /// How it ended, and what it took.
    pub ran: Ran,
    /// How many bytes it wrote.
    pub bytes: usize,
    /// The checksum of these bytes.
    pub sum: u64,
    /// Whether both threads arrived at the gate.
    pub arrived: bool,
    /// Whether one waited there in vain.
    pub gave_up: bool,
    /// The rows of its lists and its tests.
    pub note: MemSink,
}

/// The part of a row of a list that was made from state 1.
const SECOND: &str = "taken,1,";

/// The least and the greatest step at which the second list is taken into use: it comes after the third step, and a step on the
/// first list isn't made from a state later than its drift limit.
const TAKEN_AT: (u32, u32) = (4, 21);

impl Display for Report {
    fn fmt<W: fmt::Write>(&self, f: &mut Formatter<W>) -> fmt::Result {
        match self.ran.last {
            Last::Done { step } => write!(f, "done at step {step}")?,
            Last::Passed(end) => write!(f, "a limit at step {}", end.step)?,
        }
        write!(f, "; {} bytes, checksum {}", self.bytes, self.sum)?;
        f.write_str(if self.arrived {
            "; both arrived"
        } else {
            "; NOT BOTH ARRIVED"
        })?;
        f.write_str(if self.gave_up { ", ONE IN VAIN" } else { "" })?;
        match std::str::from_utf8(self.note.held()) {
            Ok(rows) => write_rows(rows, f),
            Err(_) => f.write_str("; NO TEXT"),
        }
    }
}

/// Writes the first row, and the second but for the step at which its list was taken into use.
fn write_rows<W: fmt::Write>(rows: &str, f: &mut Formatter<W>) -> fmt::Result {
    let mut lines = rows.lines();
    if let Some(first) = lines.next() {
        write!(f, "; {first}")?;
    }
    match lines.next() {
        Some(second) => write_second(second, f),
        None => f.write_str("; NO SECOND ROW"),
    }
}

/// Writes the row of the list from state 1, but for the step at which it was taken into use.
fn write_second<W: fmt::Write>(row: &str, f: &mut Formatter<W>) -> fmt::Result {
    let Some(rest) = row.strip_prefix(SECOND) else {
        return f.write_str("; ANOTHER SECOND ROW");
    };
    let Some((at, pairs)) = rest.split_once(',') else {
        return f.write_str("; NO SUCH ROW");
    };
    match at.parse::<u32>() {
        Ok(at) if TAKEN_AT.0 <= at && at <= TAKEN_AT.1 => write!(f, "; {SECOND}in time,{pairs}"),
        _ => f.write_str("; NOT IN TIME"),
    }
}
