//! What a call over memory leaves, and how it is told.

use dem_outside::MemSink;
use std::fmt::{self, Display, Formatter};

/// What a call leaves.
#[derive(Drop)]
pub struct Left {
    pub status: u8,
    pub out: MemSink,
    pub note: MemSink,
    /// Whether both actions met at the gate and none waited there in vain; None where all passed at once.
    pub met: Option<bool>,
}

impl Display for Left {
    fn fmt<W: fmt::Write>(&self, f: &mut Formatter<W>) -> fmt::Result {
        let out = self.out.held();
        write!(
            f,
            "{}; {} rows of {} bytes, checksum {}",
            self.status,
            rows(out),
            out.len(),
            checksum(out)
        )?;
        match self.met {
            Some(true) => f.write_str("; both met")?,
            Some(false) => f.write_str("; one waited in vain")?,
            None => {}
        }
        match std::str::from_utf8(self.note.held()) {
            Ok(notes) => write_notes(notes, f),
            Err(_) => f.write_str("; NO TEXT"),
        }
    }
}

// Writes the notes, one behind another.
fn write_notes<W: fmt::Write>(notes: &str, f: &mut Formatter<W>) -> fmt::Result {
    for note in notes.lines() {
        write!(f, "; {note}")?;
    }
    Ok(())
}

// How many rows end in these bytes.
fn rows(bytes: &[u8]) -> usize {
    let mut rows: usize = 0;
    for &byte in bytes {
        if byte == b'\n' {
            rows = rows.saturating_add(1);
        }
    }
    rows
}

// A number that other bytes hardly have: the hash of Fowler, Noll and Vo, of 64 bits.
fn checksum(bytes: &[u8]) -> u64 {
    let mut sum: u64 = 14_695_981_039_346_656_037;
    for &byte in bytes {
        sum = (sum ^ u64::from(byte)).wrapping_mul(1_099_511_628_211);
    }
    sum
}
