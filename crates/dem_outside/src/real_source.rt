//! A source over a reader of std.
ghost use Rattle.std.specs.Prelude.{◌≡◌, ◌<◌, ◌≤◌, length, IfOk};
ghost use Rattle.std.specs.Io.KnownBytes.{ReadConsumes};
ghost use Rattle.dem_outside.specs.Faults.{Counts};

use crate::failed::{Failed, count_one};
use crate::source::Source;
use std::io::Read;

/// Reads from `reader`; each of its errors is a fault.
#[derive(Drop)]
pub struct RealSource<R> {
    reader: R,
    faults: u64,
}

impl<R: Read> RealSource<R> {
    /// A source over this reader, with no fault yet.
    pub fn new(reader: R) -> RealSource<R>
        ensures left { ⟦<RealSource<R> as Source>⟧.left result ≡ R.remaining reader }
        ensures no_fault { ⟦<RealSource<R> as Source>⟧.faults result ≡ 0 }
    {
        RealSource { reader, faults: 0 }
    }
}

impl<R: Read> Source for RealSource<R> {
    ghost left = { λ s. R.remaining s.reader };

    ghost faults = { λ s. s.faults };

    fn read(&mut self, buf: &mut [u8]) -> Result<usize, Failed> {
        match self.reader.read(buf) {
            Ok(count) => Ok(count),
            Err(_) => {
                count_one(&mut self.faults);
                Err(Failed)
            }
        }
    }
}
