//! A sink over a writer of std.
ghost use Rattle.std.specs.Prelude.{◌≡◌};

use crate::failed::{Failed, count_one};
use crate::sink::Sink;
use std::io::Write;

/// Writes to `writer`; each of its errors is a fault, and so is a write that takes nothing.
#[derive(Drop)]
pub struct RealSink<W> {
    writer: W,
    faults: u64,
}

impl<W: Write> RealSink<W> {
    /// A sink over this writer, with no fault yet.
    pub fn new(writer: W) -> RealSink<W>
        ensures held { ⟦<RealSink<W> as Sink>⟧.held result ≡ W.contents writer }
        ensures no_fault { ⟦<RealSink<W> as Sink>⟧.faults result ≡ 0 }
    {
        RealSink { writer, faults: 0 }
    }

    /// The writer back, as the puts left it.
    pub fn into_writer(self) -> W
        ensures { W.contents result ≡ ⟦<RealSink<W> as Sink>⟧.held self }
    {
        self.writer
    }
}

impl<W: Write> Sink for RealSink<W> {
    ghost held = { λ s. W.contents s.writer };

    ghost faults = { λ s. s.faults };

    fn put(&mut self, piece: &[u8]) -> Result<(), Failed> {
        let mut rest = piece;
        while !rest.is_empty() {
            match self.writer.write(rest) {
                Ok(count) if count > 0 => rest = &rest[count..],
                _ => {
                    count_one(&mut self.faults);
                    return Err(Failed);
                }
            }
        }
        Ok(())
    }
}
