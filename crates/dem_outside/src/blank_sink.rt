//! A sink that takes every piece and keeps nothing.
ghost use Rattle.std.specs.Prelude.{None, IsOk};
ghost use Rattle.dem_outside.specs.Faults.{Counts};

use crate::failed::Failed;
use crate::sink::Sink;

/// Takes every piece, tells nothing, and never fails.
#[derive(Clone, Copy, Debug, Default, PartialEq, Eq)]
pub struct BlankSink;

impl Sink for BlankSink {
    ghost held = { λ _. None };

    ghost faults = { λ _. 0 };

    fn put(&mut self, _piece: &[u8]) -> Result<(), Failed>
        ensures taken { IsOk result }
    {
        Ok(())
    }
}
