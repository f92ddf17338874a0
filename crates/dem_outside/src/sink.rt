//! Where the text of a job goes.
ghost use Rattle.std.specs.Prelude.{ℕ, List, Option};
ghost use Rattle.dem_outside.specs.Faults.{Counts};
ghost use Rattle.dem_outside.specs.Known.{PutAppends};

use crate::failed::Failed;

/// A sink of bytes whose puts may fail.
pub trait Sink {
    /// The bytes that the sink holds, where it tells them.
    ghost held: { Self → Option (List ℕ) };

    /// How many puts have failed.
    ghost faults: { Self → ℕ };

    /// Appends the piece, or fails behind a prefix of it.
    fn put(&mut self, piece: &[u8]) -> Result<(), Failed>
        ensures count { Counts (faults self.old) (faults self.new) result }
        ensures appended { PutAppends (held self.old) (held self.new) result piece.now };
}
