//! Where the bytes of a job come from.
ghost use Rattle.std.specs.Prelude.{ℕ, List, Option, ◌<◌, ◌≤◌, length, IfOk};
ghost use Rattle.std.specs.Io.KnownBytes.{ReadConsumes};
ghost use Rattle.dem_outside.specs.Faults.{Counts};

use crate::failed::Failed;

/// A source of bytes whose reads may fail.
pub trait Source {
    /// The bytes that are left, where the source tells them.
    ghost left: { Self → Option (List ℕ) };

    /// How many reads have failed.
    ghost faults: { Self → ℕ };

    /// Moves the first bytes of what is left to the beginning of `buf`, and answers how many; none only at the end.
    fn read(&mut self, buf: &mut [u8]) -> Result<usize, Failed>
        requires { 0 < length buf.old }
        ensures count { Counts (faults self.old) (faults self.new) result }
        ensures within { IfOk result (λ n. n ≤ length buf.old) }
        ensures taken { ReadConsumes (left self.old) (left self.new) result buf.new };
}
