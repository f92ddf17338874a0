//! What a turn came to, and why one wasn't made.

use dem_frame::WriteFault;
use dem_model::{Last, OutOfMemory};
use dem_output::RunFault;

/// What a turn came to.
#[derive(Clone, Copy, PartialEq, Debug)]
pub enum Did {
    /// The turn was made, and the run goes on.
    Moved,
    /// The world may not take this turn; nothing has changed.
    Idle,
    /// The turn was made, and wrote the end row: the run has ended so.
    Closed(Last),
}

/// Why a turn wasn't made, or not to its end.
#[derive(Clone, Copy, PartialEq, Debug)]
pub enum WorldStop {
    /// A sink failed in this call; the world is stopped.
    WriteFault,
    /// Memory was refused; the world is as before the turn.
    OutOfMemory,
}

impl From<WriteFault> for WorldStop {
    ghost use Rattle.std.specs.Prelude.{◌≡◌};
    ghost use Rattle.dem_core.specs.declared.did.WorldStop.TheVariants.{WriteFault as write_fault};

    ghost from_gives = { λ _ r. r ≡ write_fault };

    fn from(_: WriteFault) -> WorldStop {
        WorldStop::WriteFault
    }
}

impl From<OutOfMemory> for WorldStop {
    ghost use Rattle.std.specs.Prelude.{◌≡◌};
    ghost use Rattle.dem_core.specs.declared.did.WorldStop.TheVariants.{OutOfMemory as no_memory};

    ghost from_gives = { λ _ r. r ≡ no_memory };

    fn from(_: OutOfMemory) -> WorldStop {
        WorldStop::OutOfMemory
    }
}

impl From<WorldStop> for RunFault {
    ghost use Rattle.std.specs.Prelude.{◌≡◌};
    ghost use Rattle.dem_core.specs.Courses.{fault_of};

    ghost from_gives = { λ w f. f ≡ fault_of w };

    fn from(stop: WorldStop) -> RunFault {
        match stop {
            WorldStop::WriteFault => RunFault::WriteFault,
            WorldStop::OutOfMemory => RunFault::OutOfMemory,
        }
    }
}
