//! Why a step wasn't made.

use dem_model::{End, OutOfMemory};

/// Why the plain run stands still: the step passes a limit, or memory was refused.
#[derive(Clone, Copy, PartialEq, Debug)]
pub enum Stop {
    /// The step of this state passes a limit.
    Ended(End),
    /// Memory was refused; the caller may try the same step again.
    OutOfMemory,
}

impl From<OutOfMemory> for Stop {
    ghost use Rattle.std.specs.Prelude.{◌≡◌};
    ghost use Rattle.dem_plain.specs.declared.stop.Stop.TheVariants.{OutOfMemory as no_memory};

    ghost from_gives = { λ _ r. r ≡ no_memory };

    fn from(_: OutOfMemory) -> Stop {
        Stop::OutOfMemory
    }
}
