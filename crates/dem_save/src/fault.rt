//! Why a saved frame is not taken, and why the rest of a run stopped.
ghost use Rattle.std.specs.Prelude.{◌≡◌};
ghost use Rattle.dem_save.specs.declared.fault.RestFault.TheVariants as rests;

use dem_model::OutOfMemory;

/// Why a text is no state of the scene; the first fault counts, in this order.
#[derive(Clone, Copy, PartialEq, Debug)]
pub enum SaveFault {
    /// The row of this number, from 1, is the first that no good frame has there.
    Bad { row: u32 },
    /// All of so many rows are good, and the head or a clump is missing.
    Short { rows: u32 },
    /// The state comes after the last step.
    Step,
    /// The body of this clump is the first that is over a limit, of another length, or outside the box.
    Body { clump: u32 },
    /// What is held at this place, from 0, is the first of a pair that may not touch.
    Held { place: u32 },
    OutOfMemory,
}

/// Why a run stopped before its rest was written.
#[derive(Clone, Copy, PartialEq, Debug)]
pub enum RestFault {
    WriteFault,
    OutOfMemory,
}

impl From<OutOfMemory> for RestFault {
    ghost from_gives = { λ _ f. f ≡ rests.OutOfMemory };

    fn from(_fault: OutOfMemory) -> RestFault {
        RestFault::OutOfMemory
    }
}
