//! What a job comes to, and what it then puts on `note`.
ghost use Rattle.std.specs.Prelude.{◌≡◌};
ghost use Rattle.dem_outside.specs.Change.{change};
ghost use Rattle.dem_jobs.specs.Refusals.{outcome_status as outcome_status_of};
ghost use Rattle.dem_jobs.specs.Parts.{read_stop, scene_stop, run_stop, bin_stop, pack_stop, save_stop, rest_stop, look_stop, world_stop, run_outcome, Tells};
ghost use Rattle.dem_jobs.specs.declared.outcome.NotDone.TheVariants as stops;

use crate::reading::ReadFault;
use crate::refusal::{Refusal, put_line, refuse};
use crate::status::{OUT_OF_MEMORY, READ_FAILED, WRITE_FAILED};
use dem_bins::BinTooSmall;
use dem_core::WorldStop;
use dem_look::LookFault;
use dem_model::{Last, OutOfMemory};
use dem_output::RunFault;
use dem_outside::{Failed, Sink};
use dem_pack::PackFault;
use dem_save::{RestFault, SaveFault};
use dem_scene::SceneFault;

/// How a job ended that was done.
#[derive(Clone, Copy, PartialEq, Debug)]
pub enum Outcome {
    /// The last step was reached.
    Reached,
    /// A limit was passed.
    Passed,
    /// The rows aren't the output.
    Differs,
}

/// Why a job wasn't done.
#[derive(Clone, Copy, PartialEq, Debug)]
pub enum NotDone {
    Refused(Refusal),
    ReadFailed,
    WriteFailed,
    OutOfMemory,
}

impl From<Last> for Outcome {
    ghost from_gives = { λ last o. o ≡ run_outcome last };

    fn from(last: Last) -> Outcome {
        match last {
            Last::Done { .. } => Outcome::Reached,
            Last::Passed(_) => Outcome::Passed,
        }
    }
}

impl From<ReadFault> for NotDone {
    ghost from_gives = { λ f s. s ≡ read_stop f };

    fn from(fault: ReadFault) -> NotDone {
        match fault {
            ReadFault::Failed => NotDone::ReadFailed,
            ReadFault::OutOfMemory => NotDone::OutOfMemory,
        }
    }
}

impl From<SceneFault> for NotDone {
    ghost from_gives = { λ f s. s ≡ scene_stop f };

    fn from(fault: SceneFault) -> NotDone {
        match fault {
            SceneFault::OutOfMemory => NotDone::OutOfMemory,
            _ => NotDone::Refused(Refusal::Scene(fault)),
        }
    }
}

impl From<RunFault> for NotDone {
    ghost from_gives = { λ f s. s ≡ run_stop f };

    fn from(fault: RunFault) -> NotDone {
        match fault {
            RunFault::WriteFault => NotDone::WriteFailed,
            RunFault::OutOfMemory => NotDone::OutOfMemory,
        }
    }
}

impl From<BinTooSmall> for NotDone {
    ghost from_gives = { λ f s. s ≡ bin_stop f };

    fn from(fault: BinTooSmall) -> NotDone {
        NotDone::Refused(Refusal::Bin(fault.cells))
    }
}

impl From<PackFault> for NotDone {
    ghost from_gives = { λ f s. s ≡ pack_stop f };

    fn from(fault: PackFault) -> NotDone {
        match fault {
            PackFault::OutOfMemory => NotDone::OutOfMemory,
            _ => NotDone::Refused(Refusal::Pack(fault)),
        }
    }
}

impl From<SaveFault> for NotDone {
    ghost from_gives = { λ f s. s ≡ save_stop f };

    fn from(fault: SaveFault) -> NotDone {
        match fault {
            SaveFault::OutOfMemory => NotDone::OutOfMemory,
            _ => NotDone::Refused(Refusal::Frame(fault)),
        }
    }
}

impl From<RestFault> for NotDone {
    ghost from_gives = { λ f s. s ≡ rest_stop f };

    fn from(fault: RestFault) -> NotDone {
        match fault {
            RestFault::WriteFault => NotDone::WriteFailed,
            RestFault::OutOfMemory => NotDone::OutOfMemory,
        }
    }
}

impl From<LookFault> for NotDone {
    ghost from_gives = { λ f s. s ≡ look_stop f };

    fn from(fault: LookFault) -> NotDone {
        match fault {
            LookFault::WriteFault => NotDone::WriteFailed,
            LookFault::OutOfMemory => NotDone::OutOfMemory,
        }
    }
}

impl From<WorldStop> for NotDone {
    ghost from_gives = { λ f s. s ≡ world_stop f };

    fn from(stop: WorldStop) -> NotDone {
        match stop {
            WorldStop::WriteFault => NotDone::WriteFailed,
            WorldStop::OutOfMemory => NotDone::OutOfMemory,
        }
    }
}

impl From<Failed> for NotDone {
    ghost from_gives = { λ _ s. s ≡ stops.WriteFailed };

    fn from(_: Failed) -> NotDone {
        NotDone::WriteFailed
    }
}

impl From<OutOfMemory> for NotDone {
    ghost from_gives = { λ _ s. s ≡ stops.OutOfMemory };

    fn from(_: OutOfMemory) -> NotDone {
        NotDone::OutOfMemory
    }
}

const READ_FAILED_LINE: &[u8] = b"read failed\n";

// The status of a job that was done.
fn outcome_status(outcome: Outcome) -> u8
    ensures { result ≡ outcome_status_of outcome }
{
    match outcome {
        Outcome::Reached => 0,
        Outcome::Passed => 3,
        Outcome::Differs => 7,
    }
}

/// Puts the line of what a job came to, where it has one, and answers its status.
pub fn tell<N: Sink>(done: Result<Outcome, NotDone>, note: &mut N) -> u8
    ensures { Tells done (change N.held N.faults note.old note.new) result }
{
    match done {
        Ok(outcome) => outcome_status(outcome),
        Err(NotDone::Refused(refusal)) => refuse(refusal, note),
        Err(NotDone::ReadFailed) => put_line(READ_FAILED_LINE, READ_FAILED, note),
        Err(NotDone::WriteFailed) => WRITE_FAILED,
        Err(NotDone::OutOfMemory) => OUT_OF_MEMORY,
    }
}
