//! An order: the mode and the numbers that a command line asks for.
ghost use Rattle.std.specs.Prelude.{◌≡◌};
ghost use Rattle.dem_words.specs.declared.order.WordFault.TheVariants as faults;

use dem_model::{List, OutOfMemory, Turn};
use std::alloc::AllocError;
use std::marker::Model;

/// The greatest drift limit, in steps.
pub const MAX_DRIFT: u64 = 1024;

/// The greatest edge of a bin, in u.
pub const MAX_BIN: u64 = 1 << 38;

/// The greatest number of clumps of a made or packed scene.
pub const MAX_COUNT: u64 = 16_384;

/// What the program is asked to do.
#[derive(Clone, Copy, PartialEq, Debug)]
pub enum Mode {
    /// The plain run of a scene.
    Plain,
    /// A run with given turns, on one thread.
    Sched,
    /// A run on two threads.
    Run,
    /// Rows compared with the output of a scene.
    Check,
    /// A summary of the run of a made scene.
    Gen,
    /// A run of a scene that goes on from a frame: from any rows that are fit for the scene.
    Resume,
    /// A row of values for each frame of a run.
    Look,
    /// A packing.
    Pack,
}

/// All that a command line asks for. Each Order's numbers are in their ranges.
#[derive(Drop)]
pub struct Order {
    pub mode: Mode,
    /// How many steps a list of near pairs may be old, 0 to 1024.
    pub drift: u32,
    /// The edge of a bin in u, 0 to 2^38; at 0 it is the greatest reach.
    pub bin: u64,
    /// The turns that are made first.
    pub turns: List<Turn>,
    /// What the words of a made scene start from.
    pub seed: u64,
    /// The number of clumps of a made or packed scene, 1 to 16,384.
    pub count: u32,
    /// Whether the taken lists and the tests are noted.
    pub report: bool,
    /// Whether forces are computed by several threads.
    pub split: bool,
}

impl Model for Order {
    ghost use Rattle.dem_words.specs.Orders.{OrderValue, IsOrder};

    ghost Value = { OrderValue };

    ghost view = { λ a. record {
      mode = a.mode;
      drift = a.drift;
      bin = a.bin;
      turns = a.turns;
      seed = a.seed;
      count = a.count;
      report = a.report;
      split = a.split;
    } };

    ghost invariant = { λ a. IsOrder (record {
      mode = a.mode;
      drift = a.drift;
      bin = a.bin;
      turns = a.turns;
      seed = a.seed;
      count = a.count;
      report = a.report;
      split = a.split;
    }) };
}

/// Why no order was read.
#[derive(Clone, Copy, PartialEq, Debug)]
pub enum WordFault {
    /// The words are no good.
    Usage,
    /// There was no memory.
    OutOfMemory,
}

impl From<AllocError> for WordFault {
    ghost from_gives = { λ _ f. f ≡ faults.OutOfMemory };

    fn from(_error: AllocError) -> WordFault {
        WordFault::OutOfMemory
    }
}

impl From<OutOfMemory> for WordFault {
    ghost from_gives = { λ _ f. f ≡ faults.OutOfMemory };

    fn from(_error: OutOfMemory) -> WordFault {
        WordFault::OutOfMemory
    }
}
