//! The rows of the program: frames, ends, taken lists and counts of tests, written to a sink, and a frame read back.
//!
//! `write_head`, `write_clump`, `write_pair`, `write_end`, `write_taken` and `write_tests` write one row each, `write_state`
//! a frame; `read_frame` reads one, and `read_number` a number of a record. A row of another kind is built by `row::add` and
//! `row::add_number`, and put by `row::put`. Means: `Frames` of dem_model, and `PartialFrames` here for reading. Callers rest on: Ok appended
//! exactly the text; WriteFault comes exactly where the sink's count of faults rose, and then a prefix of the text was
//! appended; `Bad` names the first record that no good frame has there. Takes memory: `read_frame`.
//! Not here: which frames a run writes (dem_plain, dem_core), sinks (dem_outside).
#![tactic(auto)]

mod number;
mod partial;
mod read;
mod records;
pub mod row;
mod rows;
mod state;

pub use number::read_number;
pub use partial::FrameFault;
pub use read::read_frame;
pub use row::WriteFault;
pub use rows::{write_clump, write_end, write_head, write_pair, write_taken, write_tests};
pub use state::write_state;
