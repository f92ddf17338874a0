//! The output of a scene, written to a sink while its plain run is made.
//!
//! `write_run` makes the run and writes the frames that are due and the end row, each row as it comes; `write_rest` goes on with a run
//! to its end, and writes what follows the frame of its state. Means: `output_of`, `last_of`, `rest_of` and `last_after` of dem_model.
//! Callers rest on: on Ok the sink gained exactly that text and the answer is how the run ends; on a fault it gained a prefix of the
//! text; what follows a frame of the output is the rest from its state (`rest_law`). Takes memory: `write_run` and `write_rest`, that
//! of the run; no row is kept.
#![tactic(auto)]

mod laws;
mod running;

pub use laws::rest_law;
pub use running::{RunFault, is_due, write_rest, write_run};
