//! Rows compared with the output of a scene, while its plain run is made.
//!
//! `check` makes the run and compares what it writes with a text as it comes; the run ends at the first row that differs. Means:
//! `Checks` of specs, over `output_of` of dem_model. Callers rest on: Same exactly where the text is the output, else the
//! first row that differs, with both rows. Takes memory: `check`, that of the run and of one row. Not here: where the rows
//! come from, and what is printed of the verdict (dem_top).
#![tactic(auto)]

mod bytes;
mod checking;
mod comparing;
mod rows;
mod verdict;

pub use checking::check;
pub use verdict::{Line, Verdict};
