//! A run read without its frames: a row of values for each frame that is due, and the end row.
//!
//! `look` makes the plain run of a scene and writes these rows as they come; a `Looker` sees states that are shown to it, one
//! after the other. Means: `Look` of dem_model. Callers rest on: on Ok the sink gained exactly `looked_at` and the answer is how
//! the run ends, on a fault it gained a prefix; `see` answers what is seen of a state and of the one that was shown before it.
//! Takes memory: `Looker::new` and `look`, no row is kept. Not here: the run (dem_plain), which frames are due (dem_output).
#![tactic(auto)]

mod contacts;
mod heights;
mod looker;
mod looking;
mod middle;
mod motion;
mod writing;

pub use dem_model::LookRow;
pub use looker::Looker;
pub use looking::{LookFault, look};
