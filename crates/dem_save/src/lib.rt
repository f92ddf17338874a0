//! A saved frame of a scene, read as a state that a run goes on from, and the rest of that run.
//!
//! `load` reads a frame and checks it against the scene, `rest` makes the run from a state and writes what follows its frame;
//! `fit_law`, `load_law` and `rows_law` are laws that callers may cite. Means: `Fit`, `Plain` and `Output` of dem_model, and `Loaded` here. Callers rest on: `load`
//! gives the state exactly where it is fit for the scene, else the first fault with its row, clump or place; the rest is that of the run
//! from the state; each state of a scene's run is fit, and its frame loads as that state. Takes memory: `load` and `rest`.
//! Not here: rows (dem_frame), the run (dem_plain), what is written while it is made (dem_output).
#![tactic(auto)]

mod bodies;
mod fault;
mod laws;
mod loading;
mod resting;

pub use fault::{RestFault, SaveFault};
pub use laws::{fit_law, load_law, rows_law};
pub use loading::load;
pub use resting::rest;
